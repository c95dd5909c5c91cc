//! The next file, which is brought to the disk before it takes the log's place.

use crate::crashes::play_on;
use crate::live::Live;
use crate::playing::keeper_of;
use std::alloc::Global;
use std::test::Fail;
use zq_keeper::KeeperFault;
use zq_wal::WalError;

/// The steps of a switch, up to the last one before it is published.
const SWITCHES: [&str; 4] = ["b12rs", "b12rsx1r", "b12rsxx3rx", "b12rj34sx5rxx"];

/// More calls of the disk than a script takes.
const MANY: u64 = 1_000;

/// What a crash leaves after a script, where nothing stays that is not on the disk: of the log, and
/// of the next file. And how long the next file is.
fn left_after(alloc: Global, script: &str) -> Result<(Vec<u8>, Vec<u8>, usize), Fail> {
    let mut live = Live::new(alloc)?;
    let keeper = keeper_of(alloc, &[], MANY)?;
    let (keeper, fault, _) = play_on(alloc, keeper, &mut live, script)?;
    if fault.is_some() {
        return Err("a step fails".into());
    }
    let disk = &keeper.wal.disk;
    let next = disk.next.torn(alloc, &[])?;
    let length = disk.next.contents(alloc)?.len();
    Ok((disk.crash(None, &[])?, next, length))
}

// What was flushed is of no use before it is published: the log is what it was.
#[test]
fn all_of_the_next_file_is_on_the_disk_once_it_is_flushed(rt: HostRuntime) -> Result<(), Fail> {
    let alloc = rt.alloc();
    for script in SWITCHES {
        let (log, left, length) = left_after(alloc, script)?;
        assert!(rt; left.len() < length, "{script}");
        let flushed = format!(in alloc; "{script}f")?;
        let (same, whole, length) = left_after(alloc, &flushed)?;
        assert!(rt; whole.len() == length, "{script}");
        assert!(rt; same == log, "{script}");
    }
    Ok(())
}

/// How many calls of the disk a script takes.
fn calls_of(alloc: Global, script: &str) -> Result<u64, Fail> {
    let mut live = Live::new(alloc)?;
    let keeper = keeper_of(alloc, &[], MANY)?;
    let before = keeper.wal.disk.calls;
    let (keeper, fault, _) = play_on(alloc, keeper, &mut live, script)?;
    if fault.is_some() {
        return Err("a step fails".into());
    }
    Ok(before.saturating_sub(keeper.wal.disk.calls))
}

#[test]
fn a_keeper_stops_that_cannot_flush(rt: HostRuntime) -> Result<(), Fail> {
    let alloc = rt.alloc();
    for script in SWITCHES {
        let calls = calls_of(alloc, script)?;
        let mut live = Live::new(alloc)?;
        let keeper = keeper_of(alloc, &[], calls)?;
        let (keeper, fault, told) = play_on(alloc, keeper, &mut live, script)?;
        assert!(rt; fault.is_none(), "{script}");
        let (keeper, fault, after) = play_on(alloc, keeper, &mut live, "f")?;
        assert!(rt;
            fault == Some(KeeperFault::Failed(WalError::Failed)),
            "{script}"
        );
        assert!(rt; after == told, "{script}");
        let (_, fault, _) = play_on(alloc, keeper, &mut live, "f")?;
        assert!(rt; fault == Some(KeeperFault::Stopped), "{script}");
    }
    Ok(())
}
