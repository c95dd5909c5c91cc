//! What is read again of what a crash leaves, at each call of each script.

ghost use Rattle.std.specs.Prelude.{IfOk};
ghost use Rattle.zq_keeper.specs.Keeper.{GoesOn};

use crate::live::{HEAPS, Live, identity};
use crate::playing::{FOLDER, keeper_of, step};
use std::alloc::{AllocError, Global};
use std::process::Abort;
use std::test::Fail;
use zq_dots::SiteNo;
use zq_keeper::{Keeper, KeeperFault, Reader};
use zq_posheap::Seeded;
use zq_wal::{Disk, MemoryDisk, MemorySource, read_records};

/// Scripts in which heaps jump: before a switch, in it before their pieces and behind them, both, with
/// rounds of them and of the others between, and with a switch that is begun anew.
const JUMPS: &str = "\
b12rj34sxxxxxxxxxxxx5r
b12345rjsx1rx12rx3rx14rx5rxxxxxxxx12345rt
b12345rjk12sx1rx12r3rtx14rx5rxxxxxxxx12345r
b12345rsx1rk2sx3rx14rx5rxxxxxxxxxx12345r
b12345rsj1x2rx3rxx5rxxxxxxxxxx12345r
b12345rsxxxj1s2xx3rxxx4rxxxxxxxxxx5r
jbk1sxx1rxxxxxxxxt";

/// What a script did before it was broken off.
#[derive(Drop)]
struct Played {
    disk: MemoryDisk,
    live: Live,
    /// What was told as durable of each heap.
    told: Vec<u64>,
    /// Whether a switch was going on.
    switching: bool,
    /// Why it was broken off.
    fault: Option<KeeperFault>,
}

/// What is told of each heap.
fn told_of<D: Disk>(alloc: Global, keeper: &Keeper<D>) -> Result<Vec<u64>, AllocError> {
    let mut told = Vec::new(alloc);
    for heap in 0..HEAPS {
        told.push(keeper.durable(heap))?;
    }
    Ok(told)
}

/// Plays a script over an empty log, on a disk that does so many calls.
fn play(alloc: Global, script: &str, calls: u64) -> Result<Played, Fail> {
    let mut live = Live::new(alloc)?;
    let keeper = keeper_of(alloc, &[], calls)?;
    let (keeper, fault, told) = play_on(alloc, keeper, &mut live, script)?;
    let switching = keeper.next.is_some();
    Ok(Played {
        disk: keeper.wal.disk,
        live,
        told,
        switching,
        fault,
    })
}

/// Plays a script up to the first fault.
pub(crate) fn play_on<D: Disk + Drop>(
    alloc: Global,
    mut keeper: Keeper<D>,
    live: &mut Live,
    script: &str,
) -> Result<(Keeper<D>, Option<KeeperFault>, Vec<u64>), Fail>
    requires { GoesOn D.seen D.staged D.may_leave keeper }
    ensures { IfOk result (λ x. GoesOn D.seen D.staged D.may_leave x.0) }
{
    let mut fault = None;
    for number in 0..script.len() {
        let Some(word) = script.as_bytes().get(number) else {
            break;
        };
        if let Err(its) = step(alloc, &mut keeper, live, *word, number as i64)? {
            fault = Some(its);
            break;
        }
    }
    let told = told_of(alloc, &keeper)?;
    Ok((keeper, fault, told))
}

/// What is kept of bytes that are not synced: none of them, all, the first ones, or each other one.
fn tear(alloc: Global, number: u8) -> Result<Vec<bool>, AllocError> {
    let mut kept = Vec::new(alloc);
    let many = match number {
        0 => 0,
        1 => 37,
        _ => 5_000,
    };
    for at in 0..many {
        kept.push(number != 3 || at % 2 == 0)?;
    }
    Ok(kept)
}

/// What a crash leaves is read as heaps that were, with all that was told.
fn check_left(rt: &impl Abort, alloc: Global, played: &Played, left: &[u8]) -> Result<(), Fail> {
    let site = SiteNo::new(0).ok_or("a site")?;
    let mut source = MemorySource::new(left.to_vec(alloc)?, 100, u64::MAX);
    let mut reader = Reader::new(alloc, identity()?, Seeded::new(1))?;
    read_records(alloc, &mut source, &mut reader)?;
    for heap in 0..HEAPS {
        let stage = reader.recovery.stages.get(heap as usize).ok_or("a stage")?;
        let told = played.told.get(heap as usize).ok_or("a counter")?;
        assert!(rt; *told <= stage.vector().get(site), "heap {heap}");
        assert!(rt; stage.is_whole(), "heap {heap}");
        assert!(rt; played.live.was(stage.held()), "heap {heap}");
    }
    Ok(())
}

/// A keeper goes on over what a crash leaves: its start has a higher number, and what it makes is
/// read again.
fn check_on(rt: &impl Abort, alloc: Global, left: &[u8]) -> Result<(), Fail> {
    let mut keeper = keeper_of(alloc, left, u64::MAX)?;
    let before = match &keeper.start {
        Some(start) => start.number,
        None => 0,
    };
    let number = match keeper.begin(alloc, FOLDER) {
        Ok(number) => number,
        Err(_) => return Err("a start".into()),
    };
    assert!(rt; before < number);
    let again = keeper_of(alloc, &keeper.wal.disk.crash(None, &[])?, u64::MAX)?;
    let start = again.start.ok_or("a start")?;
    assert!(rt; start.number == number && start.folder == FOLDER);
    Ok(())
}

/// All that a crash may leave here.
fn check_played(rt: &impl Abort, alloc: Global, played: &Played) -> Result<(), Fail> {
    for number in 0..4 {
        let kept = tear(alloc, number)?;
        for elder in 0..=played.disk.elders.len() {
            let left = played.disk.crash(Some(elder), &kept)?;
            check_left(rt, alloc, played, &left)?;
        }
    }
    check_on(rt, alloc, &played.disk.crash(Some(0), &[])?)
}

/// All that was made is told.
fn check_all_told(rt: &impl Abort, played: &Played, script: &str) -> Result<(), Fail> {
    for heap in 0..HEAPS {
        let told = played.told.get(heap as usize).ok_or("a counter")?;
        let made = played.live.made(heap)?;
        assert!(rt; *told == made, "{script}: {told} of {made} of heap {heap}");
    }
    Ok(())
}

/// Plays a script that is broken off at the call of this number, and says whether it came to its
/// end before.
fn check_cut(rt: &impl Abort, alloc: Global, script: &str, calls: u64) -> Result<bool, Fail> {
    let played = play(alloc, script, calls)?;
    check_played(rt, alloc, &played)?;
    match played.fault {
        None => {
            assert!(rt; !played.switching, "{script}");
            check_all_told(rt, &played, script)?;
            Ok(true)
        }
        Some(KeeperFault::Failed(_)) => Ok(false),
        Some(_) => Err("a step is refused".into()),
    }
}

/// A script, as words of `step`, is broken off at each of its calls in turn.
fn check_script(rt: &impl Abort, alloc: Global, script: &str) -> Result<(), Fail> {
    for calls in 0..200 {
        if check_cut(rt, alloc, script, calls)? {
            return Ok(());
        }
    }
    Err("the script does not end".into())
}

#[test]
fn rounds_and_rests_are_read_again(rt: HostRuntime) -> Result<(), Fail> {
    check_script(&rt, rt.alloc(), "b1r23rtt1r")
}

#[test]
fn a_switch_with_operations_between_its_steps_is_read_again(rt: HostRuntime) -> Result<(), Fail> {
    check_script(&rt, rt.alloc(), "b12rsx1rx3rxxxxxx4r")
}

#[test]
fn a_next_file_that_is_flushed_on_its_way_is_read_again(rt: HostRuntime) -> Result<(), Fail> {
    check_script(&rt, rt.alloc(), "b12rsfx1rfx3rfxffxxxx4r")
}

#[test]
fn heaps_that_jumped_are_read_again(rt: HostRuntime) -> Result<(), Fail> {
    for script in JUMPS.lines() {
        check_script(&rt, rt.alloc(), script)?;
    }
    Ok(())
}

#[test]
fn a_switch_of_empty_heaps_is_read_again(rt: HostRuntime) -> Result<(), Fail> {
    check_script(&rt, rt.alloc(), "bsxxxxx1r")
}

#[test]
fn a_switch_that_is_begun_anew_is_read_again(rt: HostRuntime) -> Result<(), Fail> {
    check_script(&rt, rt.alloc(), "b1rsxstxxxxxx")
}
