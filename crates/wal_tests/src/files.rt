//! A log on real files, in a folder below that in which the test runs.

ghost use Rattle.std.specs.Prelude.{◌≡◌, [], IfOk, IfSome};
ghost use Rattle.zq_wal.specs.Wal.{IsLog};
ghost use Rattle.zq_wal_file.specs.FileDisk.{given_of};

use crate::scripts::play;
use crate::taken::Taken;
use std::fs;
use std::os::unix::fs::symlink;
use std::process::Abort;
use std::test::Fail;
use zq_wal::{Disk, Wal, WalError, read_records, reopen};
use zq_wal_file::{FileDisk, FileFault, FoundLog, OpenFault, open};

type Log<'a> = FoundLog<&'a HostRuntime>;

type Files<'a> = FileDisk<&'a HostRuntime>;

/// Opens the log of a folder, of which nothing was read yet.
fn log_of<'a>(rt: &'a HostRuntime, folder: &str) -> Result<Result<Log<'a>, OpenFault>, Fail>
    ensures { IfOk result (λ opened. IfOk opened (λ log. given_of log ≡ [])) }
{
    let log_path = format!(in rt.alloc(); "{folder}/log")?;
    let next_path = format!(in rt.alloc(); "{folder}/log.next")?;
    Ok(open(rt, folder, log_path, next_path, 2))
}

/// What a start finds: the log, and the bodies that were read of it, each with a comma behind it;
/// or `None` where it is damaged.
fn found<'a>(rt: &'a HostRuntime, folder: &str) -> Result<Option<(Wal<Files<'a>>, Vec<u8>)>, Fail>
    ensures { IfOk result (λ found. IfSome found (λ x. IsLog
        ⟦<Files<'a> as Disk>⟧.seen ⟦<Files<'a> as Disk>⟧.staged
        ⟦<Files<'a> as Disk>⟧.may_leave x.0)) }
{
    let mut log = log_of(rt, folder)??;
    let mut taken = Taken {
        text: Vec::new(rt.alloc()),
        most: u64::MAX,
    };
    let found = match read_records(rt.alloc(), &mut log, &mut taken) {
        Ok(found) => found,
        Err(WalError::Corrupt) => return Ok(None),
        Err(_) => return Err("the log is not read".into()),
    };
    match reopen(found, log.into_disk()) {
        Ok(log) => Ok(Some((log, taken.text))),
        Err(_) => Err("the log is not opened".into()),
    }
}

/// What a start reads, which then plays a script; `x` where the log is damaged.
fn start(rt: &HostRuntime, folder: &str, script: &str) -> Result<Vec<u8>, Fail> {
    match found(rt, folder)? {
        Some((log, text)) => {
            play(rt.alloc(), log, script);
            Ok(text)
        }
        None => Ok(Vec::from_slice(rt.alloc(), b"x")?),
    }
}

#[test]
fn each_start_reads_what_was_committed(rt: HostRuntime) -> Result<(), Fail> {
    let folder = "committed";
    fs::create_dir(&rt, folder)?;
    fs::write(&rt, "committed/log.next", b"left over".as_slice())?;
    let rows = [
        ("cone ctwo", ""),
        ("b nthree f nfour f p cfive", "one,two,"),
        ("b nlost f", "three,four,five,"),
        ("asix s", "three,four,five,"),
        ("b p", "three,four,five,six,"),
        ("", ""),
    ];
    for (script, expected) in rows {
        let read = start(&rt, folder, script)?;
        assert!(rt; read.as_slice() == expected.as_bytes());
        assert!(rt; fs::exists(&rt, "committed/log.next")? == (script == "b nlost f"));
    }
    Ok(())
}

#[test]
fn zeros_are_ahead_and_damage_is_told(rt: HostRuntime) -> Result<(), Fail> {
    let folder = "damaged";
    fs::create_dir(&rt, folder)?;
    start(&rt, folder, "cone ctwo")?;
    let mut bytes = fs::read(&rt, "damaged/log")?;
    assert!(rt; bytes.len() == 1 << 17);
    assert!(rt; bytes[100..].iter().all(|byte| *byte == 0));
    bytes[3] ^= 1;
    fs::write(&rt, "damaged/log", bytes.as_slice())?;
    assert!(rt; start(&rt, folder, "cmore")?.as_slice() == b"x".as_slice());
    assert!(rt; fs::read(&rt, "damaged/log")? == bytes);
    Ok(())
}

#[test]
fn room_is_ahead_and_what_is_read_stays(rt: HostRuntime) -> Result<(), Fail> {
    let folder = "roomy";
    fs::create_dir(&rt, folder)?;
    let rows = [
        ("cone r ctwo R", "", 1 << 18),
        ("R b nthree f r nfour R p cfive", "one,two,", 1 << 20),
        ("R r b", "three,four,five,", 0),
        ("", "three,four,five,", 0),
    ];
    for (script, expected, length) in rows {
        let read = start(&rt, folder, script)?;
        assert!(rt; read.as_slice() == expected.as_bytes(), "{script}");
        let bytes = fs::read(&rt, "roomy/log")?;
        assert!(rt; length == 0 || bytes.len() == length, "{script}");
    }
    Ok(())
}

#[test]
fn a_folder_that_is_used_is_not_opened(rt: HostRuntime) -> Result<(), Fail> {
    let folder = "used";
    assert!(rt; matches!(log_of(&rt, folder)?, Err(OpenFault::Io(_))));
    fs::create_dir(&rt, folder)?;
    let first = log_of(&rt, folder)??;
    assert!(rt; matches!(log_of(&rt, folder)?, Err(OpenFault::Busy)));
    drop(first);
    assert!(rt; log_of(&rt, folder)?.is_ok());
    Ok(())
}

#[test]
fn what_is_no_file_of_its_own_is_not_opened(rt: HostRuntime) -> Result<(), Fail> {
    fs::create_dir(&rt, "linked")?;
    fs::write(&rt, "other", b"kept".as_slice())?;
    symlink(&rt, "../other", "linked/log")?;
    assert!(rt; matches!(log_of(&rt, "linked")?, Err(OpenFault::NotAFile)));
    fs::remove_file(&rt, "linked/log")?;
    fs::hard_link(&rt, "other", "linked/log")?;
    assert!(rt; matches!(log_of(&rt, "linked")?, Err(OpenFault::NotAFile)));
    fs::remove_file(&rt, "linked/log")?;
    fs::create_dir(&rt, "linked/log")?;
    assert!(rt; matches!(log_of(&rt, "linked")?, Err(OpenFault::NotAFile)));
    fs::remove_dir(&rt, "linked/log")?;
    symlink(&rt, "../other", "linked/log.next")?;
    assert!(rt; start(&rt, "linked", "cone b ntwo p")?.is_empty());
    assert!(rt; fs::read(&rt, "other")?.as_slice() == b"kept".as_slice());
    Ok(())
}

/// What happens to the files.
#[derive(Clone, Copy, Debug)]
enum Harm {
    Deleted,
    Moved,
    Replaced,
    FolderMoved,
}

fn make_harm(rt: &HostRuntime, folder: &str, harm: Harm) -> Result<(), Fail> {
    let log = format!(in rt.alloc(); "{folder}/log")?;
    let away = format!(in rt.alloc(); "{folder}.away")?;
    match harm {
        Harm::Deleted => fs::remove_dir_all(rt, folder)?,
        Harm::Moved => fs::rename(rt, log.as_str(), away.as_str())?,
        Harm::Replaced => {
            fs::write(rt, away.as_str(), b"another".as_slice())?;
            fs::rename(rt, away.as_str(), log.as_str())?;
        }
        Harm::FolderMoved => fs::rename(rt, folder, away.as_str())?,
    }
    Ok(())
}

#[test]
fn a_log_that_is_gone_is_told_and_never_tried_again(rt: HostRuntime) -> Result<(), Fail> {
    let harms = [
        Harm::Deleted,
        Harm::Moved,
        Harm::Replaced,
        Harm::FolderMoved,
    ];
    for (number, how) in harms.iter().enumerate() {
        let folder = format!(in rt.alloc(); "gone{number}")?;
        fs::create_dir(&rt, folder.as_str())?;
        let (mut log, _) = found(&rt, folder.as_str())?.ok_or("an empty log")?;
        log.commit(rt.alloc(), b"one")?;
        make_harm(&rt, folder.as_str(), *how)?;
        assert!(rt;
            log.commit(rt.alloc(), b"two") == Err(WalError::Failed),
            "{how:?}"
        );
        assert!(rt;
            matches!(log.disk.fault(), Some(FileFault::Gone)),
            "{how:?}"
        );
        if matches!(how, Harm::FolderMoved) {
            let away = format!(in rt.alloc(); "{folder}.away")?;
            fs::rename(&rt, away.as_str(), folder.as_str())?;
            assert!(rt; log.disk.sync() == Err(WalError::Failed));
        }
    }
    Ok(())
}
