//! What a crash leaves after each call of a script.

mod vectors;

ghost use Rattle.std.specs.Prelude.{◌≡◌, IfOk, IfSome, true};
ghost use Rattle.zq_wal.specs.Wal.{IsLog};

use crate::taken::{Taken, told};
use std::alloc::{AllocError, Global};
use std::process::Abort;
use std::test::Fail;
use vectors::SCRIPTS;
use zq_wal::{Behind, Disk, MemoryDisk, MemorySource, Wal, WalError, read_records, reopen};

/// Makes a step of a script, and says whether it is done.
fn step<D: Disk>(alloc: Global, log: &mut Wal<D>, word: &[u8]) -> bool
    requires { IsLog D.seen D.staged D.may_leave log.old }
    ensures { result ≡ true → IsLog D.seen D.staged D.may_leave log.new }
{
    let Some((kind, body)) = word.split_first() else {
        return true;
    };
    let switching = log.next.is_some();
    match *kind {
        b'c' => log.commit(alloc, body).is_ok(),
        b'a' => log.add(alloc, body).is_ok(),
        b's' => log.sync().is_ok(),
        b'b' => log.begin_next().is_ok(),
        b'f' => log.sync_next().is_ok(),
        b'r' => matches!(log.room(Behind::Log, 200_000), Ok(true)),
        b'R' => matches!(log.room(Behind::Next, 200_000), Ok(true)),
        b'n' if switching => log.add_next(alloc, body).is_ok(),
        b'p' if switching => log.publish_next().is_ok(),
        _ => false,
    }
}

/// The word of this number in a script, counted from 0 on.
fn word_at(script: &str, number: usize) -> Option<&str> {
    script.split(' ').nth(number)
}

/// Makes the steps up to the first that is not done, and gives the disk as it is then.
pub(crate) fn play<D: Disk + Drop>(alloc: Global, mut log: Wal<D>, script: &str) -> D
    requires { IsLog D.seen D.staged D.may_leave log }
{
    for number in 0..script.len() {
        let Some(word) = word_at(script, number) else {
            break;
        };
        if !step(alloc, &mut log, word.as_bytes()) {
            break;
        }
    }
    log.disk
}

/// The log of these bytes over a disk that does so many calls, or the disk of a start that failed.
fn start(
    alloc: Global,
    bytes: &[u8],
    calls: u64,
) -> Result<Result<Wal<MemoryDisk>, MemoryDisk>, Fail>
    ensures { IfOk result (λ started. IfOk started (λ log. IsLog
        ⟦<MemoryDisk as Disk>⟧.seen ⟦<MemoryDisk as Disk>⟧.staged
        ⟦<MemoryDisk as Disk>⟧.may_leave log)) }
{
    let mut source = MemorySource::new(bytes.to_vec(alloc)?, 100, u64::MAX);
    let mut taken = Taken {
        text: Vec::new(alloc),
        most: u64::MAX,
    };
    let found = read_records(alloc, &mut source, &mut taken)?;
    let disk = source.into_disk(alloc, calls);
    match reopen(found, disk) {
        Ok(log) => Ok(Ok(log)),
        Err((_, disk)) => Ok(Err(disk)),
    }
}

/// The disk of an empty log after a script, of which so many calls are done.
fn played(alloc: Global, bytes: &[u8], calls: u64, script: &str) -> Result<MemoryDisk, Fail> {
    match start(alloc, bytes, calls)? {
        Ok(log) => Ok(play(alloc, log, script)),
        Err(disk) => Ok(disk),
    }
}

/// Which bytes are kept: those with a `+`.
fn kept(alloc: Global, signs: &str) -> Result<Vec<bool>, AllocError> {
    let mut kept = Vec::new(alloc);
    for sign in signs.bytes() {
        kept.push(sign == b'+')?;
    }
    Ok(kept)
}

/// A line of the table.
#[derive(Clone, Copy)]
struct Row<'a> {
    script: &'a str,
    calls: &'a str,
    elder: &'a str,
    kept: &'a str,
    told: &'a str,
}

/// The fields of a line.
fn row_of(line: &str) -> Option<Row<'_>> {
    let (script, rest) = line.split_once('|')?;
    let (calls, rest) = rest.split_once('|')?;
    let (elder, rest) = rest.split_once('|')?;
    let (kept, told) = rest.split_once('|')?;
    Some(Row {
        script,
        calls,
        elder,
        kept,
        told,
    })
}

/// What power leaves of the log of a row.
fn left_of(alloc: Global, row: &Row<'_>) -> Result<Vec<u8>, Fail> {
    let disk = played(alloc, &[], row.calls.parse::<u64>()?, row.script)?;
    let kept = kept(alloc, row.kept)?;
    Ok(disk.crash(row.elder.parse::<usize>().ok(), &kept)?)
}

#[test]
fn what_power_leaves_is_read_as_told(rt: HostRuntime) -> Result<(), Fail> {
    for line in SCRIPTS.lines() {
        let row = row_of(line).ok_or("five fields")?;
        let left = left_of(rt.alloc(), &row)?;
        let read = told(rt.alloc(), &left, 100)?;
        assert!(rt; read.as_slice() == row.told.as_bytes(), "{line}");
    }
    Ok(())
}

/// Scripts with `f`, which syncs the next file, how many calls of the disk are done, and what power
/// leaves: of the log, and of the next file, where nothing stays of either that is not synced.
const SYNCED: [(&str, u64, &str, &str); 9] = [
    ("cone b nthree", 99, "one,", ""),
    ("cone b nthree f", 99, "one,", "three,"),
    ("cone b nthree f nfour", 99, "one,", "three,"),
    ("cone b nthree f nfour f", 99, "one,", "three,four,"),
    ("cone b nthree atwo f s", 99, "one,two,", "three,"),
    ("cone b nthree f b", 99, "one,", ""),
    // No next file is begun.
    ("cone f ctwo", 99, "one,two,", ""),
    (
        "cone b nthree f nfour p cfive",
        99,
        "three,four,five,",
        "three,four,",
    ),
    // The sync fails.
    ("cone b nthree f nfour p cfive", 6, "one,", ""),
];

#[test]
fn what_is_synced_of_the_next_file_is_there_and_the_log_is_as_it_was(
    rt: HostRuntime,
) -> Result<(), Fail> {
    let alloc = rt.alloc();
    for (script, calls, log, next) in SYNCED {
        let disk = played(alloc, &[], calls, script)?;
        let (left, staged) = (disk.crash(None, &[])?, disk.next.torn(alloc, &[])?);
        assert!(rt;
            told(alloc, &left, 100)?.as_slice() == log.as_bytes(),
            "{script}"
        );
        assert!(rt;
            told(alloc, &staged, 100)?.as_slice() == next.as_bytes(),
            "{script}"
        );
    }
    Ok(())
}

/// What is read after a start that does so many calls, and a commit if they suffice.
fn read_later(alloc: Global, left: &[u8], calls: u64) -> Result<Vec<u8>, Fail> {
    let disk = played(alloc, left, calls, "cmore")?;
    told(alloc, &disk.crash(Some(0), &[])?, 100)
}

#[test]
fn a_log_goes_on_after_a_start_that_may_be_broken_off(rt: HostRuntime) -> Result<(), Fail> {
    for line in SCRIPTS.lines().step_by(8) {
        let row = row_of(line).ok_or("five fields")?;
        let left = left_of(rt.alloc(), &row)?;
        let mut more = row.told.as_bytes().to_vec(rt.alloc())?;
        for calls in 0..3 {
            assert!(rt;
                read_later(rt.alloc(), &left, calls)? == more,
                "{calls}: {line}"
            );
        }
        more.extend_from_slice(b"more,")?;
        assert!(rt; read_later(rt.alloc(), &left, 9)? == more, "{line}");
    }
    Ok(())
}

/// Why a file of one record is not read from a source that answers so many calls, and by who takes
/// so many records.
fn refusal(alloc: Global, calls: u64, most: u64) -> Result<Option<WalError>, Fail> {
    let disk = played(alloc, &[], 9, "cone")?;
    let mut source = MemorySource::new(disk.crash(None, &[])?, 100, calls);
    let mut taken = Taken {
        text: Vec::new(alloc),
        most,
    };
    Ok(read_records(alloc, &mut source, &mut taken).err())
}

#[test]
fn who_stops_and_what_fails_is_told(rt: HostRuntime) -> Result<(), Fail> {
    let rows = [
        (2, 1, None),
        (0, 1, Some(WalError::Failed)),
        (1, 1, Some(WalError::Failed)),
        (2, 0, Some(WalError::Stopped)),
    ];
    for (calls, most, expected) in rows {
        let told = refusal(rt.alloc(), calls, most)?;
        assert!(rt; told == expected, "{calls} calls, {most} records");
    }
    Ok(())
}
