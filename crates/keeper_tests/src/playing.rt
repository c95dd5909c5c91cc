//! Scripts of calls of a keeper.

ghost use Rattle.std.specs.Prelude.{IfOk};
ghost use Rattle.zq_keeper.specs.Keeper.{GoesOn};

use crate::live::{HEAPS, Live, identity};
use std::alloc::Global;
use std::test::Fail;
use zq_entries::Batch;
use zq_keeper::{Keeper, KeeperFault, Next, Part, Reader};
use zq_posheap::Seeded;
use zq_wal::{Disk, MemoryDisk, MemorySource, read_records, reopen};

/// What names the folder.
pub(crate) const FOLDER: [u8; 16] = [7; 16];

/// How many calls of the disk opening a log takes.
const OPENING: u64 = 2;

/// What is made of a step of a switch.
enum Turn {
    Piece(u8),
    Seal(u8),
    Publish,
}

/// What a keeper over these bytes begins with, on a disk that does so many calls after it was opened.
pub(crate) fn keeper_of(alloc: Global, bytes: &[u8], calls: u64) -> Result<Keeper<MemoryDisk>, Fail>
    ensures { IfOk result (λ k. GoesOn ⟦<MemoryDisk as Disk>⟧.seen ⟦<MemoryDisk as Disk>⟧.staged
        ⟦<MemoryDisk as Disk>⟧.may_leave k) }
{
    let mut source = MemorySource::new(bytes.to_vec(alloc)?, 100, u64::MAX);
    let mut reader = Reader::new(alloc, identity()?, Seeded::new(1))?;
    let found = read_records(alloc, &mut source, &mut reader)?;
    let calls = calls.saturating_add(OPENING);
    let Ok(wal) = reopen(found, source.into_disk(alloc, calls)) else {
        return Err("a log".into());
    };
    match Keeper::new(alloc, wal, &reader, bytes.len() as u64) {
        Ok(keeper) => Ok(keeper),
        Err(_) => Err("a keeper".into()),
    }
}

/// What is done next of a switch.
fn turn_of(next: &Next) -> Turn {
    for heap in 0..HEAPS {
        let place = heap as usize;
        match (next.parts.get(place), next.heaps.get(place)) {
            (Some(Part::Sealed), _) => {}
            (Some(Part::Coming), Some(outline)) if outline.whole => return Turn::Seal(heap),
            _ => return Turn::Piece(heap),
        }
    }
    Turn::Publish
}

/// Makes the next step of a switch, where one is going on.
fn go_on<D: Disk>(
    alloc: Global,
    keeper: &mut Keeper<D>,
    live: &mut Live,
) -> Result<Result<(), KeeperFault>, Fail>
    requires { GoesOn D.seen D.staged D.may_leave keeper.old }
    ensures { GoesOn D.seen D.staged D.may_leave keeper.new }
{
    let turn = match &keeper.next {
        Some(next) => turn_of(next),
        None => return Ok(Ok(())),
    };
    match turn {
        Turn::Piece(heap) => {
            let piece = live.next_piece(alloc, heap)?;
            Ok(keeper.piece(alloc, piece))
        }
        Turn::Seal(heap) => Ok(keeper.seal(alloc, heap)),
        Turn::Publish => Ok(keeper.publish(alloc)),
    }
}

/// Writes a round of what was made. What is of heaps that are ahead of the log goes into the next
/// file alone.
fn write_round<D: Disk>(
    alloc: Global,
    keeper: &mut Keeper<D>,
    live: &mut Live,
) -> Result<Result<(), KeeperFault>, Fail>
    requires { GoesOn D.seen D.staged D.may_leave keeper.old }
    ensures { GoesOn D.seen D.staged D.may_leave keeper.new }
{
    let mut logged = Vec::new(alloc);
    let mut ahead = Vec::new(alloc);
    for batch in live.take_batches(alloc)? {
        if is_ahead(keeper, &batch) {
            ahead.push(batch)?;
        } else {
            logged.push(batch)?;
        }
    }
    if !ahead.is_empty()
        && let Err(fault) = keeper.round_next(alloc, &ahead)
    {
        return Ok(Err(fault));
    }
    if !logged.is_empty() || ahead.is_empty() {
        return Ok(keeper.round(alloc, &logged).map(drop));
    }
    Ok(Ok(()))
}

/// Whether a batch is of a heap that is ahead of the log.
fn is_ahead<D: Disk>(keeper: &Keeper<D>, batch: &Batch) -> bool {
    match batch.ops().first() {
        Some(op) => keeper.is_ahead(op.heap()),
        None => false,
    }
}

/// Makes a step of a script: `b` begins, `r` writes a round, `t` rests, `s` begins a switch, `x` goes
/// on with it, `f` flushes the next file, `p` publishes, `j` and `k` are members at which another
/// site puts, and any other one is a member at which this one does.
pub(crate) fn step<D: Disk>(
    alloc: Global,
    keeper: &mut Keeper<D>,
    live: &mut Live,
    word: u8,
    score: i64,
) -> Result<Result<(), KeeperFault>, Fail>
    requires { GoesOn D.seen D.staged D.may_leave keeper.old }
    ensures { GoesOn D.seen D.staged D.may_leave keeper.new }
{
    match word {
        b'b' => Ok(keeper.begin(alloc, FOLDER).map(|_number| ())),
        b'r' => write_round(alloc, keeper, live),
        b't' => Ok(keeper.rest(alloc).map(|_some| ())),
        b's' => {
            live.begin_walks();
            Ok(keeper.begin_switch(alloc))
        }
        b'x' => go_on(alloc, keeper, live),
        b'f' => Ok(keeper.flush()),
        b'p' => Ok(keeper.publish(alloc)),
        b'j' | b'k' => {
            live.jump(alloc, word, score)?;
            Ok(Ok(()))
        }
        _ => {
            live.put(alloc, word, score)?;
            Ok(Ok(()))
        }
    }
}
