//! How heaps are written to a new log.

ghost use Rattle.std.specs.Prelude.{IfOk, IsTrue, OnOk, length, ◌≡◌};
ghost use Rattle.zq_adopt.specs.Alike.{AreAlike, PORTION as limits};
ghost use Rattle.zq_keeper.specs.Keeper.{GoesOn, IsKeeper};
ghost use Rattle.zq_stage.specs.Portion.{IsPortion};

use crate::fault::WriteFault;
use std::alloc::{AllocError, Global};
use zq_entries::FOLDER;
use zq_keeper::{Keeper, Outline};
use zq_links::Piece;
use zq_posheap::Seeded;
use zq_stage::{Portion, PortionLimits, Stage};
use zq_transfer::Sending;
use zq_wal::Disk;

/// How much of a heap goes at once, as where a log is rewritten: 1,000 members, or so many that a
/// piece has no more than some 900 kilobytes and one member.
const PORTION: PortionLimits = PortionLimits {
    rows: 1_000,
    bytes: 900_000,
};

/// The life of the streams of pieces in a log: each log has one of each heap.
const LIFE: u64 = 1;

/// After how many bytes the next file is synced, so that little is left to be when it takes the
/// log's place: 4 MiB.
const FLUSHED: u64 = 4_194_304;

/// Writes these heaps to a log in which nothing is, of a folder that these bytes name: a first
/// start, the pieces of each heap, and that all of them came. It says how many members they have.
///
/// `Keeper`, as its calls say, and `Unlike`.
pub fn write_log<D: Disk>(
    alloc: Global,
    keeper: &mut Keeper<D>,
    folder: [u8; FOLDER],
    stages: &[Stage],
    hasher: Seeded,
) -> Result<u64, WriteFault>
    requires { GoesOn D.seen D.staged D.may_leave keeper.old }
    ensures keeper { OnOk result (IsKeeper D.seen D.staged D.may_leave keeper.new) }
    ensures alike { OnOk result (AreAlike stages.now keeper.new.heaps.items) }
    ensures number { OnOk result (length keeper.new.heaps.items ≡ length stages.now) }
{
    keeper.begin(alloc, folder)?;
    keeper.begin_switch(alloc)?;
    let members = copy_heaps(alloc, keeper, stages, hasher)?;
    keeper.publish(alloc)?;
    // Damage of what stands before it is told from then on.
    keeper.rest(alloc)?;
    if !are_alike(stages, &keeper.heaps) {
        return Err(WriteFault::Unlike);
    }
    Ok(members)
}

/// Whether what is said of each heap has its operations, and no others.
fn are_alike(stages: &[Stage], outlines: &[Outline]) -> bool
    ensures alike { IsTrue result → AreAlike stages.now outlines.now }
    ensures number { IsTrue result → length outlines.now ≡ length stages.now }
{
    if stages.len() != outlines.len() {
        return false;
    }
    for place in 0..stages.len() {
        if !is_alike(&stages[place], &outlines[place]) {
            return false;
        }
    }
    true
}

/// Whether what is said of a heap has its operations, and no others.
fn is_alike(stage: &Stage, outline: &Outline) -> bool
    ensures { IsTrue result → outline.now.vector ≡ stage.now.held.image.vector }
{
    outline.vector == *stage.vector()
}

/// Writes each of these heaps to the next file, and says how many members they have.
fn copy_heaps<D: Disk>(
    alloc: Global,
    keeper: &mut Keeper<D>,
    stages: &[Stage],
    hasher: Seeded,
) -> Result<u64, WriteFault>
    requires { GoesOn D.seen D.staged D.may_leave keeper.old }
    ensures { OnOk result (GoesOn D.seen D.staged D.may_leave keeper.new) }
{
    let mut members: u64 = 0;
    for stage in stages {
        members = members.saturating_add(copy_heap(alloc, keeper, stage, hasher)?);
    }
    Ok(members)
}

/// Writes a heap to the next file, and says how many members it has.
fn copy_heap<D: Disk>(
    alloc: Global,
    keeper: &mut Keeper<D>,
    stage: &Stage,
    hasher: Seeded,
) -> Result<u64, WriteFault>
    requires { GoesOn D.seen D.staged D.may_leave keeper.old }
    ensures { OnOk result (GoesOn D.seen D.staged D.may_leave keeper.new) }
{
    let members = copy_pieces(alloc, keeper, stage, hasher)?;
    keeper.seal(alloc, stage.held().heap())?;
    Ok(members)
}

/// Writes the pieces of a heap to the next file, and says how many members it has.
fn copy_pieces<D: Disk>(
    alloc: Global,
    keeper: &mut Keeper<D>,
    stage: &Stage,
    hasher: Seeded,
) -> Result<u64, WriteFault>
    requires { GoesOn D.seen D.staged D.may_leave keeper.old }
    ensures { OnOk result (GoesOn D.seen D.staged D.may_leave keeper.new) }
{
    let mut sending = Sending::anew(LIFE);
    let mut flushed = keeper.size.next;
    let mut members: u64 = 0;
    for _ in 0..u64::MAX {
        let piece = next_piece(alloc, stage, &mut sending, hasher)?;
        members = members.saturating_add(count(alloc, &piece)?);
        let is_last = is_end(&piece);
        keeper.piece(alloc, piece)?;
        flushed = flush_behind(keeper, flushed)?;
        if is_last {
            return Ok(members);
        }
    }
    Err(WriteFault::Unlike)
}

/// Syncs the next file, where it has grown by enough since it had so many bytes, and says how many it
/// had when it was synced last.
fn flush_behind<D: Disk>(keeper: &mut Keeper<D>, flushed: u64) -> Result<u64, WriteFault>
    requires { GoesOn D.seen D.staged D.may_leave keeper.old }
    ensures { OnOk result (GoesOn D.seen D.staged D.may_leave keeper.new) }
{
    if keeper.size.next.saturating_sub(flushed) < FLUSHED {
        return Ok(flushed);
    }
    keeper.flush()?;
    Ok(keeper.size.next)
}

/// The next piece of a heap: some of its members, as it has them.
fn next_piece(
    alloc: Global,
    stage: &Stage,
    sending: &mut Sending,
    hasher: Seeded,
) -> Result<Piece, WriteFault>
    ensures { IfOk result (λ p.
        IsPortion stage.now.held sending.old.spot limits p.part sending.new.spot) }
{
    let portion = Portion::of(stage.held(), alloc, sending.spot, PORTION, hasher)?;
    match sending.piece(portion) {
        Ok(piece) => Ok(piece),
        Err(_) => Err(WriteFault::Unlike),
    }
}

/// How many members are in a piece.
fn count(alloc: Global, piece: &Piece) -> Result<u64, AllocError> {
    let rows = piece.part.rows(alloc)?;
    Ok(rows.len() as u64)
}

/// Whether a piece is the last one.
fn is_end(piece: &Piece) -> bool {
    piece.next.key == 0 && piece.next.member == 0
}
