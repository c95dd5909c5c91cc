//! How the next file is written, a step at a time.

ghost use Rattle.std.specs.Prelude.{IfErr, IfOk, IsSome, OnOk, Some, false, slice_get, slice_set, true, ◌≡◌};
ghost use Rattle.zq_entries.specs.Entry.{IsSealed, OfPiece, OfSealed};
ghost use Rattle.zq_keeper.specs.Keeper.{GoesOn, IsSameSite, Leaves, Stays, has_stayed};
ghost use Rattle.zq_keeper.specs.Outline.{AreCounted};
ghost use Rattle.zq_keeper.specs.Pieces as pieces;
ghost use Rattle.zq_keeper.specs.Read.{IsSpelled};
ghost use Rattle.zq_keeper.specs.Switch.{Begun, IsPieced, IsSealedIn, IsSealing, IsStartEntry, Pieced, SealedIn};
ghost use Rattle.zq_keeper.specs.declared.next.Part.TheVariants.{Coming};
ghost use Rattle.zq_model.specs.Sets.{IsHeaps, covers};
ghost use Rattle.zq_wal.specs.Disk.{LeavesOnly, Only};
ghost use Rattle.zq_wal.specs.Format.{recovered};

use crate::entries::{piece_entry, sealed_entry, start_entry};
use crate::fault::KeeperFault;
use crate::keeper::Keeper;
use crate::next::{Next, Part};
use crate::outline::Outline;
use crate::pieces::note_piece;
use crate::turn::Share;
use std::alloc::{AllocError, Global};
use zq_entries::Sealed;
use zq_fields::HeapNo;
use zq_links::Piece;
use zq_recovery::{Identity, Refusal};
use zq_stage::PieceFault;
use zq_wal::Disk;

/// Whether the pieces of a heap are coming, or wait for the first one and this is it, with all that
/// the log has.
fn judge_turn(outlines: &[Outline], parts: &[Part], piece: &Piece) -> Result<(), Refusal>
    ensures { OnOk result (pieces.IsDue outlines.now parts.now piece.now) }
{
    let place = piece.part.heap() as usize;
    if place >= outlines.len() || place >= parts.len() {
        return Err(Refusal::WrongHeap);
    }
    match parts[place] {
        Part::Coming => Ok(()),
        Part::Waiting if piece.number == 0 => judge_first(&outlines[place], piece),
        Part::Waiting | Part::Sealed => Err(Refusal::Piece(PieceFault::WrongNumber)),
    }
}

/// Whether a first piece has all operations that the log has of its heap.
fn judge_first(outline: &Outline, piece: &Piece) -> Result<(), Refusal>
    ensures { OnOk result (covers piece.now.part.image.vector outline.now.vector ≡ true) }
{
    if piece.part.vector().covers(&outline.vector) {
        Ok(())
    } else {
        Err(Refusal::Piece(PieceFault::WrongVector))
    }
}

/// These parts, and this one of a heap.
fn with_part(alloc: Global, parts: &[Part], heap: u8, part: Part) -> Result<Vec<Part>, AllocError>
    ensures { IfOk result (λ v. v.items ≡ slice_set parts.now heap part) }
{
    let mut changed = parts.to_vec(alloc)?;
    let place = heap as usize;
    if place < changed.len() {
        changed[place] = part;
    }
    Ok(changed)
}

/// What is written of a piece, and the next file after it.
fn after_piece(
    alloc: Global,
    identity: &Identity,
    outlines: &[Outline],
    next: &Next,
    piece: &Piece,
) -> Result<Share, KeeperFault>
    ensures due { OnOk result (pieces.IsDue outlines.now next.now.parts.items piece.now) }
    ensures entry { IfOk result (λ s. IsSpelled (OfPiece piece.now) s.entry.items) }
    ensures next { IfOk result (λ s. Pieced identity.now piece.now next.now s.next) }
    ensures fault { IfErr result (λ e. has_stayed e ≡ true) }
{
    judge_turn(outlines, &next.parts, piece)?;
    let mut heaps = next.heaps.to_vec(alloc)?;
    note_piece(identity, &mut heaps, piece)?;
    let parts = with_part(alloc, &next.parts, piece.part.heap(), Part::Coming)?;
    let entry = piece_entry(alloc, piece)?;
    Ok(Share {
        entry,
        next: Next { heaps, parts },
    })
}

/// That all pieces of a heap came, with the vector that it has.
fn sealed_of(identity: &Identity, next: &Next, heap: u8) -> Result<Sealed, Refusal>
    requires heaps { IsHeaps identity.now.heaps }
    requires counted { AreCounted next.now.heaps.items }
    ensures whole { IfOk result (λ w. pieces.IsWhole identity.now w next.now.heaps.items) }
    ensures heap { IfOk result (λ w. w.heap.heap ≡ heap) }
    ensures coming { OnOk result (slice_get next.now.parts.items heap ≡ Some Coming) }
    ensures sound { IfOk result IsSealed }
{
    let place = heap as usize;
    if heap >= identity.heaps || place >= next.heaps.len() || place >= next.parts.len() {
        return Err(Refusal::WrongHeap);
    }
    if next.parts[place] != Part::Coming || !next.heaps[place].whole {
        return Err(Refusal::NotWhole);
    }
    let heap = HeapNo {
        heap,
        heaps: identity.heaps,
    };
    Ok(Sealed {
        heap,
        vector: next.heaps[place].vector,
    })
}

/// What is written of a heap that is whole, and the next file after it.
fn after_seal(
    alloc: Global,
    identity: &Identity,
    next: &Next,
    heap: u8,
) -> Result<(Sealed, Share), KeeperFault>
    requires heaps { IsHeaps identity.now.heaps }
    requires counted { AreCounted next.now.heaps.items }
    ensures entry { IfOk result (λ x. IsSpelled (OfSealed x.0) x.1.entry.items) }
    ensures next { IfOk result (λ x. SealedIn identity.now heap next.now x.0 x.1.next) }
    ensures fault { IfErr result (λ e. has_stayed e ≡ true) }
{
    let whole = sealed_of(identity, next, heap)?;
    let heaps = next.heaps.to_vec(alloc)?;
    let parts = with_part(alloc, &next.parts, heap, Part::Sealed)?;
    let entry = sealed_entry(alloc, &whole)?;
    let share = Share {
        entry,
        next: Next { heaps, parts },
    };
    Ok((whole, share))
}

impl<D: Disk> Keeper<D> {
    /// Begins a switch: a next file, in which there is the last start. One that was begun before is
    /// given up.
    pub fn begin_switch(&mut self, alloc: Global) -> Result<(), KeeperFault>
        requires { GoesOn D.seen D.staged D.may_leave self.old }
        ensures keeper { GoesOn D.seen D.staged D.may_leave self.new }
        ensures going { OnOk result (self.new.stopped ≡ false) }
        ensures next { OnOk result (Begun self.old.identity self.new.next) }
        ensures heaps { OnOk result (self.new.heaps.items ≡ self.old.heaps.items) }
        ensures seen { OnOk result (D.seen self.new.wal.disk ≡ D.seen self.old.wal.disk) }
        ensures same { IsSameSite self.old self.new }
        ensures any_moment { self.old.stopped ≡ false →
            LeavesOnly D.moment D.left_since self.old.wal.disk self.new.wal.disk
            (Leaves self.old.identity self.old.heaps.items
            (recovered (D.seen self.old.wal.disk)) (recovered (D.seen self.old.wal.disk))) }
        ensures fault { IfErr result (Stays self.old self.new) }
    {
        self.stand();
        let share = self.judge_begin_switch(alloc)?;
        self.open_next()?;
        self.keep_next(alloc, share)
    }

    /// What a next file begins with.
    fn judge_begin_switch(&self, alloc: Global) -> Result<Share, KeeperFault>
        requires { GoesOn D.seen D.staged D.may_leave self.now }
        ensures going { OnOk result (self.now.stopped ≡ false) }
        ensures begun { OnOk result (self.now.begun ≡ true) }
        ensures entry { IfOk result (λ s. IsStartEntry self.now.start s.entry.items) }
        ensures next { IfOk result (λ s. Begun self.now.identity (Some s.next)) }
        ensures fault { IfErr result (λ e. has_stayed e ≡ true) }
    {
        let start = self.started()?;
        let next = Next::of_start(alloc, self.identity.heaps)?;
        let entry = start_entry(alloc, &start)?;
        Ok(Share { entry, next })
    }

    /// Writes a piece of a heap to the next file. It is the first one of a stream, or the next one.
    /// A first one has all operations that the log has of its heap, and may have more. A next one
    /// has just those that the next file has of it: what the heap has more is to be written before.
    ///
    /// `Refused(Piece)` where it is another, of these `WrongVector` where it has other operations.
    /// `NoSwitch` where none is going on.
    pub fn piece(&mut self, alloc: Global, piece: Piece) -> Result<(), KeeperFault>
        requires { GoesOn D.seen D.staged D.may_leave self.old }
        ensures keeper { GoesOn D.seen D.staged D.may_leave self.new }
        ensures going { OnOk result (self.new.stopped ≡ false) }
        ensures next { OnOk result (IsPieced self.old.identity self.old.heaps.items piece
            self.old.next self.new.next) }
        ensures heaps { OnOk result (self.new.heaps.items ≡ self.old.heaps.items) }
        ensures seen { OnOk result (D.seen self.new.wal.disk ≡ D.seen self.old.wal.disk) }
        ensures same { IsSameSite self.old self.new }
        ensures any_moment { self.old.stopped ≡ false →
            LeavesOnly D.moment D.left_since self.old.wal.disk self.new.wal.disk
            (Leaves self.old.identity self.old.heaps.items
            (recovered (D.seen self.old.wal.disk)) (recovered (D.seen self.old.wal.disk))) }
        ensures fault { IfErr result (Stays self.old self.new) }
    {
        self.stand();
        let share = self.judge_piece(alloc, &piece)?;
        self.keep_next(alloc, share)
    }

    /// What is written of a piece, and the next file after it.
    fn judge_piece(&self, alloc: Global, piece: &Piece) -> Result<Share, KeeperFault>
        ensures going { OnOk result (self.now.stopped ≡ false) }
        ensures begun { OnOk result (self.now.begun ≡ true) }
        ensures entry { IfOk result (λ s. IsSpelled (OfPiece piece.now) s.entry.items) }
        ensures next { IfOk result (λ s. IsPieced self.now.identity self.now.heaps.items
            piece.now self.now.next (Some s.next)) }
        ensures fault { IfErr result (λ e. has_stayed e ≡ true) }
    {
        self.started()?;
        match &self.next {
            Some(next) => after_piece(alloc, &self.identity, &self.heaps, next, piece),
            None => Err(KeeperFault::NoSwitch),
        }
    }

    /// Writes to the next file that all pieces of a heap came.
    ///
    /// `Refused(NotWhole)` where that is not so, or it was written before.
    pub fn seal(&mut self, alloc: Global, heap: u8) -> Result<(), KeeperFault>
        requires { GoesOn D.seen D.staged D.may_leave self.old }
        ensures keeper { GoesOn D.seen D.staged D.may_leave self.new }
        ensures going { OnOk result (self.new.stopped ≡ false) }
        ensures next { OnOk result (IsSealedIn self.old.identity heap
            self.old.next self.new.next) }
        ensures heaps { OnOk result (self.new.heaps.items ≡ self.old.heaps.items) }
        ensures seen { OnOk result (D.seen self.new.wal.disk ≡ D.seen self.old.wal.disk) }
        ensures same { IsSameSite self.old self.new }
        ensures any_moment { self.old.stopped ≡ false →
            LeavesOnly D.moment D.left_since self.old.wal.disk self.new.wal.disk
            (Leaves self.old.identity self.old.heaps.items
            (recovered (D.seen self.old.wal.disk)) (recovered (D.seen self.old.wal.disk))) }
        ensures fault { IfErr result (Stays self.old self.new) }
    {
        self.stand();
        let (_whole, share) = self.judge_seal(alloc, heap)?;
        self.keep_next(alloc, share)
    }

    /// What is to be written of a heap that is whole, and the next file after it.
    fn judge_seal(&self, alloc: Global, heap: u8) -> Result<(Sealed, Share), KeeperFault>
        requires { GoesOn D.seen D.staged D.may_leave self.now }
        ensures going { OnOk result (self.now.stopped ≡ false) }
        ensures begun { OnOk result (self.now.begun ≡ true) }
        ensures entry { IfOk result (λ x. IsSpelled (OfSealed x.0) x.1.entry.items) }
        ensures next { IfOk result (λ x. IsSealing self.now.identity
            heap self.now.next x.0 x.1.next) }
        ensures fault { IfErr result (λ e. has_stayed e ≡ true) }
    {
        self.started()?;
        match &self.next {
            Some(next) => after_seal(alloc, &self.identity, next, heap),
            None => Err(KeeperFault::NoSwitch),
        }
    }

    /// Brings what is written of the next file to the disk, so that less of it is left for
    /// `publish`.
    ///
    /// `NoSwitch` where none is going on.
    pub fn flush(&mut self) -> Result<(), KeeperFault>
        requires { GoesOn D.seen D.staged D.may_leave self.old }
        ensures keeper { GoesOn D.seen D.staged D.may_leave self.new }
        ensures going { OnOk result (self.new.stopped ≡ false) }
        ensures switching { OnOk result (IsSome self.old.next) }
        ensures durable { OnOk result (Only (D.staged self.old.wal.disk)
            (D.staged_may_leave self.new.wal.disk)) }
        ensures next { OnOk result (self.new.next ≡ self.old.next) }
        ensures heaps { OnOk result (self.new.heaps.items ≡ self.old.heaps.items) }
        ensures seen { OnOk result (D.seen self.new.wal.disk ≡ D.seen self.old.wal.disk) }
        ensures staged { OnOk result (D.staged self.new.wal.disk ≡ D.staged self.old.wal.disk) }
        ensures same { IsSameSite self.old self.new }
        ensures any_moment { self.old.stopped ≡ false →
            LeavesOnly D.moment D.left_since self.old.wal.disk self.new.wal.disk
            (Leaves self.old.identity self.old.heaps.items
            (recovered (D.seen self.old.wal.disk)) (recovered (D.seen self.old.wal.disk))) }
        ensures fault { IfErr result (Stays self.old self.new) }
    {
        self.stand();
        self.started()?;
        if self.next.is_none() {
            return Err(KeeperFault::NoSwitch);
        }
        self.sync_next()
    }
}
