//! How a round is written.

ghost use Rattle.std.specs.Prelude.{All, IfErr, IfNone, IfOk, IfSome, IsSome, OnOk, Some, [], false, map, true, ◌++◌, ◌∷◌, ◌≡◌};
ghost use Rattle.zq_entries.specs.Entry.{OfRound};
ghost use Rattle.zq_entries.specs.Spelling.{entry_bytes};
ghost use Rattle.zq_entries.specs.Together.{batch_of};
ghost use Rattle.zq_keeper.specs.Keeper.{GoesOn, HasFailed, IsKeeper, IsSameSite, IsStill, Leaves, Shares, Stays, has_stayed, with_entry};
ghost use Rattle.zq_keeper.specs.Operations.{IsShort, TakesEach, chosen};
ghost use Rattle.zq_keeper.specs.Read.{IsSpelled};
ghost use Rattle.zq_keeper.specs.Turn.{IsShare, IsShareOf, IsTurn};
ghost use Rattle.zq_wal.specs.Disk.{LeavesOnly};
ghost use Rattle.zq_wal.specs.Format.{recovered};

use crate::entries::round_entry;
use crate::fault::KeeperFault;
use crate::keeper::Keeper;
use crate::next::{Next, Part};
use crate::operations::{is_chosen, note_batches, note_chosen};
use crate::outline::Outline;
use crate::turn::{Share, Turn};
use std::alloc::{AllocError, Global};
use zq_entries::Batch;
use zq_recovery::Identity;
use zq_wal::{Committed, Disk};

/// The bytes of a batch.
fn write_one(alloc: Global, batch: &Batch) -> Result<Vec<u8>, AllocError>
    ensures written { IfOk result (λ v. v.items ≡ batch_of batch.now) }
    ensures short { OnOk result (IsShort batch.now) }
{
    // For the proof: they have a spelling together.
    let _ops = batch.ops();
    batch.write(alloc)
}

/// The bytes of each batch.
fn write_all(alloc: Global, batches: &[Batch]) -> Result<Vec<Vec<u8>>, AllocError>
    ensures written { IfOk result (λ v. map (λ b. b.items) v.items ≡ map batch_of batches.now) }
    ensures short { OnOk result (All IsShort batches.now) }
{
    let mut written = Vec::new(alloc);
    for batch in batches {
        let bytes = write_one(alloc, batch)?;
        written.push(bytes)?;
    }
    Ok(written)
}

/// The bytes of each batch whose heap's pieces have begun.
fn write_chosen(
    alloc: Global,
    parts: &[Part],
    batches: &[Batch],
) -> Result<Vec<Vec<u8>>, AllocError>
    ensures written { IfOk result
        (λ v. map (λ b. b.items) v.items ≡ map batch_of (chosen parts.now batches.now)) }
    ensures short { OnOk result (All IsShort (chosen parts.now batches.now)) }
{
    let mut written = Vec::new(alloc);
    for batch in batches {
        write_more(alloc, parts, &mut written, batch)?;
    }
    Ok(written)
}

/// Adds those of one batch.
fn write_more(
    alloc: Global,
    parts: &[Part],
    written: &mut Vec<Vec<u8>>,
    batch: &Batch,
) -> Result<(), AllocError>
    ensures written { OnOk result (map (λ b. b.items) written.new.items
        ≡ map (λ b. b.items) written.old.items ++ map batch_of (chosen parts.now (batch.now ∷ []))) }
    ensures short { OnOk result (All IsShort (chosen parts.now (batch.now ∷ []))) }
{
    if is_chosen(parts, batch) {
        let bytes = write_one(alloc, batch)?;
        written.push(bytes)?;
        return Ok(());
    }
    Ok(())
}

/// The entry of these batches, and what the log says of each heap after them.
fn round_of(
    alloc: Global,
    identity: &Identity,
    outlines: &[Outline],
    batches: &[Batch],
) -> Result<(Vec<u8>, Vec<Outline>), KeeperFault>
    ensures entry { IfOk result (λ x. IsSpelled (OfRound batches.now) x.0.items) }
    ensures noted { IfOk result
        (λ x. TakesEach identity.now batches.now outlines.now x.1.items) }
    ensures fault { IfErr result (λ e. has_stayed e ≡ true) }
{
    let mut noted = outlines.to_vec(alloc)?;
    note_batches(identity, &mut noted, batches)?;
    let written = write_all(alloc, batches)?;
    let entry = round_entry(alloc, &written)?;
    Ok((entry, noted))
}

/// What these batches have in the next file: `None` where no heap's pieces have begun that they are
/// of.
fn share_of(
    alloc: Global,
    identity: &Identity,
    next: &Next,
    batches: &[Batch],
) -> Result<Option<Share>, KeeperFault>
    ensures share { IfOk result (λ s. IfSome s (λ s.
        IsShareOf identity.now batches.now next.now s)) }
    ensures none { IfOk result (λ s. IfNone s (chosen next.now.parts.items batches.now ≡ [])) }
    ensures fault { IfErr result (λ e. has_stayed e ≡ true) }
{
    let written = write_chosen(alloc, &next.parts, batches)?;
    if written.is_empty() {
        return Ok(None);
    }
    let after = next_of(alloc, identity, next, batches)?;
    let entry = round_entry(alloc, &written)?;
    Ok(Some(Share { entry, next: after }))
}

/// The next file after them.
fn next_of(
    alloc: Global,
    identity: &Identity,
    next: &Next,
    batches: &[Batch],
) -> Result<Next, KeeperFault>
    ensures noted { IfOk result
        (λ n. TakesEach identity.now (chosen next.now.parts.items batches.now)
        next.now.heaps.items n.heaps.items) }
    ensures parts { IfOk result (λ n. n.parts.items ≡ next.now.parts.items) }
    ensures fault { IfErr result (λ e. has_stayed e ≡ true) }
{
    let mut heaps = next.heaps.to_vec(alloc)?;
    note_chosen(identity, &next.parts, &mut heaps, batches)?;
    let parts = next.parts.to_vec(alloc)?;
    Ok(Next { heaps, parts })
}

impl<D: Disk> Keeper<D> {
    /// Commits a round: batches of operations, in the order in which the books have them. After
    /// `Ok` they are on the disk, `told` and `durable` say so, and the bytes of the entry may leave.
    /// Where a switch is going on the batches of heaps whose pieces have begun go into the next
    /// file too.
    ///
    /// `Refused(Gap)` where an operation is missing before one of them, `WrongHeap` where one is of
    /// no heap of the site, `Entry` where there is no batch, or there are more than 64.
    pub fn round(&mut self, alloc: Global, batches: &[Batch]) -> Result<Committed, KeeperFault>
        requires { GoesOn D.seen D.staged D.may_leave self.old }
        ensures keeper { GoesOn D.seen D.staged D.may_leave self.new }
        ensures going { OnOk result (self.new.stopped ≡ false) }
        ensures body { IfOk result (λ c. c ≡ entry_bytes (OfRound batches.now)) }
        ensures said { OnOk result (TakesEach self.old.identity batches.now
            self.old.heaps.items self.new.heaps.items) }
        ensures record { OnOk result (recovered (D.seen self.new.wal.disk)
            ≡ with_entry (recovered (D.seen self.old.wal.disk)) (OfRound batches.now)) }
        ensures next { OnOk result
            (Shares self.old.identity batches.now self.old.next self.new.next) }
        ensures rested { OnOk result (self.new.rested ≡ false) }
        ensures same { IsSameSite self.old self.new }
        // A crash at any moment leaves the records from before, or these and the round.
        ensures any_moment { self.old.stopped ≡ false →
            LeavesOnly D.moment D.left_since self.old.wal.disk self.new.wal.disk
            (Leaves self.old.identity self.old.heaps.items
            (recovered (D.seen self.old.wal.disk))
            (with_entry (recovered (D.seen self.old.wal.disk)) (OfRound batches.now))) }
        ensures fault { IfErr result (Stays self.old self.new) }
    {
        self.stand();
        let (turn, share) = self.judge_round(alloc, batches)?;
        self.add_share(alloc, batches, share)?;
        let committed = self.keep(alloc, turn)?;
        self.rested = false;
        Ok(committed)
    }

    /// What these batches have in both files.
    fn judge_round(
        &self,
        alloc: Global,
        batches: &[Batch],
    ) -> Result<(Turn, Option<Share>), KeeperFault>
        requires { GoesOn D.seen D.staged D.may_leave self.now }
        ensures going { OnOk result (self.now.stopped ≡ false) }
        ensures begun { OnOk result (self.now.begun ≡ true) }
        ensures start { IfOk result (λ x. self.now.start ≡ Some x.0.start) }
        ensures turn { IfOk result (λ x. IsTurn self.now.identity self.now.start
            self.now.heaps.items (OfRound batches.now) x.0) }
        ensures share { IfOk result
            (λ x. IsShare self.now.identity batches.now self.now.next x.1) }
        ensures fault { IfErr result (λ e. has_stayed e ≡ true) }
    {
        let start = self.started()?;
        let (entry, heaps) = round_of(alloc, &self.identity, &self.heaps, batches)?;
        let share = self.share(alloc, batches)?;
        let turn = Turn {
            entry,
            start,
            heaps,
        };
        Ok((turn, share))
    }

    /// Writes batches of operations to the next file alone, those of heaps whose pieces have begun;
    /// the pieces of the others are to have theirs. Nothing of it is durable until `publish`.
    ///
    /// So a heap is followed that has what the log cannot take as operations, as after a merge.
    ///
    /// Faults as of `round`, judged by the next file, and `NoSwitch` where none is going on.
    pub fn round_next(&mut self, alloc: Global, batches: &[Batch]) -> Result<(), KeeperFault>
        requires { GoesOn D.seen D.staged D.may_leave self.old }
        ensures keeper { GoesOn D.seen D.staged D.may_leave self.new }
        ensures going { OnOk result (self.new.stopped ≡ false) }
        ensures switch { OnOk result (IsSome self.old.next) }
        ensures next { OnOk result
            (Shares self.old.identity batches.now self.old.next self.new.next) }
        ensures heaps { OnOk result (self.new.heaps.items ≡ self.old.heaps.items) }
        ensures seen { OnOk result (D.seen self.new.wal.disk ≡ D.seen self.old.wal.disk) }
        ensures same { IsSameSite self.old self.new }
        ensures any_moment { self.old.stopped ≡ false →
            LeavesOnly D.moment D.left_since self.old.wal.disk self.new.wal.disk
            (Leaves self.old.identity self.old.heaps.items
            (recovered (D.seen self.old.wal.disk)) (recovered (D.seen self.old.wal.disk))) }
        ensures fault { IfErr result (Stays self.old self.new) }
    {
        self.stand();
        let share = self.judge_next(alloc, batches)?;
        self.add_share(alloc, batches, share)
    }

    /// What these batches have in the next file.
    fn judge_next(&self, alloc: Global, batches: &[Batch]) -> Result<Option<Share>, KeeperFault>
        ensures going { OnOk result (self.now.stopped ≡ false) }
        ensures begun { OnOk result (self.now.begun ≡ true) }
        ensures switch { OnOk result (IsSome self.now.next) }
        ensures share { IfOk result
            (λ s. IsShare self.now.identity batches.now self.now.next s) }
        ensures fault { IfErr result (λ e. has_stayed e ≡ true) }
    {
        self.started()?;
        if self.next.is_none() {
            return Err(KeeperFault::NoSwitch);
        }
        self.share(alloc, batches)
    }

    /// What these batches have in the next file, where a switch is going on.
    fn share(&self, alloc: Global, batches: &[Batch]) -> Result<Option<Share>, KeeperFault>
        ensures share { IfOk result
            (λ s. IsShare self.now.identity batches.now self.now.next s) }
        ensures fault { IfErr result (λ e. has_stayed e ≡ true) }
    {
        match &self.next {
            Some(next) => share_of(alloc, &self.identity, next, batches),
            None => Ok(None),
        }
    }

    /// Writes that.
    fn add_share(
        &mut self,
        alloc: Global,
        batches: &[Batch],
        share: Option<Share>,
    ) -> Result<(), KeeperFault>
        requires keeper { IsKeeper D.seen D.staged D.may_leave self.old }
        requires begun { self.old.begun ≡ true }
        requires share { IsShare self.old.identity batches.now self.old.next share }
        ensures keeper { OnOk result (IsKeeper D.seen D.staged D.may_leave self.new) }
        ensures shares { OnOk result
            (Shares self.old.identity batches.now self.old.next self.new.next) }
        ensures seen { OnOk result (D.seen self.new.wal.disk ≡ D.seen self.old.wal.disk) }
        ensures going { OnOk result (self.new.stopped ≡ self.old.stopped) }
        ensures still { IsStill self.old self.new }
        ensures any_moment { LeavesOnly D.moment D.left_since self.old.wal.disk self.new.wal.disk
            (Leaves self.old.identity self.old.heaps.items
            (recovered (D.seen self.old.wal.disk)) (recovered (D.seen self.old.wal.disk))) }
        ensures failed { IfErr result (HasFailed self.new) }
    {
        self.stand();
        match share {
            Some(share) => self.keep_next(alloc, share),
            None => Ok(()),
        }
    }
}
