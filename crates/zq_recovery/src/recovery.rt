//! The heaps of a site as far as its log was read.

ghost use Rattle.std.specs.Prelude.{IfErr, IfOk, None, OnOk, Some, length, ◌≡◌};
ghost use Rattle.zq_model.specs.Sets.{IsHeaps};
ghost use Rattle.zq_recovery.specs.Effect.{Does, Opens};
ghost use Rattle.zq_recovery.specs.Opening.{AreEmpty};
ghost use Rattle.zq_recovery.specs.Refused.{IsBehindNone, IsNotWhole, IsRefused};
ghost use Rattle.zq_recovery.specs.Step.{AreWhole};

use crate::heap::{are_whole, empty_stages, judge_sealed};
use crate::opening::{Identity, note_start};
use crate::pieces::take_piece;
use crate::refusal::Refusal;
use crate::rounds::take_batches;
use std::alloc::{AllocError, Global};
use zq_entries::{Entry, Start};
use zq_posheap::Seeded;
use zq_stage::Stage;

/// The heaps of a site as far as its log was read.
#[derive(Drop)]
pub struct Recovery {
    pub alloc: Global,
    /// Places keys and members.
    pub hasher: Seeded,
    /// What the settings say of the site.
    pub identity: Identity,
    /// The last start that was read, and `None` before the first.
    pub start: Option<Start>,
    /// What was recovered of each heap.
    pub stages: Vec<Stage>,
    /// Why it takes no more.
    pub refusal: Option<Refusal>,
}

impl Recovery {
    /// Nothing was read yet.
    pub fn new(alloc: Global, identity: Identity, hasher: Seeded) -> Result<Recovery, AllocError>
        requires { IsHeaps identity.heaps }
        ensures identity { IfOk result (λ r. r.identity ≡ identity) }
        ensures start { IfOk result (λ r. r.start ≡ None) }
        ensures number { IfOk result (λ r. length r.stages.items ≡ identity.heaps) }
        ensures empty { IfOk result (λ r. AreEmpty identity r.stages.items) }
        ensures goes_on { IfOk result (λ r. r.refusal ≡ None) }
    {
        let stages = empty_stages(alloc, &identity, hasher)?;
        Ok(Recovery {
            alloc,
            hasher,
            identity,
            start: None,
            stages,
            refusal: None,
        })
    }

    /// Takes the next entry. After a refusal what was taken is to be thrown away.
    pub fn take(&mut self, entry: Entry) -> Result<(), Refusal>
        ensures opens { OnOk result
            (Opens self.old.identity entry self.old.start self.new.start) }
        ensures does { OnOk result (Does entry self.old.stages.items self.new.stages.items) }
        ensures refused { IfErr result (λ r.
            IsRefused self.old.identity self.old.start self.old.stages.items entry r) }
        ensures identity { self.new.identity ≡ self.old.identity }
        ensures refusal { self.new.refusal ≡ self.old.refusal }
    {
        match entry {
            Entry::Start(start) => note_start(&self.identity, &mut self.start, &start),
            _ if self.start.is_none() => Err(Refusal::NoStart),
            Entry::Round(batches) => take_batches(self.alloc, &mut self.stages, &batches),
            Entry::Piece(piece) => take_piece(self.alloc, &mut self.stages, piece),
            Entry::Sealed(whole) => judge_sealed(&self.stages, &whole),
            Entry::Rest => judge_whole(&self.stages),
        }
    }

    /// The last start and the heaps, by their numbers: `NoStart` where nothing was read, and
    /// `NotWhole` where pieces of a heap are missing.
    pub fn finish(self) -> Result<(Start, Vec<Stage>), Refusal>
        ensures whole { OnOk result (AreWhole self.stages.items) }
        ensures heaps { IfOk result (λ x. x.1.items ≡ self.stages.items) }
        ensures start { IfOk result (λ x. self.start ≡ Some x.0) }
        ensures refused { IfErr result (λ r. IsBehindNone self.start r
            (IsNotWhole self.stages.items r)) }
    {
        let Recovery {
            alloc: _,
            hasher: _,
            identity: _,
            start,
            stages,
            refusal: _,
        } = self;
        let Some(start) = start else {
            return Err(Refusal::NoStart);
        };
        judge_whole(&stages)?;
        Ok((start, stages))
    }
}

/// Whether all pieces of all heaps came.
fn judge_whole(stages: &[Stage]) -> Result<(), Refusal>
    ensures whole { OnOk result (AreWhole stages.now) }
    ensures other { IfErr result (λ r. IsNotWhole stages.now r) }
{
    if are_whole(stages) {
        Ok(())
    } else {
        Err(Refusal::NotWhole)
    }
}
