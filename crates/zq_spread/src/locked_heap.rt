//! What the lock of a heap keeps.
ghost use Rattle.std.specs.Prelude.{◌≡◌, ◌≤◌, [], IfErr, OnErr, OnOk, drop, length};
ghost use Rattle.zq_model.specs.Books.{Book as Books};
ghost use Rattle.zq_model.specs.Reach.{IsWorked};
ghost use Rattle.zq_journal.specs.Books.{LAST_STAMP, state_of};
ghost use Rattle.zq_shard.specs.Shard.{IsOfHeap, IsSameHeap};
ghost use Rattle.zq_spread.specs.Batches.{IsNotTaken, IsTakenAll, IsTakenNext};
ghost use Rattle.zq_spread.specs.Answers.{HasWorked, IsCopyOf, IsDrained, IsHandedOn, IsMerged, IsPortionOf, IsSince, IsTaken, IsTakenOver, read_of};

use crate::faults::ReadFault;
use crate::taken_all::{TakeEnd, TakenAll};
use std::alloc::Global;
use zq_dots::{Op, Vector};
use zq_journal::{Book, LAST_COUNT, MergeFault, Since, TakeFault, TakeOverFault};
use zq_posheap::Seeded;
use zq_shard::{Shard, Spot, Taken};
use zq_stage::{Portion, PortionLimits};
use zq_tally::Total;
use zq_ticketlock::Keeps;

/// The book of a heap, and how many steps the passes have made in it.
// The total lies beside the front of the book, which every call reads and writes.
#[derive(Drop)]
pub struct LockedHeap {
    pub(crate) total: Total,
    pub(crate) book: Book,
}

impl Keeps for LockedHeap {
    ghost use Rattle.zq_spread.specs.LockedHeaps.{Follows, IsAtHome, follows_further, follows_itself};

    ghost holds = { IsAtHome };

    ghost follows = { Follows };

    ghost reflexive = { follows_itself };

    ghost transitive = { follows_further };
}

impl LockedHeap {
    /// Cuts the tail to its limits, and raises the stamp to that of a call.
    #[tactic(auto, using(crate::proofs::OneHeap::work_starts))]
    pub(crate) fn begin(&mut self, stamp: u64)
        requires stamp { self.old.book.stamp ≤ stamp }
        requires bounded { stamp ≤ LAST_STAMP }
        ensures total { self.new.total ≡ self.old.total }
        ensures worked { IsWorked self.new.book self.old.book stamp [] }
    {
        self.book.cut();
        self.book.touch(stamp);
    }

    /// Takes an operation of the heap, as its book does.
    pub(crate) fn take(&mut self, alloc: Global, stamp: u64, op: &Op) -> Result<Taken, TakeFault>
        requires stamp { self.old.book.stamp ≤ stamp }
        requires bounded { stamp ≤ LAST_STAMP }
        requires of_heap { IsOfHeap (state_of self.old.book) op.now }
        ensures total { self.new.total ≡ self.old.total }
        ensures worked { (a : Books) → IsWorked self.old.book a stamp [] →
            HasWorked (IsTaken stamp op.now result) self.new.book a stamp }
    {
        self.book.take(alloc, stamp, op)
    }

    /// Takes operations in turn, as its book does, up to the first that is Early or that the book
    /// refuses. What is New goes into the book by value, so that its key and its member are empty
    /// then; those that it did not take are as they were.
    pub(crate) fn take_all(&mut self, alloc: Global, stamp: u64, ops: &mut [Op]) -> TakenAll
        requires stamp { self.old.book.stamp ≤ stamp }
        requires bounded { stamp ≤ LAST_STAMP }
        ensures total { self.new.total ≡ self.old.total }
        ensures worked { (a : Books) → IsWorked self.old.book a stamp [] →
            HasWorked (IsTakenAll stamp ops.old result) self.new.book a stamp }
        ensures left { drop result.taken ops.new ≡ drop result.taken ops.old }
    {
        let before = self.book.count();
        let mut taken = 0;
        for op in ops.iter_mut() {
            if let Err(end) = self.take_next(alloc, stamp, op) {
                let fresh = self.book.count() - before;
                return TakenAll { taken, fresh, end };
            }
            taken += 1;
        }
        let fresh = self.book.count() - before;
        TakenAll {
            taken,
            fresh,
            end: TakeEnd::All,
        }
    }

    /// Takes an operation that is New or Known, or says why it takes it not: then nothing has
    /// changed. One that is New leaves its key and its member with the book.
    fn take_next(&mut self, alloc: Global, stamp: u64, op: &mut Op) -> Result<(), TakeEnd>
        requires stamp { self.old.book.stamp ≤ stamp }
        requires bounded { stamp ≤ LAST_STAMP }
        ensures total { self.new.total ≡ self.old.total }
        ensures taken { OnOk result
            (IsTakenNext stamp op.old self.old.book self.new.book) }
        ensures end { IfErr result
            (λ end. IsNotTaken end op.old (state_of self.old.book) self.old.book.count) }
        ensures refused { OnErr result (self.new ≡ self.old) }
        ensures kept { OnErr result (op.new ≡ op.old) }
    {
        match self.book.take_from(alloc, stamp, op) {
            Ok(Taken::Early) => Err(TakeEnd::Early),
            Ok(_) => Ok(()),
            Err(fault) => Err(TakeEnd::Refused(fault)),
        }
    }

    /// Takes all that another heap of its number and its rule has, as its book does.
    pub(crate) fn merge(
        &mut self,
        alloc: Global,
        stamp: u64,
        other: &Shard,
    ) -> Result<(), MergeFault>
        requires stamp { self.old.book.stamp ≤ stamp }
        requires bounded { stamp ≤ LAST_STAMP }
        requires same_heap { IsSameHeap (state_of self.old.book) other.now }
        requires same_rule { self.old.book.rule ≡ other.now.rule }
        ensures total { self.new.total ≡ self.old.total }
        ensures worked { (a : Books) → IsWorked self.old.book a stamp [] →
            HasWorked (IsMerged stamp other.now result) self.new.book a stamp }
    {
        self.book.merge(alloc, stamp, other)
    }

    /// Takes another heap of its number and its rule in the place of its own, as its book does.
    pub(crate) fn take_over(&mut self, stamp: u64, other: &mut Shard) -> Result<(), TakeOverFault>
        requires stamp { self.old.book.stamp ≤ stamp }
        requires bounded { stamp ≤ LAST_STAMP }
        requires same_heap { IsSameHeap (state_of self.old.book) other.old }
        requires same_rule { self.old.book.rule ≡ other.old.rule }
        ensures total { self.new.total ≡ self.old.total }
        ensures worked { (a : Books) → IsWorked self.old.book a stamp [] →
            HasWorked (IsTakenOver stamp other.old result) self.new.book a stamp }
        ensures handed_back { OnOk result (other.new ≡ state_of self.old.book) }
        ensures kept { OnErr result (other.new ≡ other.old) }
    {
        self.book.take_over(stamp, other)
    }

    /// A copy of the heap.
    pub(crate) fn copy(&self, alloc: Global) -> Result<Shard, ReadFault>
        ensures { read_of IsCopyOf result self.now.book }
    {
        Ok(self.book.shard().copy(alloc)?)
    }

    /// A copy of a portion of the heap, from this spot of a walk on.
    pub(crate) fn portion(
        &self,
        alloc: Global,
        spot: Spot,
        limits: PortionLimits,
        hasher: Seeded,
    ) -> Result<Portion, ReadFault>
        ensures { read_of (IsPortionOf spot limits) result self.now.book }
    {
        Ok(Portion::of(self.book.shard(), alloc, spot, limits, hasher)?)
    }

    /// What a peer of this vector lacks, as its book says.
    pub(crate) fn since(&self, alloc: Global, vector: &Vector) -> Result<Since, ReadFault>
        ensures { read_of (IsSince vector.now) result self.now.book }
    {
        Ok(self.book.since(alloc, vector)?)
    }

    /// Gives a log of this vector the oldest that it lacks, at most so many, and tells the book that
    /// all before the oldest of them was handed on.
    pub(crate) fn drain(
        &mut self,
        alloc: Global,
        stamp: u64,
        vector: &Vector,
        most: usize,
    ) -> Result<Since, ReadFault>
        requires stamp { self.old.book.stamp ≤ stamp }
        requires bounded { stamp ≤ LAST_STAMP }
        ensures total { self.new.total ≡ self.old.total }
        ensures worked { (a : Books) → IsWorked self.old.book a stamp [] →
            HasWorked (IsDrained stamp vector.now most result) self.new.book a stamp }
    {
        let first = self.book.first_since(alloc, vector, most)?;
        if let Since::Ops(_) = &first.since {
            self.hand_on(stamp, first.newest);
        }
        Ok(first.since)
    }

    /// Tells the book that all its steps were handed on but those that made its newest records, so
    /// many, unless it knows that, or counts no further.
    fn hand_on(&mut self, stamp: u64, newest: usize)
        requires stamp { self.old.book.stamp ≤ stamp }
        requires bounded { stamp ≤ LAST_STAMP }
        requires newest { newest ≤ length self.old.book.tail }
        ensures total { self.new.total ≡ self.old.total }
        ensures worked { (a : Books) → IsWorked self.old.book a stamp [] →
            IsHandedOn stamp newest self.old.book self.new.book a }
    {
        if self.book.count() < LAST_COUNT && !self.book.knows_handed(newest) {
            self.book.hand_on(stamp, newest);
        }
    }
}
