//! A heap of a site, under its lock.
ghost use Rattle.std.specs.Prelude.{◌≡◌, ◌≤◌, ◌+◌, ◌⊎◌, Some, [], IfErr, IfOk, IfSome, IsSome, max};
ghost use Rattle.zq_model.specs.Reach.{IsWorked};
ghost use Rattle.zq_journal.specs.Books.{LAST_STAMP};
ghost use Rattle.zq_spread.specs.LockedHeaps.{Follows, IsAtHome};
ghost use Rattle.zq_spread.specs.HeapSlots.{IsBegun, IsCountedUp, IsOf, IsWorkedOn};
ghost use Rattle.zq_spread.specs.Turns.{HasTurn, IsLeftAsGiven};
ghost use Rattle.zq_spread.specs.Worn.{IsAtLast, IsUnbegun};
ghost use Rattle.zq_tally.specs.Words as tally;
ghost use Rattle.zq_ticketlock.specs.Seats.{id_of, lock_of, logged, reached, seen, served, HasSeen, held_lock, held_logged, given, value_of};
ghost use Rattle.zq_ticketlock.specs.Steps.{FollowsSeen};

use crate::locked_heap::LockedHeap;
use std::sync::Wait;
use zq_dots::Rule;
use zq_journal::LAST_COUNT;
use zq_tally::{Count, Tally};
use zq_ticketlock::{Held, Seat, TicketLock, TryFault};

/// A heap of a site: its lock, the table that counts the steps there, and what stays of it.
#[derive(Drop)]
pub(crate) struct HeapSlot {
    pub(crate) lock: TicketLock<LockedHeap>,
    pub(crate) tally: Tally,
    pub(crate) heap: u8,
    pub(crate) heaps: u8,
    pub(crate) rule: Rule,
    // The count that the book began with.
    pub(crate) opening: u64,
    // How many parts of the table are no pass's.
    pub(crate) spare: u64,
}

impl HeapSlot {
    /// Locks the heap, and begins a call there, with the stamp after those of the heap and of the
    /// pass: the tail is cut where it is long, and the stamp raised. Where the lock is exhausted,
    /// or that stamp would be past the last one, the seat comes back, and nothing has changed.
    pub(crate) fn begin<R: Wait>(
        &self,
        rt: &R,
        seat: Seat<LockedHeap>,
        floor: u64,
    ) -> Result<(Held<LockedHeap>, u64), Seat<LockedHeap>>
        requires lock { lock_of seat ≡ id_of self.now.lock }
        requires seen { IfSome (seen seat) (IsOf self.now) }
        ensures lock { IfOk result (λ begun. held_lock begun.0 ≡ id_of self.now.lock) }
        ensures bounded { IfOk result (λ begun. begun.1 ≤ LAST_STAMP) }
        ensures given { IfOk result (λ begun. IsSome (given begun.0)) }
        ensures begun { IfOk result
            (λ begun. IfSome (given begun.0)
            (IsBegun self.now (seen seat) floor begun.1 (value_of begun.0))) }
        ensures turns { IfOk result (λ begun. held_logged begun.0 ≡ logged seat) }
        ensures refused { IfErr result (λ back. (lock_of back ≡ id_of self.now.lock)
            × IfSome (seen back) (IsOf self.now)
            × IfSome (seen back) (λ x. FollowsSeen Follows x (seen seat))) }
        ensures left { IfErr result (λ back. IsLeftAsGiven (logged back) (logged seat)) }
        ensures worn { IfErr result (λ back. (LAST_STAMP ≤ floor)
            ⊎ IsAtLast (reached back) (seen back)) }
    {
        match self.lock.lock(rt, seat) {
            Ok(held) => self.date(held, floor),
            Err((_, seat)) => Err(seat),
        }
    }

    /// The same where nobody holds the heap's lock or waits for it. It never waits.
    pub(crate) fn try_begin(
        &self,
        seat: Seat<LockedHeap>,
        floor: u64,
    ) -> Result<(Held<LockedHeap>, u64), (TryFault, Seat<LockedHeap>)>
        requires lock { lock_of seat ≡ id_of self.now.lock }
        requires seen { IfSome (seen seat) (IsOf self.now) }
        ensures lock { IfOk result (λ begun. held_lock begun.0 ≡ id_of self.now.lock) }
        ensures bounded { IfOk result (λ begun. begun.1 ≤ LAST_STAMP) }
        ensures given { IfOk result (λ begun. IsSome (given begun.0)) }
        ensures begun { IfOk result
            (λ begun. IfSome (given begun.0)
            (IsBegun self.now (seen seat) floor begun.1 (value_of begun.0))) }
        ensures turns { IfOk result (λ begun. held_logged begun.0 ≡ logged seat) }
        ensures refused { IfErr result (λ e. (lock_of e.1 ≡ id_of self.now.lock)
            × IfSome (seen e.1) (IsOf self.now)
            × IfSome (seen e.1) (λ x. FollowsSeen Follows x (seen seat))) }
        ensures left { IfErr result (λ e. IsLeftAsGiven (logged e.1) (logged seat)) }
        ensures why { IfErr result
            (λ e. IsUnbegun e.0 floor (served e.1) (reached e.1) (seen e.1)) }
    {
        match self.lock.try_lock(seat) {
            Ok(held) => match self.date(held, floor) {
                Ok(begun) => Ok(begun),
                Err(seat) => Err((TryFault::Worn, seat)),
            },
            Err((fault, seat)) => Err((fault, seat)),
        }
    }

    /// Begins a call in a heap that was just locked, or puts it home.
    #[tactic(auto, unfolding(zq_journal::specs::Books::LAST_STAMP))]
    fn date(
        &self,
        mut held: Held<LockedHeap>,
        floor: u64,
    ) -> Result<(Held<LockedHeap>, u64), Seat<LockedHeap>>
        requires lock { held_lock held ≡ id_of self.now.lock }
        requires given { given held ≡ Some (value_of held) }
        requires of { IsOf self.now (value_of held) }
        requires home { IsAtHome (value_of held) }
        ensures lock { IfOk result (λ begun. held_lock begun.0 ≡ id_of self.now.lock) }
        ensures bounded { IfOk result (λ begun. begun.1 ≤ LAST_STAMP) }
        ensures given { IfOk result (λ begun. IsSome (given begun.0)) }
        ensures found { IfOk result (λ begun. given begun.0 ≡ Some (value_of held)) }
        ensures begun { IfOk result (λ begun. begun.1 ≡ max floor (value_of held).book.stamp + 1) }
        ensures worked { IfOk result
            (λ begun. IsWorked (value_of begun.0).book (value_of held).book begun.1 []) }
        ensures total { IfOk result (λ begun. (value_of begun.0).total ≡ (value_of held).total) }
        ensures turns { IfOk result (λ begun. held_logged begun.0 ≡ held_logged held) }
        ensures refused { IfErr result (λ back. (lock_of back ≡ id_of self.now.lock)
            × (seen back ≡ Some (value_of held))) }
        ensures left { IfErr result (λ back. IsLeftAsGiven (logged back) (held_logged held)) }
        ensures worn { IfErr result (λ back. (LAST_STAMP ≤ floor)
            ⊎ IsAtLast (reached back) (seen back)) }
    {
        let last = u64::max(floor, held.value().book.stamp());
        if last >= LAST_COUNT {
            return Err(self.lock.unlock(held));
        }
        held.value_mut().begin(last + 1);
        Ok((held, last + 1))
    }

    /// Counts a step for each record and each merge that was made since the total was right.
    fn count_up(&self, kept: &mut LockedHeap, count: &mut Count)
        requires own { (tally.count_table count.old ≡ tally.id_of self.now.tally)
            × (tally.total_table kept.old.total ≡ tally.id_of self.now.tally) }
        requires behind { self.now.opening + tally.total_of kept.old.total ≤ kept.old.book.count }
        ensures counted { IsCountedUp self.now kept.new kept.old }
        ensures steps { tally.steps_of count.new + self.now.opening + tally.total_of kept.old.total
            ≡ tally.steps_of count.old + kept.old.book.count }
        ensures table { tally.count_table count.new ≡ tally.count_table count.old }
    {
        let made = kept.book.count() - self.opening - kept.total.steps();
        for _step in 0..made {
            self.tally.step(count, &mut kept.total);
        }
    }

    /// Puts the heap home after a call of this stamp, and counts the call's steps. The seat has
    /// then seen the heap.
    pub(crate) fn end(&self, mut held: Held<LockedHeap>, count: &mut Count) -> Seat<LockedHeap>
        requires lock { held_lock held ≡ id_of self.now.lock }
        requires own { tally.count_table count.old ≡ tally.id_of self.now.tally }
        requires worked { IfSome (given held) (IsWorkedOn self.now (value_of held)) }
        ensures lock { lock_of result ≡ id_of self.now.lock }
        ensures table { tally.count_table count.new ≡ tally.count_table count.old }
        ensures seen { HasSeen result (λ y. (y.book ≡ (value_of held).book) × IsOf self.now y
            × IfSome (given held) (λ found. HasTurn found y (logged result) (held_logged held))) }
        ensures steps { tally.steps_of count.new + self.now.opening
            + tally.total_of (value_of held).total ≡ tally.steps_of count.old
            + (value_of held).book.count }
    {
        // For the proof: a value that is held was always given.
        held.was_given();
        self.count_up(held.value_mut(), count);
        self.lock.unlock(held)
    }
}
