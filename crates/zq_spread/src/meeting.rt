//! How two passes meet.
ghost use Rattle.std.specs.Prelude.{◌≡◌, ◌<◌, ◌≤◌, Some, IfErr, IfOk, IfSome, OnErr, OnOk, length, ℕ};
ghost use Rattle.zq_spread.specs.Companies.{IsSameBut};
ghost use Rattle.zq_spread.specs.LockedHeaps.{Follows};
ghost use Rattle.zq_spread.specs.Meetings.{HaveLeft, HaveMet, HaveParted};
ghost use Rattle.zq_spread.specs.Passes.{IsPassOf, IsSeatOf, seen_at};
ghost use Rattle.zq_spread.specs.Turns.{turns_at};
ghost use Rattle.zq_spread.specs.Worn.{reached_at};
ghost use Rattle.zq_ticketlock.specs.Limits.{last_ticket};
ghost use Rattle.zq_ticketlock.specs.Seats.{lock_of, logged, reached, seen};

use crate::heap_slot::HeapSlot;
use crate::locked_heap::LockedHeap;
use crate::pass::Pass;
use crate::site::Site;
use std::sync::Wait;
use zq_ticketlock::{Seat, Worn};

impl HeapSlot {
    /// Locks the heap with the first seat after both have met, and unlocks it. Both seats come back
    /// in either case.
    fn meet<R: Wait>(
        &self,
        rt: &R,
        first: Seat<LockedHeap>,
        second: Seat<LockedHeap>,
    ) -> Result<(Seat<LockedHeap>, Seat<LockedHeap>), (Seat<LockedHeap>, Seat<LockedHeap>)>
        requires first { IsSeatOf self.now (Some (Some first)) }
        requires second { IsSeatOf self.now (Some (Some second)) }
        ensures seats { IfOk result (λ seats. IsSeatOf self.now (Some (Some seats.0))
            × IsSeatOf self.now (Some (Some seats.1))) }
        ensures met { IfOk result
            (λ seats. HaveMet (seen first) (seen second) (seen seats.0) (seen seats.1)) }
        ensures left { IfOk result
            (λ seats. HaveLeft (logged first) (logged second) (logged seats.0) (logged seats.1)) }
        ensures worn_seats { IfErr result (λ seats. IsSeatOf self.now (Some (Some seats.0))
            × IsSeatOf self.now (Some (Some seats.1))) }
        ensures worn { IfErr result
            (λ seats. HaveParted (seen first) (seen second) (seen seats.0) (seen seats.1)) }
        ensures worn_left { IfErr result
            (λ seats. HaveLeft (logged first) (logged second) (logged seats.0) (logged seats.1)) }
        ensures last { IfErr result (λ seats. last_ticket ≤ reached seats.0) }
    {
        // For the proof: a seat has always seen a value.
        first.has_seen();
        second.has_seen();
        match self.lock.lock_after(rt, first, second) {
            Ok((held, second)) => Ok((self.lock.unlock(held), second)),
            Err((_, first, second)) => Err((first, second)),
        }
    }
}

impl Site {
    /// Lets two passes meet in a heap: the first then has seen what either had seen there. No
    /// image, book or stamp has changed: the heap is let go as it was given. `Worn` where the
    /// heap's lock is at its last ticket, which the first pass has then found.
    pub fn meet<R: Wait>(
        &self,
        rt: &R,
        first: &mut Pass,
        second: &mut Pass,
        heap: u8,
    ) -> Result<(), Worn>
        requires first { IsPassOf self.now first.old }
        requires second { IsPassOf self.now second.old }
        requires heap { heap < length self.now.slots.items }
        ensures first { IsPassOf self.now first.new × IsSameBut heap first.old first.new }
        ensures second { IsPassOf self.now second.new × IsSameBut heap second.old second.new }
        ensures met { OnOk result
            (HaveMet (seen_at first.old heap) (seen_at second.old heap) (seen_at first.new heap)
            (seen_at second.new heap)) }
        ensures worn { OnErr result
            (HaveParted (seen_at first.old heap) (seen_at second.old heap) (seen_at first.new heap)
            (seen_at second.new heap)) }
        ensures left { HaveLeft (turns_at first.old heap) (turns_at second.old heap)
            (turns_at first.new heap) (turns_at second.new heap) }
        ensures last { OnErr result (last_ticket ≤ reached_at first.new heap) }
    {
        let heap = usize::from(heap);
        let one = self.take_seat(first, heap);
        let other = self.take_seat(second, heap);
        match self.slots[heap].meet(rt, one, other) {
            Ok((one, other)) => {
                self.put_seat(first, heap, one);
                self.put_seat(second, heap, other);
                Ok(())
            }
            Err((one, other)) => {
                self.put_seat(first, heap, one);
                self.put_seat(second, heap, other);
                Err(Worn)
            }
        }
    }
}
