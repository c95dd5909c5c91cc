//! How a call begins and ends in one heap.
ghost use Rattle.std.specs.Prelude.{◌≡◌, ◌≤◌, ◌<◌, ◌+◌, ◌∷◌, [], List, IfErr, IfOk, IfSome, IsSome, OnErr, OnOk, Some, length, slice_get, ℕ};
ghost use Rattle.zq_journal.specs.Books.{LAST_STAMP};
ghost use Rattle.zq_spread.specs.Passes.{IsPassBut, IsPassOf, seen_at, steps_at};
ghost use Rattle.zq_spread.specs.HeapSlots.{IsBegun, IsWorkedOn};
ghost use Rattle.zq_spread.specs.Turns.{HasTurn, turns_at};
ghost use Rattle.zq_spread.specs.Worn.{IsRefusedIn, IsWornIn};
ghost use Rattle.zq_spread.specs.declared.locked_heap.LockedHeap.{LockedHeap as Value};
ghost use Rattle.zq_spread.specs.declared.heap_slot.HeapSlot.{HeapSlot};
ghost use Rattle.zq_ticketlock.specs.Seats.{id_of, held_lock, held_logged, given, value_of};

use crate::locked_heap::LockedHeap;
use crate::pass::Pass;
use crate::site::Site;
use std::sync::Wait;
use zq_ticketlock::{Held, TryFault, Worn};

impl Site {
    /// Begins a call in one heap, as `HeapSlot::begin` does. The pass has no seat there until the
    /// call ends.
    pub(crate) fn begin_in<R: Wait>(
        &self,
        rt: &R,
        pass: &mut Pass,
        heap: usize,
    ) -> Result<(Held<LockedHeap>, u64), Worn>
        requires pass { IsPassOf self.now pass.old }
        requires heap { heap < length self.now.slots.items }
        ensures pass { OnOk result (IsPassBut self.now (heap ∷ []) pass.new) }
        ensures bounded { IfOk result (λ begun. begun.1 ≤ LAST_STAMP) }
        ensures lock { IfOk result (λ begun. (slot : HeapSlot) →
            slice_get self.now.slots.items heap ≡ Some slot → held_lock begun.0 ≡ id_of slot.lock) }
        ensures given { IfOk result (λ begun. IsSome (given begun.0)) }
        ensures begun { IfOk result (λ begun. (slot : HeapSlot) →
            slice_get self.now.slots.items heap ≡ Some slot →
            IfSome (given begun.0)
            (IsBegun slot (seen_at pass.old heap) pass.old.stamp begun.1 (value_of begun.0))) }
        ensures turns { IfOk result (λ begun. held_logged begun.0 ≡ turns_at pass.old heap) }
        ensures others { OnOk result ((k : ℕ) → (k ≡ heap → ⊥) →
            (seen_at pass.new k ≡ seen_at pass.old k)
            × (turns_at pass.new k ≡ turns_at pass.old k)) }
        ensures steps { OnOk result ((k : ℕ) → steps_at pass.new k ≡ steps_at pass.old k) }
        ensures refused { OnErr result (IsPassOf self.now pass.new
            × IsWornIn (heap ∷ []) pass.old pass.new) }
    {
        let seat = self.take_seat(pass, heap);
        match self.slots[heap].begin(rt, seat, pass.stamp) {
            Ok(begun) => Ok(begun),
            Err(seat) => {
                self.put_seat(pass, heap, seat);
                Err(Worn)
            }
        }
    }

    /// The same where nobody holds the heap's lock or waits for it. It never waits. `Busy` and
    /// `Worn` leave the pass as a refused call does.
    pub(crate) fn try_begin_in(
        &self,
        pass: &mut Pass,
        heap: usize,
    ) -> Result<(Held<LockedHeap>, u64), TryFault>
        requires pass { IsPassOf self.now pass.old }
        requires heap { heap < length self.now.slots.items }
        ensures pass { OnOk result (IsPassBut self.now (heap ∷ []) pass.new) }
        ensures bounded { IfOk result (λ begun. begun.1 ≤ LAST_STAMP) }
        ensures lock { IfOk result (λ begun. (slot : HeapSlot) →
            slice_get self.now.slots.items heap ≡ Some slot → held_lock begun.0 ≡ id_of slot.lock) }
        ensures given { IfOk result (λ begun. IsSome (given begun.0)) }
        ensures begun { IfOk result (λ begun. (slot : HeapSlot) →
            slice_get self.now.slots.items heap ≡ Some slot →
            IfSome (given begun.0)
            (IsBegun slot (seen_at pass.old heap) pass.old.stamp begun.1 (value_of begun.0))) }
        ensures turns { IfOk result (λ begun. held_logged begun.0 ≡ turns_at pass.old heap) }
        ensures others { OnOk result ((k : ℕ) → (k ≡ heap → ⊥) →
            (seen_at pass.new k ≡ seen_at pass.old k)
            × (turns_at pass.new k ≡ turns_at pass.old k)) }
        ensures steps { OnOk result ((k : ℕ) → steps_at pass.new k ≡ steps_at pass.old k) }
        ensures refused { IfErr result (λ fault. IsPassOf self.now pass.new
            × IsRefusedIn fault (heap ∷ []) pass.old pass.new) }
    {
        let seat = self.take_seat(pass, heap);
        match self.slots[heap].try_begin(seat, pass.stamp) {
            Ok(begun) => Ok(begun),
            Err((fault, seat)) => {
                self.put_seat(pass, heap, seat);
                Err(fault)
            }
        }
    }

    /// Ends a call in one of the heaps in which the pass has no seat, as `HeapSlot::end` does. The
    /// pass has its seat there again, the steps that the call made, and the call's stamp.
    pub(crate) fn finish(&self, pass: &mut Pass, heap: usize, held: Held<LockedHeap>, stamp: u64)
        requires pass { (out : List ℕ) × IsPassBut self.now (heap ∷ out) pass.old }
        requires heap { heap < length self.now.slots.items }
        requires stamp { stamp ≤ LAST_STAMP }
        requires lock { (slot : HeapSlot) → slice_get self.now.slots.items heap ≡ Some slot →
            held_lock held ≡ id_of slot.lock }
        requires worked { (slot : HeapSlot) → slice_get self.now.slots.items heap ≡ Some slot →
            IfSome (given held) (IsWorkedOn slot (value_of held)) }
        ensures pass { (out : List ℕ) → IsPassBut self.now (heap ∷ out) pass.old →
            IsPassBut self.now out pass.new }
        ensures stamp { pass.new.stamp ≡ stamp }
        ensures seen { (left : Value) × (seen_at pass.new heap ≡ Some left)
            × (left.book ≡ (value_of held).book)
            × IfSome (given held)
            (λ found. HasTurn found left (turns_at pass.new heap) (held_logged held)) }
        ensures steps { IfSome (given held)
            (λ found. steps_at pass.new heap + found.book.count
            ≡ steps_at pass.old heap + (value_of held).book.count) }
        ensures others { (k : ℕ) → (k ≡ heap → ⊥) → (seen_at pass.new k ≡ seen_at pass.old k)
            × (steps_at pass.new k ≡ steps_at pass.old k)
            × (turns_at pass.new k ≡ turns_at pass.old k) }
    {
        let Some(mut count) = pass.counts[heap].take() else {
            unreachable!()
        };
        let seat = self.slots[heap].end(held, &mut count);
        pass.counts[heap] = Some(count);
        pass.seats[heap] = Some(seat);
        pass.stamp = stamp;
    }

    /// The same where that is the only one.
    pub(crate) fn end_in(&self, pass: &mut Pass, heap: usize, held: Held<LockedHeap>, stamp: u64)
        requires pass { IsPassBut self.now (heap ∷ []) pass.old }
        requires heap { heap < length self.now.slots.items }
        requires stamp { stamp ≤ LAST_STAMP }
        requires lock { (slot : HeapSlot) → slice_get self.now.slots.items heap ≡ Some slot →
            held_lock held ≡ id_of slot.lock }
        requires worked { (slot : HeapSlot) → slice_get self.now.slots.items heap ≡ Some slot →
            IfSome (given held) (IsWorkedOn slot (value_of held)) }
        ensures pass { IsPassOf self.now pass.new }
        ensures stamp { pass.new.stamp ≡ stamp }
        ensures seen { (left : Value) × (seen_at pass.new heap ≡ Some left)
            × (left.book ≡ (value_of held).book)
            × IfSome (given held)
            (λ found. HasTurn found left (turns_at pass.new heap) (held_logged held)) }
        ensures steps { IfSome (given held)
            (λ found. steps_at pass.new heap + found.book.count
            ≡ steps_at pass.old heap + (value_of held).book.count) }
        ensures others { (k : ℕ) → (k ≡ heap → ⊥) → (seen_at pass.new k ≡ seen_at pass.old k)
            × (steps_at pass.new k ≡ steps_at pass.old k)
            × (turns_at pass.new k ≡ turns_at pass.old k) }
    {
        self.finish(pass, heap, held, stamp);
    }
}
