//! How a pass's seat in a heap is taken out and put back.
ghost use Rattle.std.specs.Prelude.{◌≡◌, ◌<◌, ◌∷◌, [], IsSome, Some, length, slice_get};
ghost use Rattle.zq_spread.specs.Calls.{heaps_of};
ghost use Rattle.zq_spread.specs.Companies.{IsSameBut};
ghost use Rattle.zq_spread.specs.Passes.{IsPassBut, IsPassOf, IsSeatOf, seen_at};
ghost use Rattle.zq_spread.specs.Several.{HasSeatsIn, IsSameOutside};
ghost use Rattle.zq_spread.specs.Turns.{turns_at};
ghost use Rattle.zq_spread.specs.Worn.{reached_at, served_at};
ghost use Rattle.zq_spread.specs.declared.heap_slot.HeapSlot.{HeapSlot};
ghost use Rattle.zq_ticketlock.specs.Seats.{logged, reached, seen, served};

use crate::locked_heap::LockedHeap;
use crate::pass::Pass;
use crate::site::Site;
use zq_ticketlock::Seat;

impl Site {
    /// Takes the seat out.
    pub(crate) fn take_seat(&self, pass: &mut Pass, heap: usize) -> Seat<LockedHeap>
        requires seats { HasSeatsIn self.now (heap ∷ []) pass.old }
        requires heap { heap < heaps_of self.now }
        ensures pass { IsPassOf self.now pass.old → IsPassBut self.now (heap ∷ []) pass.new }
        ensures seat { (slot : HeapSlot) → slice_get self.now.slots.items heap ≡ Some slot →
            IsSeatOf slot (Some (Some result)) }
        ensures some { IsSome (seen result) }
        ensures seen { seen result ≡ seen_at pass.old heap }
        ensures turns { logged result ≡ turns_at pass.old heap }
        ensures stays { IsSameBut heap pass.old pass.new }
        ensures outside { IsSameOutside (heap ∷ []) pass.old pass.new }
    {
        let Some(seat) = pass.seats[heap].take() else {
            unreachable!()
        };
        // For the proof: a seat has always seen a value.
        seat.has_seen();
        seat
    }

    /// Puts a seat back.
    pub(crate) fn put_seat(&self, pass: &mut Pass, heap: usize, seat: Seat<LockedHeap>)
        requires number { length pass.old.seats.items ≡ heaps_of self.now }
        requires heap { heap < heaps_of self.now }
        requires seat { (slot : HeapSlot) → slice_get self.now.slots.items heap ≡ Some slot →
            IsSeatOf slot (Some (Some seat)) }
        ensures pass { IsPassBut self.now (heap ∷ []) pass.old → IsPassOf self.now pass.new }
        ensures seats { HasSeatsIn self.now (heap ∷ []) pass.new }
        ensures seen { seen_at pass.new heap ≡ seen seat }
        ensures turns { turns_at pass.new heap ≡ logged seat }
        ensures served { served_at pass.new heap ≡ served seat }
        ensures reached { reached_at pass.new heap ≡ reached seat }
        ensures stays { IsSameBut heap pass.old pass.new }
        ensures outside { IsSameOutside (heap ∷ []) pass.old pass.new }
    {
        pass.seats[heap] = Some(seat);
    }
}
