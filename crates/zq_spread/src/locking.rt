//! How a call locks one of several heaps, and puts it home as it was.
ghost use Rattle.std.specs.Prelude.{◌≡◌, ◌<◌, ◌∷◌, IfErr, IfOk, IsErrOf, OnErr, Some, [], length};
ghost use Rattle.zq_spread.specs.Calls.{heaps_of};
ghost use Rattle.zq_spread.specs.LockedHeaps.{Follows};
ghost use Rattle.zq_spread.specs.Passes.{seen_at};
ghost use Rattle.zq_spread.specs.Several.{AreBack, HasSeatsIn, IsHeldAt, IsSameOutside};
ghost use Rattle.zq_spread.specs.Turns.{HasTurn, turns_at};
ghost use Rattle.zq_spread.specs.Worn.{IsUnlocked, reached_at, served_at};
ghost use Rattle.zq_ticketlock.specs.Seats.{held_logged, value_of};
ghost use Rattle.zq_ticketlock.specs.Steps.{FollowsSeen};

use crate::lock_scan::Stop;
use crate::locked_heap::LockedHeap;
use crate::pass::Pass;
use crate::site::Site;
use std::sync::Wait;
use zq_ticketlock::Held;

impl Site {
    /// Locks a heap, and waits for it. The pass has no seat there until the heap is put home. Where
    /// the lock is exhausted the pass has its seat again.
    pub(crate) fn lock_in<R: Wait>(
        &self,
        rt: &R,
        pass: &mut Pass,
        heap: usize,
    ) -> Result<Held<LockedHeap>, Stop>
        requires seats { HasSeatsIn self.now (heap ∷ []) pass.old }
        requires heap { heap < heaps_of self.now }
        ensures held { IfOk result (IsHeldAt self.now heap) }
        ensures follows { IfOk result
            (λ held. FollowsSeen Follows (value_of held) (seen_at pass.old heap)) }
        ensures turns { IfOk result (λ held. held_logged held ≡ turns_at pass.old heap) }
        ensures outside { IsSameOutside (heap ∷ []) pass.old pass.new }
        ensures back { OnErr result (AreBack self.now (heap ∷ []) pass.old pass.new) }
        ensures why { IfErr result
            (λ stop. IsUnlocked stop (served_at pass.new heap) (reached_at pass.new heap)) }
        ensures waits { IsErrOf result Stop.Busy → ⊥ }
    {
        let seat = self.take_seat(pass, heap);
        match self.slots[heap].lock.lock(rt, seat) {
            Ok(held) => Ok(held),
            Err((_, seat)) => {
                self.put_seat(pass, heap, seat);
                Err(Stop::Worn)
            }
        }
    }

    /// The same where nobody holds the heap or waits for it. It never waits.
    pub(crate) fn try_lock_in(&self, pass: &mut Pass, heap: usize) -> Result<Held<LockedHeap>, Stop>
        requires seats { HasSeatsIn self.now (heap ∷ []) pass.old }
        requires heap { heap < heaps_of self.now }
        ensures held { IfOk result (IsHeldAt self.now heap) }
        ensures follows { IfOk result
            (λ held. FollowsSeen Follows (value_of held) (seen_at pass.old heap)) }
        ensures turns { IfOk result (λ held. held_logged held ≡ turns_at pass.old heap) }
        ensures outside { IsSameOutside (heap ∷ []) pass.old pass.new }
        ensures back { OnErr result (AreBack self.now (heap ∷ []) pass.old pass.new) }
        ensures why { IfErr result
            (λ stop. IsUnlocked stop (served_at pass.new heap) (reached_at pass.new heap)) }
    {
        let seat = self.take_seat(pass, heap);
        match self.slots[heap].lock.try_lock(seat) {
            Ok(held) => Ok(held),
            Err((fault, seat)) => {
                self.put_seat(pass, heap, seat);
                Err(Stop::from(fault))
            }
        }
    }

    /// Puts a heap home as it was found.
    pub(crate) fn let_go(&self, pass: &mut Pass, heap: usize, held: Held<LockedHeap>)
        requires number { length pass.old.seats.items ≡ heaps_of self.now }
        requires heap { heap < heaps_of self.now }
        requires held { IsHeldAt self.now heap held }
        ensures seats { HasSeatsIn self.now (heap ∷ []) pass.new }
        ensures seen { seen_at pass.new heap ≡ Some (value_of held) }
        ensures turn { HasTurn (value_of held) (value_of held) (turns_at pass.new heap)
            (held_logged held) }
        ensures outside { IsSameOutside (heap ∷ []) pass.old pass.new }
    {
        let seat = self.slots[heap].lock.unlock(held);
        self.put_seat(pass, heap, seat);
    }
}
