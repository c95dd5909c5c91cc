//! How a call begins and ends in several heaps.
ghost use Rattle.std.specs.Prelude.{◌≡◌, ◌≤◌, ◌<◌, ◌+◌, ◌⊎◌, ◌∷◌, IfErr, IfOk, IsErrOf, OnErr, OnOk, Some, [], false, length, max, true, vec_capacity, ℕ};
ghost use Rattle.zq_journal.specs.Books.{LAST_STAMP, state_of};
ghost use Rattle.zq_model.specs.Sets.{IsIn};
ghost use Rattle.zq_shard.specs.Shard.{queue_at};
ghost use Rattle.zq_spread.specs.Calls.{heaps_of};
ghost use Rattle.zq_spread.specs.Passes.{IsPassBut, IsPassOf, seen_at, steps_at};
ghost use Rattle.zq_spread.specs.Several.{AreBack, AreHeapsOf, HasBegun, HasEndedIn, HasPushed, HasSeatsIn, IsHeldAt, IsSameOutside, MayEndIn, helds_of};
ghost use Rattle.zq_spread.specs.Turns.{HasTurn, turns_at};
ghost use Rattle.zq_spread.specs.Worn.{IsStopOf};
ghost use Rattle.zq_ticketlock.specs.Seats.{held_logged, value_of};

use crate::lock_scan::{LockScan, Stop};
use crate::locked_heap::LockedHeap;
use crate::locked_heaps::LockedHeaps;
use crate::pass::Pass;
use crate::site::Site;
use crate::stacking::begun;
use std::sync::Wait;
use zq_journal::LAST_COUNT;
use zq_ticketlock::Held;

impl LockScan {
    /// What is found with one heap more.
    fn with(self, kept: &LockedHeap, key: &[u8]) -> LockScan
        ensures stamp { result.stamp ≡ max self.stamp kept.now.book.stamp }
        ensures enough { result.is_enough ≡ true → (self.is_enough ≡ true)
            ⊎ (1 ≤ length (queue_at (state_of kept.now.book) key.now)) }
        ensures none { result.is_enough ≡ false → (self.is_enough ≡ false)
            × (length (queue_at (state_of kept.now.book) key.now) ≡ 0) }
    {
        let book = &kept.book;
        LockScan {
            stamp: u64::max(self.stamp, book.stamp()),
            is_enough: self.is_enough || book.shard().count(key) > 0,
        }
    }

    /// The stamp of a call that has found this in all its heaps.
    #[tactic(auto, unfolding(zq_journal::specs::Books::LAST_STAMP))]
    fn next_stamp(self) -> Result<u64, Stop>
        ensures next { IfOk result (λ stamp. stamp ≡ self.stamp + 1) }
        ensures last { IfOk result (λ stamp. stamp ≤ LAST_STAMP) }
        ensures enough { IfOk result (λ stamp. self.is_enough ≡ true) }
        ensures nothing { IsErrOf result Stop.Nothing → self.is_enough ≡ false }
        ensures worn { IsErrOf result Stop.Worn → LAST_STAMP ≤ self.stamp }
        ensures free { IsErrOf result Stop.Busy → ⊥ }
    {
        if !self.is_enough {
            return Err(Stop::Nothing);
        }
        if self.stamp >= LAST_COUNT {
            return Err(Stop::Worn);
        }
        Ok(self.stamp + 1)
    }
}

impl Site {
    /// Goes on with a heap, as the call went on in those after it: begins the call there too, and
    /// puts the heap onto the stack, or puts it home.
    fn go_on(
        &self,
        pass: &mut Pass,
        heap: usize,
        held: Held<LockedHeap>,
        begins: Result<u64, Stop>,
        holds: &mut LockedHeaps,
    ) -> Result<u64, Stop>
        requires number { length pass.old.seats.items ≡ heaps_of self.now }
        requires heap { heap < heaps_of self.now }
        requires held { IsHeldAt self.now heap held }
        requires room { OnOk begins (length (helds_of holds.old) < vec_capacity holds.old.helds) }
        requires later { IfOk begins (λ stamp. (value_of held).book.stamp < stamp) }
        requires last { IfOk begins (λ stamp. stamp ≤ LAST_STAMP) }
        ensures same { result ≡ begins }
        ensures outside { IsSameOutside (heap ∷ []) pass.old pass.new }
        ensures begun { IfOk begins
            (λ stamp. HasPushed stamp held (helds_of holds.old) (helds_of holds.new)) }
        ensures left { OnOk begins (pass.new ≡ pass.old) }
        ensures home { OnErr begins ((helds_of holds.new ≡ helds_of holds.old)
            × HasSeatsIn self.now (heap ∷ []) pass.new
            × (seen_at pass.new heap ≡ Some (value_of held))
            × HasTurn (value_of held) (value_of held) (turns_at pass.new heap) (held_logged held)) }
        ensures stays { vec_capacity holds.new.helds ≡ vec_capacity holds.old.helds }
    {
        match begins {
            Ok(stamp) => {
                holds.push(begun(held, stamp));
                Ok(stamp)
            }
            Err(stop) => {
                self.let_go(pass, heap, held);
                Err(stop)
            }
        }
    }

    /// Locks heaps, the lowest first, and begins a call in them once all are locked, at the stamp
    /// after the greatest that was found: the tails are cut where they are long, and the stamps
    /// raised. Or else all are put home as they were.
    pub(crate) fn begin_all<R: Wait>(
        &self,
        rt: &R,
        pass: &mut Pass,
        heaps: &[u8],
        key: &[u8],
        scan: LockScan,
        holds: &mut LockedHeaps,
    ) -> Result<u64, Stop>
        requires heaps { AreHeapsOf self.now heaps.now }
        requires seats { HasSeatsIn self.now heaps.now pass.old }
        requires empty { helds_of holds.old ≡ [] }
        requires room { length heaps.now ≤ vec_capacity holds.old.helds }
        ensures outside { IsSameOutside heaps.now pass.old pass.new }
        ensures begun { IfOk result
            (λ stamp. HasBegun self.now pass.old heaps.now key.now scan stamp
            (helds_of holds.new)) }
        ensures back { OnErr result (AreBack self.now heaps.now pass.old pass.new) }
        ensures why { IfErr result
            (IsStopOf scan.stamp scan.is_enough heaps.now key.now pass.old pass.new) }
        ensures waits { IsErrOf result Stop.Busy → ⊥ }
        ensures none { OnErr result (helds_of holds.new ≡ []) }
        ensures stays { vec_capacity holds.new.helds ≡ vec_capacity holds.old.helds }
    {
        let Some((first, others)) = heaps.split_first() else {
            return scan.next_stamp();
        };
        let heap = usize::from(*first);
        let held = self.lock_in(rt, pass, heap)?;
        let now = scan.with(held.value(), key);
        let begins = self.begin_all(rt, pass, others, key, now, holds);
        self.go_on(pass, heap, held, begins, holds)
    }

    /// The same where nobody holds one of the heaps or waits for it. It never waits.
    pub(crate) fn try_begin_all(
        &self,
        pass: &mut Pass,
        heaps: &[u8],
        key: &[u8],
        scan: LockScan,
        holds: &mut LockedHeaps,
    ) -> Result<u64, Stop>
        requires heaps { AreHeapsOf self.now heaps.now }
        requires seats { HasSeatsIn self.now heaps.now pass.old }
        requires empty { helds_of holds.old ≡ [] }
        requires room { length heaps.now ≤ vec_capacity holds.old.helds }
        ensures outside { IsSameOutside heaps.now pass.old pass.new }
        ensures begun { IfOk result
            (λ stamp. HasBegun self.now pass.old heaps.now key.now scan stamp
            (helds_of holds.new)) }
        ensures back { OnErr result (AreBack self.now heaps.now pass.old pass.new) }
        ensures why { IfErr result
            (IsStopOf scan.stamp scan.is_enough heaps.now key.now pass.old pass.new) }
        ensures none { OnErr result (helds_of holds.new ≡ []) }
        ensures stays { vec_capacity holds.new.helds ≡ vec_capacity holds.old.helds }
    {
        let Some((first, others)) = heaps.split_first() else {
            return scan.next_stamp();
        };
        let heap = usize::from(*first);
        let held = self.try_lock_in(pass, heap)?;
        let now = scan.with(held.value(), key);
        let begins = self.try_begin_all(pass, others, key, now, holds);
        self.go_on(pass, heap, held, begins, holds)
    }

    /// Ends a call of this stamp in the heaps that it holds, and counts its steps in each.
    pub(crate) fn end_all(&self, pass: &mut Pass, heaps: &[u8], holds: &mut LockedHeaps, stamp: u64)
        requires heaps { AreHeapsOf self.now heaps.now }
        requires pass { IsPassBut self.now heaps.now pass.old }
        requires stamp { stamp ≤ LAST_STAMP }
        requires worked { MayEndIn self.now heaps.now (helds_of holds.old) }
        ensures pass { IsPassOf self.now pass.new }
        ensures stamp { pass.new.stamp ≡ stamp }
        ensures ended { HasEndedIn pass.old pass.new heaps.now (helds_of holds.old) }
        ensures others { (k : ℕ) → (IsIn k heaps.now → ⊥) →
            (seen_at pass.new k ≡ seen_at pass.old k) × (steps_at pass.new k ≡ steps_at pass.old k)
            × (turns_at pass.new k ≡ turns_at pass.old k) }
        ensures empty { helds_of holds.new ≡ [] }
    {
        for heap in heaps {
            let held = holds.pop();
            self.finish(pass, usize::from(*heap), held, stamp);
        }
        pass.stamp = stamp;
    }
}
