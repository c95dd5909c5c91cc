//! Heaps that take the place of a site's own.
ghost use Rattle.std.specs.Prelude.{◌≡◌, ◌≢◌, ◌↔◌, ◌⊎◌, ◌∷◌, [], IsErrOf, OnErr};
ghost use Rattle.zq_dots.specs.Rule.{rule_of};
ghost use Rattle.zq_spread.specs.Answers.{IsTakenOver};
ghost use Rattle.zq_spread.specs.Calls.{IsCall, IsLikeSite, heaps_of};
ghost use Rattle.zq_spread.specs.Passes.{IsPassOf};
ghost use Rattle.zq_spread.specs.Worn.{IsWornIn};

use crate::pass::Pass;
use crate::site::Site;
use std::sync::Wait;
use zq_journal::TakeOverFault;
use zq_shard::Shard;

impl Site {
    /// Exchanges a heap for another one, which has all that it has, and leaves there the heap that
    /// it had. The lock is held for that alone: nothing is copied, and the heap that it had is
    /// dropped by the caller. No record is left, since a peer that lacks any of what came so needs
    /// the whole state.
    ///
    /// `WrongHeap` where the heap is one of another number of heaps, else `WrongRule` where its
    /// rule is another: then no lock is taken. Else `Worn` where the heap's lock or the stamp is at
    /// its last value, and then no image, book or stamp has changed. Else the call stands at its
    /// stamp, and is refused with `Worn` where the book's count is at its last value, else with
    /// `Lacks` where the other heap lacks some of what the heap has: a caller gives it that, as
    /// [`Site::since`] tells it, and tries again. After each fault the other heap is as it was.
    pub fn take_over<R: Wait>(
        &self,
        rt: &R,
        pass: &mut Pass,
        other: &mut Shard,
    ) -> Result<(), TakeOverFault>
        requires pass { IsPassOf self.now pass.old }
        ensures pass { IsPassOf self.now pass.new }
        ensures wrong_heap { IsErrOf result TakeOverFault.WrongHeap
            ↔ (other.old.heaps ≢ heaps_of self.now) }
        ensures wrong_rule { IsErrOf result TakeOverFault.WrongRule
            ↔ ((other.old.heaps ≡ heaps_of self.now) × (other.old.rule ≢ rule_of self.now.rule)) }
        ensures unlocked { (IsLikeSite self.now other.old → ⊥) → pass.new ≡ pass.old }
        ensures called { IsLikeSite self.now other.old →
            IsCall (IsTakenOver pass.new.stamp other.old result) pass.old pass.new
            (other.old.heap ∷ [])
            ⊎ (IsErrOf result TakeOverFault.Worn
            × IsWornIn (other.old.heap ∷ []) pass.old pass.new) }
        ensures kept { OnErr result (other.new ≡ other.old) }
    {
        if usize::from(other.heaps()) != self.slots.len() {
            return Err(TakeOverFault::WrongHeap);
        }
        if other.rule() != self.rule {
            return Err(TakeOverFault::WrongRule);
        }
        let heap = usize::from(other.heap());
        let Ok((mut held, stamp)) = self.begin_in(rt, pass, heap) else {
            return Err(TakeOverFault::Worn);
        };
        let taken = held.value_mut().take_over(stamp, other);
        self.end_in(pass, heap, held, stamp);
        taken
    }
}
