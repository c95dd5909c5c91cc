//! Heaps of other sites.
ghost use Rattle.std.specs.Prelude.{◌≡◌, ◌≢◌, ◌↔◌, ◌⊎◌, ◌∷◌, [], IsErrOf};
ghost use Rattle.zq_dots.specs.Rule.{rule_of};
ghost use Rattle.zq_spread.specs.Answers.{IsMerged};
ghost use Rattle.zq_spread.specs.Calls.{IsCall, IsLikeSite, heaps_of};
ghost use Rattle.zq_spread.specs.Passes.{IsPassOf};
ghost use Rattle.zq_spread.specs.Worn.{IsWornIn};

use crate::pass::Pass;
use crate::site::Site;
use std::alloc::Global;
use std::sync::Wait;
use zq_journal::MergeFault;
use zq_shard::Shard;

impl Site {
    /// Takes all that another site's heap has. No record is left there, since a peer that lacks any
    /// of it needs the whole state.
    ///
    /// `WrongHeap` where the heap is one of another number of heaps, else `WrongRule` where its
    /// rule is another: then no lock is taken. Else `Worn` where the heap's lock or the stamp is at
    /// its last value, and then no image, book or stamp has changed. Else the call stands at its
    /// stamp, and is refused with `Worn` where the book's count is at its last value, or with
    /// `NoMemory`; then the image is as it was.
    pub fn merge<R: Wait>(
        &self,
        rt: &R,
        alloc: Global,
        pass: &mut Pass,
        other: &Shard,
    ) -> Result<(), MergeFault>
        requires pass { IsPassOf self.now pass.old }
        ensures pass { IsPassOf self.now pass.new }
        ensures wrong_heap { IsErrOf result MergeFault.WrongHeap
            ↔ (other.now.heaps ≢ heaps_of self.now) }
        ensures wrong_rule { IsErrOf result MergeFault.WrongRule
            ↔ ((other.now.heaps ≡ heaps_of self.now) × (other.now.rule ≢ rule_of self.now.rule)) }
        ensures unlocked { (IsLikeSite self.now other.now → ⊥) → pass.new ≡ pass.old }
        ensures called { IsLikeSite self.now other.now →
            IsCall (IsMerged pass.new.stamp other.now result) pass.old pass.new
            (other.now.heap ∷ [])
            ⊎ (IsErrOf result MergeFault.Worn
            × IsWornIn (other.now.heap ∷ []) pass.old pass.new) }
    {
        if usize::from(other.heaps()) != self.slots.len() {
            return Err(MergeFault::WrongHeap);
        }
        if other.rule() != self.rule {
            return Err(MergeFault::WrongRule);
        }
        let heap = usize::from(other.heap());
        let Ok((mut held, stamp)) = self.begin_in(rt, pass, heap) else {
            return Err(MergeFault::Worn);
        };
        let merged = held.value_mut().merge(alloc, stamp, other);
        self.end_in(pass, heap, held, stamp);
        merged
    }
}
