//! How operations that are parked are tried again.
ghost use Rattle.std.specs.Prelude.{◌≡◌, ◌≢◌, ◌≤◌, ◌<◌, IfErr, IfOk, IsTrue, OnErr, OnOk, [], false, length, ℕ};
ghost use Rattle.zq_dots.specs.Placed.{Placed};
ghost use Rattle.zq_node.specs.Calls.{IsEarlyTo};
ghost use Rattle.zq_node.specs.Faults.{IsOwnFault};
ghost use Rattle.zq_node.specs.Node.{IsNode, IsSameHome, parked_of, pass_of, site_of};
ghost use Rattle.zq_node.specs.Parked.{IsParked};
ghost use Rattle.zq_node.specs.Work.{AllWait, HasWorked, WasStopped, WaitIn};
ghost use Rattle.zq_spread.specs.Calls.{heaps_of};
ghost use Rattle.zq_spread.specs.Passes.{seen_at};

use crate::faults::NodeFault;
use crate::node::Node;
use std::alloc::Global;
use std::sync::Wait;

impl Node<'_> {
    /// Hands the site one operation of a heap that is parked and no longer Early, and lets it go.
    /// Answers whether there was one: then fewer are parked.
    fn try_next<R: Wait>(&mut self, rt: &R, alloc: Global, heap: u8) -> Result<bool, NodeFault>
        requires node { IsNode self.old }
        requires heap { heap < heaps_of (site_of self.old) }
        ensures node { IsNode self.new }
        ensures home { IsSameHome self.old self.new }
        ensures work { OnOk result (HasWorked [] self.old self.new) }
        ensures stopped { OnErr result (WasStopped [] self.old self.new) }
        ensures wait { IfOk result (λ more. more ≡ false → WaitIn self.new heap) }
        ensures others { OnOk result ((k : ℕ) → (k ≡ heap → ⊥) →
            seen_at (pass_of self.new) k ≡ seen_at (pass_of self.old) k) }
        ensures fewer { IfOk result (λ more. IsTrue more →
            length (parked_of self.new) < length (parked_of self.old)) }
        ensures none { IfOk result (λ more. more ≡ false →
            parked_of self.new ≡ parked_of self.old) }
        ensures fault { IfErr result IsOwnFault }
    {
        let site = self.home.site;
        let vector = site.vector(rt, &mut self.pass, heap)?;
        let Some(op) = self.parked.ready(heap, &vector) else {
            return Ok(false);
        };
        let dot = op.dot();
        // What a site has taken stays, so one that was ready by its vector is not Early now.
        site.take(rt, alloc, &mut self.pass, op)?;
        self.parked.leave(heap, dot);
        Ok(true)
    }

    /// Tries what is parked of a heap until each is Early by what the pass has then seen there.
    pub(crate) fn settle<R: Wait>(
        &mut self,
        rt: &R,
        alloc: Global,
        heap: u8,
    ) -> Result<(), NodeFault>
        requires node { IsNode self.old }
        requires heap { heap < heaps_of (site_of self.old) }
        ensures node { IsNode self.new }
        ensures home { IsSameHome self.old self.new }
        ensures work { OnOk result (HasWorked [] self.old self.new) }
        ensures stopped { OnErr result (WasStopped [] self.old self.new) }
        ensures wait { OnOk result (WaitIn self.new heap) }
        ensures others { OnOk result ((k : ℕ) → (k ≡ heap → ⊥) →
            seen_at (pass_of self.new) k ≡ seen_at (pass_of self.old) k) }
        ensures fewer { OnOk result (length (parked_of self.new) ≤ length (parked_of self.old)) }
        ensures fault { IfErr result IsOwnFault }
    {
        if self.parked.len() == 0 {
            return Ok(());
        }
        while self.try_next(rt, alloc, heap)? {}
        Ok(())
    }

    /// Hands the site the operations that are parked and no longer Early, and lets them go, until all
    /// that are parked are Early.
    ///
    /// `Worn` where a lock, a stamp or a count is at its last value, and `NoMemory` where a growth
    /// was refused: those that were taken before stay so.
    pub fn settle_all<R: Wait>(&mut self, rt: &R, alloc: Global) -> Result<(), NodeFault>
        requires node { IsNode self.old }
        ensures node { IsNode self.new }
        ensures home { IsSameHome self.old self.new }
        ensures work { OnOk result (HasWorked [] self.old self.new) }
        ensures stopped { OnErr result (WasStopped [] self.old self.new) }
        ensures wait { OnOk result (AllWait self.new) }
        ensures fault { IfErr result IsOwnFault }
    {
        for heap in 0..self.home.heaps {
            self.settle(rt, alloc, heap)?;
        }
        Ok(())
    }
}
