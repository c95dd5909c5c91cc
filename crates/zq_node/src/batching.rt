//! How a list of operations is heard, many at a time.
ghost use Rattle.std.specs.Prelude.{◌≡◌, ◌≤◌, ◌<◌, ◌∷◌, IfErr, IfOk, List, OnErr, OnOk, drop, length, take};
ghost use Rattle.zq_dots.specs.Placed.{Placed};
ghost use Rattle.zq_node.specs.Batches.{HasHeardAll, HasHeardSome, IsNotPutOff, IsPutOff, WasStoppedIn};
ghost use Rattle.zq_node.specs.Node.{IsNode, IsSameHome, pass_of, site_of};
ghost use Rattle.zq_spread.specs.Calls.{IsOfSite, heaps_of};
ghost use Rattle.zq_spread.specs.declared.taken_all.TakeEnd.TheVariants.{All};

use crate::faults::NodeFault;
use crate::node::Node;
use crate::taking::keep_own;
use std::alloc::Global;
use std::sync::Wait;
use zq_dots::Op;
use zq_spread::TakeEnd;

/// The most operations that a site takes under one hold of a heap: another call waits for no more.
const MOST_HELD: usize = 256;

impl Node<'_> {
    /// Hears operations of a peer, as an Ops frame has them. The site is handed many at a time, those
    /// that lie in one heap one after the other, under one hold of that heap: 256 at most. What is
    /// Early is parked. After each hold in which something was New what is parked in that heap is
    /// tried again, and in the end all that is parked.
    ///
    /// `WrongHeap` where an operation is made among another number of heaps, or lies in another heap
    /// than its member's. `Worn` where a lock, a stamp or a count is at its last value, and `NoMemory`
    /// where a growth was refused, which none is asked for a Known operation. What was taken or parked
    /// before stays.
    ///
    /// Operations are handed over by value: what was New or was parked is left with an empty key and
    /// an empty member.
    pub fn hear_ops<R: Wait>(
        &mut self,
        rt: &R,
        alloc: Global,
        ops: &mut [Op],
    ) -> Result<(), NodeFault>
        requires node { IsNode self.old }
        ensures node { IsNode self.new }
        ensures home { IsSameHome self.old self.new }
        ensures heard { OnOk result (HasHeardAll ops.old self.old self.new) }
        ensures stopped { IfErr result (WasStoppedIn ops.old self.old self.new) }
    {
        self.hear_each(rt, alloc, ops)?;
        self.settle_all(rt, alloc)?;
        Ok(())
    }

    /// Hears operations, and tries of what is parked only that of the heaps in which something was
    /// New.
    fn hear_each<R: Wait>(&mut self, rt: &R, alloc: Global, ops: &mut [Op]) -> Result<(), NodeFault>
        requires node { IsNode self.old }
        ensures node { IsNode self.new }
        ensures home { IsSameHome self.old self.new }
        ensures heard { OnOk result (HasHeardSome ops.old ops.old self.old self.new) }
        ensures stopped { IfErr result (WasStoppedIn ops.old self.old self.new) }
    {
        let mut at = 0;
        while at < ops.len() {
            at += self.hear_some(rt, alloc, &mut ops[at..])?;
        }
        Ok(())
    }

    /// Hears the first of these operations, and more that lie in its heap. Answers how many it has
    /// heard; the others are as they were.
    fn hear_some<R: Wait>(
        &mut self,
        rt: &R,
        alloc: Global,
        ops: &mut [Op],
    ) -> Result<usize, NodeFault>
        requires node { IsNode self.old }
        requires first { (first : Placed) × (others : List Placed) × (ops.old ≡ first ∷ others) }
        ensures node { IsNode self.new }
        ensures home { IsSameHome self.old self.new }
        ensures some { IfOk result (λ heard. 0 < heard) }
        ensures most { IfOk result (λ heard. heard ≤ length ops.old) }
        ensures heard { IfOk result
            (λ heard. HasHeardSome ops.old (take heard ops.old) self.old self.new) }
        ensures left { IfOk result (λ heard. drop heard ops.new ≡ drop heard ops.old) }
        ensures stopped { IfErr result (WasStoppedIn ops.old self.old self.new) }
    {
        let heap = ops[0].heap();
        if heap >= self.home.heaps {
            return Err(NodeFault::WrongHeap);
        }
        let most = usize::min(ops.len(), MOST_HELD);
        let taken = self
            .home
            .site
            .take_all(rt, alloc, &mut self.pass, heap, &mut ops[..most])?;
        if taken.taken == 0 {
            self.put_off(alloc, &mut ops[0], taken.end)?;
            return Ok(1);
        }
        if taken.fresh > 0 {
            self.settle(rt, alloc, heap)?;
        }
        Ok(taken.taken)
    }

    /// Parks an operation of the site that is Early, or hands on why the site refused it. What is
    /// parked leaves an empty key and an empty member.
    fn put_off(&mut self, alloc: Global, op: &mut Op, end: TakeEnd) -> Result<(), NodeFault>
        requires node { IsNode self.old }
        requires end { end ≡ All → ⊥ }
        requires early { end ≡ TakeEnd.Early → IsOfSite (site_of self.old) op.old }
        requires within { op.old.operation.heap < heaps_of (site_of self.old) }
        ensures node { IsNode self.new }
        ensures home { IsSameHome self.old self.new }
        ensures pass { pass_of self.new ≡ pass_of self.old }
        ensures put { OnOk result (IsPutOff end op.old self.old self.new) }
        ensures why { IfErr result (IsNotPutOff end) }
        ensures refused { OnErr result (self.new ≡ self.old) }
    {
        match end {
            TakeEnd::Early => {
                keep_own(&mut self.parked, alloc, op)?;
                Ok(())
            }
            TakeEnd::Refused(fault) => Err(NodeFault::from(fault)),
            TakeEnd::All => unreachable!(),
        }
    }
}
