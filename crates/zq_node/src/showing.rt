//! What a node's site has of a heap.
ghost use Rattle.std.specs.Prelude.{◌≡◌, ◌<◌, ◌≤◌, ◌↔◌, ◌⊎◌, IfErr, IfOk, IsErrOf, OnErr, OnOk};
ghost use Rattle.zq_node.specs.Calls.{Asked, Copied, Drained, IsCalled, MadeNoStep, Portioned, Saw};
ghost use Rattle.zq_node.specs.Faults.{IsOwnFault};
ghost use Rattle.zq_node.specs.Gained.{TookNothing};
ghost use Rattle.zq_node.specs.Node.{IsNode, IsSameHome, parked_of, pass_of, site_of};
ghost use Rattle.zq_spread.specs.Calls.{heaps_of};

use crate::faults::NodeFault;
use crate::node::Node;
use std::alloc::Global;
use std::sync::Wait;
use zq_dots::Vector;
use zq_journal::Since;
use zq_posheap::Seeded;
use zq_shard::{Shard, Spot};
use zq_stage::{Portion, PortionLimits};

impl Node<'_> {
    /// Which operations of a heap the site has taken. It makes no step.
    ///
    /// `WrongHeap` where the site has no such heap; else `Worn` where a lock or the stamp is at its
    /// last value.
    pub fn vector<R: Wait>(&mut self, rt: &R, heap: u8) -> Result<Vector, NodeFault>
        requires node { IsNode self.old }
        ensures node { IsNode self.new }
        ensures home { IsSameHome self.old self.new }
        ensures parked { parked_of self.new ≡ parked_of self.old }
        ensures shown { IfOk result
            (λ vector. IsCalled (site_of self.old) (pass_of self.old) (pass_of self.new)
            (Saw heap vector)) }
        ensures no_step { MadeNoStep (pass_of self.old) (pass_of self.new) }
        ensures took_nothing { TookNothing (pass_of self.old) (pass_of self.new) }
        ensures there { OnOk result (heap < heaps_of (site_of self.old)) }
        ensures wrong { IsErrOf result NodeFault.WrongHeap
            ↔ (heaps_of (site_of self.old) ≤ heap) }
        ensures fault { IfErr result (λ fault. (fault ≡ NodeFault.WrongHeap) ⊎ IsOwnFault fault) }
    {
        if heap >= self.home.heaps {
            return Err(NodeFault::WrongHeap);
        }
        let vector = self.home.site.vector(rt, &mut self.pass, heap)?;
        Ok(vector)
    }

    /// What a peer of this vector lacks of a heap, as [`zq_spread::Site::since`] says. It makes no step.
    ///
    /// `WrongHeap` where the site has no such heap; else `Worn` where a lock or the stamp is at its
    /// last value, else `NoMemory` where a growth was refused.
    pub fn since<R: Wait>(
        &mut self,
        rt: &R,
        alloc: Global,
        heap: u8,
        vector: &Vector,
    ) -> Result<Since, NodeFault>
        requires node { IsNode self.old }
        ensures node { IsNode self.new }
        ensures home { IsSameHome self.old self.new }
        ensures parked { parked_of self.new ≡ parked_of self.old }
        ensures asked { IfOk result
            (λ since. IsCalled (site_of self.old) (pass_of self.old) (pass_of self.new)
            (Asked heap vector.now since)) }
        ensures no_step { MadeNoStep (pass_of self.old) (pass_of self.new) }
        ensures took_nothing { TookNothing (pass_of self.old) (pass_of self.new) }
        ensures there { OnOk result (heap < heaps_of (site_of self.old)) }
        ensures wrong { IsErrOf result NodeFault.WrongHeap
            ↔ (heaps_of (site_of self.old) ≤ heap) }
        ensures fault { IfErr result (λ fault. (fault ≡ NodeFault.WrongHeap) ⊎ IsOwnFault fault) }
    {
        if heap >= self.home.heaps {
            return Err(NodeFault::WrongHeap);
        }
        let since = self
            .home
            .site
            .since(rt, alloc, &mut self.pass, heap, vector)?;
        Ok(since)
    }

    /// Gives a log of this vector the oldest operations that it lacks of a heap, at most so many, and
    /// tells the heap's book what was handed on, as [`zq_spread::Site::drain`] says. Nothing is taken,
    /// and no image changes.
    ///
    /// `WrongHeap` where the site has no such heap; else `Worn` where a lock or the stamp is at its
    /// last value, else `NoMemory` where a growth was refused: then it makes no step.
    pub fn drain<R: Wait>(
        &mut self,
        rt: &R,
        alloc: Global,
        heap: u8,
        vector: &Vector,
        most: usize,
    ) -> Result<Since, NodeFault>
        requires node { IsNode self.old }
        ensures node { IsNode self.new }
        ensures home { IsSameHome self.old self.new }
        ensures parked { parked_of self.new ≡ parked_of self.old }
        ensures drained { IfOk result
            (λ since. IsCalled (site_of self.old) (pass_of self.old) (pass_of self.new)
            (Drained heap vector.now most since)) }
        ensures refused { OnErr result (MadeNoStep (pass_of self.old) (pass_of self.new)) }
        ensures took_nothing { TookNothing (pass_of self.old) (pass_of self.new) }
        ensures there { OnOk result (heap < heaps_of (site_of self.old)) }
        ensures wrong { IsErrOf result NodeFault.WrongHeap
            ↔ (heaps_of (site_of self.old) ≤ heap) }
        ensures fault { IfErr result (λ fault. (fault ≡ NodeFault.WrongHeap) ⊎ IsOwnFault fault) }
    {
        if heap >= self.home.heaps {
            return Err(NodeFault::WrongHeap);
        }
        let since = self
            .home
            .site
            .drain(rt, alloc, &mut self.pass, heap, vector, most)?;
        Ok(since)
    }

    /// A copy of a heap of the site. It makes no step.
    ///
    /// `WrongHeap` where the site has no such heap; else `Worn` where a lock or the stamp is at its
    /// last value, else `NoMemory` where the copy was refused.
    pub fn state<R: Wait>(&mut self, rt: &R, alloc: Global, heap: u8) -> Result<Shard, NodeFault>
        requires node { IsNode self.old }
        ensures node { IsNode self.new }
        ensures home { IsSameHome self.old self.new }
        ensures parked { parked_of self.new ≡ parked_of self.old }
        ensures copied { IfOk result
            (λ shard. IsCalled (site_of self.old) (pass_of self.old) (pass_of self.new)
            (Copied heap shard)) }
        ensures no_step { MadeNoStep (pass_of self.old) (pass_of self.new) }
        ensures took_nothing { TookNothing (pass_of self.old) (pass_of self.new) }
        ensures there { OnOk result (heap < heaps_of (site_of self.old)) }
        ensures wrong { IsErrOf result NodeFault.WrongHeap
            ↔ (heaps_of (site_of self.old) ≤ heap) }
        ensures fault { IfErr result (λ fault. (fault ≡ NodeFault.WrongHeap) ⊎ IsOwnFault fault) }
    {
        if heap >= self.home.heaps {
            return Err(NodeFault::WrongHeap);
        }
        let shard = self.home.site.state(rt, alloc, &mut self.pass, heap)?;
        Ok(shard)
    }

    /// A copy of a portion of a heap of the site, as [`zq_spread::Site::portion`] says. It makes no
    /// step.
    ///
    /// `WrongHeap` where the site has no such heap; else `Worn` where a lock or the stamp is at its
    /// last value, else `NoMemory` where the copy was refused.
    pub fn portion<R: Wait>(
        &mut self,
        rt: &R,
        alloc: Global,
        heap: u8,
        spot: Spot,
        limits: PortionLimits,
        hasher: Seeded,
    ) -> Result<Portion, NodeFault>
        requires node { IsNode self.old }
        ensures node { IsNode self.new }
        ensures home { IsSameHome self.old self.new }
        ensures parked { parked_of self.new ≡ parked_of self.old }
        ensures copied { IfOk result
            (λ portion. IsCalled (site_of self.old) (pass_of self.old) (pass_of self.new)
            (Portioned heap spot limits portion)) }
        ensures no_step { MadeNoStep (pass_of self.old) (pass_of self.new) }
        ensures took_nothing { TookNothing (pass_of self.old) (pass_of self.new) }
        ensures there { OnOk result (heap < heaps_of (site_of self.old)) }
        ensures wrong { IsErrOf result NodeFault.WrongHeap
            ↔ (heaps_of (site_of self.old) ≤ heap) }
        ensures fault { IfErr result (λ fault. (fault ≡ NodeFault.WrongHeap) ⊎ IsOwnFault fault) }
    {
        if heap >= self.home.heaps {
            return Err(NodeFault::WrongHeap);
        }
        let found = self
            .home
            .site
            .portion(rt, alloc, &mut self.pass, heap, spot, limits, hasher)?;
        Ok(found)
    }
}
