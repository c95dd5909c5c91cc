//! How a node hears frames, and says what its site has.
ghost use Rattle.std.specs.Prelude.{◌≡◌, ◌⊎◌, All, IfErr, IfOk, OnErr, OnOk, map};
ghost use Rattle.zq_links.specs.Frame.{IsWritable, frame_of, have_of};
ghost use Rattle.zq_links.specs.declared.frame.Frame.TheVariants as heard;
ghost use Rattle.zq_node.specs.Calls.{MadeNoStep};
ghost use Rattle.zq_node.specs.Faults.{IsOwnFault};
ghost use Rattle.zq_node.specs.Gained.{TookNothing};
ghost use Rattle.zq_node.specs.Hearing.{AreHaves, HasHeard, HasSiteRule, HasStopped, IsFaultOf, IsForSite, IsHaveHeard, IsOfOneHeap, IsStateHeard, IsStateStopped, sent_of};
ghost use Rattle.zq_node.specs.Node.{IsNode, IsSameHome, parked_of, pass_of, site_of};

use crate::faults::NodeFault;
use crate::node::Node;
use std::alloc::Global;
use std::sync::Wait;
use zq_dots::SiteNo;
use zq_links::{Frame, Have};
use zq_shard::Shard;

impl Node<'_> {
    /// Hears a frame, and answers the frames that are to be sent, each with the site to which.
    ///
    /// | frame | does | is answered, to its sender |
    /// |---|---|---|
    /// | Have | nothing | what the sender lacks, as Ops or, where it is too far behind, as State; then a Have, where the site lacks something itself |
    /// | Ops | hands each to the site, parks what is Early, and tries again what is parked | nothing |
    /// | State | merges it, and tries again what is parked | nothing |
    ///
    /// `WrongHeap` where the frame names another number of heaps, a heap that is not there, or an
    /// operation that lies in another heap than its member's. Else `WrongRule` where its rule is
    /// another. A Have and a State that are refused so leave all as it was; an operation of an Ops
    /// that is leaves what those before it left. `Worn` where a lock, a stamp or a count is at its
    /// last value, and `NoMemory` where a growth was refused, which none is asked for a Known
    /// operation: what was taken or parked before stays.
    pub fn hear<R: Wait>(
        &mut self,
        rt: &R,
        alloc: Global,
        frame: &Frame,
    ) -> Result<Vec<(SiteNo, Frame)>, NodeFault>
        requires node { IsNode self.old }
        ensures node { IsNode self.new }
        ensures home { IsSameHome self.old self.new }
        ensures heard { IfOk result
            (λ sent. HasHeard frame.now self.old self.new (sent_of sent.items)) }
        ensures writable { IfOk result (λ sent. All (λ s. IsWritable s.1) sent.items) }
        ensures stopped { IfErr result (HasStopped frame.now self.old self.new) }
        ensures right { OnOk result (IsForSite (site_of self.old) frame.now
            × HasSiteRule (site_of self.old) frame.now) }
        ensures fault { IfErr result (IsFaultOf (site_of self.old) frame.now) }
        ensures unheard { IfErr result (λ fault. IsOfOneHeap frame.now → IsOwnFault fault
            ⊎ (self.new ≡ self.old)) }
    {
        match frame {
            Frame::Have(have) => self.hear_have(rt, alloc, have),
            Frame::Ops(ops) => {
                self.take_all(rt, alloc, ops)?;
                Ok(Vec::new(alloc))
            }
            Frame::State(shard) => {
                self.hear_state(rt, alloc, shard)?;
                Ok(Vec::new(alloc))
            }
        }
    }
}

impl Node<'_> {
    /// Hears what a peer has of a heap.
    fn hear_have<R: Wait>(
        &mut self,
        rt: &R,
        alloc: Global,
        have: &Have,
    ) -> Result<Vec<(SiteNo, Frame)>, NodeFault>
        requires node { IsNode self.old }
        ensures node { IsNode self.new }
        ensures home { IsSameHome self.old self.new }
        ensures parked { parked_of self.new ≡ parked_of self.old }
        ensures answered { IfOk result
            (λ sent. IsHaveHeard (site_of self.old) (have_of have.now) (pass_of self.old)
            (pass_of self.new) (sent_of sent.items)) }
        ensures writable { IfOk result (λ sent. All (λ s. IsWritable s.1) sent.items) }
        ensures no_step { MadeNoStep (pass_of self.old) (pass_of self.new) }
        ensures right { OnOk result (IsForSite (site_of self.old) (heard.Have have.now)
            × HasSiteRule (site_of self.old) (heard.Have have.now)) }
        ensures fault { IfErr result (IsFaultOf (site_of self.old) (heard.Have have.now)) }
        ensures unheard { IfErr result (λ fault. IsOwnFault fault ⊎ (self.new ≡ self.old)) }
    {
        self.home.judge(have.heap, have.heaps, have.rule)?;
        self.answer(rt, alloc, have)
    }

    /// Merges a heap of another site, and tries what is parked.
    fn hear_state<R: Wait>(&mut self, rt: &R, alloc: Global, shard: &Shard) -> Result<(), NodeFault>
        requires node { IsNode self.old }
        ensures node { IsNode self.new }
        ensures home { IsSameHome self.old self.new }
        ensures heard { OnOk result (IsStateHeard shard.now self.old self.new) }
        ensures stopped { OnErr result (IsStateStopped shard.now self.old self.new) }
        ensures right { OnOk result (IsForSite (site_of self.old) (heard.State shard.now)
            × HasSiteRule (site_of self.old) (heard.State shard.now)) }
        ensures fault { IfErr result (IsFaultOf (site_of self.old) (heard.State shard.now)) }
        ensures unheard { IfErr result (λ fault. IsOwnFault fault ⊎ (self.new ≡ self.old)) }
    {
        self.home.judge(shard.heap(), shard.heaps(), shard.rule())?;
        self.home.site.merge(rt, alloc, &mut self.pass, shard)?;
        self.settle_all(rt, alloc)?;
        Ok(())
    }

    /// What the site has, a Have for each heap in rising order. It makes no step.
    pub fn haves<R: Wait>(&mut self, rt: &R, alloc: Global) -> Result<Vec<Frame>, NodeFault>
        requires node { IsNode self.old }
        ensures node { IsNode self.new }
        ensures home { IsSameHome self.old self.new }
        ensures parked { parked_of self.new ≡ parked_of self.old }
        ensures haves { IfOk result
            (λ frames. AreHaves (site_of self.old) (pass_of self.old) (pass_of self.new)
            (map frame_of frames.items)) }
        ensures writable { IfOk result (λ frames. All IsWritable frames.items) }
        ensures no_step { MadeNoStep (pass_of self.old) (pass_of self.new) }
        ensures took_nothing { TookNothing (pass_of self.old) (pass_of self.new) }
        ensures fault { IfErr result IsOwnFault }
    {
        let mut frames = Vec::new(alloc);
        for heap in 0..self.home.heaps {
            let vector = self.home.site.vector(rt, &mut self.pass, heap)?;
            frames.reserve(1)?;
            frames.push_reserved(self.home.have(heap, vector));
        }
        Ok(frames)
    }
}
