//! What a peer is told.
ghost use Rattle.std.specs.Prelude.{◌≡◌, ◌<◌, ◌++◌, All, IfErr, IfOk, IfSome, OnErr, option_map, option_to_list};
ghost use Rattle.zq_links.specs.Frame.{IsWritable, frame_of, have_of};
ghost use Rattle.zq_node.specs.Calls.{MadeNoStep};
ghost use Rattle.zq_node.specs.Faults.{IsOwnFault};
ghost use Rattle.zq_node.specs.Hearing.{IsHaveHeard, IsToldOf, IsTold, sent_of, sent_to};
ghost use Rattle.zq_node.specs.Node.{IsNode, IsSameHome, parked_of, pass_of, site_of};
ghost use Rattle.zq_spread.specs.Calls.{heaps_of};

use crate::faults::NodeFault;
use crate::node::Node;
use std::alloc::{AllocError, Global};
use std::sync::Wait;
use zq_dots::{SiteNo, Vector};
use zq_journal::Since;
use zq_links::{Frame, Have};

/// The most operations of an answer: four bytes count them.
const MOST_TOLD: usize = 4_294_967_295;

/// The frames that there are, each to this site, in this order.
fn addressed(
    alloc: Global,
    to: SiteNo,
    first: Option<Frame>,
    second: Option<Frame>,
) -> Result<Vec<(SiteNo, Frame)>, AllocError>
    ensures sent { IfOk result (λ sent. sent_of sent.items
        ≡ sent_to to (option_to_list (option_map frame_of first)
        ++ option_to_list (option_map frame_of second))) }
    ensures writable { IfSome first IsWritable → IfSome second IsWritable →
        IfOk result (λ sent. All (λ s. IsWritable s.1) sent.items) }
{
    let mut sent = Vec::new(alloc);
    if let Some(frame) = first {
        sent.push((to, frame))?;
    }
    if let Some(frame) = second {
        sent.push((to, frame))?;
    }
    Ok(sent)
}

impl Node<'_> {
    /// What a peer of this vector lacks of a heap: the oldest such operations, or the whole heap.
    fn tell<R: Wait>(
        &mut self,
        rt: &R,
        alloc: Global,
        heap: u8,
        theirs: &Vector,
    ) -> Result<Frame, NodeFault>
        requires node { IsNode self.old }
        requires heap { heap < heaps_of (site_of self.old) }
        ensures node { IsNode self.new }
        ensures home { IsSameHome self.old self.new }
        ensures parked { parked_of self.new ≡ parked_of self.old }
        ensures told { IfOk result
            (λ frame. IsTold (site_of self.old) (pass_of self.old)
            (pass_of self.new) heap theirs.now (frame_of frame)) }
        ensures writable { IfOk result IsWritable }
        ensures no_step { MadeNoStep (pass_of self.old) (pass_of self.new) }
        ensures fault { IfErr result IsOwnFault }
    {
        let site = self.home.site;
        let answer = site.since(rt, alloc, &mut self.pass, heap, theirs)?;
        match answer {
            Since::Ops(mut ops) => {
                ops.truncate(MOST_TOLD);
                Ok(Frame::Ops(ops))
            }
            Since::TooOld => {
                let shard = site.state(rt, alloc, &mut self.pass, heap)?;
                Ok(Frame::State(shard))
            }
        }
    }

    /// The same where the peer lacks something of this vector, and else nothing.
    fn tell_if<R: Wait>(
        &mut self,
        rt: &R,
        alloc: Global,
        heap: u8,
        theirs: &Vector,
        vector: &Vector,
    ) -> Result<Option<Frame>, NodeFault>
        requires node { IsNode self.old }
        requires heap { heap < heaps_of (site_of self.old) }
        ensures node { IsNode self.new }
        ensures home { IsSameHome self.old self.new }
        ensures parked { parked_of self.new ≡ parked_of self.old }
        ensures told { IfOk result
            (λ told. IsToldOf (site_of self.old) (pass_of self.old)
            (pass_of self.new) heap theirs.now vector.now (option_map frame_of told)) }
        ensures writable { IfOk result (λ told. IfSome told IsWritable) }
        ensures no_step { MadeNoStep (pass_of self.old) (pass_of self.new) }
        ensures fault { IfErr result IsOwnFault }
    {
        if theirs.covers(vector) {
            return Ok(None);
        }
        let frame = self.tell(rt, alloc, heap, theirs)?;
        Ok(Some(frame))
    }

    /// Answers what a peer has of a heap of the site.
    pub(crate) fn answer<R: Wait>(
        &mut self,
        rt: &R,
        alloc: Global,
        have: &Have,
    ) -> Result<Vec<(SiteNo, Frame)>, NodeFault>
        requires node { IsNode self.old }
        requires heap { have.now.heap < heaps_of (site_of self.old) }
        ensures node { IsNode self.new }
        ensures home { IsSameHome self.old self.new }
        ensures parked { parked_of self.new ≡ parked_of self.old }
        ensures answered { IfOk result
            (λ sent. IsHaveHeard (site_of self.old) (have_of have.now) (pass_of self.old)
            (pass_of self.new) (sent_of sent.items)) }
        ensures writable { IfOk result (λ sent. All (λ s. IsWritable s.1) sent.items) }
        ensures no_step { MadeNoStep (pass_of self.old) (pass_of self.new) }
        ensures fault { IfErr result IsOwnFault }
    {
        let vector = self.home.site.vector(rt, &mut self.pass, have.heap)?;
        let told = self.tell_if(rt, alloc, have.heap, &have.vector, &vector)?;
        let own = self.home.have_if(have.heap, &have.vector, &vector);
        Ok(addressed(alloc, have.from, told, own)?)
    }
}
