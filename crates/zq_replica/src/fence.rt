//! Whether another run used this site's number.

ghost use Rattle.std.specs.Prelude.{IfOk, OnErr, slice_index, ◌≡◌};
ghost use Rattle.zq_node.specs.Node.{IsNode};
ghost use Rattle.zq_replica.specs.Fence.{IsJudged, IsJudgedIn, is_beyond};
ghost use Rattle.zq_replica.specs.Nodes.{IsAnyTested, IsTested, Shows};
ghost use Rattle.zq_replica.specs.Sites.{fence_of, heaps_of};
ghost use Rattle.zq_replica.specs.Told as told;

use crate::replica::Replica;
use crate::told::{may_tell, told_by, told_by_control, told_by_piece};
use std::sync::Wait;
use zq_dots::{SiteNo, Vector};
use zq_follow::{began_with_fewer, is_used_by_others};
use zq_links::{Control, Frame, Piece};
use zq_node::{Node, NodeFault};

/// What proves that another run used this site's number.
#[derive(Clone, Copy, Debug, PartialEq, Eq)]
pub struct Fenced {
    /// A heap.
    pub heap: u8,
    /// A peer that knows more of this site's operations there than this site made.
    pub peer: SiteNo,
    /// How many the peer knows.
    pub known: u64,
    /// How many this site made.
    pub own: u64,
}

impl Replica<'_> {
    /// What proves that another run used this site's number, where a frame did. From then on
    /// nothing is heard any more, and nothing is to be pushed.
    pub fn fenced(&self) -> Option<Fenced>
        ensures { result ≡ fence_of self.now }
    {
        self.fenced
    }

    /// Whether this site knows more operations of a peer's number, in some heap, than a run of it
    /// says that it began with: so many in each heap, and none where nothing is said. Where they
    /// came from another run, both used the number.
    pub fn knows_more<R: Wait>(
        &mut self,
        rt: &R,
        node: &mut Node<'_>,
        peer: SiteNo,
        begun: &[u64],
    ) -> Result<bool, NodeFault>
        requires node { IsNode node.old }
        ensures node { IsNode node.new }
        ensures shows { Shows node.old node.new }
        ensures same { self.new ≡ self.old }
        ensures any { IfOk result
            (IsAnyTested (heaps_of self.old) (is_beyond peer begun.now) node.old node.new) }
    {
        for heap in 0..self.heaps {
            if knows_more_in(rt, node, peer, heap, begun)? {
                return Ok(true);
            }
        }
        Ok(false)
    }

    /// Whether a peer that knows so many of this site's operations of a heap proves that another
    /// run made some of them, which is noted. This site is asked what it has after the peer's frame
    /// came, unless the peer knows none. After an `Err` this is as it was.
    pub(crate) fn fences<R: Wait>(
        &mut self,
        rt: &R,
        node: &mut Node<'_>,
        peer: SiteNo,
        heap: u8,
        known: u64,
    ) -> Result<bool, NodeFault>
        requires node { IsNode node.old }
        ensures node { IsNode node.new }
        ensures shows { Shows node.old node.new }
        ensures judged { IfOk result
            (IsJudgedIn peer heap known node.old node.new self.old self.new) }
        ensures failed { OnErr result (self.new ≡ self.old) }
    {
        if known == 0 {
            return Ok(false);
        }
        let vector = node.vector(rt, heap)?;
        if !is_used_by_others(self.own, known, &vector) {
            return Ok(false);
        }
        self.fenced = Some(Fenced {
            heap,
            peer,
            known,
            own: vector.get(self.own),
        });
        Ok(true)
    }

    /// Whether a frame of a peer proves that another run used this site's number, which is noted.
    /// After an `Err` this is as it was.
    pub(crate) fn fences_by<R: Wait>(
        &mut self,
        rt: &R,
        node: &mut Node<'_>,
        peer: SiteNo,
        frame: &Frame,
    ) -> Result<bool, NodeFault>
        requires node { IsNode node.old }
        ensures node { IsNode node.new }
        ensures shows { Shows node.old node.new }
        ensures judged { IfOk result
            (IsJudged peer (λ heap. told.told_by self.old.own self.old.heaps heap frame.now)
            node.old node.new self.old self.new) }
        ensures failed { OnErr result (self.new ≡ self.old) }
    {
        if !may_tell(self.own, frame) {
            return Ok(false);
        }
        for heap in 0..self.heaps {
            let known = told_by(self.own, self.heaps, heap, frame);
            if self.fences(rt, node, peer, heap, known)? {
                return Ok(true);
            }
        }
        Ok(false)
    }

    /// Whether a control frame of a peer proves that another run used this site's number, which is
    /// noted. After an `Err` this is as it was.
    pub(crate) fn fences_by_control<R: Wait>(
        &mut self,
        rt: &R,
        node: &mut Node<'_>,
        peer: SiteNo,
        control: &Control,
    ) -> Result<bool, NodeFault>
        requires node { IsNode node.old }
        ensures node { IsNode node.new }
        ensures shows { Shows node.old node.new }
        ensures judged { IfOk result
            (IsJudged peer (λ heap. told.told_by_control self.old.own self.old.heaps heap control.now)
            node.old node.new self.old self.new) }
        ensures failed { OnErr result (self.new ≡ self.old) }
    {
        for heap in 0..self.heaps {
            let known = told_by_control(self.own, self.heaps, heap, control);
            if self.fences(rt, node, peer, heap, known)? {
                return Ok(true);
            }
        }
        Ok(false)
    }

    /// Whether a piece of a heap of a peer proves that another run used this site's number, which is
    /// noted. After an `Err` this is as it was.
    pub(crate) fn fences_by_piece<R: Wait>(
        &mut self,
        rt: &R,
        node: &mut Node<'_>,
        peer: SiteNo,
        piece: &Piece,
    ) -> Result<bool, NodeFault>
        requires node { IsNode node.old }
        ensures node { IsNode node.new }
        ensures shows { Shows node.old node.new }
        ensures judged { IfOk result
            (IsJudged peer (λ heap. told.told_by_piece self.old.own self.old.heaps heap piece.now)
            node.old node.new self.old self.new) }
        ensures failed { OnErr result (self.new ≡ self.old) }
    {
        for heap in 0..self.heaps {
            let known = told_by_piece(self.own, self.heaps, heap, piece);
            if self.fences(rt, node, peer, heap, known)? {
                return Ok(true);
            }
        }
        Ok(false)
    }
}

/// Whether the site knows more operations of a peer's number in a heap than a run of it began with.
fn knows_more_in<R: Wait>(
    rt: &R,
    node: &mut Node<'_>,
    peer: SiteNo,
    heap: u8,
    begun: &[u64],
) -> Result<bool, NodeFault>
    requires node { IsNode node.old }
    ensures node { IsNode node.new }
    ensures shows { Shows node.old node.new }
    ensures tested { IfOk result
        (IsTested heap (is_beyond peer begun.now heap) node.old node.new) }
{
    let vector = node.vector(rt, heap)?;
    Ok(is_beyond(peer, begun, heap, &vector))
}

/// Whether this vector of a heap has more operations of a peer's number than a run of it began with.
fn is_beyond(peer: SiteNo, begun: &[u64], heap: u8, vector: &Vector) -> bool
    ensures { result ≡ is_beyond peer begun.now heap vector.now }
{
    began_with_fewer(peer, begun_in(begun, heap), vector)
}

/// With how many operations of a heap a run began, and 0 where nothing is said of it.
fn begun_in(begun: &[u64], heap: u8) -> u64
    ensures { result ≡ slice_index begun.now heap }
{
    begun.get(usize::from(heap)).copied().unwrap_or(0)
}
