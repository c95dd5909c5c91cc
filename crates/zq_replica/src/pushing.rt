//! Pushing to peers what they lack.

ghost use Rattle.std.specs.Prelude.{OnErr, OnOk, ◌≡◌};
ghost use Rattle.zq_follow.specs.Follow.{pushed};
ghost use Rattle.zq_node.specs.Node.{IsNode};
ghost use Rattle.zq_replica.specs.Nodes.{Shows};
ghost use Rattle.zq_replica.specs.Put.{HasPut};

use crate::end::End;
use crate::parcels::{Parcels, address};
use crate::protocol::Protocol;
use crate::replica::Replica;
use crate::spelling::{Spelling, spelt};
use std::alloc::Global;
use std::sync::Wait;
use zq_backlog::Batch;
use zq_dots::{SITES, SiteNo};
use zq_follow::{Follow, SiteSet, class_of};
use zq_links::write_frame;
use zq_node::{Node, NodeFault};

/// What came of pushing a heap to a peer.
enum Push {
    /// These operations go, or none, and more may follow at once.
    Batch(Batch, bool),
    /// The peer lacks what the log has no more.
    Behind,
    /// Nothing can go now.
    Nothing,
}

impl Replica<'_> {
    /// Pushes to each of these peers what it lacks: of each heap a batch at most, or the next frame
    /// of a stream in which it goes. It says whether more may follow.
    pub fn push<R: Wait>(
        &mut self,
        rt: &R,
        alloc: Global,
        node: &mut Node<'_>,
        peers: &SiteSet,
        out: &mut Parcels,
    ) -> Result<bool, NodeFault>
        requires node { IsNode node.old }
        ensures node { IsNode node.new }
        ensures shows { Shows node.old node.new }
    {
        let mut left = false;
        for place in 0..self.ends.len() {
            if self.takes(place, peers) {
                left |= self.push_each(rt, alloc, node, place, out)?;
            }
        }
        Ok(left)
    }

    /// Whether the peer at this place is pushed to, and is one of these.
    fn takes(&self, place: usize, peers: &SiteSet) -> bool {
        match self.ends.get(place) {
            Some(end) => end.pushes() && peers.has(end.peer),
            None => false,
        }
    }

    /// Pushes a batch of each heap to the peer at this place, and says whether more may follow.
    fn push_each<R: Wait>(
        &mut self,
        rt: &R,
        alloc: Global,
        node: &mut Node<'_>,
        place: usize,
        out: &mut Parcels,
    ) -> Result<bool, NodeFault>
        requires node { IsNode node.old }
        ensures node { IsNode node.new }
        ensures shows { Shows node.old node.new }
    {
        let mut left = false;
        for heap in 0..self.heaps {
            let more = self.push_heap(rt, alloc, node, place, heap, out)?;
            left |= more;
        }
        Ok(left)
    }

    /// Pushes a batch of a heap to the peer at this place, or tells it that it is behind, and says
    /// whether more may follow. A peer that is given the heap is sent what is next in its stream.
    fn push_heap<R: Wait>(
        &mut self,
        rt: &R,
        alloc: Global,
        node: &mut Node<'_>,
        place: usize,
        heap: u8,
        out: &mut Parcels,
    ) -> Result<bool, NodeFault>
        requires node { IsNode node.old }
        ensures node { IsNode node.new }
        ensures shows { Shows node.old node.new }
    {
        if let Some(serving) = self.take_serving(place, heap) {
            return self.stream(rt, alloc, node, place, heap, serving, out);
        }
        match self.cut(rt, alloc, place, heap)? {
            Push::Batch(batch, more) => {
                self.send(alloc, place, heap, batch, out)?;
                Ok(more)
            }
            Push::Behind => {
                let vector = node.vector(rt, heap)?;
                self.tell_behind(alloc, place, heap, vector, out)?;
                Ok(false)
            }
            Push::Nothing => Ok(false),
        }
    }

    /// The next batch of a heap for the peer at this place.
    fn cut<R: Wait>(
        &mut self,
        rt: &R,
        alloc: Global,
        place: usize,
        heap: u8,
    ) -> Result<Push, NodeFault> {
        let Some(log) = self.logs.at(heap) else {
            return Ok(Push::Nothing);
        };
        let heap = usize::from(heap);
        let Some(end) = self.ends.get_mut(place) else {
            return Ok(Push::Nothing);
        };
        let Some(sources) = self.sources.get(heap) else {
            return Ok(Push::Nothing);
        };
        let class = class_at(self.own, end, sources);
        let Some(at_heap) = end.heaps.get_mut(heap) else {
            return Ok(Push::Nothing);
        };
        let follow = &mut at_heap.follow;
        let log = log.lock(rt);
        follow.prepare(class, log.first());
        let Some(sent) = follow.sent() else {
            return Ok(Push::Nothing);
        };
        if !follow.may_push() {
            return Ok(Push::Nothing);
        }
        if follow.is_below(log.base()) {
            return Ok(Push::Behind);
        }
        let allowance = follow.allowance();
        if allowance == 0 {
            return Ok(Push::Nothing);
        }
        let batch = log.batch(alloc, follow.place(), class.as_array(), sent, allowance)?;
        let more = batch.next < log.end() && batch.count < allowance;
        Ok(Push::Batch(batch, more))
    }

    /// A batch goes to the peer at this place, by differences where it can.
    fn send(
        &mut self,
        alloc: Global,
        place: usize,
        heap: u8,
        batch: Batch,
        out: &mut Parcels,
    ) -> Result<(), NodeFault> {
        let heap = usize::from(heap);
        let Some(end) = self.ends.get_mut(place) else {
            return Ok(());
        };
        let Some(last) = self.spellings.get_mut(heap) else {
            return Ok(());
        };
        let peer = end.peer;
        match end.heaps.get_mut(heap) {
            Some(at_heap) => post(alloc, peer, &mut at_heap.follow, batch, last, out),
            None => Ok(()),
        }
    }

    /// Tells each peer that asks what this site has of each heap, by the protocol that such a peer
    /// speaks.
    pub fn tell_haves<R: Wait>(
        &mut self,
        rt: &R,
        alloc: Global,
        node: &mut Node<'_>,
        out: &mut Parcels,
    ) -> Result<(), NodeFault>
        requires node { IsNode node.old }
        ensures node { IsNode node.new }
        ensures shows { Shows node.old node.new }
    {
        if !self.has_asking() {
            return Ok(());
        }
        let haves = node.haves(rt, alloc)?;
        for end in self.ends.iter() {
            if end.protocol == Some(Protocol::Asking) {
                for have in haves.iter() {
                    let bytes = write_frame(alloc, have)?;
                    address(out, end.peer, bytes)?;
                }
            }
        }
        Ok(())
    }

    /// Whether a peer that asks is linked.
    fn has_asking(&self) -> bool {
        self.ends
            .iter()
            .any(|end| end.protocol == Some(Protocol::Asking))
    }
}

/// The sites whose operations are pushed to a peer.
fn class_at(own: SiteNo, end: &End, sources: &[Option<SiteNo>; SITES]) -> SiteSet {
    let reach = match end.reach {
        Some(reach) => reach,
        None => SiteSet::empty(),
    };
    class_of(own, end.peer, &end.asked, &end.far, &reach, sources)
}

/// Puts a batch behind what goes to a peer, and only then counts it as sent there. It is spelt as the
/// last one of its heap was, where that had the same operations.
fn post(
    alloc: Global,
    peer: SiteNo,
    follow: &mut Follow,
    batch: Batch,
    last: &mut Option<Spelling>,
    out: &mut Parcels,
) -> Result<(), NodeFault>
    ensures put { OnOk result (HasPut peer batch.frame out.old.items out.new.items) }
    ensures sent { OnOk result (follow.new ≡ pushed batch.sent batch.next follow.old) }
    ensures refused { OnErr result
        ((follow.new ≡ follow.old) × (out.new.items ≡ out.old.items)) }
{
    let Batch {
        frame,
        sent,
        next,
        ..
    } = batch;
    put(alloc, peer, frame, last, out)?;
    follow.note_pushed(sent, next);
    Ok(())
}

/// Puts a frame of operations, if there is one, behind what goes to a peer, by differences where it
/// can.
fn put(
    alloc: Global,
    peer: SiteNo,
    frame: Option<Vec<u8>>,
    last: &mut Option<Spelling>,
    out: &mut Parcels,
) -> Result<(), NodeFault>
    ensures put { OnOk result (HasPut peer frame out.old.items out.new.items) }
    ensures refused { OnErr result (out.new.items ≡ out.old.items) }
{
    match frame {
        Some(frame) => {
            let bytes = spelt(alloc, frame, last)?;
            address(out, peer, bytes)
        }
        None => Ok(()),
    }
}
