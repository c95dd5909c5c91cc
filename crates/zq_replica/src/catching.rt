//! Fetching a heap from a peer.

ghost use Rattle.std.specs.Prelude.{◌≡◌};
ghost use Rattle.zq_node.specs.Node.{IsNode};
ghost use Rattle.zq_replica.specs.Fence.{IsSteady};
ghost use Rattle.zq_replica.specs.Gathered.{is_awaited};
ghost use Rattle.zq_replica.specs.Nodes.{Shows};

use crate::parcels::Parcels;
use crate::replica::Replica;
use std::alloc::Global;
use std::sync::Wait;
use zq_dots::{SiteNo, Vector};
use zq_node::{Node, NodeFault};

/// For how many beats a heap, or its next piece, is waited for, after which it is asked of another
/// peer.
const MOST_BEATS: u8 = 15;

/// A heap that is being fetched.
#[derive(Clone, Copy, Debug)]
pub(crate) struct Catching {
    /// The heap.
    pub(crate) heap: u8,
    /// From whom.
    pub(crate) from: SiteNo,
    /// What the peer had where it said that this site is behind.
    pub(crate) wanted: Vector,
    /// For how many beats it is waited for.
    pub(crate) left: u8,
}

impl Replica<'_> {
    /// Whether a heap is being fetched from this peer.
    pub(crate) fn is_fetched_from(&self, peer: SiteNo) -> bool {
        match &self.catching {
            Some(catching) => catching.from == peer,
            None => false,
        }
    }

    /// A peer said that this site is behind: it is asked for the heap, or noted where a heap is
    /// being fetched. Where this site lacks nothing of what the peer has, the peer is told so.
    pub(crate) fn catch_up<R: Wait>(
        &mut self,
        rt: &R,
        alloc: Global,
        node: &mut Node<'_>,
        place: usize,
        heap: u8,
        theirs: Vector,
        out: &mut Parcels,
    ) -> Result<(), NodeFault>
        requires node { IsNode node.old }
        ensures node { IsNode node.new }
        ensures shows { Shows node.old node.new }
        ensures steady { IsSteady self.old self.new }
    {
        let vector = node.vector(rt, heap)?;
        if vector.covers(&theirs) {
            return self.tell_at(rt, alloc, node, place, heap, false, out);
        }
        if self.catching.is_some() {
            self.note(place, heap, theirs);
            return Ok(());
        }
        self.fetch(alloc, place, heap, theirs, out)
    }

    /// Notes that a peer has what this site lacks.
    fn note(&mut self, place: usize, heap: u8, theirs: Vector)
        ensures { IsSteady self.old self.new }
    {
        let Some(end) = self.ends.get_mut(place) else {
            return;
        };
        if let Some(at_heap) = end.heaps.get_mut(usize::from(heap)) {
            at_heap.noted = Some(theirs);
        }
    }

    /// Asks a peer for a heap, or for the rest of it where a part came from this peer.
    fn fetch(
        &mut self,
        alloc: Global,
        place: usize,
        heap: u8,
        theirs: Vector,
        out: &mut Parcels,
    ) -> Result<(), NodeFault>
        ensures { IsSteady self.old self.new }
    {
        let Some(end) = self.ends.get(place) else {
            return Ok(());
        };
        let from = end.peer;
        let resume = self.resume_of(from, heap);
        self.ask_for(alloc, place, heap, resume, out)?;
        self.catching = Some(Catching {
            heap,
            from,
            wanted: theirs,
            left: MOST_BEATS,
        });
        Ok(())
    }

    /// Where the heap that was being fetched is there, links of it are opened, and the next peer
    /// that was noted is asked.
    pub(crate) fn caught<R: Wait>(
        &mut self,
        rt: &R,
        alloc: Global,
        node: &mut Node<'_>,
        out: &mut Parcels,
    ) -> Result<(), NodeFault>
        requires node { IsNode node.old }
        ensures node { IsNode node.new }
        ensures shows { Shows node.old node.new }
        ensures steady { IsSteady self.old self.new }
    {
        let Some(catching) = self.catching else {
            return Ok(());
        };
        let vector = node.vector(rt, catching.heap)?;
        if !vector.covers(&catching.wanted) {
            return Ok(());
        }
        self.end_catching(rt, alloc, node, out)
    }

    /// Whether this heap is being fetched from this peer.
    pub(crate) fn is_awaited(&self, peer: SiteNo, heap: u8) -> bool
        ensures { result ≡ is_awaited peer heap self.now }
    {
        match &self.catching {
            Some(catching) => catching.from == peer && catching.heap == heap,
            None => false,
        }
    }

    /// Something of the heap that is fetched came: it is waited for as long as before.
    pub(crate) fn wait_on(&mut self)
        ensures { IsSteady self.old self.new }
    {
        if let Some(catching) = &mut self.catching {
            catching.left = MOST_BEATS;
        }
    }

    /// One beat more has gone by: a heap that did not come is waited for no more.
    pub(crate) fn wait_for_heap<R: Wait>(
        &mut self,
        rt: &R,
        alloc: Global,
        node: &mut Node<'_>,
        out: &mut Parcels,
    ) -> Result<(), NodeFault>
        requires node { IsNode node.old }
        ensures node { IsNode node.new }
        ensures shows { Shows node.old node.new }
    {
        let Some(catching) = &mut self.catching else {
            self.keep_gathered();
            return Ok(());
        };
        if catching.left > 0 {
            catching.left -= 1;
            return Ok(());
        }
        self.end_catching(rt, alloc, node, out)
    }

    /// Nothing is fetched any more: each peer that waits for it is told that it may push, and the
    /// next one that was noted is asked.
    pub(crate) fn end_catching<R: Wait>(
        &mut self,
        rt: &R,
        alloc: Global,
        node: &mut Node<'_>,
        out: &mut Parcels,
    ) -> Result<(), NodeFault>
        requires node { IsNode node.old }
        ensures node { IsNode node.new }
        ensures shows { Shows node.old node.new }
        ensures steady { IsSteady self.old self.new }
    {
        let Some(Catching { heap, from, .. }) = self.catching else {
            return Ok(());
        };
        self.catching = None;
        for place in 0..self.ends.len() {
            self.open_after(rt, alloc, node, place, from, heap, out)?;
        }
        self.ask_noted(rt, alloc, node, out)
    }

    /// Opens what was kept shut to a peer while this heap was fetched from this peer, and tells the
    /// one that gave it.
    fn open_after<R: Wait>(
        &mut self,
        rt: &R,
        alloc: Global,
        node: &mut Node<'_>,
        place: usize,
        from: SiteNo,
        fetched: u8,
        out: &mut Parcels,
    ) -> Result<(), NodeFault>
        requires node { IsNode node.old }
        ensures node { IsNode node.new }
        ensures shows { Shows node.old node.new }
        ensures steady { IsSteady self.old self.new }
    {
        for heap in 0..self.heaps {
            let gave = heap == fetched && self.is_end_of(place, from);
            let opened = self.opens(place, heap);
            if opened || gave {
                self.tell_at(rt, alloc, node, place, heap, false, out)?;
            }
        }
        Ok(())
    }

    /// Whether the end at this place is that of the link to this peer.
    fn is_end_of(&self, place: usize, peer: SiteNo) -> bool {
        match self.ends.get(place) {
            Some(end) => end.peer == peer,
            None => false,
        }
    }

    /// Opens a heap to a peer that has said what it has, and says whether it was not open before.
    pub(crate) fn opens(&mut self, place: usize, heap: u8) -> bool
        ensures { IsSteady self.old self.new }
    {
        let Some(end) = self.ends.get_mut(place) else {
            return false;
        };
        let Some(at_heap) = end.heaps.get_mut(usize::from(heap)) else {
            return false;
        };
        if at_heap.follow.is_open() || at_heap.follow.sent().is_none() {
            return false;
        }
        at_heap.follow.open_up();
        true
    }

    /// Asks the first peer that was noted, and still has what this site lacks, for its heap. Those
    /// before it are told what this site has by now.
    fn ask_noted<R: Wait>(
        &mut self,
        rt: &R,
        alloc: Global,
        node: &mut Node<'_>,
        out: &mut Parcels,
    ) -> Result<(), NodeFault>
        requires node { IsNode node.old }
        ensures node { IsNode node.new }
        ensures shows { Shows node.old node.new }
        ensures steady { IsSteady self.old self.new }
    {
        for place in 0..self.ends.len() {
            if self.ask_noted_at(rt, alloc, node, place, out)? {
                return Ok(());
            }
        }
        Ok(())
    }

    /// The same of the peer at this place, and whether it is asked.
    fn ask_noted_at<R: Wait>(
        &mut self,
        rt: &R,
        alloc: Global,
        node: &mut Node<'_>,
        place: usize,
        out: &mut Parcels,
    ) -> Result<bool, NodeFault>
        requires node { IsNode node.old }
        ensures node { IsNode node.new }
        ensures shows { Shows node.old node.new }
        ensures steady { IsSteady self.old self.new }
    {
        for heap in 0..self.heaps {
            if self.ask_noted_of(rt, alloc, node, place, heap, out)? {
                return Ok(true);
            }
        }
        Ok(false)
    }

    /// The same of one heap of the peer at this place.
    fn ask_noted_of<R: Wait>(
        &mut self,
        rt: &R,
        alloc: Global,
        node: &mut Node<'_>,
        place: usize,
        heap: u8,
        out: &mut Parcels,
    ) -> Result<bool, NodeFault>
        requires node { IsNode node.old }
        ensures node { IsNode node.new }
        ensures shows { Shows node.old node.new }
        ensures steady { IsSteady self.old self.new }
    {
        let Some(theirs) = self.take_noted(place, heap) else {
            return Ok(false);
        };
        let vector = node.vector(rt, heap)?;
        if vector.covers(&theirs) {
            self.tell_at(rt, alloc, node, place, heap, false, out)?;
            return Ok(false);
        }
        self.fetch(alloc, place, heap, theirs, out)?;
        Ok(true)
    }

    /// What was noted of a peer's heap, which then is noted no more.
    fn take_noted(&mut self, place: usize, heap: u8) -> Option<Vector>
        ensures { IsSteady self.old self.new }
    {
        let end = self.ends.get_mut(place)?;
        let at_heap = end.heaps.get_mut(usize::from(heap))?;
        at_heap.noted.take()
    }
}
