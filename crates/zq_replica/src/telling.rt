//! What a peer is told of what this site has.

ghost use Rattle.zq_node.specs.Node.{IsNode};
ghost use Rattle.zq_replica.specs.Fence.{IsSteady};
ghost use Rattle.zq_replica.specs.Nodes.{Shows};

use crate::parcels::{Parcels, address};
use crate::replica::Replica;
use std::alloc::Global;
use std::sync::Wait;
use zq_dots::Vector;
use zq_links::{At, Behind, Control, Fetch, Resume, Routes, write_control};
use zq_node::{Node, NodeFault};

impl Replica<'_> {
    /// Tells a peer what this site has of a heap. Where it is a calm, what the peer will have is
    /// noted, so that its answer shows what was lost. To the peer from which the heap is fetched it
    /// is shut until it came: else the peer, once all of it went, would find this site behind again.
    pub(crate) fn tell_at<R: Wait>(
        &mut self,
        rt: &R,
        alloc: Global,
        node: &mut Node<'_>,
        place: usize,
        heap: u8,
        is_calm: bool,
        out: &mut Parcels,
    ) -> Result<(), NodeFault>
        requires node { IsNode node.old }
        ensures node { IsNode node.new }
        ensures shows { Shows node.old node.new }
        ensures steady { IsSteady self.old self.new }
    {
        if !self.has_heap(heap) {
            return Err(NodeFault::WrongHeap);
        }
        let vector = node.vector(rt, heap)?;
        let is_awaited = self.is_awaited_at(place, heap);
        let Some(end) = self.ends.get_mut(place) else {
            return Ok(());
        };
        let Some(at_heap) = end.heaps.get_mut(usize::from(heap)) else {
            return Ok(());
        };
        let head = at_heap.follow.tell(&vector, is_calm);
        let at = At {
            heaps: self.heaps,
            heap,
            rule: self.rule,
            open: head.open && !is_awaited,
            turn: head.turn,
            echo: head.echo,
            window: self.window,
            routes: Routes {
                reach: end.told.reach.bits(),
                ask: end.told.ask.bits(),
                far: end.told.far.bits(),
            },
            vector,
        };
        let frame = write_control(alloc, &Control::At(at))?;
        address(out, end.peer, frame)?;
        Ok(())
    }

    /// Whether this heap is being fetched from the peer at this place.
    fn is_awaited_at(&self, place: usize, heap: u8) -> bool {
        match self.ends.get(place) {
            Some(end) => self.is_awaited(end.peer, heap),
            None => false,
        }
    }

    /// Tells a peer what this site has of each heap.
    pub(crate) fn tell_each<R: Wait>(
        &mut self,
        rt: &R,
        alloc: Global,
        node: &mut Node<'_>,
        place: usize,
        is_calm: bool,
        out: &mut Parcels,
    ) -> Result<(), NodeFault>
        requires node { IsNode node.old }
        ensures node { IsNode node.new }
        ensures shows { Shows node.old node.new }
        ensures steady { IsSteady self.old self.new }
    {
        for heap in 0..self.heaps {
            self.tell_at(rt, alloc, node, place, heap, is_calm, out)?;
        }
        Ok(())
    }

    /// Tells a peer that it is behind: it lacks what the log has no more.
    pub(crate) fn tell_behind(
        &mut self,
        alloc: Global,
        place: usize,
        heap: u8,
        vector: Vector,
        out: &mut Parcels,
    ) -> Result<(), NodeFault> {
        if !self.has_heap(heap) {
            return Err(NodeFault::WrongHeap);
        }
        let Some(end) = self.ends.get_mut(place) else {
            return Ok(());
        };
        let behind = Behind {
            heaps: self.heaps,
            heap,
            vector,
        };
        let frame = write_control(alloc, &Control::Behind(behind))?;
        address(out, end.peer, frame)?;
        if let Some(at_heap) = end.heaps.get_mut(usize::from(heap)) {
            at_heap.follow.tell_behind();
        }
        Ok(())
    }

    /// Asks a peer for a heap, or for the rest of it from where a stream broke off.
    pub(crate) fn ask_for(
        &self,
        alloc: Global,
        place: usize,
        heap: u8,
        resume: Option<Resume>,
        out: &mut Parcels,
    ) -> Result<(), NodeFault> {
        if !self.has_heap(heap) {
            return Err(NodeFault::WrongHeap);
        }
        let Some(end) = self.ends.get(place) else {
            return Ok(());
        };
        let fetch = Fetch {
            heaps: self.heaps,
            heap,
            resume,
        };
        let frame = write_control(alloc, &Control::Fetch(fetch))?;
        address(out, end.peer, frame)?;
        Ok(())
    }
}
