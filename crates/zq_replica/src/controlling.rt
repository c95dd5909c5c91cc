//! Hearing what peers say of themselves.

ghost use Rattle.std.specs.Prelude.{MatchResult, ◌≡◌};
ghost use Rattle.zq_node.specs.Node.{IsNode};
ghost use Rattle.zq_replica.specs.Fence.{IsSteady, IsWeighedByControl};
ghost use Rattle.zq_replica.specs.Gathered.{gathered_of};
ghost use Rattle.zq_replica.specs.Joined.{HasHeardControl};
ghost use Rattle.zq_replica.specs.Nodes.{Shows};
ghost use Rattle.zq_replica.specs.Sites.{fence_of};

use crate::parcels::{Parcels, address};
use crate::replica::Replica;
use std::alloc::Global;
use std::sync::Wait;
use zq_dots::{Rule, SiteNo};
use zq_follow::{HeardAt, SiteSet};
use zq_links::{At, Control, Fetch, Frame, Routes, write_frame};
use zq_node::{Node, NodeFault};

impl Replica<'_> {
    /// Hears what a peer at this place says of itself, unless that proves that another run used
    /// this site's number.
    pub(crate) fn hear_control<R: Wait>(
        &mut self,
        rt: &R,
        alloc: Global,
        node: &mut Node<'_>,
        place: usize,
        from: SiteNo,
        control: &Control,
        out: &mut Parcels,
    ) -> Result<(), NodeFault>
        requires node { IsNode node.old }
        ensures node { IsNode node.new }
        ensures shows { Shows node.old node.new }
        ensures gathered { gathered_of self.new ≡ gathered_of self.old }
        ensures weighed { MatchResult result
            (λ _. IsWeighedByControl from control.now node.old node.new self.old self.new
            out.old.items out.new.items)
            (λ _. fence_of self.new ≡ fence_of self.old) }
    {
        self.judge(control)?;
        if self.fences_by_control(rt, node, from, control)? {
            return Ok(());
        }
        self.hear_unfenced(rt, alloc, node, place, from, control, out)
    }

    /// Whether a control frame is for this site: it is of one of its heaps, among as many, and where
    /// it tells a rule that is this site's.
    fn judge(&self, control: &Control) -> Result<(), NodeFault> {
        match control {
            Control::Routes(_) => Ok(()),
            Control::At(at) => {
                self.judge_heap(at.heap, at.heaps)?;
                self.judge_rule(at.rule)
            }
            Control::Behind(behind) => self.judge_heap(behind.heap, behind.heaps),
            Control::Fetch(fetch) => self.judge_heap(fetch.heap, fetch.heaps),
        }
    }

    /// Whether a heap among so many is one of this site's.
    pub(crate) fn judge_heap(&self, heap: u8, heaps: u8) -> Result<(), NodeFault> {
        if heaps != self.heaps || heap >= heaps {
            return Err(NodeFault::WrongHeap);
        }
        Ok(())
    }

    /// Whether a rule is this site's.
    pub(crate) fn judge_rule(&self, rule: Rule) -> Result<(), NodeFault> {
        if rule != self.rule {
            return Err(NodeFault::WrongRule);
        }
        Ok(())
    }

    /// Hears what a peer at this place says of itself.
    fn hear_unfenced<R: Wait>(
        &mut self,
        rt: &R,
        alloc: Global,
        node: &mut Node<'_>,
        place: usize,
        from: SiteNo,
        control: &Control,
        out: &mut Parcels,
    ) -> Result<(), NodeFault>
        requires node { IsNode node.old }
        ensures node { IsNode node.new }
        ensures shows { Shows node.old node.new }
        ensures fenced { fence_of self.new ≡ fence_of self.old }
        ensures gathered { gathered_of self.new ≡ gathered_of self.old }
        ensures heard { HasHeardControl from control.now self.old.joining self.new.joining }
    {
        match control {
            Control::Routes(routes) => self.hear_routes(rt, alloc, node, place, routes, out),
            Control::At(at) => {
                self.joining.hear(from, at.heap, &at.vector);
                self.hear_at(rt, alloc, node, place, at, out)
            }
            Control::Behind(behind) => {
                self.catch_up(rt, alloc, node, place, behind.heap, behind.vector, out)
            }
            Control::Fetch(fetch) => self.serve(rt, alloc, node, place, fetch, out),
        }
    }

    /// Hears whom a peer has links to, and whose operations it asks for.
    fn hear_routes<R: Wait>(
        &mut self,
        rt: &R,
        alloc: Global,
        node: &mut Node<'_>,
        place: usize,
        routes: &Routes,
        out: &mut Parcels,
    ) -> Result<(), NodeFault>
        requires node { IsNode node.old }
        ensures node { IsNode node.new }
        ensures shows { Shows node.old node.new }
        ensures steady { IsSteady self.old self.new }
    {
        let Some(end) = self.ends.get_mut(place) else {
            return Ok(());
        };
        let reach = SiteSet::from_bits(routes.reach);
        end.asked = SiteSet::from_bits(routes.ask);
        end.far = SiteSet::from_bits(routes.far);
        if end.reach == Some(reach) {
            return Ok(());
        }
        end.reach = Some(reach);
        self.reroute(rt, alloc, node, out)
    }

    /// Hears what a peer has of a heap. In answer to the first such frame the heap is opened to the
    /// peer, unless a heap is being fetched.
    fn hear_at<R: Wait>(
        &mut self,
        rt: &R,
        alloc: Global,
        node: &mut Node<'_>,
        place: usize,
        at: &At,
        out: &mut Parcels,
    ) -> Result<(), NodeFault>
        requires node { IsNode node.old }
        ensures node { IsNode node.new }
        ensures shows { Shows node.old node.new }
        ensures steady { IsSteady self.old self.new }
    {
        self.hear_routes(rt, alloc, node, place, &at.routes, out)?;
        let Some(end) = self.ends.get_mut(place) else {
            return Ok(());
        };
        let Some(at_heap) = end.heaps.get_mut(usize::from(at.heap)) else {
            return Ok(());
        };
        let heard = HeardAt {
            vector: at.vector,
            turn: at.turn,
            echo: at.echo,
            open: at.open,
            window: at.window,
        };
        at_heap.follow.hear_at(&heard, 0);
        at_heap.was_full = false;
        if self.catching.is_none() && self.opens(place, at.heap) {
            return self.tell_at(rt, alloc, node, place, at.heap, false, out);
        }
        Ok(())
    }

    /// Gives a peer the heap that it asks for: in pieces, or at once where it knows none.
    fn serve<R: Wait>(
        &mut self,
        rt: &R,
        alloc: Global,
        node: &mut Node<'_>,
        place: usize,
        fetch: &Fetch,
        out: &mut Parcels,
    ) -> Result<(), NodeFault>
        requires node { IsNode node.old }
        ensures node { IsNode node.new }
        ensures shows { Shows node.old node.new }
        ensures steady { IsSteady self.old self.new }
    {
        if self.is_streamed_at(place) {
            self.begin_stream(rt, node, place, fetch)
        } else {
            self.give_whole(rt, alloc, node, place, fetch.heap, out)
        }
    }

    /// Whether the peer at this place is given heaps in pieces.
    fn is_streamed_at(&self, place: usize) -> bool {
        match self.ends.get(place) {
            Some(end) => end.streams(),
            None => false,
        }
    }

    /// Gives a peer a whole heap at once. Until the peer says that the heap is open nothing more of
    /// it is pushed.
    fn give_whole<R: Wait>(
        &mut self,
        rt: &R,
        alloc: Global,
        node: &mut Node<'_>,
        place: usize,
        heap: u8,
        out: &mut Parcels,
    ) -> Result<(), NodeFault>
        requires node { IsNode node.old }
        ensures node { IsNode node.new }
        ensures shows { Shows node.old node.new }
        ensures steady { IsSteady self.old self.new }
    {
        let shard = node.state(rt, alloc, heap)?;
        let frame = write_frame(alloc, &Frame::State(shard))?;
        let Some(end) = self.ends.get_mut(place) else {
            return Ok(());
        };
        if let Some(at_heap) = end.heaps.get_mut(usize::from(heap)) {
            at_heap.follow.serve();
        }
        address(out, end.peer, frame)
    }
}
