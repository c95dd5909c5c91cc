//! Hearing the frames of peers.

ghost use Rattle.std.specs.Prelude.{All, IfOk, IsSome, MatchBool, MatchResult, Ok, is_some, ◌≡◌};
ghost use Rattle.zq_links.specs.Frame.{IsWritable};
ghost use Rattle.zq_node.specs.Node.{IsNode, IsSameHome};
ghost use Rattle.zq_links.specs.declared.frame.Frame.{Frame as Frames};
ghost use Rattle.zq_replica.specs.Brought.{IsBrought, IsGathering};
ghost use Rattle.zq_replica.specs.Fence.{IsPassedOver, IsStanding, IsSteady, IsWeighedBy, IsWeighedByBytes};
ghost use Rattle.zq_replica.specs.Gathered.{IsGatheringBy, gathered_of};
ghost use Rattle.zq_replica.specs.Nodes.{Heard, Hears, IsGiven, IsOpsOf, Shows};
ghost use Rattle.zq_replica.specs.Sites.{fence_of, is_heeded};

use crate::parcels::{Parcels, address};
use crate::piecing::are_of;
use crate::replica::Replica;
use std::alloc::Global;
use std::sync::Wait;
use zq_dots::{Op, SiteNo, Vector};
use zq_follow::SiteSet;
use zq_links::{Frame, is_control, is_piece, read_control, read_heard, write_frame};
use zq_node::{Node, NodeFault};
use zq_peers::Unheard;

impl Replica<'_> {
    /// Hears a frame that came over the link of this number to this peer, and appends what is sent
    /// then. Where that link is not up any more the frame is passed over, and so is each frame once
    /// the site is fenced. A frame by which the site is fenced is not heard: nothing is sent then.
    ///
    /// `Unread` where the bytes are no frame, or there was no memory to read them: then nothing
    /// happens. `Refused` where the frame is not for this site, or was not heard to its end.
    pub fn hear<R: Wait>(
        &mut self,
        rt: &R,
        alloc: Global,
        node: &mut Node<'_>,
        from: SiteNo,
        link: u64,
        bytes: &[u8],
        out: &mut Parcels,
    ) -> Result<(), Unheard>
        requires node { IsNode node.old }
        ensures node { IsNode node.new }
        ensures home { IsSameHome node.old node.new }
        ensures brought { IsBrought from self.old bytes.now node.old node.new }
        ensures gathers { IsGathering from self.old bytes.now (gathered_of self.new) }
        ensures silent { IsSome (fence_of self.new) → out.new.items ≡ out.old.items }
        ensures weighed { MatchBool (is_heeded from link self.old)
            (MatchResult result
            (λ _. IsWeighedByBytes from bytes.now node.old node.new self.old self.new
            out.old.items out.new.items)
            (λ _. fence_of self.new ≡ fence_of self.old))
            (IsPassedOver node.old node.new self.old self.new out.old.items out.new.items
            × (result ≡ Ok tt)) }
    {
        let Some(place) = self.heeded(from, link) else {
            return Ok(());
        };
        if is_control(bytes) {
            self.hear_words(rt, alloc, node, place, from, bytes, out)
        } else if is_piece(bytes) {
            self.hear_piece_bytes(rt, alloc, node, place, from, bytes, out)
        } else {
            self.hear_bytes(rt, alloc, node, place, from, bytes, out)
        }
    }

    /// The place of the end of the link of this number to this peer, where what comes over it is
    /// heard.
    fn heeded(&self, from: SiteNo, link: u64) -> Option<usize>
        ensures { is_some result ≡ is_heeded from link self.now }
    {
        if self.fenced.is_some() {
            return None;
        }
        self.place_of(from, link)
    }

    /// Hears what the peer at this place says of itself.
    fn hear_words<R: Wait>(
        &mut self,
        rt: &R,
        alloc: Global,
        node: &mut Node<'_>,
        place: usize,
        from: SiteNo,
        bytes: &[u8],
        out: &mut Parcels,
    ) -> Result<(), Unheard>
        requires node { IsNode node.old }
        ensures node { IsNode node.new }
        ensures shows { Shows node.old node.new }
        ensures gathered { gathered_of self.new ≡ gathered_of self.old }
        ensures weighed { MatchResult result
            (λ _. IsWeighedByBytes from bytes.now node.old node.new self.old self.new
            out.old.items out.new.items)
            (λ _. fence_of self.new ≡ fence_of self.old) }
    {
        let control = read_control(bytes).map_err(Unheard::Unread)?;
        self.hear_control(rt, alloc, node, place, from, &control, out)
            .map_err(Unheard::Refused)
    }

    /// Has the node hear the frame that these bytes of the peer at this place are.
    fn hear_bytes<R: Wait>(
        &mut self,
        rt: &R,
        alloc: Global,
        node: &mut Node<'_>,
        place: usize,
        from: SiteNo,
        bytes: &[u8],
        out: &mut Parcels,
    ) -> Result<(), Unheard>
        requires node { IsNode node.old }
        ensures node { IsNode node.new }
        ensures home { IsSameHome node.old node.new }
        ensures brought { IsBrought from self.old bytes.now node.old node.new }
        ensures gathers { IsGathering from self.old bytes.now (gathered_of self.new) }
        ensures weighed { MatchResult result
            (λ _. IsWeighedByBytes from bytes.now node.old node.new self.old self.new
            out.old.items out.new.items)
            (λ _. fence_of self.new ≡ fence_of self.old) }
    {
        let is_pushed = self.is_pushed_at(place);
        match read_heard(alloc, bytes, self.hasher, is_pushed) {
            Ok(mut frame) => self
                .hear_unless_fenced(rt, alloc, node, place, from, &mut frame, out)
                .map_err(Unheard::Refused),
            Err(fault) => Err(Unheard::Unread(fault)),
        }
    }

    /// Whether the peer at this place is one that pushes.
    fn is_pushed_at(&self, place: usize) -> bool {
        match self.ends.get(place) {
            Some(end) => end.pushes(),
            None => false,
        }
    }

    /// Has the node hear a frame of the peer at this place, unless the frame proves that another run
    /// used this site's number. What the node takes of it is handed over by value.
    fn hear_unless_fenced<R: Wait>(
        &mut self,
        rt: &R,
        alloc: Global,
        node: &mut Node<'_>,
        place: usize,
        from: SiteNo,
        frame: &mut Frame,
        out: &mut Parcels,
    ) -> Result<(), NodeFault>
        requires node { IsNode node.old }
        ensures node { IsNode node.new }
        ensures home { IsSameHome node.old node.new }
        ensures given { IsGiven frame.old node.old node.new }
        ensures gathers { IsGatheringBy from self.old frame.old (gathered_of self.new) }
        ensures weighed { MatchResult result
            (λ _. IsWeighedBy from frame.old node.old node.new self.old self.new
            out.old.items out.new.items)
            (λ _. fence_of self.new ≡ fence_of self.old) }
    {
        if self.fences_by(rt, node, from, frame)? {
            return Ok(());
        }
        self.joining.hear_frame(from, frame);
        self.hear_frame(rt, alloc, node, place, from, frame, out)
    }

    /// Has the node hear a frame of the peer at this place.
    fn hear_frame<R: Wait>(
        &mut self,
        rt: &R,
        alloc: Global,
        node: &mut Node<'_>,
        place: usize,
        from: SiteNo,
        frame: &mut Frame,
        out: &mut Parcels,
    ) -> Result<(), NodeFault>
        requires node { IsNode node.old }
        ensures node { IsNode node.new }
        ensures home { IsSameHome node.old node.new }
        ensures given { IsGiven frame.old node.old node.new }
        ensures gathers { IsGatheringBy from self.old frame.old (gathered_of self.new) }
        ensures standing { IsStanding self.old self.new }
    {
        match frame {
            Frame::Ops(ops) => self.hear_ops(rt, alloc, node, place, from, ops, out),
            Frame::Have(_) => self.hear_and_answer(rt, alloc, node, frame, out),
            Frame::State(shard) => {
                let heap = shard.heap();
                self.hear_state(rt, alloc, node, frame, heap, out)
            }
        }
    }

    /// Has the node hear a whole heap of a peer. What the heap here has made goes into its log
    /// first, since the merge leaves no record of it; and peers to which it is owed are told what
    /// this site has then, since what they have pushed may have come with the heap.
    pub(crate) fn hear_state<R: Wait>(
        &mut self,
        rt: &R,
        alloc: Global,
        node: &mut Node<'_>,
        frame: &Frame,
        heap: u8,
        out: &mut Parcels,
    ) -> Result<(), NodeFault>
        requires node { IsNode node.old }
        ensures node { IsNode node.new }
        ensures home { IsSameHome node.old node.new }
        ensures given { IsGiven frame.now node.old node.new }
        ensures steady { IsSteady self.old self.new }
    {
        self.logs.drain_heap(rt, alloc, node, heap)?;
        self.begin_life(heap);
        self.hear_and_answer(rt, alloc, node, frame, out)?;
        let vector = node.vector(rt, heap)?;
        self.acknowledge(rt, alloc, node, heap, &vector, out)
    }

    /// Has the node hear a frame, and appends its answers.
    fn hear_and_answer<R: Wait>(
        &mut self,
        rt: &R,
        alloc: Global,
        node: &mut Node<'_>,
        frame: &Frame,
        out: &mut Parcels,
    ) -> Result<(), NodeFault>
        requires node { IsNode node.old }
        ensures node { IsNode node.new }
        ensures home { IsSameHome node.old node.new }
        ensures heard { Heard frame.now node.old node.new }
        ensures steady { IsSteady self.old self.new }
    {
        let answers = hear_by(rt, alloc, node, frame)?;
        write_answers(alloc, &answers, out)?;
        self.caught(rt, alloc, node, out)
    }

    /// Hears operations of the peer at this place. Where all are of a heap that comes from the peer
    /// in pieces that takes them, and else the node does. `WrongHeap` where this site has no such
    /// heap as that of the first.
    fn hear_ops<R: Wait>(
        &mut self,
        rt: &R,
        alloc: Global,
        node: &mut Node<'_>,
        place: usize,
        from: SiteNo,
        ops: &mut [Op],
        out: &mut Parcels,
    ) -> Result<(), NodeFault>
        requires node { IsNode node.old }
        ensures node { IsNode node.new }
        ensures home { IsSameHome node.old node.new }
        ensures given { (frame : Frames) → IsOpsOf frame ops.old →
            IsGiven frame node.old node.new }
        ensures gathers { (frame : Frames) → IsOpsOf frame ops.old →
            IsGatheringBy from self.old frame (gathered_of self.new) }
        ensures standing { IsStanding self.old self.new }
    {
        let Some(first) = ops.first() else {
            return Ok(());
        };
        let heap = first.heap();
        if heap >= self.heaps {
            return Err(NodeFault::WrongHeap);
        }
        if self.gathers(from, heap) && are_of(heap, ops) {
            return self.gather_ops(alloc, place, heap, ops, out);
        }
        self.take_ops(rt, alloc, node, place, from, heap, ops, out)
    }

    /// Has the node hear operations of a heap of the peer at this place. The peer has them, so that
    /// it is not sent them; and peers to which it is owed are told what this site has then. What the
    /// node took of them keeps its heap, its dot and its vector.
    fn take_ops<R: Wait>(
        &mut self,
        rt: &R,
        alloc: Global,
        node: &mut Node<'_>,
        place: usize,
        from: SiteNo,
        heap: u8,
        ops: &mut [Op],
        out: &mut Parcels,
    ) -> Result<(), NodeFault>
        requires node { IsNode node.old }
        ensures node { IsNode node.new }
        ensures home { IsSameHome node.old node.new }
        ensures given { (frame : Frames) → IsOpsOf frame ops.old →
            IsGiven frame node.old node.new }
        ensures steady { IsSteady self.old self.new }
    {
        let before = node.vector(rt, heap)?;
        let heard = node.hear_ops(rt, alloc, ops);
        let after = node.vector(rt, heap)?;
        self.note_dots(place, heap, ops);
        self.note_sources(from, heap, ops, &before, &after);
        self.acknowledge(rt, alloc, node, heap, &after, out)?;
        self.caught(rt, alloc, node, out)?;
        heard?;
        Ok(())
    }

    /// Notes that the peer at this place has these operations.
    pub(crate) fn note_dots(&mut self, place: usize, heap: u8, ops: &[Op])
        ensures { IsSteady self.old self.new }
    {
        let Some(end) = self.ends.get_mut(place) else {
            return;
        };
        let Some(at_heap) = end.heaps.get_mut(usize::from(heap)) else {
            return;
        };
        for op in ops {
            at_heap.follow.hear_dot(op.dot());
        }
    }

    /// Notes that those of these operations that were new came from this peer.
    fn note_sources(&mut self, from: SiteNo, heap: u8, ops: &[Op], before: &Vector, after: &Vector)
        ensures { IsSteady self.old self.new }
    {
        let Some(sources) = self.sources.get_mut(usize::from(heap)) else {
            return;
        };
        for op in ops {
            let site = op.dot().site;
            if before.get(site) < after.get(site)
                && let Some(source) = sources.get_mut(usize::from(site.value()))
            {
                *source = Some(from);
            }
        }
    }

    /// Tells each peer what this site has of a heap where a good part of what it may have under way
    /// has come.
    pub(crate) fn acknowledge<R: Wait>(
        &mut self,
        rt: &R,
        alloc: Global,
        node: &mut Node<'_>,
        heap: u8,
        vector: &Vector,
        out: &mut Parcels,
    ) -> Result<(), NodeFault>
        requires node { IsNode node.old }
        ensures node { IsNode node.new }
        ensures shows { Shows node.old node.new }
        ensures steady { IsSteady self.old self.new }
    {
        for place in 0..self.ends.len() {
            if self.owes_at(place, heap, vector) {
                self.tell_at(rt, alloc, node, place, heap, false, out)?;
            }
        }
        Ok(())
    }

    /// Whether a peer is to be told what this site has of a heap.
    fn owes_at(&self, place: usize, heap: u8, vector: &Vector) -> bool {
        let Some(end) = self.ends.get(place) else {
            return false;
        };
        let Some(at_heap) = end.heaps.get(usize::from(heap)) else {
            return false;
        };
        let pushed = SiteSet::empty().with(end.peer).union(&end.told.ask);
        let pushed = pushed.union(&end.told.far);
        end.pushes()
            && at_heap.follow.is_open()
            && at_heap.follow.owes_at(vector, &pushed, self.window)
    }
}

/// Has the node hear a frame, to its end or as far as it comes, and gives its answers.
fn hear_by<R: Wait>(
    rt: &R,
    alloc: Global,
    node: &mut Node<'_>,
    frame: &Frame,
) -> Result<Vec<(SiteNo, Frame)>, NodeFault>
    requires node { IsNode node.old }
    ensures node { IsNode node.new }
    ensures home { IsSameHome node.old node.new }
    ensures hears { Hears frame.now node.old node.new }
    ensures writable { IfOk result (λ answers. All (λ answer. IsWritable answer.1) answers.items) }
{
    match node.hear(rt, alloc, frame) {
        Ok(answers) => Ok(answers),
        Err(fault) => Err(fault),
    }
}

/// Appends the answers to a frame.
fn write_answers(
    alloc: Global,
    answers: &[(SiteNo, Frame)],
    out: &mut Parcels,
) -> Result<(), NodeFault>
    requires writable { All (λ answer. IsWritable answer.1) answers.now }
{
    for answer in answers {
        let bytes = write_frame(alloc, &answer.1)?;
        address(out, answer.0, bytes)?;
    }
    Ok(())
}
