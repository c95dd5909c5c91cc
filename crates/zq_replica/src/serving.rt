//! Giving a peer a heap in pieces.

ghost use Rattle.zq_node.specs.Node.{IsNode};
ghost use Rattle.zq_replica.specs.Fence.{IsSteady};
ghost use Rattle.zq_replica.specs.Nodes.{Shows};

use crate::logs::every_site;
use crate::parcels::{Parcels, address};
use crate::replica::Replica;
use std::alloc::Global;
use std::sync::Wait;
use zq_dots::Vector;
use zq_follow::count_beyond;
use zq_links::{Fetch, Piece, by_differences, write_piece};
use zq_node::{Node, NodeFault};
use zq_stage::Portion;
use zq_transfer::Sending;

/// A stream in which a peer is given a heap.
#[derive(Drop)]
pub(crate) struct Serving {
    /// As far as it went.
    sending: Sending,
    /// A place in the log: what is below it went, or was in the first piece's heap.
    place: u64,
    /// What is to go as the next piece, once the operations went that the peer lacks by then.
    waiting: Option<Portion>,
}

/// What goes next in a stream.
enum Step {
    /// This piece.
    Piece(Piece),
    /// These operations, or none, and the stream goes on.
    Ops(Option<Vec<u8>>),
    /// Nothing: the log has no more what the peer lacks, so that the stream begins anew.
    Broken,
}

impl Serving {
    /// The stream that begins so, before which all below a place of the log went.
    fn new(sending: Sending, place: u64) -> Serving {
        Serving {
            sending,
            place,
            waiting: None,
        }
    }
}

impl Replica<'_> {
    /// Begins to give the peer at this place the heap that it asks for: where it says how far it
    /// came, and the stream can go on there, from there on. Until the last piece went, and the peer
    /// says that the heap is open, nothing of it is pushed.
    pub(crate) fn begin_stream<R: Wait>(
        &mut self,
        rt: &R,
        node: &mut Node<'_>,
        place: usize,
        fetch: &Fetch,
    ) -> Result<(), NodeFault>
        requires node { IsNode node.old }
        ensures node { IsNode node.new }
        ensures shows { Shows node.old node.new }
        ensures steady { IsSteady self.old self.new }
    {
        let vector = node.vector(rt, fetch.heap)?;
        let serving = self.stream_for(rt, fetch, &vector);
        self.put_serving(place, fetch.heap, serving);
        Ok(())
    }

    /// The stream for a peer that asks for a heap which has this vector.
    fn stream_for<R: Wait>(&self, rt: &R, fetch: &Fetch, vector: &Vector) -> Serving {
        match &fetch.resume {
            Some(resume) if self.reaches_back(rt, fetch.heap, &resume.vector, vector) => {
                match Sending::resumed(self.life_of(fetch.heap), resume) {
                    Some(sending) => Serving::new(sending, 0),
                    None => self.stream_anew(rt, fetch.heap),
                }
            }
            _ => self.stream_anew(rt, fetch.heap),
        }
    }

    /// Whether a heap of this vector, and its log, have all that a stage lacks which has so much.
    fn reaches_back<R: Wait>(&self, rt: &R, heap: u8, stage: &Vector, vector: &Vector) -> bool {
        match self.logs.at(heap) {
            Some(log) => vector.covers(stage) && stage.covers(log.lock(rt).base()),
            None => false,
        }
    }

    /// A stream of a heap that begins. What is in the log by now is in the heap of its first piece.
    fn stream_anew<R: Wait>(&self, rt: &R, heap: u8) -> Serving {
        let place = match self.logs.at(heap) {
            Some(log) => log.lock(rt).end(),
            None => 0,
        };
        Serving::new(Sending::anew(self.life_of(heap)), place)
    }

    /// The peer at this place is given a heap by this stream.
    fn put_serving(&mut self, place: usize, heap: u8, serving: Serving)
        ensures { IsSteady self.old self.new }
    {
        let Some(end) = self.ends.get_mut(place) else {
            return;
        };
        if let Some(at_heap) = end.heaps.get_mut(usize::from(heap)) {
            at_heap.follow.serve();
            at_heap.serving = Some(serving);
        }
    }

    /// The stream by which the peer at this place is given a heap, which then it is no more.
    pub(crate) fn take_serving(&mut self, place: usize, heap: u8) -> Option<Serving>
        ensures { IsSteady self.old self.new }
    {
        let end = self.ends.get_mut(place)?;
        let at_heap = end.heaps.get_mut(usize::from(heap))?;
        at_heap.serving.take()
    }

    /// Sends the peer at this place the next frame of its stream of a heap, and says whether more
    /// follows. Where this fails the stream ends: the peer asks for the rest.
    pub(crate) fn stream<R: Wait>(
        &mut self,
        rt: &R,
        alloc: Global,
        node: &mut Node<'_>,
        place: usize,
        heap: u8,
        mut serving: Serving,
        out: &mut Parcels,
    ) -> Result<bool, NodeFault>
        requires node { IsNode node.old }
        ensures node { IsNode node.new }
        ensures shows { Shows node.old node.new }
        ensures steady { IsSteady self.old self.new }
    {
        match self.next_step(rt, alloc, node, heap, &mut serving)? {
            Step::Piece(piece) => {
                let is_last = piece.next.key == 0 && piece.next.member == 0;
                self.send_frame(place, write_piece(alloc, &piece)?, out)?;
                if is_last {
                    self.end_stream(place, heap);
                    return Ok(false);
                }
            }
            Step::Ops(Some(frame)) => self.send_frame(place, frame, out)?,
            Step::Ops(None) => {}
            Step::Broken => serving = self.stream_anew(rt, heap),
        }
        self.put_serving(place, heap, serving);
        Ok(true)
    }

    /// The last piece of a heap went to the peer at this place.
    fn end_stream(&mut self, place: usize, heap: u8)
        ensures { IsSteady self.old self.new }
    {
        let Some(end) = self.ends.get_mut(place) else {
            return;
        };
        if let Some(at_heap) = end.heaps.get_mut(usize::from(heap)) {
            at_heap.follow.serve();
        }
    }

    /// A frame goes to the peer at this place.
    fn send_frame(&self, place: usize, frame: Vec<u8>, out: &mut Parcels) -> Result<(), NodeFault> {
        match self.ends.get(place) {
            Some(end) => address(out, end.peer, frame),
            None => Ok(()),
        }
    }

    /// What goes next in a stream of a heap: the piece that waits, or the next one, or before it
    /// operations that the peer lacks.
    fn next_step<R: Wait>(
        &self,
        rt: &R,
        alloc: Global,
        node: &mut Node<'_>,
        heap: u8,
        serving: &mut Serving,
    ) -> Result<Step, NodeFault>
        requires node { IsNode node.old }
        ensures node { IsNode node.new }
        ensures shows { Shows node.old node.new }
    {
        if serving.sending.life != self.life_of(heap) {
            return Ok(Step::Broken);
        }
        let portion = self.next_portion(rt, alloc, node, heap, serving)?;
        match serving.sending.piece(portion) {
            Ok(piece) => Ok(Step::Piece(piece)),
            Err(portion) => {
                let vector = *portion.part.vector();
                serving.waiting = Some(portion);
                self.logs.drain_heap(rt, alloc, node, heap)?;
                self.ops_before(rt, alloc, heap, &vector, serving)
            }
        }
    }

    /// The portion of a heap that waits in a stream, or the next one.
    fn next_portion<R: Wait>(
        &self,
        rt: &R,
        alloc: Global,
        node: &mut Node<'_>,
        heap: u8,
        serving: &mut Serving,
    ) -> Result<Portion, NodeFault>
        requires node { IsNode node.old }
        ensures node { IsNode node.new }
        ensures shows { Shows node.old node.new }
    {
        if let Some(portion) = serving.waiting.take() {
            return Ok(portion);
        }
        let spot = serving.sending.spot;
        node.portion(rt, alloc, heap, spot, self.limits, self.hasher)
    }

    /// The next operations of a heap up to this vector that the peer of a stream lacks. The log has
    /// them in the order in which the heap took them.
    fn ops_before<R: Wait>(
        &self,
        rt: &R,
        alloc: Global,
        heap: u8,
        vector: &Vector,
        serving: &mut Serving,
    ) -> Result<Step, NodeFault> {
        let Some(log) = self.logs.at(heap) else {
            return Ok(Step::Broken);
        };
        let Some(has) = serving.sending.vector else {
            return Ok(Step::Broken);
        };
        let log = log.lock(rt);
        let lacking = count_beyond(&every_site(), vector, &has);
        let is_there = serving.place < log.end() && has.covers(log.base());
        if lacking == 0 || !is_there {
            return Ok(Step::Broken);
        }
        let class = every_site();
        let batch = log.batch(alloc, serving.place, class.as_array(), &has, lacking)?;
        serving.place = batch.next;
        serving.sending.note_sent(batch.sent);
        match batch.frame {
            Some(frame) => Ok(Step::Ops(Some(by_differences(alloc, frame)?))),
            None => Ok(Step::Ops(None)),
        }
    }
}
