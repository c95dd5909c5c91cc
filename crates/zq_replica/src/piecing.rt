//! Hearing the pieces of a heap that a peer gives, and the operations between them.

ghost use Rattle.std.specs.Prelude.{All, IfNone, IfOk, IfSome, MatchResult, None, OnErr, OnOk, false, true, ◌≡◌, ◌⊎◌};
ghost use Rattle.zq_node.specs.Node.{IsNode, IsSameHome};
ghost use Rattle.zq_replica.specs.Brought.{IsBrought, IsCompleted, IsGathering};
ghost use Rattle.zq_replica.specs.Fence.{IsStanding, IsWeighedByBytes, IsWeighedByPiece};
ghost use Rattle.zq_replica.specs.Gathered as spec;
ghost use Rattle.zq_replica.specs.Gathered.{IsAdded, IsBegun, IsFedIn, IsFinished, IsGatheringPiece, IsWholeIn, gathered_of};
ghost use Rattle.zq_replica.specs.Sites.{fence_of};

use crate::gathering::{Gathering, Stray};
use crate::parcels::Parcels;
use crate::replica::Replica;
use std::alloc::Global;
use std::sync::Wait;
use zq_dots::{Op, SiteNo};
use zq_links::{Piece, Resume, read_piece};
use zq_node::{Node, NodeFault};
use zq_peers::Unheard;
use zq_shard::Shard;

impl Replica<'_> {
    /// Where the stream of this heap of this peer broke off, if a part of it is there.
    pub(crate) fn resume_of(&self, peer: SiteNo, heap: u8) -> Option<Resume>
        ensures { result ≡ spec.resume_from peer heap (gathered_of self.now) }
    {
        match &self.gathering {
            Some(gathering) => gathering.resume_of(peer, heap),
            None => None,
        }
    }

    /// Whether this heap comes from this peer in pieces, and some came.
    pub(crate) fn gathers(&self, peer: SiteNo, heap: u8) -> bool
        ensures { result ≡ spec.is_gathered peer heap self.now }
    {
        let is_awaited = self.is_awaited(peer, heap);
        match &self.gathering {
            Some(gathering) => gathering.is_of(peer, heap) && is_awaited,
            None => false,
        }
    }

    /// A beat has gone by in which nothing is fetched: the part of a heap is kept for a minute.
    pub(crate) fn keep_gathered(&mut self)
        ensures kept { gathered_of self.new ≡ spec.aged (gathered_of self.old) }
        ensures standing { IsStanding self.old self.new }
    {
        let Some(gathering) = &mut self.gathering else {
            return;
        };
        if gathering.left == 0 {
            self.gathering = None;
        } else {
            gathering.left -= 1;
        }
    }

    /// Hears a piece of a heap of the peer at this place, of these bytes.
    pub(crate) fn hear_piece_bytes<R: Wait>(
        &mut self,
        rt: &R,
        alloc: Global,
        node: &mut Node<'_>,
        place: usize,
        from: SiteNo,
        bytes: &[u8],
        out: &mut Parcels,
    ) -> Result<(), Unheard>
        requires node { IsNode node.old }
        ensures node { IsNode node.new }
        ensures home { IsSameHome node.old node.new }
        ensures brought { IsBrought from self.old bytes.now node.old node.new }
        ensures gathers { IsGathering from self.old bytes.now (gathered_of self.new) }
        ensures weighed { MatchResult result
            (λ _. IsWeighedByBytes from bytes.now node.old node.new self.old self.new
            out.old.items out.new.items)
            (λ _. fence_of self.new ≡ fence_of self.old) }
    {
        match read_piece(alloc, bytes, self.hasher) {
            Ok(piece) => self
                .hear_piece(rt, alloc, node, place, from, piece, out)
                .map_err(Unheard::Refused),
            Err(fault) => Err(Unheard::Unread(fault)),
        }
    }

    /// Hears a piece of a heap of the peer at this place, unless the piece proves that another run
    /// used this site's number.
    fn hear_piece<R: Wait>(
        &mut self,
        rt: &R,
        alloc: Global,
        node: &mut Node<'_>,
        place: usize,
        from: SiteNo,
        piece: Piece,
        out: &mut Parcels,
    ) -> Result<(), NodeFault>
        requires node { IsNode node.old }
        ensures node { IsNode node.new }
        ensures home { IsSameHome node.old node.new }
        ensures completed { IsCompleted from self.old piece node.old node.new }
        ensures gathers { IsGatheringPiece from self.old piece (gathered_of self.new) }
        ensures weighed { MatchResult result
            (λ _. IsWeighedByPiece from piece node.old node.new self.old self.new
            out.old.items out.new.items)
            (λ _. fence_of self.new ≡ fence_of self.old) }
    {
        self.judge_heap(piece.part.heap(), piece.part.heaps())?;
        self.judge_rule(piece.part.rule())?;
        if self.fences_by_piece(rt, node, from, &piece)? {
            return Ok(());
        }
        self.gather(rt, alloc, node, place, from, piece, out)
    }

    /// Gathers a piece of the peer at this place. Where it is the last one the heap takes the place
    /// of the site's.
    fn gather<R: Wait>(
        &mut self,
        rt: &R,
        alloc: Global,
        node: &mut Node<'_>,
        place: usize,
        from: SiteNo,
        piece: Piece,
        out: &mut Parcels,
    ) -> Result<(), NodeFault>
        requires node { IsNode node.old }
        ensures node { IsNode node.new }
        ensures home { IsSameHome node.old node.new }
        ensures completed { IsCompleted from self.old piece node.old node.new }
        ensures gathers { IsGatheringPiece from self.old piece (gathered_of self.new) }
        ensures standing { IsStanding self.old self.new }
    {
        let heap = piece.part.heap();
        match self.add_piece(alloc, from, piece) {
            Ok(true) => self.finish(rt, alloc, node, heap, out),
            Ok(false) => Ok(()),
            Err(stray) => self.give_up(alloc, place, heap, stray, out),
        }
    }

    /// Where the heap is whole that came in pieces it takes the place of the site's.
    fn finish<R: Wait>(
        &mut self,
        rt: &R,
        alloc: Global,
        node: &mut Node<'_>,
        heap: u8,
        out: &mut Parcels,
    ) -> Result<(), NodeFault>
        requires node { IsNode node.old }
        ensures node { IsNode node.new }
        ensures home { IsSameHome node.old node.new }
        ensures finished { IsFinished (gathered_of self.old) (gathered_of self.new)
            node.old node.new }
        ensures standing { IsStanding self.old self.new }
    {
        match self.take_whole() {
            Some(shard) => self.exchange(rt, alloc, node, heap, shard, out),
            None => Ok(()),
        }
    }

    /// Takes a piece of a heap of a peer, and says whether it is one that was waited for.
    fn add_piece(&mut self, alloc: Global, from: SiteNo, piece: Piece) -> Result<bool, Stray>
        ensures added { IfOk result (λ added. added ≡ true →
            IsAdded from self.old piece (gathered_of self.new)) }
        ensures passed { IfOk result (λ added. added ≡ false →
            gathered_of self.new ≡ gathered_of self.old) }
        ensures stray { OnErr result (spec.is_gathered from piece.part.heap self.old ≡ true) }
        ensures standing { IsStanding self.old self.new }
    {
        let heap = piece.part.heap();
        if !self.is_awaited(from, heap) {
            return Ok(false);
        }
        self.wait_on();
        if piece.number == 0 {
            return Ok(self.begin(from, piece));
        }
        match &mut self.gathering {
            Some(gathering) if gathering.is_of(from, heap) => {
                gathering.add(alloc, &piece)?;
                Ok(true)
            }
            _ => Ok(false),
        }
    }

    /// Begins what comes of a heap of a peer by its first piece. Another one is passed over.
    fn begin(&mut self, from: SiteNo, piece: Piece) -> bool
        ensures begun { result ≡ true → IsBegun from piece (gathered_of self.new) }
        ensures passed { result ≡ false → gathered_of self.new ≡ gathered_of self.old }
        ensures standing { IsStanding self.old self.new }
    {
        match Gathering::new(from, piece) {
            Some(gathering) => {
                self.gathering = Some(gathering);
                true
            }
            None => false,
        }
    }

    /// The heap that came in pieces, where the last one came, which then is there no more.
    fn take_whole(&mut self) -> Option<Shard>
        ensures whole { IfSome result (IsWholeIn (gathered_of self.old)) }
        ensures taken { IfSome result (λ _. gathered_of self.new ≡ None) }
        ensures none { IfNone result ((spec.is_whole (gathered_of self.old) ≡ false)
            × (gathered_of self.new ≡ gathered_of self.old)) }
        ensures standing { IsStanding self.old self.new }
    {
        if !self.is_whole() {
            return None;
        }
        match self.gathering.take() {
            Some(gathering) => gathering.receiving.finish(),
            None => None,
        }
    }

    /// Whether all of a heap came in pieces.
    fn is_whole(&self) -> bool
        ensures { result ≡ spec.is_whole (gathered_of self.now) }
    {
        match &self.gathering {
            Some(gathering) => gathering.receiving.stage().is_whole(),
            None => false,
        }
    }

    /// Takes operations of a heap that comes from the peer at this place in pieces, which go between
    /// these. The peer has them, so that it is not sent them.
    pub(crate) fn gather_ops(
        &mut self,
        alloc: Global,
        place: usize,
        heap: u8,
        ops: &[Op],
        out: &mut Parcels,
    ) -> Result<(), NodeFault>
        ensures gathers { IsFedIn ops.now (gathered_of self.old) (gathered_of self.new)
            ⊎ (gathered_of self.new ≡ None) }
        ensures standing { IsStanding self.old self.new }
    {
        self.note_dots(place, heap, ops);
        match self.feed(alloc, ops) {
            Ok(()) => {
                self.wait_on();
                Ok(())
            }
            Err(stray) => self.give_up(alloc, place, heap, stray, out),
        }
    }

    /// What came of a heap takes operations.
    fn feed(&mut self, alloc: Global, ops: &[Op]) -> Result<(), Stray>
        ensures fed { OnOk result
            (IsFedIn ops.now (gathered_of self.old) (gathered_of self.new)) }
        ensures standing { IsStanding self.old self.new }
    {
        match &mut self.gathering {
            Some(gathering) => gathering.take_all(alloc, ops),
            None => Ok(()),
        }
    }

    /// What came in pieces is dropped, and the peer at this place is asked for the heap from its
    /// beginning; later where there was no memory.
    fn give_up(
        &mut self,
        alloc: Global,
        place: usize,
        heap: u8,
        stray: Stray,
        out: &mut Parcels,
    ) -> Result<(), NodeFault>
        ensures none { gathered_of self.new ≡ None }
        ensures standing { IsStanding self.old self.new }
    {
        self.gathering = None;
        match stray {
            Stray::NoMemory => Err(NodeFault::NoMemory),
            Stray::Unfit => self.ask_for(alloc, place, heap, None, out),
        }
    }
}

/// Whether all of these operations are of this heap.
pub(crate) fn are_of(heap: u8, ops: &[Op]) -> bool
    ensures all { result ≡ true → All (λ o. o.operation.heap ≡ heap) ops.now }
    ensures other { All (λ o. o.operation.heap ≡ heap) ops.now → result ≡ true }
{
    for op in ops {
        if op.heap() != heap {
            return false;
        }
    }
    true
}
