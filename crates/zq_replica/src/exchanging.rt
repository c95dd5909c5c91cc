//! Exchanging a heap of a site for one that came in pieces.

ghost use Rattle.std.specs.Prelude.{List, MatchResult, OnErr, OnOk, [], ◌∷◌, ◌≡◌};
ghost use Rattle.zq_dots.specs.Placed.{Placed};
ghost use Rattle.zq_model.specs.Sets.{IsIn};
ghost use Rattle.zq_node.specs.Node.{IsNode, IsSameHome};
ghost use Rattle.zq_replica.specs.Fence.{IsSteady};
ghost use Rattle.zq_replica.specs.Gathered.{AreTried, HasGrown, HasReplaced, HasTakenOf, IsCame, IsIdle, IsSettled, IsStopped, IsTried, WereStopped, grown};
ghost use Rattle.zq_replica.specs.Nodes.{Shows};

use crate::parcels::Parcels;
use crate::replica::Replica;
use std::alloc::Global;
use std::sync::Wait;
use zq_dots::Op;
use zq_journal::{Since, TakeOverFault};
use zq_links::Frame;
use zq_node::{Node, NodeFault};
use zq_shard::{Shard, Taken};

/// How often an exchange is tried, since clients make operations meanwhile.
const MOST_TRIES: u8 = 32;

/// What came of trying to exchange a heap.
#[derive(Clone, Copy, Debug, PartialEq, Eq)]
enum Exchange {
    /// It took the place of the site's.
    Done,
    /// The site made operations meanwhile, which the other lacks.
    Lacks,
    /// The site no longer has the operations that the other lacks, or the other could not take one.
    Old,
}

impl Replica<'_> {
    /// Has a heap that came in pieces take the place of the site's own. It takes what the site made
    /// meanwhile first. Where the site no longer has that as operations the heap is merged.
    #[tactic(auto, using(crate::proofs::Replaced::by_exchange, crate::proofs::Replaced::by_merge, crate::proofs::Replaced::by_neither))]
    pub(crate) fn exchange<R: Wait>(
        &mut self,
        rt: &R,
        alloc: Global,
        node: &mut Node<'_>,
        heap: u8,
        mut shard: Shard,
        out: &mut Parcels,
    ) -> Result<(), NodeFault>
        requires node { IsNode node.old }
        ensures node { IsNode node.new }
        ensures home { IsSameHome node.old node.new }
        ensures replaced { HasReplaced shard node.old node.new }
        ensures steady { IsSteady self.old self.new }
    {
        if self.try_all(rt, alloc, node, heap, &mut shard)? {
            self.begin_life(heap);
            return self.end_exchange(rt, alloc, node, heap, out);
        }
        self.hear_state(rt, alloc, node, &Frame::State(shard), heap, out)
    }

    /// Tries to exchange a heap, and says whether that was done.
    #[tactic(auto, using(crate::proofs::Tried::done_after, crate::proofs::Tried::old_after, crate::proofs::Tried::one_more, crate::proofs::Tried::stopped_in))]
    fn try_all<R: Wait>(
        &self,
        rt: &R,
        alloc: Global,
        node: &mut Node<'_>,
        heap: u8,
        shard: &mut Shard,
    ) -> Result<bool, NodeFault>
        requires node { IsNode node.old }
        ensures node { IsNode node.new }
        ensures home { IsSameHome node.old node.new }
        ensures tried { MatchResult result
            (λ done. AreTried done shard.old shard.new node.old node.new)
            (λ _. WereStopped shard.old node.old node.new) }
    {
        for _try in 0..MOST_TRIES {
            match self.try_once(rt, alloc, node, heap, shard) {
                Ok(Exchange::Done) => return Ok(true),
                Ok(Exchange::Lacks) => {}
                Ok(Exchange::Old) => return Ok(false),
                Err(fault) => return Err(fault),
            }
        }
        Ok(false)
    }

    /// Tries to exchange a heap.
    #[tactic(auto, using(crate::proofs::Tried::tried_by, crate::proofs::Tried::not_tried, crate::proofs::Grown::stopped_after))]
    fn try_once<R: Wait>(
        &self,
        rt: &R,
        alloc: Global,
        node: &mut Node<'_>,
        heap: u8,
        shard: &mut Shard,
    ) -> Result<Exchange, NodeFault>
        requires node { IsNode node.old }
        ensures node { IsNode node.new }
        ensures home { IsSameHome node.old node.new }
        ensures tried { MatchResult result
            (λ came. IsTried came shard.old shard.new node.old node.new)
            (λ _. IsStopped node.old node.new) }
    {
        match self.grow(rt, alloc, node, heap, shard) {
            Ok(true) => replace(rt, node, shard),
            Ok(false) => Ok(Exchange::Old),
            Err(fault) => Err(fault),
        }
    }

    /// Has a heap take what the site made meanwhile, and says whether it took all. What the site made
    /// goes into its log too, since the exchange leaves no record of it.
    fn grow<R: Wait>(
        &self,
        rt: &R,
        alloc: Global,
        node: &mut Node<'_>,
        heap: u8,
        shard: &mut Shard,
    ) -> Result<bool, NodeFault>
        requires node { IsNode node.old }
        ensures node { IsNode node.new }
        ensures shows { Shows node.old node.new }
        ensures grown { OnOk result (HasGrown shard.old shard.new node.old node.new) }
    {
        let since = node.since(rt, alloc, heap, shard.vector())?;
        let all = take_since(alloc, shard, &since)?;
        self.logs.drain_heap(rt, alloc, node, heap)?;
        Ok(all)
    }

    /// The heap was exchanged: what was parked is tried, and peers to which it is owed are told what
    /// this site has then.
    #[tactic(auto, using(crate::proofs::Tried::settled_by, crate::proofs::Asked::asked_again))]
    fn end_exchange<R: Wait>(
        &mut self,
        rt: &R,
        alloc: Global,
        node: &mut Node<'_>,
        heap: u8,
        out: &mut Parcels,
    ) -> Result<(), NodeFault>
        requires node { IsNode node.old }
        ensures node { IsNode node.new }
        ensures home { IsSameHome node.old node.new }
        ensures settled { IsSettled node.old node.new }
        ensures steady { IsSteady self.old self.new }
    {
        let settled = node.settle_all(rt, alloc);
        let vector = node.vector(rt, heap)?;
        self.acknowledge(rt, alloc, node, heap, &vector, out)?;
        self.caught(rt, alloc, node, out)?;
        settled
    }
}

/// Has a heap take what a site has that it lacks, and says whether it took all.
fn take_since(alloc: Global, shard: &mut Shard, since: &Since) -> Result<bool, NodeFault>
    ensures { HasTakenOf since.now shard.old shard.new }
{
    match since {
        Since::Ops(ops) => take_all(alloc, shard, ops),
        Since::TooOld => Ok(false),
    }
}

/// Has a heap take operations, one after the other, and says whether it took all.
fn take_all(alloc: Global, shard: &mut Shard, ops: &[Op]) -> Result<bool, NodeFault>
    ensures { (some : List Placed) × ((o : Placed) → IsIn o some → IsIn o ops.now)
        × (shard.new ≡ grown some shard.old) }
{
    for op in ops {
        if !take_one(alloc, shard, op)? {
            return Ok(false);
        }
    }
    Ok(true)
}

/// Has a heap take an operation, and says whether nothing is missing before it.
fn take_one(alloc: Global, shard: &mut Shard, op: &Op) -> Result<bool, NodeFault>
    ensures taken { OnOk result (shard.new ≡ grown (op.now ∷ []) shard.old) }
    ensures refused { OnErr result (shard.new ≡ shard.old) }
{
    match shard.take(alloc, op) {
        Ok(taken) => Ok(taken != Taken::Early),
        Err(_) => Err(NodeFault::NoMemory),
    }
}

/// Exchanges the heap of a site, unless the other lacks something that the site has.
fn replace<R: Wait>(rt: &R, node: &mut Node<'_>, shard: &mut Shard) -> Result<Exchange, NodeFault>
    requires node { IsNode node.old }
    ensures node { IsNode node.new }
    ensures home { IsSameHome node.old node.new }
    ensures came { MatchResult result (λ came. IsCame came shard.old shard.new node.old node.new)
        (λ _. IsIdle node.old node.new) }
{
    match node.take_over(rt, shard) {
        Ok(()) => Ok(Exchange::Done),
        Err(TakeOverFault::Lacks) => Ok(Exchange::Lacks),
        Err(fault) => Err(refused(fault)),
    }
}

/// Why a heap did not take the place of the site's.
fn refused(fault: TakeOverFault) -> NodeFault {
    match fault {
        TakeOverFault::WrongRule => NodeFault::WrongRule,
        TakeOverFault::Worn => NodeFault::Worn,
        TakeOverFault::WrongHeap | TakeOverFault::Lacks => NodeFault::WrongHeap,
    }
}
