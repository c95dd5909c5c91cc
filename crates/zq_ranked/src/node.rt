//! Nodes of a tree of pairs.
ghost use Rattle.std.specs.Prelude.{Contains, IfNone, IfOk, IfSome, IsTrue, OnErr, [], drop, get_or, length, ◌+◌, ◌++◌, ◌<◌, ◌≡◌, ◌≤◌, ◌^◌, ◌↔◌};
ghost use Rattle.std.specs.List.Sorted.{IsStrictlySortedBy};
ghost use Rattle.zq_ranked.specs.Edits.{IsPut, IsTaken};
ghost use Rattle.zq_ranked.specs.Key.{pair_of_key};
ghost use Rattle.zq_ranked.specs.Order.{Scored, rank_of, scored_cmp};
ghost use Rattle.zq_ranked.specs.Shape.{IsFork, IsRoot, first_score, joined};

use crate::block::{FULL, put_into, rank_in, take_from};
use crate::child::Child;
use crate::fork::Fork;
use crate::halves::upper_half;
use crate::pair::{Key, Pair};
use std::alloc::{AllocError, Global};
use std::marker::Model;
use std::mem;

/// How many levels of forks there are at most. A list gets one more only where its root is full, so
/// it takes more than 10 ^ 17 insertions to come to so many.
pub(crate) const LEVELS: usize = 12;

/// A list of pairs as a tree whose leaves are all equally deep, seen as the pairs and the height.
#[cycle(node)]
#[derive(Drop)]
pub(crate) struct Node {
    pub(crate) form: Form,
}

/// What a node is.
#[cycle(node)]
#[derive(Drop)]
pub(crate) enum Form {
    /// A block of pairs.
    Leaf(Vec<Pair>),
    /// Nodes that are one level lower.
    Branch(Fork),
}

impl Model for Node {
    ghost use Rattle.std.specs.Prelude.{ℕ, ℤ, List};

    ghost Value = { List (ℤ × List ℕ) × ℕ };

    ghost use Rattle.zq_ranked.specs.Shape.{view_of, IsForm};

    ghost view = { λ a. view_of a.form };

    ghost invariant = { λ a. IsForm a.form };

    ghost size = { λ d. d.1 };

    ghost use Rattle.zq_ranked.specs.Falls.{depth_le-height};

    ghost size_decreases = { λ a h. depth_le-height a.form h };
}

impl Node {
    /// A leaf of these pairs.
    pub(crate) fn leaf(block: Vec<Pair>) -> Node
        ensures { result ≡ (block.items, 0) }
    {
        Node {
            form: Form::Leaf(block),
        }
    }

    /// A fork.
    pub(crate) fn branch(fork: Fork) -> Node
        requires { IsFork fork }
        ensures { result ≡ (joined fork.children.items, fork.level + 1) }
    {
        Node {
            form: Form::Branch(fork),
        }
    }

    /// How many levels of forks there are.
    pub(crate) fn height(&self) -> usize
        requires { self.now.1 < 2 ^ 64 }
        ensures { result ≡ self.now.1 }
    {
        match &self.form {
            Form::Leaf(_) => 0,
            Form::Branch(fork) => fork.level + 1,
        }
    }

    /// How many pairs there are.
    pub(crate) fn len(&self) -> usize
        requires { length self.now.0 < 2 ^ 64 }
        ensures { result ≡ length self.now.0 }
    {
        match &self.form {
            Form::Leaf(block) => block.len(),
            Form::Branch(fork) => fork.before(fork.children.len()),
        }
    }

    /// The first pair.
    pub(crate) fn first(&self) -> &Pair
        requires { 0 < length self.now.0 }
        ensures { (d : Scored) → result.now ≡ get_or self.now.0 0 d }
    {
        match &self.form {
            Form::Leaf(block) => &block[0],
            Form::Branch(fork) => fork.children[0].node.first(),
        }
    }

    /// The score of the first pair.
    pub(crate) fn first_score(&self) -> i128
        requires { 0 < length self.now.0 }
        ensures { result ≡ first_score self.now.0 }
    {
        match &self.form {
            Form::Leaf(block) => block[0].score(),
            Form::Branch(fork) => fork.children[0].first,
        }
    }

    /// The pairs from a place to the end of its block.
    pub(crate) fn block_from(&self, place: usize) -> &[Pair]
        ensures part { drop place self.now.0 ≡ result.now
            ++ drop (place + length result.now) self.now.0 }
        ensures some { place < length self.now.0 → 0 < length result.now }
    {
        match &self.form {
            Form::Leaf(block) => &block[place.min(block.len())..],
            Form::Branch(fork) => {
                let (index, within) = fork.seek(place);
                if index >= fork.children.len() {
                    return &[];
                }
                fork.children[index].node.block_from(within)
            }
        }
    }

    /// How many pairs go before another.
    #[cycle(rank)]
    pub(crate) fn rank(&self, key: &Key<'_>) -> usize
        requires sorted { IsStrictlySortedBy scored_cmp self.now.0 }
        requires fits { length self.now.0 < 2 ^ 64 }
        requires filled { 0 < self.now.1 → 0 < length self.now.0 }
        ensures { result ≡ rank_of (pair_of_key key.now) self.now.0 }
    {
        match &self.form {
            Form::Leaf(block) => rank_in(block.as_slice(), key),
            Form::Branch(fork) => fork.rank(key),
        }
    }

    /// Puts a pair at its place, and answers whether it was not there before. Where memory is
    /// refused the pairs stay.
    #[cycle(insert)]
    pub(crate) fn insert(&mut self, alloc: Global, key: &Key<'_>) -> Result<bool, AllocError>
        requires sorted { IsStrictlySortedBy scored_cmp self.old.0 }
        requires fits { length self.old.0 + 1 < 2 ^ 64 }
        requires filled { 0 < self.old.1 → 0 < length self.old.0 }
        ensures put { IfOk result
            (λ added. IsPut (pair_of_key key.now) self.old.0 self.new.0 added) }
        ensures refused { OnErr result (self.new.0 ≡ self.old.0) }
        ensures refused_absent { OnErr result (Contains self.old.0 (pair_of_key key.now) → ⊥) }
        ensures height { self.new.1 ≡ self.old.1 }
    {
        match &mut self.form {
            Form::Leaf(block) => put_into(alloc, block, key),
            Form::Branch(fork) => fork.insert(alloc, key),
        }
    }

    /// Takes a pair out, and answers whether it was there.
    #[cycle(remove)]
    pub(crate) fn remove(&mut self, key: &Key<'_>) -> bool
        requires sorted { IsStrictlySortedBy scored_cmp self.old.0 }
        requires fits { length self.old.0 < 2 ^ 64 }
        requires filled { 0 < self.old.1 → 0 < length self.old.0 }
        ensures taken { IsTaken (pair_of_key key.now) self.old.0 self.new.0 result }
        ensures height { self.new.1 ≡ self.old.1 }
    {
        match &mut self.form {
            Form::Leaf(block) => take_from(block, key),
            Form::Branch(fork) => fork.remove(key),
        }
    }

    /// Moves the upper half of a full node into a node of its own. Where the node is not full, or
    /// memory is refused, it stays.
    pub(crate) fn split(&mut self, alloc: Global) -> Option<Node>
        ensures pairs { IfSome result (λ upper. self.old.0 ≡ self.new.0 ++ upper.0) }
        ensures lower { IfSome result (λ upper. 0 < length self.new.0) }
        ensures upper { IfSome result (λ upper. 0 < length upper.0) }
        ensures level { IfSome result (λ upper. upper.1 ≡ self.old.1) }
        ensures stays { IfNone result (self.new.0 ≡ self.old.0) }
        ensures height { self.new.1 ≡ self.old.1 }
    {
        match &mut self.form {
            Form::Leaf(block) => Some(Node::leaf(upper_half(alloc, block, FULL)?)),
            Form::Branch(fork) => Some(Node::branch(fork.split(alloc)?)),
        }
    }

    /// Whether there are no pairs.
    fn is_empty(&self) -> bool
        ensures { IsTrue result ↔ (length self.now.0 ≡ 0) }
    {
        match &self.form {
            Form::Leaf(block) => block.is_empty(),
            Form::Branch(fork) => fork.children.is_empty(),
        }
    }

    /// Gives way to its only child, if it has just one, or to a leaf where there are no pairs.
    pub(crate) fn lower(&mut self, alloc: Global)
        requires low { self.old.1 ≤ LEVELS }
        ensures pairs { self.new.0 ≡ self.old.0 }
        ensures root { IsRoot self.new }
    {
        if self.is_empty() {
            *self = Node::leaf(Vec::new(alloc));
            return;
        }
        let only = match &mut self.form {
            Form::Branch(fork) if fork.children.len() == 1 => fork.children.pop(),
            _ => return,
        };
        if let Some(child) = only {
            *self = child.node;
        }
    }

    /// Gives way to a fork of its halves where it is full. Where it is not, or memory is refused,
    /// or there are as many levels as there may be, it stays.
    pub(crate) fn raise(&mut self, alloc: Global)
        requires root { IsRoot self.old }
        requires fits { length self.old.0 < 2 ^ 64 }
        ensures pairs { self.new.0 ≡ self.old.0 }
        ensures root { IsRoot self.new }
    {
        let level = self.height();
        if level >= LEVELS {
            return;
        }
        let Ok(mut children) = Vec::with_capacity(alloc, 2) else {
            return;
        };
        let Some(upper) = self.split(alloc) else {
            return;
        };
        let lower = mem::replace(self, Node::leaf(Vec::new(alloc)));
        children.push_reserved(Child::of(lower));
        children.push_reserved(Child::of(upper));
        *self = Node::branch(Fork { level, children });
    }
}
