//! A node under a fork.
ghost use Rattle.std.specs.Prelude.{Contains, IfNone, IfOk, IfSome, IsTrue, OnErr, false, get_or, length, true, ◌+◌, ◌++◌, ◌<◌, ◌≡◌, ◌^◌};
ghost use Rattle.std.specs.List.Sorted.{IsStrictlySortedBy};
ghost use Rattle.std.specs.Ordering.{is_gt};
ghost use Rattle.zq_ranked.specs.Edits.{IsPut, IsTaken};
ghost use Rattle.zq_ranked.specs.Key.{pair_of_key};
ghost use Rattle.zq_ranked.specs.Order.{Scored, scored_cmp};
ghost use Rattle.zq_ranked.specs.Shape.{IsChild};

use crate::node::Node;
use crate::pair::Key;
use std::alloc::{AllocError, Global};
use std::cmp::Ordering;

/// A node under a fork, with what a search asks of it.
#[cycle(node)]
#[derive(Drop)]
pub(crate) struct Child {
    /// The score of the first pair.
    pub(crate) first: i128,
    /// How many pairs there are.
    pub(crate) len: usize,
    pub(crate) node: Node,
}

impl Child {
    /// A node with what a search asks of it.
    pub(crate) fn of(node: Node) -> Child
        requires filled { 0 < length node.0 }
        requires fits { length node.0 < 2 ^ 64 }
        ensures child { IsChild node.1 result }
        ensures node { result.node ≡ node }
    {
        Child {
            first: node.first_score(),
            len: node.len(),
            node,
        }
    }

    /// Whether the first pair does not come after another.
    pub(crate) fn is_from(&self, key: &Key<'_>) -> bool
        requires { IsChild self.now.node.1 self.now }
        ensures from { IsTrue result → (d : Scored) →
            is_gt (scored_cmp (get_or self.now.node.0 0 d) (pair_of_key key.now)) ≡ false }
        ensures after { result ≡ false → (d : Scored) →
            is_gt (scored_cmp (get_or self.now.node.0 0 d) (pair_of_key key.now)) ≡ true }
    {
        match self.first.cmp(&key.score) {
            Ordering::Less => true,
            Ordering::Equal => !self.node.first().order(key).is_gt(),
            Ordering::Greater => false,
        }
    }

    /// Puts a pair at its place, and answers whether it was not there before. Where memory is
    /// refused the pairs stay.
    #[cycle(insert)]
    pub(crate) fn insert(&mut self, alloc: Global, key: &Key<'_>) -> Result<bool, AllocError>
        requires child { IsChild self.old.node.1 self.old }
        requires sorted { IsStrictlySortedBy scored_cmp self.old.node.0 }
        requires fits { length self.old.node.0 + 1 < 2 ^ 64 }
        ensures put { IfOk result
            (λ added. IsPut (pair_of_key key.now) self.old.node.0 self.new.node.0 added) }
        ensures refused { OnErr result (self.new.node.0 ≡ self.old.node.0) }
        ensures refused_absent { OnErr result (Contains self.old.node.0 (pair_of_key key.now) → ⊥) }
        ensures child { IsChild self.old.node.1 self.new }
    {
        let added = self.node.insert(alloc, key)?;
        if added {
            self.len += 1;
            self.first = self.node.first_score();
        }
        Ok(added)
    }

    /// Takes a pair out, and answers whether it was there. The last one leaves no child.
    #[cycle(remove)]
    #[tactic(auto, using(crate::proofs::Puts::length_taken))]
    pub(crate) fn remove(&mut self, key: &Key<'_>) -> bool
        requires child { IsChild self.old.node.1 self.old }
        requires sorted { IsStrictlySortedBy scored_cmp self.old.node.0 }
        requires fits { length self.old.node.0 < 2 ^ 64 }
        ensures taken { IsTaken (pair_of_key key.now) self.old.node.0 self.new.node.0 result }
        ensures len { self.new.len ≡ length self.new.node.0 }
        ensures child { 0 < length self.new.node.0 → IsChild self.old.node.1 self.new }
    {
        let taken = self.node.remove(key);
        if taken {
            self.len -= 1;
            if self.len > 0 {
                self.first = self.node.first_score();
            }
        }
        taken
    }

    /// Moves the upper half of a full node into a child of its own. Where the node is not full, or
    /// memory is refused, it stays.
    pub(crate) fn split(&mut self, alloc: Global) -> Option<Child>
        requires child { IsChild self.old.node.1 self.old }
        requires fits { length self.old.node.0 < 2 ^ 64 }
        ensures pairs { IfSome result (λ upper. self.old.node.0 ≡ self.new.node.0 ++ upper.node.0) }
        ensures upper { IfSome result (λ upper. IsChild self.old.node.1 upper) }
        ensures lower { IsChild self.old.node.1 self.new }
        ensures stays { IfNone result (self.new.node.0 ≡ self.old.node.0) }
    {
        let upper = Child::of(self.node.split(alloc)?);
        self.len -= upper.len;
        Some(upper)
    }
}
