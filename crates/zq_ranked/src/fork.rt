//! Children one after another.
ghost use Rattle.std.specs.Prelude.{Contains, IfNone, IfOk, IfSome, OnErr, drop, length, take, ◌+◌, ◌++◌, ◌<◌, ◌≡◌, ◌≤◌, ◌^◌};
ghost use Rattle.std.specs.List.Sorted.{IsStrictlySortedBy};
ghost use Rattle.zq_ranked.specs.Edits.{IsPut, IsTaken};
ghost use Rattle.zq_ranked.specs.Key.{pair_of_key};
ghost use Rattle.zq_ranked.specs.Order.{AreAfter, AreBefore, rank_of, scored_cmp};
ghost use Rattle.zq_ranked.specs.Shape.{IsFork, IsInside, joined};

use crate::child::Child;
use crate::halves::upper_half;
use crate::pair::Key;
use std::alloc::{AllocError, Global};

/// How many children a fork has when it is split.
const WIDE: usize = 64;

/// Children one after another, whose nodes are equally high.
#[cycle(node)]
#[derive(Drop)]
pub(crate) struct Fork {
    /// The height of each child's node.
    pub(crate) level: usize,
    pub(crate) children: Vec<Child>,
}

impl Fork {
    /// How many pairs come before a child.
    pub(crate) fn before(&self, place: usize) -> usize
        requires fork { IsFork self.now }
        requires within { place ≤ length self.now.children.items }
        requires fits { length (joined self.now.children.items) < 2 ^ 64 }
        ensures { result ≡ length (joined (take place self.now.children.items)) }
    {
        let mut count = 0;
        for child in &self.children[..place] {
            count += child.len;
        }
        count
    }

    /// The child with the pair at a place, or their number, and the pair's place in it.
    pub(crate) fn seek(&self, place: usize) -> (usize, usize)
        requires fork { IsFork self.now }
        ensures within { result.0 ≤ length self.now.children.items }
        ensures place { place ≡ length (joined (take result.0 self.now.children.items)) + result.1 }
        ensures inside { IsInside result.0 result.1 self.now.children.items }
    {
        let (mut index, mut rest) = (0, place);
        while index < self.children.len() {
            let len = self.children[index].len;
            if rest < len {
                return (index, rest);
            }
            rest -= len;
            index += 1;
        }
        (index, rest)
    }

    /// The child where a pair belongs.
    pub(crate) fn place_of(&self, key: &Key<'_>) -> usize
        requires fork { IsFork self.now }
        requires filled { 0 < length (joined self.now.children.items) }
        requires sorted { IsStrictlySortedBy scored_cmp (joined self.now.children.items) }
        ensures within { result < length self.now.children.items }
        ensures before { AreBefore (pair_of_key key.now)
            (joined (take result self.now.children.items)) }
        ensures after { AreAfter (pair_of_key key.now)
            (joined (drop (result + 1) self.now.children.items)) }
    {
        let (mut low, mut high) = (0, self.children.len());
        while low + 1 < high {
            let middle = low + (high - low) / 2;
            if self.children[middle].is_from(key) {
                low = middle;
            } else {
                high = middle;
            }
        }
        low
    }

    /// How many pairs go before another.
    #[cycle(rank)]
    pub(crate) fn rank(&self, key: &Key<'_>) -> usize
        requires fork { IsFork self.now }
        requires filled { 0 < length (joined self.now.children.items) }
        requires sorted { IsStrictlySortedBy scored_cmp (joined self.now.children.items) }
        requires fits { length (joined self.now.children.items) < 2 ^ 64 }
        ensures { result ≡ rank_of (pair_of_key key.now) (joined self.now.children.items) }
    {
        let place = self.place_of(key);
        self.before(place) + self.children[place].node.rank(key)
    }

    /// Puts a pair at its place, and answers whether it was not there before. Where memory is
    /// refused the pairs stay.
    #[cycle(insert)]
    pub(crate) fn insert(&mut self, alloc: Global, key: &Key<'_>) -> Result<bool, AllocError>
        requires fork { IsFork self.old }
        requires filled { 0 < length (joined self.old.children.items) }
        requires sorted { IsStrictlySortedBy scored_cmp (joined self.old.children.items) }
        requires fits { length (joined self.old.children.items) + 1 < 2 ^ 64 }
        ensures put { IfOk result
            (λ added. IsPut (pair_of_key key.now) (joined self.old.children.items)
            (joined self.new.children.items) added) }
        ensures refused { OnErr result
            (joined self.new.children.items ≡ joined self.old.children.items) }
        ensures refused_absent { OnErr result
            (Contains (joined self.old.children.items) (pair_of_key key.now) → ⊥) }
        ensures fork { IsFork self.new }
        ensures level { self.new.level ≡ self.old.level }
    {
        let place = self.place_of(key);
        let added = self.children[place].insert(alloc, key)?;
        if added {
            self.divide(alloc, place);
        }
        Ok(added)
    }

    /// Splits a child that is full in two. Where memory is refused it stays, and is split once a
    /// pair is put in later.
    fn divide(&mut self, alloc: Global, place: usize)
        requires fork { IsFork self.old }
        requires within { place < length self.old.children.items }
        requires fits { length (joined self.old.children.items) < 2 ^ 64 }
        ensures pairs { joined self.new.children.items ≡ joined self.old.children.items }
        ensures fork { IsFork self.new }
        ensures level { self.new.level ≡ self.old.level }
    {
        if self.children.reserve(1).is_err() {
            return;
        }
        let Some(upper) = self.children[place].split(alloc) else {
            return;
        };
        let Ok(()) = self.children.insert(place + 1, upper) else {
            unreachable!()
        };
    }

    /// Moves the upper half of the children into a fork of its own, where there are many. Where
    /// there are not, or memory is refused, they stay.
    pub(crate) fn split(&mut self, alloc: Global) -> Option<Fork>
        requires { IsFork self.old }
        ensures pairs { IfSome result
            (λ upper. joined self.old.children.items ≡ joined self.new.children.items
            ++ joined upper.children.items) }
        ensures lower { IfSome result (λ upper. 0 < length (joined self.new.children.items)) }
        ensures upper { IfSome result (λ upper. 0 < length (joined upper.children.items)) }
        ensures upper_fork { IfSome result (λ upper. IsFork upper) }
        ensures upper_level { IfSome result (λ upper. upper.level ≡ self.old.level) }
        ensures stays { IfNone result (self.new.children.items ≡ self.old.children.items) }
        ensures fork { IsFork self.new }
        ensures level { self.new.level ≡ self.old.level }
    {
        let children = upper_half(alloc, &mut self.children, WIDE)?;
        Some(Fork {
            level: self.level,
            children,
        })
    }

    /// Takes a pair out, and answers whether it was there. A child that loses its last pair goes.
    #[cycle(remove)]
    pub(crate) fn remove(&mut self, key: &Key<'_>) -> bool
        requires fork { IsFork self.old }
        requires filled { 0 < length (joined self.old.children.items) }
        requires sorted { IsStrictlySortedBy scored_cmp (joined self.old.children.items) }
        requires fits { length (joined self.old.children.items) < 2 ^ 64 }
        ensures taken { IsTaken (pair_of_key key.now) (joined self.old.children.items)
            (joined self.new.children.items) result }
        ensures fork { IsFork self.new }
        ensures level { self.new.level ≡ self.old.level }
    {
        let place = self.place_of(key);
        let taken = self.children[place].remove(key);
        if self.children[place].len == 0 {
            let _ = self.children.remove(place);
        }
        taken
    }
}
