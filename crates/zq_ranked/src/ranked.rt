//! `Ranked`.
ghost use Rattle.std.specs.Prelude.{Contains, IfOk, IsTrue, List, OnErr, [], count_by, drop, false, if◌then◌else◌, insert, length, option_map, remove, reverse, slice_get, take, ◌-◌, ◌<◌, ◌≡◌, ◌≤◌, ◌↔◌};
ghost use Rattle.zq_ranked.specs.Key.{lent_pair, pair_of_key};
ghost use Rattle.zq_ranked.specs.Order.{IsRanking, is_below, rank_of};

use crate::node::Node;
use crate::pair::{Key, Pair};
use crate::pairs::{Backward, Forward};
use std::alloc::{AllocError, Global};
use std::marker::Model;

/// Distinct pairs of a score and a member, by score and then by the member's bytes: a list whose
/// calls take time in the logarithm of the pairs that were ever put in.
#[derive(Drop)]
pub struct Ranked {
    root: Node,
    len: usize,
    alloc: Global,
}

impl Model for Ranked {
    ghost use Rattle.std.specs.Prelude.{List, length, ℕ, ℤ, ◌≡◌};
    ghost use Rattle.zq_ranked.specs.Order.{IsRanking};
    ghost use Rattle.zq_ranked.specs.Shape.{IsRoot};

    ghost Value = { List (ℤ × List ℕ) };

    ghost view = { λ a. a.root.0 };

    ghost invariant = { λ a. IsRanking a.root.0 × (a.len ≡ length a.root.0) × IsRoot a.root };
}

impl Ranked {
    /// No pairs.
    pub fn new(alloc: Global) -> Ranked
        ensures { result ≡ [] }
    {
        Ranked {
            root: Node::leaf(Vec::new(alloc)),
            len: 0,
            alloc,
        }
    }

    /// How many pairs there are. They stand in order, and no two are the same.
    pub fn len(&self) -> usize
        ensures len { result ≡ length self.now }
        ensures in_order { IsRanking self.now }
    {
        self.len
    }

    /// The pair at a place, of which the first is 0.
    pub fn at(&self, place: usize) -> Option<(i128, &[u8])>
        ensures { option_map lent_pair result ≡ slice_get self.now place }
    {
        match self.root.block_from(place).first() {
            Some(pair) => Some(pair.lent()),
            None => None,
        }
    }

    /// The first pair.
    pub fn first(&self) -> Option<(i128, &[u8])>
        ensures { option_map lent_pair result ≡ slice_get self.now 0 }
    {
        self.at(0)
    }

    /// The last pair.
    pub fn last(&self) -> Option<(i128, &[u8])>
        ensures { option_map lent_pair result ≡ slice_get self.now (length self.now - 1) }
    {
        self.at(self.len().saturating_sub(1))
    }

    /// How many pairs go before this one, whether it is there or not: where it is, its place.
    pub fn rank(&self, score: i128, member: &[u8]) -> usize
        ensures { result ≡ rank_of (score, member.now) self.now }
    {
        self.place_of(&Key { score, member })
    }

    /// How many pairs have a score below this one, or perhaps this very one.
    pub fn count_below(&self, score: i128, or_equal: bool) -> usize
        ensures { result ≡ count_by (is_below score or_equal) self.now }
    {
        if !or_equal {
            return self.rank(score, &[]);
        }
        match score.checked_add(1) {
            Some(next) => self.rank(next, &[]),
            None => self.len(),
        }
    }

    /// Puts a pair in at its place, and answers whether it was not there before. It takes memory
    /// where a block of pairs grows or is split, and for a member of more than 16 bytes. Where
    /// memory is refused, which is only for a pair that was not there, nothing changes; a split
    /// that is refused waits for a later pair, and this one is put in.
    #[tactic(auto, using(crate::proofs::Puts::ranking_put, crate::proofs::Puts::length_put))]
    pub fn insert(&mut self, score: i128, member: &[u8]) -> Result<bool, AllocError>
        ensures put { IfOk result (λ added. self.new ≡
            (if added then insert self.old (rank_of (score, member.now) self.old)
            (score, member.now) else self.old)) }
        ensures absent { IfOk result (λ added. IsTrue added
            ↔ (Contains self.old (score, member.now) → ⊥)) }
        ensures refused { OnErr result (self.new ≡ self.old) }
        ensures refused_absent { OnErr result (Contains self.old (score, member.now) → ⊥) }
    {
        let key = Key { score, member };
        if self.len == usize::MAX {
            return self.refuse(&key);
        }
        let added = self.root.insert(self.alloc, &key)?;
        if added {
            self.len += 1;
            self.root.raise(self.alloc);
        }
        Ok(added)
    }

    /// Takes a pair out, and answers whether it was there. It takes no memory.
    #[tactic(auto, using(crate::proofs::Puts::ranking_taken, crate::proofs::Puts::length_taken))]
    pub fn remove(&mut self, score: i128, member: &[u8]) -> bool
        ensures taken { self.new ≡
            (if result then remove self.old (rank_of (score, member.now) self.old) else self.old) }
        ensures present { IsTrue result ↔ Contains self.old (score, member.now) }
    {
        let taken = self.root.remove(&Key { score, member });
        if taken {
            self.len -= 1;
            self.root.lower(self.alloc);
        }
        taken
    }

    /// The pairs from a place onward. A step inside a block of pairs takes constant time, and one
    /// to the next block walks at most 12 levels up and down, whatever the length. It takes no
    /// memory.
    pub fn iter_from(&self, place: usize) -> Forward<'_>
        ensures { result ≡ drop place self.now }
    {
        Forward::new(&self.root, place.min(self.len))
    }

    /// The pairs before a place, the last of them first, by steps as those of `iter_from`. A step
    /// to the block before also counts through each fork that it enters, of up to 64 nodes.
    pub fn iter_back_from(&self, place: usize) -> Backward<'_>
        ensures { result ≡ reverse (take place self.now) }
    {
        Backward::new(&self.root, place.min(self.len))
    }

    /// Answers for a list that has no number for one more pair.
    fn refuse(&self, key: &Key<'_>) -> Result<bool, AllocError>
        ensures known { IfOk result (λ added. (added ≡ false)
            × Contains self.now (pair_of_key key.now)) }
        ensures absent { OnErr result (Contains self.now (pair_of_key key.now) → ⊥) }
    {
        if self.is_at(self.place_of(key), key) {
            return Ok(false);
        }
        Err(AllocError)
    }

    /// How many pairs go before one.
    fn place_of(&self, key: &Key<'_>) -> usize
        ensures place { result ≡ rank_of (pair_of_key key.now) self.now }
    {
        if self.len == 0 {
            return 0;
        }
        self.root.rank(key)
    }

    /// Whether a pair stands at the place where it belongs.
    fn is_at(&self, place: usize, key: &Key<'_>) -> bool
        requires { place ≡ rank_of (pair_of_key key.now) self.now }
        ensures present { IsTrue result ↔ Contains self.now (pair_of_key key.now) }
        ensures within { IsTrue result → place < length self.now }
    {
        match self.root.block_from(place).first() {
            Some(pair) => pair.order(key).is_eq(),
            None => false,
        }
    }
}
