//! A score with its member.
ghost use Rattle.std.specs.Prelude.{IfOk, ◌≡◌};
ghost use Rattle.zq_ranked.specs.Order.{goes_before, scored_cmp};
ghost use Rattle.zq_ranked.specs.Key.{pair_of_key};

use smallvec::SmallVec;
use std::alloc::{AllocError, Global};
use std::cmp::Ordering;
use std::marker::Model;

/// How many bytes of a member lie in the pair itself.
const INLINE: usize = 16;

/// A score with its member, whose bytes lie in the pair where they are few.
#[derive(Drop)]
pub(crate) struct Pair {
    score: i128,
    member: SmallVec<u8, INLINE>,
}

impl Model for Pair {
    ghost use Rattle.std.specs.Prelude.{List, ℕ, ℤ};

    ghost Value = { ℤ × List ℕ };

    ghost view = { λ a. (a.score, a.member.items) };
}

/// A score with a member that is lent, to be sought.
#[derive(Clone, Copy, Drop)]
pub(crate) struct Key<'a> {
    pub(crate) score: i128,
    pub(crate) member: &'a [u8],
}

impl Pair {
    /// A pair, with the member's bytes copied.
    pub(crate) fn new(alloc: Global, key: &Key<'_>) -> Result<Pair, AllocError>
        ensures { IfOk result (λ pair. pair ≡ pair_of_key key.now) }
    {
        let member = SmallVec::from_slice(alloc, key.member)?;
        Ok(Pair {
            score: key.score,
            member,
        })
    }

    /// The score.
    pub(crate) fn score(&self) -> i128
        ensures { result ≡ self.now.0 }
    {
        self.score
    }

    /// Where this pair stands to another.
    pub(crate) fn order(&self, other: &Key<'_>) -> Ordering
        ensures { result ≡ scored_cmp self.now (pair_of_key other.now) }
    {
        match self.score.cmp(&other.score) {
            Ordering::Equal => self.member.as_slice().cmp(&other.member),
            unlike => unlike,
        }
    }

    /// Whether this pair goes before another.
    pub(crate) fn is_before(&self, other: &Key<'_>) -> bool
        ensures { result ≡ goes_before (pair_of_key other.now) self.now }
    {
        self.order(other).is_lt()
    }

    /// The score, and the member lent.
    pub(crate) fn lent(&self) -> (i128, &[u8])
        ensures score { result.0 ≡ self.now.0 }
        ensures member { result.1.now ≡ self.now.1 }
    {
        (self.score, self.member.as_slice())
    }
}
