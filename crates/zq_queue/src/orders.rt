//! What is read of an `Indexed` in order: by its index where it has one, and else of all members.

ghost use Rattle.std.specs.Prelude.{IfOk, List, count_by, drop, if◌then◌else◌, length, map, option_map, slice_get, take, ◌-◌, ◌≡◌, ◌≤◌};
ghost use Rattle.std.specs.Ordering.{int_cmp, is_le, is_lt};
ghost use Rattle.zq_posheap.specs.InOrder.{ListsInOrder};
ghost use Rattle.zq_posheap.specs.Members.{scores_of};
ghost use Rattle.zq_posheap.specs.Order.{Scored, scored_cmp};
ghost use Rattle.zq_queue.specs.Lent.{lent_pair};

use crate::indexed::Indexed;
use std::alloc::{AllocError, Global};
use zq_ranked::{Forward, Ranked};

impl Indexed {
    /// The first score and its member: the head of `in_order`.
    pub fn top(&self) -> Option<(i128, &[u8])>
        ensures { (pairs : List Scored) → ListsInOrder (scores_of self.now.held) pairs →
            slice_get pairs 0 ≡ option_map lent_pair result }
    {
        self.members.top()
    }

    /// All scores with their members, by score and then by bytes.
    pub fn in_order(&self, alloc: Global) -> Result<Vec<(i128, &[u8])>, AllocError>
        ensures { IfOk result
            (λ pairs. ListsInOrder (scores_of self.now.held) (map lent_pair pairs.items)) }
    {
        match &self.index {
            Some(index) => section(alloc, index, 0, index.len()),
            None => self.members.in_order(alloc),
        }
    }

    /// The first so many of `in_order`, or all where there are fewer. It looks at no more than
    /// these where there is an index, and else at all members.
    pub fn first(&self, alloc: Global, count: usize) -> Result<Vec<(i128, &[u8])>, AllocError>
        ensures { IfOk result (λ firsts. (pairs : List Scored) →
            ListsInOrder (scores_of self.now.held) pairs →
            map lent_pair firsts.items ≡ take count pairs) }
    {
        match &self.index {
            Some(index) => section(alloc, index, 0, count),
            None => self.members.first(alloc, count),
        }
    }

    /// What stands in `in_order` from the place `from` up to the place `to`, itself left out.
    pub fn slice(
        &self,
        alloc: Global,
        from: usize,
        to: usize,
    ) -> Result<Vec<(i128, &[u8])>, AllocError>
        ensures { IfOk result (λ slice. (pairs : List Scored) →
            ListsInOrder (scores_of self.now.held) pairs →
            map lent_pair slice.items ≡ take (to - from) (drop from pairs)) }
    {
        match &self.index {
            Some(index) => section(alloc, index, from, to),
            None => self.members.slice(alloc, from, to),
        }
    }

    /// How many pairs go before this score with these bytes.
    pub fn count_before(&self, score: i128, member: &[u8]) -> usize
        ensures { (pairs : List Scored) → ListsInOrder (scores_of self.now.held) pairs →
            result ≡ count_by (λ pair. is_lt (scored_cmp pair (score, member.now))) pairs }
    {
        match &self.index {
            Some(index) => index.rank(score, member),
            None => self.members.count_before(score, member),
        }
    }

    /// How many scores are below this one, or at it where `or_equal`.
    pub fn count_below(&self, score: i128, or_equal: bool) -> usize
        ensures { (pairs : List Scored) → ListsInOrder (scores_of self.now.held) pairs →
            result ≡ count_by (λ pair.
            if or_equal then is_le (int_cmp pair.0 score) else is_lt (int_cmp pair.0 score))
            pairs }
    {
        match &self.index {
            Some(index) => index.count_below(score, or_equal),
            None => self.members.count_below(score, or_equal),
        }
    }
}

/// What stands in an index from the place `from` up to the place `to`, itself left out.
fn section(
    alloc: Global,
    index: &Ranked,
    from: usize,
    to: usize,
) -> Result<Vec<(i128, &[u8])>, AllocError>
    ensures { IfOk result (λ pairs. map lent_pair pairs.items
        ≡ take (to - from) (drop from index.now)) }
{
    let count = to.min(index.len()).saturating_sub(from);
    firsts(alloc, index.iter_from(from), count)
}

/// The first so many pairs. There is room first for all of them.
fn firsts<'a>(
    alloc: Global,
    mut pairs: Forward<'a>,
    count: usize,
) -> Result<Vec<(i128, &'a [u8])>, AllocError>
    requires few { count ≤ length pairs }
    ensures { IfOk result (λ firsts. map lent_pair firsts.items ≡ take count pairs.entry) }
{
    let mut firsts = Vec::with_capacity(alloc, count)?;
    while firsts.len() < count {
        let Some(pair) = pairs.next() else {
            break;
        };
        firsts.push(pair)?;
    }
    Ok(firsts)
}
