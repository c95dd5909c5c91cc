//! What is read of a `PosHeap` in order.
ghost use Rattle.std.specs.Prelude.{List, IfOk, count_by, drop, if◌then◌else◌, length, map, min, take, ◌-◌, ◌^◌, ◌<◌, ◌≤◌, ◌≡◌};
ghost use Rattle.std.specs.Ordering.{int_cmp, is_le, is_lt};
ghost use Rattle.zq_posheap.specs.InOrder.{Leaves, ListsInOrder, Splits};
ghost use Rattle.zq_posheap.specs.Listing.{AllInRange, IsListing, lent_pair};
ghost use Rattle.zq_posheap.specs.Members.{AreInRange, scores_of};
ghost use Rattle.zq_posheap.specs.Order.{Scored, scored_cmp};

use crate::pairs::Pairs;
use crate::pos_heap::PosHeap;
use std::alloc::{AllocError, Global};

/// The first so many of a list, or all where there are fewer, in no order.
fn firsts_of<'a>(
    alloc: Global,
    mut pairs: Vec<(i128, &'a [u8])>,
    count: usize,
) -> Result<Vec<(i128, &'a [u8])>, AllocError>
    ensures { IfOk result
        (λ firsts. Splits pairs.entry.items firsts.items (min count (length pairs.entry.items))) }
{
    if count >= pairs.len() {
        return Ok(pairs);
    }
    let (firsts, _, _) = pairs.select_nth_unstable(count);
    let firsts = firsts.to_vec(alloc)?;
    Ok(firsts)
}

/// What a list has beside its first so many, in no order.
fn lasts_of<'a>(
    alloc: Global,
    mut pairs: Vec<(i128, &'a [u8])>,
    count: usize,
) -> Result<Vec<(i128, &'a [u8])>, AllocError>
    requires { count ≤ length pairs.items }
    ensures { IfOk result (λ lasts. Leaves pairs.entry.items lasts.items count) }
{
    if count == 0 {
        return Ok(pairs);
    }
    let (_, _, lasts) = pairs.select_nth_unstable(count - 1);
    let lasts = lasts.to_vec(alloc)?;
    Ok(lasts)
}

impl<V: Drop> PosHeap<V> {
    /// All scores with their members and values, by their places. It takes no memory.
    pub fn iter(&self) -> Pairs<'_, V>
        ensures lists { IsListing self.now.held result }
        ensures places { map (λ row. row.1) result ≡ self.now.places }
        ensures fits { length result < 2 ^ 63 }
        ensures in_range { AreInRange self.now.held }
    {
        Pairs::new(self.heap.members.iter())
    }

    /// All scores with their members, by score and then by bytes, in memory from `alloc`.
    pub fn in_order(&self, alloc: Global) -> Result<Vec<(i128, &[u8])>, AllocError>
        ensures { IfOk result
            (λ pairs. ListsInOrder (scores_of self.now.held) (map lent_pair pairs.items)) }
    {
        let mut pairs = self.pairs(alloc)?;
        pairs.sort_unstable();
        Ok(pairs)
    }

    /// The first so many of the scores with their members, by score and then by bytes, or all where
    /// there are fewer. It sorts no more than these.
    pub fn first(&self, alloc: Global, count: usize) -> Result<Vec<(i128, &[u8])>, AllocError>
        ensures { IfOk result (λ firsts. (pairs : List Scored) →
            ListsInOrder (scores_of self.now.held) pairs →
            map lent_pair firsts.items ≡ take count pairs) }
    {
        let pairs = self.pairs(alloc)?;
        let mut firsts = firsts_of(alloc, pairs, count)?;
        firsts.sort_unstable();
        Ok(firsts)
    }

    /// What stands in `in_order` from the place `from` up to the place `to`, itself left out;
    /// places count from 0. It sorts no more than these.
    pub fn slice(
        &self,
        alloc: Global,
        from: usize,
        to: usize,
    ) -> Result<Vec<(i128, &[u8])>, AllocError>
        ensures { IfOk result (λ slice. (pairs : List Scored) →
            ListsInOrder (scores_of self.now.held) pairs →
            map lent_pair slice.items ≡ take (to - from) (drop from pairs)) }
    {
        if from >= to {
            return Ok(Vec::new(alloc));
        }
        let pairs = self.pairs(alloc)?;
        let firsts = firsts_of(alloc, pairs, to)?;
        if from >= firsts.len() {
            return Ok(Vec::new(alloc));
        }
        let mut slice = lasts_of(alloc, firsts, from)?;
        slice.sort_unstable();
        Ok(slice)
    }

    /// How many pairs go before this score with these bytes: at a member's own score and bytes, its
    /// rank from 0.
    pub fn count_before(&self, score: i128, member: &[u8]) -> usize
        ensures { (pairs : List Scored) → ListsInOrder (scores_of self.now.held) pairs →
            result ≡ count_by (λ pair. is_lt (scored_cmp pair (score, member.now))) pairs }
    {
        let mut count = 0;
        for (pair, _) in self.iter() {
            if pair.cmp(&(score, member)).is_lt() {
                count += 1;
            }
        }
        count
    }

    /// How many scores are below this one, or at it where `or_equal`.
    pub fn count_below(&self, score: i128, or_equal: bool) -> usize
        ensures { (pairs : List Scored) → ListsInOrder (scores_of self.now.held) pairs →
            result ≡ count_by (λ pair.
            if or_equal then is_le (int_cmp pair.0 score) else is_lt (int_cmp pair.0 score))
            pairs }
    {
        let mut count = 0;
        for (pair, _) in self.iter() {
            let order = pair.0.cmp(&score);
            if if or_equal {
                order.is_le()
            } else {
                order.is_lt()
            } {
                count += 1;
            }
        }
        count
    }

    /// All scores with their members, in no order.
    fn pairs(&self, alloc: Global) -> Result<Vec<(i128, &[u8])>, AllocError>
        ensures { IfOk result
            (λ pairs. IsListing (scores_of self.now.held) (map lent_pair pairs.items)) }
    {
        let mut pairs = Vec::with_capacity(alloc, self.len())?;
        for (pair, _) in self.iter() {
            pairs.push(pair)?;
        }
        Ok(pairs)
    }
}
