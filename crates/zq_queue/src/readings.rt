//! What is read of a queue in order.

ghost use Rattle.std.specs.Prelude.{IfOk, count_by, if◌then◌else◌, map, option_map, reverse, slice_get, take, ◌≡◌};
ghost use Rattle.std.specs.List.{position};
ghost use Rattle.std.specs.Ordering.{int_cmp, is_le, is_lt};
ghost use Rattle.zq_model.specs.Meaning.{scored_cmp};
ghost use Rattle.zq_queue.specs.Lent.{lent_pair};
ghost use Rattle.zq_queue.specs.Listed.{is_of_member, listed, part};

use crate::queue::Queue;
use std::alloc::{AllocError, Global};

impl Queue {
    /// The first score with its member: the head of `in_order`, at hand with no sort.
    pub fn top(&self) -> Option<(i128, &[u8])>
        ensures { option_map lent_pair result
            ≡ slice_get (listed self.now.rule self.now.entries) 0 }
    {
        self.members.top()
    }

    /// All scores with their members, by score and then by bytes.
    pub fn in_order(&self, alloc: Global) -> Result<Vec<(i128, &[u8])>, AllocError>
        ensures { IfOk result (λ pairs. map lent_pair pairs.items
            ≡ listed self.now.rule self.now.entries) }
    {
        self.members.in_order(alloc)
    }

    /// The first so many of `in_order`, or all where there are fewer. It sorts no more than these.
    pub fn first(&self, alloc: Global, count: usize) -> Result<Vec<(i128, &[u8])>, AllocError>
        ensures { IfOk result (λ firsts. map lent_pair firsts.items
            ≡ take count (listed self.now.rule self.now.entries)) }
    {
        self.members.first(alloc, count)
    }

    /// How many pairs of `in_order` go before the member's, and `None` where it does not stand.
    pub fn rank(&self, member: &[u8]) -> Option<usize>
        ensures { result ≡ position (is_of_member member.now)
            (listed self.now.rule self.now.entries) }
    {
        let score = self.members.score(member)?;
        Some(self.members.count_before(score, member))
    }

    /// How many pairs of `in_order` go after the member's, and `None` where it does not stand.
    pub fn turned_rank(&self, member: &[u8]) -> Option<usize>
        ensures { result ≡ position (is_of_member member.now)
            (reverse (listed self.now.rule self.now.entries)) }
    {
        let score = self.members.score(member)?;
        let before = self.members.count_before(score, member);
        Some(self.members.len() - 1 - before)
    }

    /// How many pairs of `in_order` go before this one, which need not stand there.
    pub fn count_before(&self, score: i128, member: &[u8]) -> usize
        ensures { result ≡ count_by (λ pair. is_lt (scored_cmp pair (score, member.now)))
            (listed self.now.rule self.now.entries) }
    {
        self.members.count_before(score, member)
    }

    /// How many pairs of `in_order` go after this one, which need not stand there.
    pub fn count_after(&self, score: i128, member: &[u8]) -> usize
        ensures { result ≡ count_by (λ pair. is_lt (scored_cmp (score, member.now) pair))
            (listed self.now.rule self.now.entries) }
    {
        let others = self.len() - self.count_before(score, member);
        if self.score(member) == Some(score) {
            others - 1
        } else {
            others
        }
    }

    /// How many scores are below this one, or at it where `or_equal`.
    pub fn count_below(&self, score: i128, or_equal: bool) -> usize
        ensures { result ≡ count_by
            (λ pair. if or_equal then is_le (int_cmp pair.0 score) else is_lt
            (int_cmp pair.0 score)) (listed self.now.rule self.now.entries) }
    {
        self.members.count_below(score, or_equal)
    }

    /// What stands in `in_order` from the place `from` up to the place `to`, itself left out;
    /// places count from 0. It sorts no more than these.
    pub fn slice(
        &self,
        alloc: Global,
        from: usize,
        to: usize,
    ) -> Result<Vec<(i128, &[u8])>, AllocError>
        ensures { IfOk result (λ pairs. map lent_pair pairs.items
            ≡ part from to (listed self.now.rule self.now.entries)) }
    {
        self.members.slice(alloc, from, to)
    }

    /// The same of the turned order, whose first pair is the last of `in_order`.
    pub fn slice_turned(
        &self,
        alloc: Global,
        from: usize,
        to: usize,
    ) -> Result<Vec<(i128, &[u8])>, AllocError>
        ensures { IfOk result (λ pairs. map lent_pair pairs.items
            ≡ part from to (reverse (listed self.now.rule self.now.entries))) }
    {
        let len = self.members.len();
        let mut pairs = self.slice(alloc, len.saturating_sub(to), len.saturating_sub(from))?;
        pairs.reverse();
        Ok(pairs)
    }
}
