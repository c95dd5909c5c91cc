//! What is read of a shard, and what makes readings in order fast.
ghost use Rattle.std.specs.Prelude.{◌≡◌, ◌<◌, ◌^◌, IfOk, List, count_by, if◌then◌else◌, length, map, option_map, reverse, slice_get, take};
ghost use Rattle.std.specs.FinMap as finite;
ghost use Rattle.std.specs.List.{position};
ghost use Rattle.std.specs.Ordering.{int_cmp, is_le, is_lt};
ghost use Rattle.zq_model.specs.Meaning.{Scored, scored_cmp};
ghost use Rattle.zq_model.specs.Operation.{Operation};
ghost use Rattle.zq_queue.specs.Lent.{lent_pair};
ghost use Rattle.zq_queue.specs.Listed.{is_of_member, part};
ghost use Rattle.zq_shard.specs.Queues.{entries_at};
ghost use Rattle.zq_shard.specs.Shard.{IsMeant, queue_at};

use crate::shard::Shard;
use std::alloc::{AllocError, Global};

impl Shard {
    /// Makes an ordered index of a key's members, unless it has one or has no more members than so
    /// many, or few. Until the key has few, or the shard is merged, changes keep it, and readings of
    /// the key in order cost a logarithm of its members and what they answer. Where memory is
    /// refused there is no index, now or from a later change on, and such readings look at all
    /// members.
    pub fn index(&mut self, alloc: Global, key: &[u8], most: usize)
        ensures { self.new ≡ self.old }
    {
        self.queues.index(alloc, key, most);
    }

    /// The number of members of a key.
    pub fn count(&self, key: &[u8]) -> usize
        ensures number { result ≡ finite.len (entries_at self.now.image.members key.now) }
        ensures queue { result ≡ length (queue_at self.now key.now) }
        ensures meant { (S : List Operation) (q : List Scored) → IsMeant self.now S key.now q →
            result ≡ length q }
        ensures small { result < 2 ^ 63 }
    {
        match self.queues.queue(key) {
            Some(queue) => queue.len(),
            None => 0,
        }
    }

    /// The first score of a key with its member: the head of `in_order`, at hand with no sort.
    pub fn top(&self, key: &[u8]) -> Option<(i128, &[u8])>
        ensures queue { option_map lent_pair result ≡ slice_get (queue_at self.now key.now) 0 }
        ensures meant { (S : List Operation) (q : List Scored) → IsMeant self.now S key.now q →
            option_map lent_pair result ≡ slice_get q 0 }
    {
        match self.queues.queue(key) {
            Some(queue) => queue.top(),
            None => None,
        }
    }

    /// All scores of a key with their members, by score and then by bytes.
    pub fn in_order(&self, alloc: Global, key: &[u8]) -> Result<Vec<(i128, &[u8])>, AllocError>
        ensures queue { IfOk result
            (λ pairs. map lent_pair pairs.items ≡ queue_at self.now key.now) }
        ensures meant { (S : List Operation) (q : List Scored) → IsMeant self.now S key.now q →
            IfOk result (λ pairs. map lent_pair pairs.items ≡ q) }
    {
        match self.queues.queue(key) {
            Some(queue) => queue.in_order(alloc),
            None => Ok(Vec::new(alloc)),
        }
    }

    /// The first so many of `in_order`, or all where there are fewer. It sorts no more than these.
    pub fn first(
        &self,
        alloc: Global,
        key: &[u8],
        count: usize,
    ) -> Result<Vec<(i128, &[u8])>, AllocError>
        ensures queue { IfOk result
            (λ pairs. map lent_pair pairs.items ≡ take count (queue_at self.now key.now)) }
        ensures meant { (S : List Operation) (q : List Scored) → IsMeant self.now S key.now q →
            IfOk result (λ pairs. map lent_pair pairs.items ≡ take count q) }
    {
        match self.queues.queue(key) {
            Some(queue) => queue.first(alloc, count),
            None => Ok(Vec::new(alloc)),
        }
    }

    /// How many pairs of `in_order` go before the member's, and `None` where it does not stand.
    pub fn rank(&self, key: &[u8], member: &[u8]) -> Option<usize>
        ensures queue { result ≡ position (is_of_member member.now) (queue_at self.now key.now) }
        ensures meant { (S : List Operation) (q : List Scored) → IsMeant self.now S key.now q →
            result ≡ position (is_of_member member.now) q }
    {
        match self.queues.queue(key) {
            Some(queue) => queue.rank(member),
            None => None,
        }
    }

    /// How many pairs of `in_order` go after the member's, and `None` where it does not stand.
    pub fn turned_rank(&self, key: &[u8], member: &[u8]) -> Option<usize>
        ensures queue { result ≡ position (is_of_member member.now)
            (reverse (queue_at self.now key.now)) }
        ensures meant { (S : List Operation) (q : List Scored) → IsMeant self.now S key.now q →
            result ≡ position (is_of_member member.now) (reverse q) }
    {
        match self.queues.queue(key) {
            Some(queue) => queue.turned_rank(member),
            None => None,
        }
    }

    /// How many pairs of `in_order` go before this one, which need not stand there.
    pub fn count_before(&self, key: &[u8], score: i128, member: &[u8]) -> usize
        ensures queue { result ≡ count_by (λ pair. is_lt (scored_cmp pair (score, member.now)))
            (queue_at self.now key.now) }
        ensures meant { (S : List Operation) (q : List Scored) → IsMeant self.now S key.now q →
            result ≡ count_by (λ pair. is_lt (scored_cmp pair (score, member.now))) q }
    {
        match self.queues.queue(key) {
            Some(queue) => queue.count_before(score, member),
            None => 0,
        }
    }

    /// How many pairs of `in_order` go after this one, which need not stand there.
    pub fn count_after(&self, key: &[u8], score: i128, member: &[u8]) -> usize
        ensures queue { result ≡ count_by (λ pair. is_lt (scored_cmp (score, member.now) pair))
            (queue_at self.now key.now) }
        ensures meant { (S : List Operation) (q : List Scored) → IsMeant self.now S key.now q →
            result ≡ count_by (λ pair. is_lt (scored_cmp (score, member.now) pair)) q }
    {
        match self.queues.queue(key) {
            Some(queue) => queue.count_after(score, member),
            None => 0,
        }
    }

    /// How many scores of a key are below this one, or at it where `or_equal`.
    pub fn count_below(&self, key: &[u8], score: i128, or_equal: bool) -> usize
        ensures queue { result
            ≡ count_by (λ pair. if or_equal then is_le (int_cmp pair.0 score) else is_lt
            (int_cmp pair.0 score)) (queue_at self.now key.now) }
        ensures meant { (S : List Operation) (q : List Scored) → IsMeant self.now S key.now q →
            result ≡ count_by (λ pair.
            if or_equal then is_le (int_cmp pair.0 score) else is_lt (int_cmp pair.0 score)) q }
    {
        match self.queues.queue(key) {
            Some(queue) => queue.count_below(score, or_equal),
            None => 0,
        }
    }

    /// What stands in `in_order` from the place `from` up to the place `to`, itself left out;
    /// places count from 0.
    pub fn slice(
        &self,
        alloc: Global,
        key: &[u8],
        from: usize,
        to: usize,
    ) -> Result<Vec<(i128, &[u8])>, AllocError>
        ensures queue { IfOk result
            (λ pairs. map lent_pair pairs.items ≡ part from to (queue_at self.now key.now)) }
        ensures meant { (S : List Operation) (q : List Scored) → IsMeant self.now S key.now q →
            IfOk result (λ pairs. map lent_pair pairs.items ≡ part from to q) }
    {
        match self.queues.queue(key) {
            Some(queue) => queue.slice(alloc, from, to),
            None => Ok(Vec::new(alloc)),
        }
    }

    /// The same of the turned order, whose first pair is the last of `in_order`.
    pub fn slice_turned(
        &self,
        alloc: Global,
        key: &[u8],
        from: usize,
        to: usize,
    ) -> Result<Vec<(i128, &[u8])>, AllocError>
        ensures queue { IfOk result
            (λ pairs. map lent_pair pairs.items
            ≡ part from to (reverse (queue_at self.now key.now))) }
        ensures meant { (S : List Operation) (q : List Scored) → IsMeant self.now S key.now q →
            IfOk result (λ pairs. map lent_pair pairs.items ≡ part from to (reverse q)) }
    {
        match self.queues.queue(key) {
            Some(queue) => queue.slice_turned(alloc, from, to),
            None => Ok(Vec::new(alloc)),
        }
    }
}
