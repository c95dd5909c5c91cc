//! How a call cuts a book's tail.
ghost use Rattle.std.specs.Prelude.{◌≡◌, ◌≤◌, [], length, min};
ghost use Rattle.zq_model.specs.Books.{advanced};
ghost use Rattle.zq_model.specs.Reach.{IsReachedBy, cut_at_most, cut_by_bytes, cut_by_length, cut_of};
ghost use Rattle.zq_journal.specs.Records.{bytes_kept_in, cut_kept};

use crate::book::Book;
use crate::records::Record;
use std::collections::VecDeque;
use zq_model::{cutting, reaching};

impl Book {
    /// Cuts the tail where it is longer than its limits say: to its newest records, so many, and to
    /// so many bytes; but only records that were handed on, where that is asked. It takes no
    /// memory.
    #[inline(always)]
    pub fn cut(&mut self)
        ensures cut { self.new ≡ advanced (cut_of self.old) self.old }
        ensures reached { IsReachedBy self.new self.old [] }
    {
        // For the proof: a cut takes records of the tail alone.
        cutting();
        // For the proof: what a cut leaves is reached.
        reaching();
        let records = self.cut_len();
        if records > 0 {
            let _ = self.advance(records);
        }
    }

    /// How many of the oldest records a cut takes.
    #[inline(always)]
    fn cut_len(&self) -> usize
        ensures { result ≡ cut_of self.now }
    {
        // For the proof: a cut takes records of the tail alone.
        cutting();
        let most = self.most_cut();
        let long = self.cut_by_length().max(self.cut_by_bytes(most));
        long.min(most)
    }

    /// How many of the oldest records may go: those of them that were handed on, where that is asked.
    #[inline(always)]
    fn most_cut(&self) -> usize
        ensures { result ≡ min (length self.now.tail)
            (cut_at_most self.now.handed self.now.count (length self.now.tail)) }
    {
        let records = self.tail_len();
        match self.handed {
            None => records,
            Some(handed) => {
                let before = self.count() - records as u64;
                (records as u64).min(handed.saturating_sub(before)) as usize
            }
        }
    }

    /// How many go where there are too many.
    #[inline(always)]
    fn cut_by_length(&self) -> usize
        ensures { result ≡ cut_by_length self.now.limits (length self.now.tail) }
    {
        let records = self.tail_len();
        if records >= self.limits.long {
            records.saturating_sub(self.limits.kept)
        } else {
            0
        }
    }

    /// How many go where they have too many bytes, of the oldest, so many.
    #[inline(always)]
    fn cut_by_bytes(&self, oldest: usize) -> usize
        requires { oldest ≤ length self.now.tail }
        ensures { result ≡ min oldest (cut_by_bytes self.now.limits.bytes self.now.tail) }
    {
        match self.limits.bytes {
            None => 0,
            Some(most) => cut_to_bytes(&self.tail, self.bytes, most, oldest),
        }
    }
}

/// How many of the oldest records go, of a tail of so many bytes, so that the keys and members of
/// the rest have at most `most`; or all of the oldest, so many, where that is not enough. It looks
/// at no others.
fn cut_to_bytes(tail: &VecDeque<Record>, bytes: u128, most: u64, oldest: usize) -> usize
    requires bytes { bytes ≡ bytes_kept_in tail.now.items }
    requires oldest { oldest ≤ length tail.now.items }
    ensures { result ≡ min oldest (cut_kept most tail.now.items) }
{
    let mut left = bytes;
    for place in 0..oldest {
        if left <= u128::from(most) {
            return place;
        }
        left -= u128::from(tail[place].what.bytes());
    }
    oldest
}
