//! Whether keys were changed since a heap had a vector.
ghost use Rattle.std.specs.List.{list_all};
ghost use Rattle.std.specs.Prelude.{◌≡◌, ◌≤◌, drop, length, ℕ, List};
ghost use Rattle.zq_journal.specs.Records.{missing_of, records_over};
ghost use Rattle.zq_journal.specs.Untouched.{is_apart, keys_of};
ghost use Rattle.zq_journal.specs.Untouched as wanted;

use crate::book::Book;
use crate::records::Record;
use crate::start::Start;
use std::collections::VecDeque;
use zq_dots::Vector;

impl Book {
    /// Whether the book says that none of these keys was changed since its heap had this vector: no
    /// record that the vector lacks is on one of them. `false` also where it cannot say so, since
    /// the vector lacks operations older than the records, as after a merge that brought some.
    ///
    /// It looks at no record older than those that the vector lacks, and compares each of these
    /// with each key.
    pub fn is_untouched(&self, vector: &Vector, keys: &[Vec<u8>]) -> bool
        ensures { result ≡ wanted.is_untouched vector.now (keys_of keys.now) self.now }
    {
        if !vector.covers(&self.vector) {
            return false;
        }
        let last = self.shard.vector();
        let start = Start::of(&self.tail, &self.vector, last, vector, false);
        are_apart(&self.tail, start.place, vector, keys)
    }
}

/// Whether none of the records from a place on that the vector lacks is on one of the keys.
fn are_apart(tail: &VecDeque<Record>, start: usize, vector: &Vector, keys: &[Vec<u8>]) -> bool
    requires { start ≤ length tail.now.items }
    ensures { (h K : ℕ) (seen : List ℕ) → result
        ≡ list_all (λ p. is_apart (keys_of keys.now) p.operation)
        (missing_of vector.now (records_over h K seen (drop start tail.now.items))) }
{
    for place in start..tail.len() {
        let what = &tail[place].what;
        if what.is_new_to(vector) && is_among(keys, what.key()) {
            return false;
        }
    }
    true
}

/// Whether a key is one of these.
fn is_among(keys: &[Vec<u8>], key: &[u8]) -> bool
    ensures { result ≡ wanted.is_among (keys_of keys.now) key.now }
{
    let mut rest = keys;
    while let [first, others @ ..] = rest {
        if first.as_slice() == key {
            return true;
        }
        rest = others;
    }
    false
}
