//! How a book's base moves on: by a merge to the state, by a cut over the oldest records.
ghost use Rattle.std.specs.Prelude.{◌≡◌, ◌≢◌, ◌≤◌, ◌↔◌, ◌++◌, ◌∷◌, [], IsErrOf, IsOk, List, OnErr, OnOk, drop, length, take, ℕ};
ghost use Rattle.zq_model.specs.Books.{Book as Books, Merged, Step, advanced, merged};
ghost use Rattle.zq_model.specs.Reach.{IsReachedBy, IsWorked, cut_of};
ghost use Rattle.zq_journal.specs.Books.{LAST_STAMP, state_of};
ghost use Rattle.zq_journal.specs.Records.{bytes_kept_in, vector_over};
ghost use Rattle.zq_shard.specs.Shard.{IsSameHeap};

use crate::book::{Book, LAST_COUNT};
use crate::faults::{Advanced, MergeFault};
use crate::records::Record;
use std::alloc::Global;
use std::collections::VecDeque;
use zq_dots::Vector;
use zq_model::{keeping, reaching, undoing, working};
use zq_shard::Shard;

impl Book {
    /// Takes all that another heap has. No record is left, since a peer that lacks any of it needs
    /// the whole state. The stamp is no less than the book's.
    ///
    /// `WrongHeap` where the heap or the number of heaps is another, else `WrongRule` where the
    /// rule is, else `Worn` where the book's count is at its last value, else `NoMemory` where a
    /// growth was refused; after each nothing has changed.
    #[tactic(auto, unfolding(crate::specs::Books::LAST_STAMP))]
    pub fn merge(&mut self, alloc: Global, stamp: u64, other: &Shard) -> Result<(), MergeFault>
        requires stamp { self.old.stamp ≤ stamp }
        requires bounded { stamp ≤ LAST_STAMP }
        ensures wrong_heap { IsErrOf result MergeFault.WrongHeap
            ↔ (IsSameHeap (state_of self.old) other.now → ⊥) }
        ensures wrong_rule { IsErrOf result MergeFault.WrongRule
            ↔ (IsSameHeap (state_of self.old) other.now × (self.old.rule ≢ other.now.rule)) }
        ensures worn { IsErrOf result MergeFault.Worn
            ↔ (IsSameHeap (state_of self.old) other.now × (self.old.rule ≡ other.now.rule)
            × (self.old.count ≡ LAST_STAMP)) }
        ensures merged { OnOk result (self.new ≡ merged self.old stamp other.now.image) }
        ensures worked { OnOk result ((a : Books) (steps : List Step) →
            IsWorked self.old a stamp steps →
            IsWorked self.new a stamp (steps ++ Merged stamp other.now.image ∷ [])) }
        ensures refused { OnErr result (self.new ≡ self.old) }
    {
        // For the proof: a merge keeps what a book keeps.
        keeping();
        // For the proof: it goes on with a call's work.
        working();
        if other.heap() != self.shard.heap() || other.heaps() != self.shard.heaps() {
            return Err(MergeFault::WrongHeap);
        }
        if other.rule() != self.shard.rule() {
            return Err(MergeFault::WrongRule);
        }
        if self.count == LAST_COUNT {
            return Err(MergeFault::Worn);
        }
        // Heap and rule are the same, so that memory alone can be refused.
        let Ok(()) = self.shard.merge(alloc, other) else {
            return Err(MergeFault::NoMemory);
        };
        self.vector = *self.shard.vector();
        self.tail.clear();
        self.bytes = 0;
        self.stamp = stamp;
        self.count += 1;
        Ok(())
    }

    /// Drops the oldest records, so many, which moves the base over them. It takes no memory and
    /// always succeeds.
    pub fn advance(&mut self, records: usize) -> Result<(), Advanced>
        requires { records ≤ length self.old.tail }
        ensures succeeds { IsOk result }
        ensures advanced { self.new ≡ advanced records self.old }
        ensures reached { records ≤ cut_of self.old → IsReachedBy self.new self.old [] }
    {
        // For the proof: a cut keeps what a book keeps.
        keeping();
        // For the proof: undoing the records that are left gives the base after it.
        undoing();
        // For the proof: a book that was cut as far as a cut takes is reached.
        reaching();
        move_over(&mut self.vector, &self.tail, records);
        lighten(&mut self.bytes, &self.tail, records);
        self.tail.drain(..records);
        Ok(())
    }
}

/// Moves a vector over the first so many of the records.
fn move_over(vector: &mut Vector, tail: &VecDeque<Record>, records: usize)
    requires { records ≤ length tail.now.items }
    ensures { (h K : ℕ) → vector.new ≡ vector_over h K vector.old (take records tail.now.items) }
{
    for place in 0..records {
        let dot = tail[place].what.dot();
        vector.set(dot.site, dot.n);
    }
}

/// Takes the bytes of the first so many of the records off those of all.
fn lighten(bytes: &mut u128, tail: &VecDeque<Record>, records: usize)
    requires bytes { bytes.old ≡ bytes_kept_in tail.now.items }
    requires records { records ≤ length tail.now.items }
    ensures { bytes.new ≡ bytes_kept_in (drop records tail.now.items) }
{
    for place in 0..records {
        *bytes -= u128::from(tail[place].what.bytes());
    }
}
