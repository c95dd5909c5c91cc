//! What a book hands on, piece by piece, to who keeps it from then on.
ghost use Rattle.std.specs.List.{All};
ghost use Rattle.std.specs.Prelude.{◌≡◌, ◌≤◌, ◌<◌, ◌+◌, ◌-◌, ◌↔◌, ◌++◌, ◌∷◌, [], IfOk, IsTrue, List, Some, length, map, not, take, true, ℕ};
ghost use Rattle.zq_journal.specs.Answers.{IfOps, is_too_old};
ghost use Rattle.zq_journal.specs.Books.{LAST_STAMP, base_of};
ghost use Rattle.zq_journal.specs.Records.{placed_at};
ghost use Rattle.zq_model.specs.Books.{Book as Books, HandedOn, Step, handed_on, operations_of};
ghost use Rattle.zq_model.specs.Reach.{IsWorked, cut_of};
ghost use Rattle.zq_model.specs.Sets as sets;
ghost use Rattle.zq_model.specs.Tail.{lacking, lacking_from};
ghost use Rattle.zq_shard.specs.Shard.{IsOfHeap};

use crate::book::Book;
use crate::since::{Since, missing};
use crate::start::Start;
use std::alloc::{AllocError, Global};
use zq_dots::Vector;
use zq_model::{keeping, working};

/// What a book hands on at once.
#[derive(Debug, Drop)]
pub struct FirstSince {
    /// The oldest operations that a peer lacks.
    pub since: Since,
    /// How many of the book's newest records there are from the oldest on that the peer lacks; all
    /// of them where it lacks older operations than the records.
    pub newest: usize,
}

impl Book {
    /// What a peer of this vector lacks, as [`Book::since`] says, but at most so many operations: the
    /// oldest of them. And how many of the newest records there are from the oldest on that it
    /// lacks: all that are older it has.
    pub fn first_since(
        &self,
        alloc: Global,
        vector: &Vector,
        most: usize,
    ) -> Result<FirstSince, AllocError>
        ensures too_old { IfOk result
            (λ first. is_too_old first.since ≡ not (sets.covers vector.now self.now.base.vector)) }
        ensures ops { IfOk result
            (λ first. IfOps first.since
            (λ ops. ops ≡ map (placed_at self.now.heaps)
            (take most (lacking vector.now (operations_of self.now.tail))))) }
        ensures placed { IfOk result
            (λ first. IfOps first.since (λ ops. All (IsOfHeap (base_of self.now)) ops)) }
        ensures newest { IfOk result
            (λ first. IfOps first.since
            (λ _. first.newest ≡ lacking_from vector.now (operations_of self.now.tail))) }
        ensures all { IfOk result
            (λ first. is_too_old first.since ≡ true → first.newest ≡ length self.now.tail) }
        ensures within { IfOk result (λ first. first.newest ≤ length self.now.tail) }
    {
        if !vector.covers(&self.vector) {
            return Ok(FirstSince {
                since: Since::TooOld,
                newest: self.tail.len(),
            });
        }
        let last = self.shard.vector();
        let start = Start::of(&self.tail, &self.vector, last, vector, self.is_mostly_new());
        let (heap, heaps) = (self.shard.heap(), self.shard.heaps());
        let ops = missing(alloc, heap, heaps, &start, &self.tail, vector, most)?;
        Ok(FirstSince {
            since: Since::Ops(ops),
            newest: self.tail.len() - start.place,
        })
    }

    /// Whether more of its records were made since the last that it knows to be handed on than
    /// before. Who hands on lacks these, and finds the oldest of them sooner from the oldest on.
    fn is_mostly_new(&self) -> bool {
        match self.handed {
            None => false,
            Some(handed) => self.count.saturating_sub(handed) > self.tail.len() as u64 / 2,
        }
    }

    /// Whether it knows already that all its steps were handed on but those that made its newest
    /// records, so many.
    pub fn knows_handed(&self, newest: usize) -> bool
        requires { newest ≤ length self.now.tail }
        ensures { IsTrue result ↔ (self.now.handed ≡ Some (self.now.count - newest)) }
    {
        self.handed == Some(self.count - newest as u64)
    }

    /// Tells it that all its steps were handed on but those that made its newest records, so many:
    /// from now on a cut takes others alone. So where that is the number that
    /// [`Book::first_since`] answers for a vector, it takes none that the vector lacks. The word
    /// counts as a step. The stamp is no less than the book's, and its count is not at its last
    /// value.
    #[tactic(auto, unfolding(crate::specs::Books::LAST_STAMP))]
    pub fn hand_on(&mut self, stamp: u64, newest: usize)
        requires stamp { self.old.stamp ≤ stamp }
        requires bounded { stamp ≤ LAST_STAMP }
        requires count { self.old.count < LAST_STAMP }
        requires newest { newest ≤ length self.old.tail }
        ensures same { self.new ≡ handed_on self.old stamp (self.old.count + 1 - newest) }
        ensures worked { (a : Books) (steps : List Step) → IsWorked self.old a stamp steps →
            IsWorked self.new a stamp
            (steps ++ HandedOn stamp (self.old.count + 1 - newest) ∷ []) }
        ensures spared { (v : List ℕ) (n : ℕ) →
            newest ≡ lacking_from v (operations_of self.old.tail) → n ≤ cut_of self.new →
            lacking v (operations_of (take n self.old.tail)) ≡ [] }
    {
        // For the proof: it keeps what a book keeps.
        keeping();
        // For the proof: it goes on with a call's work.
        working();
        self.stamp = stamp;
        self.count += 1;
        self.handed = Some(self.count - newest as u64);
    }
}
