//! What a book tells a peer.
ghost use Rattle.std.specs.List.{All};
ghost use Rattle.std.specs.Prelude.{◌≡◌, IfOk, List, drop, map, not, take};
ghost use Rattle.zq_model.specs.Books.{operations_of};
ghost use Rattle.zq_journal.specs.Answers.{IfOps, is_too_old};
ghost use Rattle.zq_journal.specs.Books.{IsPeer, base_of};
ghost use Rattle.zq_journal.specs.Records.{IsRecord, missing_of, placed_at, records_over};
ghost use Rattle.zq_model.specs.Image.{image_of, join};
ghost use Rattle.zq_model.specs.Operation.{Operation};
ghost use Rattle.zq_model.specs.Sets as sets;
ghost use Rattle.zq_model.specs.Tail.{AreNew, image_after_all, lacking};
ghost use Rattle.zq_shard.specs.Shard.{IsOfHeap};

use crate::book::Book;
use crate::records::Record;
use crate::start::Start;
use std::alloc::{AllocError, Global};
use std::collections::VecDeque;
use zq_dots::{Op, Vector};
use zq_model::telling;

/// What a peer lacks of a book.
#[derive(Debug, Drop)]
pub enum Since {
    /// It lacks operations older than the book's records.
    TooOld,
    /// It lacks these, the oldest first, and no others.
    Ops(Vec<Op>),
}

impl Book {
    /// What a peer of this vector lacks: `TooOld` exactly where the vector does not cover the
    /// base's, else those operations of the records that the vector lacks, oldest first. Each is
    /// New to the peer where it comes, and all of them leave what merging the whole state would.
    pub fn since(&self, alloc: Global, vector: &Vector) -> Result<Since, AllocError>
        ensures too_old { IfOk result
            (λ since. is_too_old since ≡ not (sets.covers vector.now self.now.base.vector)) }
        ensures ops { IfOk result
            (λ since. IfOps since
            (λ ops. ops ≡ map (placed_at self.now.heaps)
            (lacking vector.now (operations_of self.now.tail)))) }
        ensures placed { IfOk result
            (λ since. IfOps since (λ ops. All (IsOfHeap (base_of self.now)) ops)) }
        ensures new { IfOk result
            (λ since. IfOps since (λ ops. (S T : List Operation) → IsPeer self.now S T vector.now →
            AreNew (map (λ p. p.operation) ops) (image_of T self.now.heap))) }
        ensures merges { IfOk result
            (λ since. IfOps since (λ ops. (S T : List Operation) → IsPeer self.now S T vector.now →
            image_after_all (map (λ p. p.operation) ops) (image_of T self.now.heap)
            ≡ join (image_of T self.now.heap) self.now.state)) }
    {
        // For the proof: what the records say to a peer.
        telling();
        let first = self.first_since(alloc, vector, self.tail_len())?;
        Ok(first.since)
    }
}

/// The operations of a heap's records that the vector lacks, of those from the start on: at most so
/// many, the oldest of them.
pub(crate) fn missing(
    alloc: Global,
    heap: u8,
    heaps: u8,
    start: &Start,
    tail: &VecDeque<Record>,
    vector: &Vector,
    most: usize,
) -> Result<Vec<Op>, AllocError>
    requires { All (IsRecord heap heaps)
        (records_over heap heaps start.now.seen (drop start.now.place tail.now.items)) }
    ensures { IfOk result
        (λ ops. ops.items ≡ take most (missing_of vector.now
        (records_over heap heaps start.now.seen (drop start.now.place tail.now.items)))) }
{
    let mut ops = Vec::new(alloc);
    let mut seen = start.seen;
    for place in start.place..tail.len() {
        if ops.len() == most {
            return Ok(ops);
        }
        let record = &tail[place];
        if record.what.is_new_to(vector) {
            ops.push(record.what.op(alloc, heap, heaps, &seen)?)?;
        }
        let dot = record.what.dot();
        seen.set(dot.site, dot.n);
    }
    Ok(ops)
}
