//! A book, its type and what it shows.
ghost use Rattle.std.specs.Prelude.{◌≡◌, ◌<◌, ◌≤◌, IfOk, IfSome, IsErr, List, Some, [], is_none, length, slice_get, ◌-◌, ◌==◌};
ghost use Rattle.zq_model.specs.Books.{IsBook, operations_of, touched};
ghost use Rattle.zq_model.specs.Reach.{IsReachedBy};
ghost use Rattle.zq_journal.specs.Books.{IsBased, LAST_STAMP, opened, state_of};
ghost use Rattle.zq_journal.specs.Limits.{limits_of};
ghost use Rattle.zq_journal.specs.Records.{placed_at};
ghost use Rattle.zq_model.specs.Image.{image_of};
ghost use Rattle.zq_model.specs.Operation.{Operation};
ghost use Rattle.zq_model.specs.Tail.{tail_set};

use crate::limits::TailLimits;
use crate::records::Record;
use std::alloc::{AllocError, Global};
use std::collections::VecDeque;
use std::marker::Model;
use zq_dots::{Op, Vector};
use zq_model::{keeping, reaching, telling};
use zq_shard::Shard;

/// The last stamp, and the last count of a book.
pub const LAST_COUNT: u64 = 4_611_686_018_427_387_904;

/// The journal of one heap: its state, and the records of what was new since an older state, the
/// base, oldest first. Each record has the stamp of the call that made it, and the book counts its
/// steps: all records that it ever made, all heaps that it merged or took in the place of its own,
/// and each time that it was told what was handed on.
///
/// The base is not kept: each record has what its member had before it, so that undoing the records
/// from the newest to the oldest gives the base's members. Its vector is kept.
/// The records lie in a ring, so that a cut of the oldest moves none that stay. The bytes of all
/// their keys and members are kept, so that a cut to so many bytes looks at none that stay.
// Fields lie in this order: what every call reads and writes is in few lines of a cache, beside the
// front of the shard, and the vector behind all.
#[derive(Drop)]
pub struct Book {
    pub(crate) stamp: u64,
    pub(crate) count: u64,
    pub(crate) bytes: u128,
    pub(crate) tail: VecDeque<Record>,
    pub(crate) limits: TailLimits,
    pub(crate) handed: Option<u64>,
    pub(crate) shard: Shard,
    pub(crate) vector: Vector,
}

impl Model for Book {
    ghost use Rattle.zq_model.specs.Books.{Book};
    ghost use Rattle.zq_journal.specs.Codes.{book_code};

    ghost Value = { Book };

    ghost coded = { book_code };

    ghost use Rattle.zq_journal.specs.BookView.{IsBookKept, book_of};

    ghost view = { book_of };

    ghost invariant = { IsBookKept };
}

impl Book {
    /// The book of this heap, with no records.
    pub fn new(alloc: Global, shard: Shard) -> Book
        ensures { result ≡ opened shard 0 0 }
    {
        Book::new_at(alloc, shard, 0, 0)
    }

    /// The book of this heap with no records, and with a stamp and a count that it begins with.
    pub fn new_at(alloc: Global, shard: Shard, stamp: u64, count: u64) -> Book
        requires stamp { stamp ≤ LAST_STAMP }
        requires count { count ≤ LAST_STAMP }
        ensures { result ≡ opened shard stamp count }
    {
        let vector = *shard.vector();
        Book {
            shard,
            vector,
            tail: VecDeque::new(alloc),
            stamp,
            count,
            bytes: 0,
            limits: TailLimits::standard(),
            handed: None,
        }
    }

    /// Gives the book other limits for its tail.
    pub fn set_limits(&mut self, limits: TailLimits)
        ensures { self.new ≡ record self.old { limits = limits_of limits } }
    {
        self.limits = limits;
    }

    /// From now on a cut takes none but what the first so many of its steps left, by its count: those
    /// that were handed on. `None` where it may take any.
    pub fn set_handed(&mut self, handed: Option<u64>)
        ensures { self.new ≡ record self.old { handed = handed } }
    {
        self.handed = handed;
    }

    /// The stamp of the latest call that changed it or touched it.
    pub fn stamp(&self) -> u64
        ensures same { result ≡ self.now.stamp }
        ensures bounded { result ≤ LAST_STAMP }
    {
        self.stamp
    }

    /// How many steps it ever made: records, merges, other heaps in the place of its own, and words
    /// of what was handed on.
    pub fn count(&self) -> u64
        ensures same { result ≡ self.now.count }
        ensures bounded { result ≤ LAST_STAMP }
    {
        self.count
    }

    /// How many records it has.
    pub fn tail_len(&self) -> usize
        ensures same { result ≡ length self.now.tail }
        ensures bounded { result ≤ self.now.count }
        ensures book { IsBook self.now }
    {
        self.tail.len()
    }

    /// The heap.
    pub fn shard(&self) -> &Shard
        ensures same { result.now ≡ state_of self.now }
        ensures set { (S : List Operation) → IsBased self.now S →
            result.now.image ≡ image_of (tail_set S (operations_of self.now.tail)) result.now.heap }
    {
        // For the proof: what the records say of the state.
        telling();
        &self.shard
    }

    /// The operation of its newest record, and `None` where it has no records. `Err` where a copy
    /// of its key or its member found no memory.
    pub fn newest(&self, alloc: Global) -> Result<Option<Op>, AllocError>
        ensures none { IfOk result (λ newest. is_none newest ≡ (length self.now.tail == 0)) }
        ensures newest { IfOk result
            (λ newest. IfSome newest
            (λ op. slice_get (operations_of self.now.tail) (length self.now.tail - 1)
            ≡ Some op.operation)) }
        ensures placed { IfOk result
            (λ newest. IfSome newest (λ op. op ≡ placed_at self.now.heaps op.operation)) }
        ensures asked { IsErr result → 0 < length self.now.tail }
    {
        let Some(record) = self.tail.back() else {
            return Ok(None);
        };
        // What it had seen is the state's vector with its site's counter one lower.
        let dot = record.what.dot();
        let mut seen = *self.shard.vector();
        seen.set(dot.site, dot.n - 1);
        let op = record
            .what
            .op(alloc, self.shard.heap(), self.shard.heaps(), &seen)?;
        Ok(Some(op))
    }

    /// Makes an ordered index of a key's members, as its heap does.
    pub fn index(&mut self, alloc: Global, key: &[u8], most: usize)
        ensures { self.new ≡ self.old }
    {
        self.shard.index(alloc, key, most);
    }

    /// Raises its stamp.
    pub fn touch(&mut self, stamp: u64)
        requires stamp { self.old.stamp ≤ stamp }
        requires bounded { stamp ≤ LAST_STAMP }
        ensures touched { self.new ≡ touched self.old stamp }
        ensures reached { IsReachedBy self.new self.old [] }
    {
        // For the proof: a higher stamp keeps what a book keeps.
        keeping();
        // For the proof: a book with a higher stamp is reached.
        reaching();
        self.stamp = stamp;
    }
}
