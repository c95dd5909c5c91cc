//! How a book is checked against its records.
ghost use Rattle.std.specs.List.{All};
ghost use Rattle.std.specs.Prelude.{◌≡◌, IfOk, IsTrue, OnOk, drop, true, ℕ};
ghost use Rattle.zq_model.specs.Books.{are_steps_over, replayed, steps_of};
ghost use Rattle.zq_journal.specs.Records.{IsRecord, records_in, undone_at, written_in};
ghost use Rattle.zq_model.specs.Bounded.{IsBounded};
ghost use Rattle.zq_shard.specs.Shard.{with_vector};

use crate::book::Book;
use crate::records::Record;
use std::alloc::{AllocError, Global};
use std::collections::VecDeque;
use zq_dots::Vector;
use zq_entry::Entry;
use zq_shard::Shard;

impl Book {
    /// Whether the records, undone from a copy of the state and then replayed, lead to the state
    /// again. Members that no record touched are compared with copies of themselves.
    ///
    /// The replay is done in fact: it is a check against a fault of the memory, or of the compiler
    /// that built this. What a book keeps says that the answer is always true, so a body that
    /// answered so without a replay would meet the contract as well. `Err` where the copy or a
    /// growth was refused.
    pub fn audit(&self, alloc: Global) -> Result<bool, AllocError>
        ensures { IfOk result (λ sound. IsTrue sound) }
    {
        let mut shard = self.shard.copy(alloc)?;
        undo(alloc, &mut shard, &self.vector, &self.tail)?;
        replay(alloc, &mut shard, &self.tail)?;
        Ok(shard.same(&self.shard))
    }
}

/// Gives each record's member back what it had before it, the newest record first, and the heap the
/// vector that it had before them.
fn undo(
    alloc: Global,
    shard: &mut Shard,
    base: &Vector,
    tail: &VecDeque<Record>,
) -> Result<(), AllocError>
    requires each { All (IsRecord shard.old.heap shard.old.heaps)
        (records_in shard.old base.now tail.now.items) }
    requires bounded { (i : ℕ) →
        IsBounded shard.old.heaps shard.old.heap
        (undone_at (drop i (records_in shard.old base.now tail.now.items)) shard.old.image) }
    requires base { IsBounded shard.old.heaps shard.old.heap
        (with_vector base.now
        (undone_at (records_in shard.old base.now tail.now.items) shard.old.image)) }
    ensures heap { shard.new.heap ≡ shard.old.heap }
    ensures heaps { shard.new.heaps ≡ shard.old.heaps }
    ensures rule { shard.new.rule ≡ shard.old.rule }
    ensures image { OnOk result
        (shard.new.image ≡ with_vector base.now
        (undone_at (records_in shard.old base.now tail.now.items) shard.old.image)) }
{
    for newer in 0..tail.len() {
        let record = &tail[tail.len() - 1 - newer];
        let before = copy(alloc, &record.before)?;
        shard.put_back(alloc, record.what.key(), record.what.member(), before)?;
    }
    shard.set_vector(base);
    Ok(())
}

/// Takes the records' operations, the oldest first.
fn replay(alloc: Global, shard: &mut Shard, tail: &VecDeque<Record>) -> Result<(), AllocError>
    requires each { All (IsRecord shard.old.heap shard.old.heaps)
        (records_in shard.old shard.old.image.vector tail.now.items) }
    requires over { are_steps_over shard.old.heaps shard.old.heap shard.old.image
        (steps_of (written_in (records_in shard.old shard.old.image.vector tail.now.items)))
        ≡ true }
    ensures heap { shard.new.heap ≡ shard.old.heap }
    ensures heaps { shard.new.heaps ≡ shard.old.heaps }
    ensures rule { shard.new.rule ≡ shard.old.rule }
    ensures image { OnOk result
        (shard.new.image ≡ replayed
        (written_in (records_in shard.old shard.old.image.vector tail.now.items)) shard.old.image) }
{
    for place in 0..tail.len() {
        let what = &tail[place].what;
        drop(what.put_in(alloc, shard, what.key(), what.member())?);
    }
    Ok(())
}

/// An equal entry, where there is one.
fn copy(alloc: Global, entry: &Option<Entry>) -> Result<Option<Entry>, AllocError>
    ensures { IfOk result (λ copy. copy ≡ entry.now) }
{
    match entry {
        Some(entry) => Ok(Some(entry.copy(alloc)?)),
        None => Ok(None),
    }
}
