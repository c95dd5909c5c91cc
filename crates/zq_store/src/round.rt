//! What is written at once.

ghost use Rattle.std.specs.Prelude.{IfOk, length, ◌≡◌};
ghost use Rattle.zq_entries.specs.Together.{batch_of};
ghost use Rattle.zq_wal.specs.Format.{escaped};

use crate::escapes::escapes;
use crate::room::AHEAD;
use std::alloc::{AllocError, Global};
use zq_dots::Op;
use zq_entries::Batch;

/// How many bytes an operation has at most, but for its names: 64 changes of up to 9 bytes, and what
/// is said of it beside.
const AROUND_OP: u64 = 608;

/// How many bytes a batch has at most in an entry beside those of its operations, and an entry beside
/// those of its batches, each of them escaped.
const AROUND: u64 = 128;

/// A batch of each heap of which something was drained, but for those that are ahead of the log,
/// whose batches are apart: they go into the next file alone.
#[derive(Drop)]
pub(crate) struct Round {
    pub(crate) batches: Vec<Batch>,
    pub(crate) ahead: Vec<Batch>,
}

impl Round {
    /// Nothing.
    pub(crate) fn new(alloc: Global) -> Round {
        Round {
            batches: Vec::new(alloc),
            ahead: Vec::new(alloc),
        }
    }

    /// Whether there is nothing to be written.
    pub(crate) fn is_empty(&self) -> bool {
        self.batches.is_empty() && self.ahead.is_empty()
    }

    /// Takes a batch, of a heap that is ahead of the log or not. It says whether there was memory
    /// for it.
    pub(crate) fn push(&mut self, batch: Batch, is_ahead: bool) -> bool {
        if is_ahead {
            self.ahead.push(batch).is_ok()
        } else {
            self.batches.push(batch).is_ok()
        }
    }

    /// How many bytes it takes in a file at most. Where that may be more than the room that is kept
    /// ahead, by the lengths of the names and with each byte escaped, the bytes are counted.
    pub(crate) fn most_bytes(&self, alloc: Global) -> u64 {
        let quick = quick_most(&self.batches).saturating_add(quick_most(&self.ahead));
        if quick.saturating_add(AROUND) <= AHEAD {
            return quick.saturating_add(AROUND);
        }
        let counted = most_of(alloc, &self.batches).saturating_add(most_of(alloc, &self.ahead));
        counted.saturating_add(AROUND)
    }

    /// The same of the batch that is the next one where batches are written one by one, which is the
    /// last: first of those for the log, then of those that are ahead of it. Nothing where there is
    /// none.
    pub(crate) fn most_next(&self, alloc: Global) -> Option<u64> {
        let batch = match self.batches.last() {
            Some(batch) => batch,
            None => self.ahead.last()?,
        };
        Some(most_of_one(alloc, batch).saturating_add(AROUND))
    }
}

/// How many bytes these batches have at most in a file, by the lengths of their names.
fn quick_most(batches: &[Batch]) -> u64 {
    let mut most = 0u64;
    for batch in batches {
        most = most.saturating_add(quick_most_of(batch.ops()));
    }
    most
}

/// How many bytes a batch of these operations has at most in a file, by the lengths of their names.
fn quick_most_of(ops: &[Op]) -> u64 {
    let mut most = 0u64;
    for op in ops {
        let names = (op.key().len() as u64).saturating_add(op.member().len() as u64);
        most = most.saturating_add(names).saturating_add(AROUND_OP);
    }
    most.saturating_mul(2).saturating_add(AROUND)
}

/// How many bytes these batches have at most in a file.
fn most_of(alloc: Global, batches: &[Batch]) -> u64 {
    let mut most = 0u64;
    for batch in batches {
        most = most.saturating_add(most_of_one(alloc, batch));
    }
    most
}

/// How many bytes a batch has at most in a file: they are counted, and where there is no memory for
/// that estimated by the lengths of the names.
fn most_of_one(alloc: Global, batch: &Batch) -> u64 {
    match counted(alloc, batch) {
        Ok(bytes) => bytes.saturating_add(AROUND),
        Err(AllocError) => quick_most_of(batch.ops()),
    }
}

/// How many bytes the operations of a batch have in a file.
fn counted(alloc: Global, batch: &Batch) -> Result<u64, AllocError>
    ensures { IfOk result (λ n. n ≡ length (escaped (batch_of batch.now))) }
{
    let bytes = batch.write(alloc)?;
    let more = escapes(&bytes);
    Ok((bytes.len() as u64).saturating_add(more as u64))
}
