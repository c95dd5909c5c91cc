//! A batch of operations of one heap, its type.

ghost use Rattle.std.specs.Prelude.{IfOk, List, MatchOption, Result, ℕ, ◌≡◌};
ghost use Rattle.zq_batch.specs.Answer.{Answers};
ghost use Rattle.zq_batch.specs.Batch.{AreBatch};
ghost use Rattle.zq_batch.specs.Reading.{batch_at};
ghost use Rattle.zq_entries.specs.Together.{AreTogether, batch_of};

use std::alloc::{AllocError, Global};
use std::marker::Model;
use zq_batch::{BatchFault, read_batch, write_batch};
use zq_dots::Op;

/// Between 1 and 4096 operations of one heap, oldest first, each the next of its site behind those
/// before it: what `zq_batch` has a spelling of.
#[derive(Drop)]
pub struct Batch {
    ops: Vec<Op>,
    /// Their spelling, where it was made: a batch that was read has none.
    spelling: Option<Vec<u8>>,
}

impl Model for Batch {
    ghost use Rattle.std.specs.Prelude.{List};
    ghost use Rattle.zq_dots.specs.Placed.{Placed};

    ghost Value = { List Placed };

    ghost use Rattle.std.specs.Prelude.{IfSome, ◌≡◌};
    ghost use Rattle.zq_entries.specs.Together.{AreTogether, batch_of};

    ghost view = { λ b. b.ops.items };

    ghost invariant = { λ b. AreTogether b.ops.items
        × IfSome b.spelling (λ v. v.items ≡ batch_of b.ops.items) };
}

impl Batch {
    /// The batch of these operations, and `None` where they have no spelling together. It fails
    /// only where memory is refused.
    pub fn new(alloc: Global, ops: Vec<Op>) -> Result<Option<Batch>, AllocError>
        ensures { IfOk result (λ r. MatchOption r
            ((heaps heap : ℕ) → AreBatch heaps heap ops.items → ⊥)
            (λ b. b ≡ ops.items)) }
    {
        match write_batch(alloc, &ops)? {
            Some(bytes) => Ok(Some(Batch {
                ops,
                spelling: Some(bytes),
            })),
            None => Ok(None),
        }
    }

    /// The batch that the bytes are, as `zq_batch` reads them.
    pub fn read(alloc: Global, bytes: &[u8]) -> Result<Batch, BatchFault>
        ensures exact { Answers bytes.now (λ b. b) result (batch_at bytes.now) }
        ensures found { IfOk result (λ b. bytes.now ≡ batch_of b) }
    {
        match read_batch(alloc, bytes) {
            Ok(ops) => Ok(Batch {
                ops,
                spelling: None,
            }),
            Err(fault) => Err(fault),
        }
    }

    /// Its bytes, as `zq_batch` writes them. It fails only where memory is refused.
    pub fn write(&self, alloc: Global) -> Result<Vec<u8>, AllocError>
        ensures { IfOk result (λ v. v.items ≡ batch_of self.now) }
    {
        if let Some(bytes) = &self.spelling {
            return Ok(Vec::from_slice(alloc, bytes)?);
        }
        let written = write_batch(alloc, &self.ops)?;
        Ok(written.unwrap())
    }

    /// Its operations, oldest first.
    pub fn ops(&self) -> &[Op]
        ensures same { result.now ≡ self.now }
        ensures together { AreTogether self.now }
    {
        &self.ops
    }
}
