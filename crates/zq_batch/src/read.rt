//! Reading a batch.

ghost use Rattle.std.specs.Prelude.{◌≡◌, ◌<◌, ◌≤◌, ◌++◌, ◌∷◌, All, IfErr, IfOk, List, MatchResult, OnOk, [], ℕ, Err};
ghost use Rattle.zq_batch.specs.Answer.{Answers, GivesPart};
ghost use Rattle.zq_batch.specs.Batch.{AreBatch, MOST_OPS};
ghost use Rattle.zq_batch.specs.Reading as read_batch;
ghost use Rattle.zq_batch.specs.Spelling as spell;
ghost use Rattle.zq_batch.specs.Varint.{varint};
ghost use Rattle.zq_batch.specs.declared.fault.BatchFault.TheVariants.{NoMemory, Rest};
ghost use Rattle.zq_dots.specs.Placed.{IsRanged, Placed};
ghost use Rattle.zq_fields.specs.Reading as read;
ghost use Rattle.zq_model.specs.Sets as sets;

use crate::fault::BatchFault;
use crate::ops::ops_of;
use crate::varint::read_varint;
use crate::views::read_views;
use std::alloc::Global;
use zq_dots::Op;
use zq_fields::{HeapNo, PartFault, read_byte_in, read_heap};

/// The kind of the frame, which its first byte names.
pub const KIND: u8 = 11;

// The most operations of a batch.
const MOST: u64 = 4096;

/// The operations that the bytes are: between 1 and 4096 of one heap, each of them the next of its
/// site behind those before it. So the operations of a site have counters that follow one another.
///
/// A fault is that of the first field, from the left, that is missing, out of its range or not in
/// its one spelling. Memory is asked for once the heap and the number of operations are found, for
/// no more operations than there are bytes, and for copies of their keys and members once all are
/// found: `NoMemory` comes only there.
pub fn read_batch(alloc: Global, bytes: &[u8]) -> Result<Vec<Op>, BatchFault>
    ensures exact { Answers bytes.now (λ v. v.items) result (read_batch.batch_at bytes.now) }
    ensures found { IfOk result (λ v. (heaps heap : ℕ) × AreBatch heaps heap v.items
        × (bytes.now ≡ spell.batch_bytes heaps heap v.items)) }
    ensures only { (heaps heap : ℕ) (ops : List Placed) → All IsRanged ops →
        AreBatch heaps heap ops → bytes.now ≡ spell.batch_bytes heaps heap ops →
        MatchResult result (λ v. v.items ≡ ops) (λ fault. fault ≡ NoMemory) }
{
    read_whole(alloc, bytes)
}

fn read_whole(alloc: Global, bytes: &[u8]) -> Result<Vec<Op>, BatchFault>
    ensures exact { Answers bytes.now (λ v. v.items) result (read_batch.batch_at bytes.now) }
    ensures found { IfOk result (λ v. (heaps heap : ℕ) × AreBatch heaps heap v.items
        × (bytes.now ≡ spell.batch_bytes heaps heap v.items)) }
{
    let mut rest = bytes;
    let (heap, count) = read_front(&mut rest)?;
    let views = read_views(alloc, bytes.len(), heap, count, &mut rest)?;
    read_end(rest)?;
    let ops = ops_of(alloc, &views)?;
    Ok(ops)
}

/// Takes the kind, the heap and the number of operations.
#[tactic(auto, unfolding(crate::specs::Reading::front_at))]
fn read_front(bytes: &mut &[u8]) -> Result<(HeapNo, u64), PartFault>
    ensures exact { read.Gives (λ x. ((x.0, x.1), bytes.new.now)) result
        (read_batch.front_at bytes.old.now) }
    ensures found { IfOk result (λ x. bytes.old.now
        ≡ spell.KIND ∷ x.0.heaps ∷ x.0.heap ∷ (varint x.1 ++ bytes.new.now)) }
    ensures heaps { IfOk result (λ x. sets.IsHeaps x.0.heaps) }
    ensures heap { IfOk result (λ x. x.0.heap < x.0.heaps) }
    ensures some { IfOk result (λ x. 1 ≤ x.1) }
    ensures few { IfOk result (λ x. x.1 ≤ MOST_OPS) }
{
    let whole = bytes.len();
    read_byte_in(whole, bytes, KIND, KIND + 1)?;
    let heap = read_heap(whole, bytes)?;
    let count = read_varint(whole, bytes, 1, MOST)?;
    Ok((heap, count))
}

/// Nothing follows.
fn read_end(rest: &[u8]) -> Result<(), BatchFault>
    ensures end { OnOk result (rest.now ≡ []) }
    ensures more { IfErr result (λ fault. (ops : List Placed) →
        read_batch.end_at (ops, rest.now) ≡ Err fault) }
{
    match rest.split_first() {
        None => Ok(()),
        Some(_) => Err(BatchFault::Rest),
    }
}
