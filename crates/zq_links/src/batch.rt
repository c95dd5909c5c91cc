//! Operations by differences.

ghost use Rattle.std.specs.Prelude.{◌≡◌, ◌<◌, ◌^◌, All, IfOk, List, MatchOption, MatchResult, ℕ, false, length};
ghost use Rattle.zq_batch.specs.Batch.{AreBatch};
ghost use Rattle.zq_batch.specs.Spelling.{batch_bytes};
ghost use Rattle.zq_dots.specs.Placed.{IsRanged, Placed};
ghost use Rattle.zq_links.specs.Answer.{Answers};
ghost use Rattle.zq_links.specs.Batch as spec;
ghost use Rattle.zq_links.specs.Frame as model;
ghost use Rattle.zq_links.specs.Spelling.{IsSpelled, frame_spelling, newest};

use crate::frame::Frame;
use crate::frame_fault::FrameFault;
use crate::kind::Kind;
use crate::read::read_frame;
use std::alloc::{AllocError, Global};
use zq_batch::{KIND, append_recoded, read_batch};
use zq_fields::{read_byte, read_u32};
use zq_posheap::Seeded;

/// Whether the first byte names the kind of operations by differences, 11. The other bytes may be
/// anything.
pub fn is_batch(bytes: &[u8]) -> bool
    ensures kind { result ≡ spec.is_batch bytes.now }
    ensures frame { (f : model.Frame) → IsSpelled f bytes.now → result ≡ false }
{
    begins_as_batch(bytes)
}

fn begins_as_batch(bytes: &[u8]) -> bool
    ensures { result ≡ spec.is_batch bytes.now }
{
    match bytes.split_first() {
        Some((kind, _)) => *kind == KIND,
        None => false,
    }
}

/// The operations that the bytes are by differences. A fault is that of the first field, from the
/// left, that is missing, wrong, or not in its one spelling; a first byte that does not name the
/// kind is the fault `Field(0)`. `NoMemory` comes only where there was none for the operations.
pub fn read_batch_frame(alloc: Global, bytes: &[u8]) -> Result<Frame, FrameFault>
    ensures exact { Answers spec.IsNoMemory model.frame_of result (spec.batch_frame_at bytes.now) }
    ensures found { IfOk result (λ f. spec.IsBatch (model.frame_of f) bytes.now) }
    ensures only { (heaps heap : ℕ) (ops : List Placed) → All IsRanged ops →
        AreBatch heaps heap ops → bytes.now ≡ batch_bytes heaps heap ops →
        MatchResult result (λ f. model.frame_of f ≡ model.OfOps ops) spec.IsNoMemory }
    ensures sound { IfOk result model.IsWritable }
{
    match read_batch(alloc, bytes) {
        Ok(ops) => Ok(Frame::Ops(ops)),
        Err(fault) => Err(FrameFault::from(fault)),
    }
}

/// The bytes by differences of the operations of a frame of kind 2, in version 2, and `None` where
/// they have none, as `zq_batch` says. No operation is made. It fails only where memory is refused.
pub fn recode(alloc: Global, frame: &[u8]) -> Result<Option<Vec<u8>>, AllocError>
    ensures { (ops : List Placed) → All IsRanged ops → length ops < 2 ^ 32 →
        frame.now ≡ frame_spelling (newest (model.OfOps ops)) →
        IfOk result (λ r. MatchOption r
        ((heaps heap : ℕ) → AreBatch heaps heap ops → ⊥)
        (λ v. (heaps : ℕ) × (heap : ℕ) × AreBatch heaps heap ops
        × (v.items ≡ batch_bytes heaps heap ops))) }
{
    let Some((kind, rest)) = read_byte(frame) else {
        return Ok(None);
    };
    if kind != Kind::Ops.byte() {
        return Ok(None);
    }
    let Some((count, spelled)) = read_u32(rest) else {
        return Ok(None);
    };
    let mut out = Vec::with_capacity(alloc, frame.len() / 2)?;
    if append_recoded(alloc, &mut out, count, spelled)? {
        Ok(Some(out))
    } else {
        Ok(None)
    }
}

/// The bytes by differences of the operations of a frame of kind 2, in version 2, and the frame
/// itself where they have none. It fails only where memory is refused.
pub fn by_differences(alloc: Global, frame: Vec<u8>) -> Result<Vec<u8>, AllocError>
    ensures { (ops : List Placed) → All IsRanged ops → length ops < 2 ^ 32 →
        frame.items ≡ frame_spelling (newest (model.OfOps ops)) →
        IfOk result (λ v. spec.IsOneOf (model.OfOps ops) v.items) }
{
    match recode(alloc, &frame)? {
        Some(batch) => Ok(batch),
        None => Ok(frame),
    }
}

/// The frame that the bytes are: operations by differences too, where the peer pushes. Faults are
/// those of `read_batch_frame` and of `read_frame`.
pub fn read_heard(
    alloc: Global,
    bytes: &[u8],
    hasher: Seeded,
    is_pushed: bool,
) -> Result<Frame, FrameFault>
    ensures found { IfOk result (λ f. spec.IsOneOf (model.frame_of f) bytes.now) }
    ensures sound { IfOk result model.IsWritable }
    ensures asked { is_pushed ≡ false →
        IfOk result (λ f. IsSpelled (model.frame_of f) bytes.now) }
{
    if is_pushed && is_batch(bytes) {
        read_pushed(alloc, bytes)
    } else {
        read_asked(alloc, bytes, hasher)
    }
}

fn read_pushed(alloc: Global, bytes: &[u8]) -> Result<Frame, FrameFault>
    ensures found { IfOk result (λ f. spec.IsOneOf (model.frame_of f) bytes.now) }
    ensures sound { IfOk result model.IsWritable }
{
    match read_batch_frame(alloc, bytes) {
        Ok(frame) => Ok(frame),
        Err(fault) => Err(fault),
    }
}

fn read_asked(alloc: Global, bytes: &[u8], hasher: Seeded) -> Result<Frame, FrameFault>
    ensures found { IfOk result (λ f. spec.IsOneOf (model.frame_of f) bytes.now) }
    ensures spelled { IfOk result (λ f. IsSpelled (model.frame_of f) bytes.now) }
    ensures sound { IfOk result model.IsWritable }
{
    match read_frame(alloc, bytes, hasher) {
        Ok(frame) => Ok(frame),
        Err(fault) => Err(fault),
    }
}
