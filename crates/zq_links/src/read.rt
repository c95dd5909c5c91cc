//! How a frame is read.
ghost use Rattle.std.specs.Prelude.{◌≡◌, ◌∷◌, IfErr, IfOk, MatchResult, OnOk, [], Err};
ghost use Rattle.zq_links.specs.Answer.{Answers, Gives, IsOfMemory, IsOfMemoryIn};
ghost use Rattle.zq_links.specs.Frame as model;
ghost use Rattle.zq_links.specs.Kind.{kind_byte};
ghost use Rattle.zq_links.specs.Reading.{body_at, end_at, frame_at};
ghost use Rattle.zq_links.specs.Spelling.{HasSpelling, IsSpelled, Spelled, frame_spelling, value_of};
ghost use Rattle.zq_links.specs.declared.kind.Kind.TheVariants as kind;

use crate::frame::Frame;
use crate::frame_fault::FrameFault;
use crate::have::read_have;
use crate::kind::{Kind, read_kind};
use crate::ops::read_ops;
use std::alloc::Global;
use zq_merge::{Version, read_state};
use zq_posheap::Seeded;

/// The frame that the bytes are, of any kind; the members of a state use this hasher.
///
/// A fault is that of the first field, from the left, that is missing or wrong. No memory is asked
/// for what a number only declares. Want of memory is answered as `NoMemory` where it was for the
/// list of operations, and as the fault of the operation or of the state where it was for that. An
/// operation is there, and so are those before it, where there was no memory for it or for its
/// place in the list; a Have takes none.
pub fn read_frame(alloc: Global, bytes: &[u8], hasher: Seeded) -> Result<Frame, FrameFault>
    ensures exact { Answers (IsOfMemory bytes.now) model.frame_of result (frame_at bytes.now) }
    ensures found { IfOk result (λ f. IsSpelled (model.frame_of f) bytes.now) }
    ensures only { (s : Spelled) → model.IsFrame (value_of s) → HasSpelling s →
        bytes.now ≡ frame_spelling s →
        MatchResult result (λ f. model.frame_of f ≡ value_of s) (IsOfMemory bytes.now) }
    ensures sound { IfOk result model.IsWritable }
{
    read_whole(alloc, bytes, hasher)
}

fn read_whole(alloc: Global, bytes: &[u8], hasher: Seeded) -> Result<Frame, FrameFault>
    ensures exact { Answers (IsOfMemory bytes.now) model.frame_of result (frame_at bytes.now) }
    ensures found { IfOk result (λ f. IsSpelled (model.frame_of f) bytes.now) }
    ensures sound { IfOk result model.IsWritable }
{
    let mut rest = bytes;
    match read_kind(&mut rest)? {
        Kind::Have(version) => read_only_have(version, bytes.len(), rest),
        Kind::Ops => read_only_ops(alloc, rest),
        Kind::State => read_only_state(alloc, rest, hasher),
    }
}

/// What a site has, and nothing more.
fn read_only_have(version: Version, whole: usize, bytes: &[u8]) -> Result<Frame, FrameFault>
    ensures exact { Gives model.frame_of result (body_at (kind.Have version) whole bytes.now) }
    ensures found { IfOk result
        (λ f. IsSpelled (model.frame_of f) (kind_byte (kind.Have version) ∷ bytes.now)) }
    ensures sound { IfOk result model.IsWritable }
{
    let mut rest = bytes;
    let have = read_have(version, whole, &mut rest)?;
    read_end(rest)?;
    Ok(Frame::Have(have))
}

/// Operations, and nothing more.
fn read_only_ops(alloc: Global, bytes: &[u8]) -> Result<Frame, FrameFault>
    ensures exact { Answers (IsOfMemoryIn kind.Ops bytes.now)
        model.frame_of result (body_at kind.Ops 0 bytes.now) }
    ensures found { IfOk result
        (λ f. IsSpelled (model.frame_of f) (kind_byte kind.Ops ∷ bytes.now)) }
    ensures sound { IfOk result model.IsWritable }
{
    let mut rest = bytes;
    let ops = read_ops(alloc, &mut rest)?;
    read_end(rest)?;
    Ok(Frame::Ops(ops))
}

/// A state.
fn read_only_state(alloc: Global, bytes: &[u8], hasher: Seeded) -> Result<Frame, FrameFault>
    ensures exact { Answers (IsOfMemoryIn kind.State bytes.now)
        model.frame_of result (body_at kind.State 0 bytes.now) }
    ensures found { IfOk result
        (λ f. IsSpelled (model.frame_of f) (kind_byte kind.State ∷ bytes.now)) }
    ensures sound { IfOk result model.IsWritable }
{
    match read_state(alloc, bytes, hasher) {
        Ok(shard) => Ok(Frame::State(shard)),
        Err(fault) => Err(FrameFault::State(fault)),
    }
}

/// Nothing follows.
fn read_end(rest: &[u8]) -> Result<(), FrameFault>
    ensures end { OnOk result (rest.now ≡ []) }
    ensures more { IfErr result (λ fault. (f : model.Frame) → end_at f rest.now ≡ Err fault) }
{
    match rest.split_first() {
        None => Ok(()),
        Some(_) => Err(FrameFault::Rest),
    }
}
