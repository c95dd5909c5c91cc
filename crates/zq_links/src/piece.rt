//! A piece of a heap, one of a stream.

ghost use Rattle.std.specs.Prelude.{◌≡◌, ◌++◌, ◌∷◌, Err, IfErr, IfOk, IsTrue, MatchResult, Ok, OnOk, Some, false, slice_get};
ghost use Rattle.zq_links.specs.Answer.{Answers, Gives};
ghost use Rattle.zq_links.specs.Control as control;
ghost use Rattle.zq_links.specs.ControlSpelling.{control_spelling};
ghost use Rattle.zq_links.specs.Frame as frame;
ghost use Rattle.zq_links.specs.PieceReading as read;
ghost use Rattle.zq_links.specs.Pieces as spec;
ghost use Rattle.zq_links.specs.Reading.{of_state};
ghost use Rattle.zq_links.specs.Spelling.{IsSpelled};
ghost use Rattle.zq_links.specs.Steps.{IsStep, step_bytes};
ghost use Rattle.zq_links.specs.declared.frame_fault.FrameFault.TheVariants.{State};
ghost use Rattle.zq_links.specs.declared.piece.Piece as model;
ghost use Rattle.zq_merge.specs.Refused.{IsRefusedIn};
ghost use Rattle.zq_merge.specs.State.{state_at, state_spelling};
ghost use Rattle.zq_merge.specs.declared.fault.StateFault.TheVariants.{NoMemory};
ghost use Rattle.zq_merge.specs.declared.version.Version.TheVariants.{Three};

use crate::frame_fault::FrameFault;
use crate::spot::Spot;
use crate::step::{read_step, write_step};
use std::alloc::{AllocError, Global};
use zq_fields::{read_byte, write_byte, write_bytes};
use zq_merge::{StateFault, read_state, write_state};
use zq_posheap::Seeded;
use zq_shard::Shard;

/// The kind of the frame, which its first byte names.
const KIND: u8 = 10;

/// The byte that names the newest version of a state.
const NEWEST: u8 = 3;

/// Some members of a heap of the sender's, with all that the heap has of them: one of a stream of
/// pieces, which together have all its members.
#[derive(Drop)]
pub struct Piece {
    /// The life of the sender's heap: how often the places of its members were laid out anew.
    pub life: u64,
    /// Its number among the pieces of its stream, from 0.
    pub number: u32,
    /// Where the piece that follows it begins. Where both its places are 0 it is the last one.
    pub next: Spot,
    /// The members, with the heap's number, the number of heaps and the rule, and the operations
    /// that the sender had taken there.
    pub part: Shard,
}

/// Whether the first byte names the kind of a piece, 10. The other bytes may be anything.
pub fn is_piece(bytes: &[u8]) -> bool
    ensures kind { result ≡ spec.is_piece bytes.now }
    ensures piece { (p : model.Piece) → bytes.now ≡ spec.piece_bytes p → IsTrue result }
    ensures frame { (f : frame.Frame) → IsSpelled f bytes.now → result ≡ false }
    ensures control { (c : control.Control) → bytes.now ≡ control_spelling c → result ≡ false }
{
    begins_as_piece(bytes)
}

fn begins_as_piece(bytes: &[u8]) -> bool
    ensures { result ≡ spec.is_piece bytes.now }
{
    match bytes.split_first() {
        Some((kind, _)) => *kind == KIND,
        None => false,
    }
}

/// The piece that the bytes are; its members use this hasher.
///
/// A fault is that of the first field, from the left, that is missing or wrong. A first byte that
/// names another kind is a `Kind`. From the state on it is the fault of the state, whose first byte
/// names no version but 3 here. No memory is asked for what a number only declares: want of memory
/// is told as the fault of the state, and only where all of it before the field that asked for some
/// was read.
pub fn read_piece(alloc: Global, bytes: &[u8], hasher: Seeded) -> Result<Piece, FrameFault>
    ensures exact { Answers (read.IsOfMemory bytes.now) (λ p. p) result (read.piece_at bytes.now) }
    ensures found { IfOk result (λ p. bytes.now ≡ spec.piece_bytes p) }
    ensures only { (p : model.Piece) → spec.IsPiece p → bytes.now ≡ spec.piece_bytes p →
        MatchResult result (λ r. r ≡ p) (read.IsOfMemory bytes.now) }
{
    read_whole(alloc, bytes, hasher)
}

#[tactic(auto, unfolding(crate::specs::Pieces::piece_bytes))]
fn read_whole(alloc: Global, bytes: &[u8], hasher: Seeded) -> Result<Piece, FrameFault>
    ensures exact { Answers (read.IsOfMemory bytes.now) (λ p. p) result (read.piece_at bytes.now) }
    ensures found { IfOk result (λ p. bytes.now ≡ spec.piece_bytes p) }
{
    let mut rest = bytes;
    let (life, number, next) = read_front(&mut rest)?;
    match read_part(alloc, rest, hasher) {
        Ok(part) => Ok(Piece {
            life,
            number,
            next,
            part,
        }),
        Err(fault) => Err(fault),
    }
}

/// Takes the kind, and where the stream stands.
fn read_front(bytes: &mut &[u8]) -> Result<(u64, u32, Spot), FrameFault>
    ensures exact { Gives (λ x. ((x.0, x.1, x.2), bytes.new.now)) result
        (read.front_at bytes.old.now) }
    ensures found { IfOk result
        (λ x. bytes.old.now ≡ spec.KIND ∷ (step_bytes x.0 x.1 x.2 ++ bytes.new.now)) }
{
    let Some((kind, rest)) = read_byte(bytes) else {
        return Err(FrameFault::Short);
    };
    if kind != KIND {
        return Err(FrameFault::Kind);
    }
    *bytes = rest;
    let step = read_step(bytes)?;
    Ok(step)
}

/// The state that the bytes are, of the newest version.
fn read_part(alloc: Global, bytes: &[u8], hasher: Seeded) -> Result<Shard, FrameFault>
    ensures exact { Answers (λ fault. IsRefusedIn bytes.now × (fault ≡ State NoMemory))
        (λ s. s) result (of_state (read.newest_at bytes.now)) }
    ensures found { IfOk result (λ s. bytes.now ≡ state_spelling Three s) }
{
    judge_version(bytes)?;
    match read_state(alloc, bytes, hasher) {
        Ok(part) => Ok(part),
        Err(fault) => Err(FrameFault::State(fault)),
    }
}

/// Whether the bytes begin as a state of the newest version, and the fault where they do not.
fn judge_version(bytes: &[u8]) -> Result<(), FrameFault>
    ensures newest { OnOk result (read.newest_at bytes.now ≡ state_at bytes.now) }
    ensures first { OnOk result (slice_get bytes.now 0 ≡ Some 3) }
    ensures other { IfErr result (λ fault. of_state (read.newest_at bytes.now) ≡ Err fault) }
{
    match bytes.split_first() {
        None => Err(FrameFault::State(StateFault::Short)),
        Some((version, _)) => {
            if *version == NEWEST {
                Ok(())
            } else {
                Err(FrameFault::State(StateFault::Version))
            }
        }
    }
}

/// The bytes of a piece, with its state in version 3, which are read as it. It fails only where
/// memory is refused.
pub fn write_piece(alloc: Global, piece: &Piece) -> Result<Vec<u8>, AllocError>
    ensures written { IfOk result (λ v. v.items ≡ spec.piece_bytes piece.now) }
    ensures again { IfOk result (λ v. read.piece_at v.items ≡ Ok piece.now) }
{
    let state = write_state(alloc, &piece.part)?;
    let mut out = Vec::new(alloc);
    write_front(&mut out, piece)?;
    write_bytes(&mut out, &state)?;
    Ok(out)
}

/// Appends the kind, and where the stream stands.
fn write_front(out: &mut Vec<u8>, piece: &Piece) -> Result<(), AllocError>
    ensures written { OnOk result (out.new.items
        ≡ out.old.items ++ spec.KIND
        ∷ step_bytes piece.now.life piece.now.number piece.now.next) }
    ensures sound { OnOk result (IsStep piece.now.life piece.now.number piece.now.next) }
{
    write_byte(out, KIND)?;
    write_step(out, piece.life, piece.number, &piece.next)
}
