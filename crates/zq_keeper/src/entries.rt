//! The bytes of entries, which are read as these.

ghost use Rattle.std.specs.Prelude.{All, IfErr, IfOk, List, OnOk, length, map, true, ◌<◌, ◌^◌, ◌≡◌, ◌≤◌};
ghost use Rattle.zq_dots.specs.Placed.{Placed};
ghost use Rattle.zq_entries.specs.Entry as model;
ghost use Rattle.zq_entries.specs.Spelling.{entry_bytes};
ghost use Rattle.zq_entries.specs.Together.{batch_of};
ghost use Rattle.zq_keeper.specs.Keeper.{has_stayed};
ghost use Rattle.zq_keeper.specs.Read.{IsSpelled};
ghost use Rattle.zq_model.specs.Sets.{IsHeaps};

use crate::fault::KeeperFault;
use std::alloc::{AllocError, Global};
use zq_entries::{
    Entry, EntryFault, FOLDER, Sealed, Start, entry_has_one_spelling, write_entry, write_round,
};
use zq_links::{Piece, write_piece};
use zq_recovery::Refusal;

/// The most batches of a round.
const MOST: usize = 64;

/// That of a start.
pub(crate) fn start_entry(alloc: Global, start: &Start) -> Result<Vec<u8>, AllocError>
    requires heaps { IsHeaps start.now.heaps }
    requires some { 1 ≤ start.now.number }
    ensures { IfOk result (λ v. IsSpelled (model.OfStart (model.start_of start.now)) v.items) }
{
    ranged(start);
    let entry = write_entry(alloc, &Entry::Start(*start))?;
    Ok(entry)
}

/// For the proof: the numbers of a start are in range.
fn ranged(start: &Start)
    requires heaps { IsHeaps start.now.heaps }
    requires some { 1 ≤ start.now.number }
    ensures { model.IsStart (model.start_of start.now) }
{
    let _site = start.site.value();
    numbered(start.folder, start.number);
}

/// For the proof: the same of its folder and its number.
fn numbered(folder: [u8; FOLDER], number: u64)
    ensures folder { length folder ≡ model.FOLDER }
    ensures number { number < 2 ^ 64 }
{
    let _ = (folder, number);
}

/// That of a piece.
pub(crate) fn piece_entry(alloc: Global, piece: &Piece) -> Result<Vec<u8>, AllocError>
    ensures { IfOk result (λ v. IsSpelled (model.OfPiece piece.now) v.items) }
{
    // A piece is an entry as it stands.
    let entry = write_piece(alloc, piece)?;
    Ok(entry)
}

/// That all pieces of a heap came.
pub(crate) fn sealed_entry(alloc: Global, whole: &Sealed) -> Result<Vec<u8>, AllocError>
    requires { model.IsSealed whole.now }
    ensures { IfOk result (λ v. IsSpelled (model.OfSealed whole.now) v.items) }
{
    let entry = write_entry(alloc, &Entry::Sealed(*whole))?;
    Ok(entry)
}

/// That of a rest.
pub(crate) fn rest_entry(alloc: Global) -> Result<Vec<u8>, AllocError>
    ensures { IfOk result (λ v. IsSpelled model.OfRest v.items) }
{
    let entry = write_entry(alloc, &Entry::Rest)?;
    Ok(entry)
}

/// That of a round whose batches are written. `Refused` where there is none, or there are more than
/// 64.
fn count_and_write(alloc: Global, written: &[Vec<u8>]) -> Result<Vec<u8>, KeeperFault>
    ensures entry { (round : List (List Placed)) →
        map (λ b. b.items) written.now ≡ map batch_of round →
        IfOk result (λ v. v.items ≡ entry_bytes (model.OfRound round)) }
    ensures some { OnOk result (1 ≤ length written.now) }
    ensures few { OnOk result (length written.now ≤ model.MOST_BATCHES) }
    ensures fault { IfErr result (λ e. has_stayed e ≡ true) }
{
    if written.is_empty() || written.len() > MOST {
        return Err(KeeperFault::Refused(Refusal::Entry(EntryFault::Field(1))));
    }
    let entry = write_round(alloc, written)?;
    Ok(entry)
}

/// The same, which is read as these batches.
pub(crate) fn round_entry(alloc: Global, written: &[Vec<u8>]) -> Result<Vec<u8>, KeeperFault>
    ensures spelled { (round : List (List Placed)) →
        map (λ b. b.items) written.now ≡ map batch_of round → All model.IsBatch round →
        IfOk result (λ v. IsSpelled (model.OfRound round) v.items) }
    ensures fault { IfErr result (λ e. has_stayed e ≡ true) }
{
    // For the proof: a spelling is read as its entry.
    entry_has_one_spelling();
    let entry = count_and_write(alloc, written)?;
    Ok(entry)
}
