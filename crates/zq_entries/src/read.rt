//! How an entry is read.

ghost use Rattle.std.specs.Prelude.{IfErr, IfOk, MatchResult, Err, OnOk, [], ◌++◌, ◌∷◌, ◌≡◌};
ghost use Rattle.zq_entries.specs.Answer.{Answers, Gives, IsOfMemory, IsOfMemoryIn};
ghost use Rattle.zq_entries.specs.Entry as model;
ghost use Rattle.zq_entries.specs.Kind.{kind_byte};
ghost use Rattle.zq_entries.specs.Reading as read;
ghost use Rattle.zq_entries.specs.Spelling.{entry_bytes};
ghost use Rattle.zq_entries.specs.declared.kind.Kind.TheVariants as kind;

use crate::entry::Entry;
use crate::fault::EntryFault;
use crate::kind::{Kind, read_kind};
use crate::laws::entry_has_one_spelling;
use crate::round::{read_batches, read_count};
use crate::sealed::read_sealed;
use crate::start::read_start;
use std::alloc::Global;
use zq_links::read_piece;
use zq_posheap::Seeded;

/// The entry that the bytes are, of any kind; the members of a piece use this hasher.
///
/// A fault is that of the first field, from the left, that is missing or wrong. Memory is asked for
/// by a Round, once the number of its batches is read, for that many and for their operations; and
/// by a Piece, for the members that are read. What a number only declares takes none.
pub fn read_entry(alloc: Global, bytes: &[u8], hasher: Seeded) -> Result<Entry, EntryFault>
    ensures exact { Answers (IsOfMemory bytes.now) model.entry_of result
        (read.entry_at bytes.now) }
    ensures found { IfOk result (λ e. bytes.now ≡ entry_bytes (model.entry_of e)) }
    ensures only { (e : model.Entry) → model.IsEntry e → bytes.now ≡ entry_bytes e →
        MatchResult result (λ r. model.entry_of r ≡ e) (IsOfMemory bytes.now) }
    ensures sound { IfOk result model.IsWritable }
{
    // For the proof: a spelling is read as its entry.
    entry_has_one_spelling();
    read_whole(alloc, bytes, hasher)
}

fn read_whole(alloc: Global, bytes: &[u8], hasher: Seeded) -> Result<Entry, EntryFault>
    ensures exact { Answers (IsOfMemory bytes.now) model.entry_of result
        (read.entry_at bytes.now) }
    ensures found { IfOk result (λ e. bytes.now ≡ entry_bytes (model.entry_of e)) }
    ensures sound { IfOk result model.IsWritable }
{
    let mut rest = bytes;
    let kind = read_kind(&mut rest)?;
    read_body(alloc, kind, bytes, rest, hasher)
}

/// What follows the kind, which stands at the front of all bytes.
fn read_body(
    alloc: Global,
    kind: Kind,
    all: &[u8],
    rest: &[u8],
    hasher: Seeded,
) -> Result<Entry, EntryFault>
    requires { all.now ≡ kind_byte kind ∷ rest.now }
    ensures exact { Answers (IsOfMemoryIn kind all.now rest.now) model.entry_of result
        (read.body_at kind all.now rest.now) }
    ensures found { IfOk result (λ e. all.now ≡ entry_bytes (model.entry_of e)) }
    ensures sound { IfOk result model.IsWritable }
{
    match kind {
        Kind::Start => read_start_entry(all, rest),
        Kind::Round => read_round_entry(alloc, all, rest),
        Kind::Sealed => read_sealed_entry(all, rest),
        Kind::Rest => read_rest_entry(rest),
        Kind::Piece => read_piece_entry(alloc, all, hasher),
    }
}

fn read_start_entry(all: &[u8], rest: &[u8]) -> Result<Entry, EntryFault>
    ensures exact { Gives model.entry_of result (read.body_at kind.Start all.now rest.now) }
    ensures found { IfOk result
        (λ e. kind_byte kind.Start ∷ rest.now ≡ entry_bytes (model.entry_of e)) }
    ensures sound { IfOk result model.IsWritable }
{
    let mut bytes = rest;
    let start = read_start(all.len(), &mut bytes)?;
    read_end(bytes)?;
    Ok(Entry::Start(start))
}

fn read_round_entry(alloc: Global, all: &[u8], rest: &[u8]) -> Result<Entry, EntryFault>
    ensures exact { Answers (IsOfMemoryIn kind.Round all.now rest.now) model.entry_of result
        (read.body_at kind.Round all.now rest.now) }
    ensures found { IfOk result
        (λ e. kind_byte kind.Round ∷ rest.now ≡ entry_bytes (model.entry_of e)) }
    ensures sound { IfOk result model.IsWritable }
{
    let mut bytes = rest;
    let count = read_count(all.len(), &mut bytes)?;
    let batches = read_batches(alloc, all.len(), count, &mut bytes)?;
    read_end(bytes)?;
    Ok(Entry::Round(batches))
}

fn read_sealed_entry(all: &[u8], rest: &[u8]) -> Result<Entry, EntryFault>
    ensures exact { Gives model.entry_of result (read.body_at kind.Sealed all.now rest.now) }
    ensures found { IfOk result
        (λ e. kind_byte kind.Sealed ∷ rest.now ≡ entry_bytes (model.entry_of e)) }
    ensures sound { IfOk result model.IsWritable }
{
    let mut bytes = rest;
    let whole = read_sealed(all.len(), &mut bytes)?;
    read_end(bytes)?;
    Ok(Entry::Sealed(whole))
}

fn read_rest_entry(rest: &[u8]) -> Result<Entry, EntryFault>
    ensures exact { Gives model.entry_of result (read.end_at model.OfRest rest.now) }
    ensures found { IfOk result
        (λ e. kind_byte kind.Rest ∷ rest.now ≡ entry_bytes (model.entry_of e)) }
    ensures sound { IfOk result model.IsWritable }
{
    read_end(rest)?;
    Ok(Entry::Rest)
}

fn read_piece_entry(alloc: Global, all: &[u8], hasher: Seeded) -> Result<Entry, EntryFault>
    ensures exact { Answers (IsOfMemoryIn kind.Piece all.now []) model.entry_of result
        (read.body_at kind.Piece all.now []) }
    ensures found { IfOk result (λ e. all.now ≡ entry_bytes (model.entry_of e)) }
    ensures sound { IfOk result model.IsWritable }
{
    match read_piece(alloc, all, hasher) {
        Ok(piece) => Ok(Entry::Piece(piece)),
        Err(fault) => Err(EntryFault::Piece(fault)),
    }
}

/// Nothing follows.
fn read_end(rest: &[u8]) -> Result<(), EntryFault>
    ensures end { OnOk result (rest.now ≡ []) }
    ensures more { IfErr result (λ fault. (e : model.Entry) →
        read.end_at e rest.now ≡ Err fault) }
{
    match rest.split_first() {
        None => Ok(()),
        Some(_) => Err(EntryFault::Rest),
    }
}
