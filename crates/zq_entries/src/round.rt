//! The operations of a round, by batches.

ghost use Rattle.std.specs.Prelude.{IfOk, List, OnOk, [], flat_map, length, map, ℕ, ◌++◌, ◌∷◌, ◌≡◌, ◌≤◌};
ghost use Rattle.zq_dots.specs.Placed.{Placed};
ghost use Rattle.zq_entries.specs.Answer.{Answers, IsOfBatches};
ghost use Rattle.zq_entries.specs.Entry.{MOST_BATCHES, OfRound};
ghost use Rattle.zq_entries.specs.Parts.{block_at, count_at};
ghost use Rattle.zq_entries.specs.Reading as read;
ghost use Rattle.zq_entries.specs.Spelling as spell;
ghost use Rattle.zq_entries.specs.Together.{batch_of};
ghost use Rattle.zq_fields.specs.Reading as part;

use crate::batch::Batch;
use crate::fault::EntryFault;
use crate::kind::Kind;
use std::alloc::{AllocError, Global};
use zq_fields::{
    PartFault, read_byte_in, read_bytes, read_u64, write_byte, write_bytes, write_u64,
};

/// The most batches of a round.
const MOST: u8 = 64;

/// Takes the number of batches.
pub(crate) fn read_count(whole: usize, bytes: &mut &[u8]) -> Result<u8, PartFault>
    ensures exact { part.Gives (λ n. (n, bytes.new.now)) result (count_at whole bytes.old.now) }
    ensures found { IfOk result (λ n. bytes.old.now ≡ n ∷ bytes.new.now) }
    ensures some { IfOk result (λ n. 1 ≤ n) }
    ensures few { IfOk result (λ n. n ≤ MOST_BATCHES) }
{
    read_byte_in(whole, bytes, 1, MOST + 1)
}

/// Takes so many batches. Room is asked for no more than these.
pub(crate) fn read_batches(
    alloc: Global,
    whole: usize,
    count: u8,
    bytes: &mut &[u8],
) -> Result<Vec<Batch>, EntryFault>
    ensures exact { Answers IsOfBatches (λ b. (b.items, bytes.new.now)) result
        (read.batches_at whole count [] bytes.old.now) }
    ensures found { IfOk result
        (λ b. count ∷ bytes.old.now ≡ spell.round_bytes b.items ++ bytes.new.now) }
    ensures count { IfOk result (λ b. length b.items ≡ count) }
{
    let mut batches = Vec::with_capacity(alloc, count as usize)?;
    for _number in 0..count {
        let batch = read_behind_length(alloc, whole, bytes)?;
        append_batch(&mut batches, batch)?;
    }
    Ok(batches)
}

/// Puts a batch at the end.
fn append_batch(batches: &mut Vec<Batch>, batch: Batch) -> Result<(), AllocError>
    ensures { OnOk result (batches.new.items ≡ batches.old.items ++ batch ∷ []) }
{
    batches.push(batch)?;
    Ok(())
}

/// Takes a batch behind its length.
#[tactic(auto, unfolding(crate::specs::Reading::batch_in))]
fn read_behind_length(alloc: Global, whole: usize, bytes: &mut &[u8]) -> Result<Batch, EntryFault>
    ensures exact { Answers IsOfBatches (λ b. (b, bytes.new.now)) result
        (read.batch_in whole bytes.old.now) }
    ensures found { IfOk result (λ b. bytes.old.now ≡ spell.part_bytes b ++ bytes.new.now) }
{
    let at = whole.saturating_sub(bytes.len());
    let block = read_block(bytes)?;
    match Batch::read(alloc, block) {
        Ok(batch) => Ok(batch),
        Err(fault) => Err(EntryFault::Batch(at, fault)),
    }
}

/// Takes a length of eight bytes, and as many bytes.
#[tactic(auto, unfolding(crate::specs::Parts::block_at, crate::specs::Spelling::block))]
fn read_block<'a>(bytes: &mut &'a [u8]) -> Result<&'a [u8], PartFault>
    ensures exact { part.Gives (λ x. (x.now, bytes.new.now)) result (block_at bytes.old.now) }
    ensures found { IfOk result (λ x. bytes.old.now ≡ spell.block x.now ++ bytes.new.now) }
{
    let Some((count, rest)) = read_u64(bytes) else {
        return Err(PartFault::Short);
    };
    let Some((block, rest)) = read_bytes(rest, count as usize) else {
        return Err(PartFault::Short);
    };
    *bytes = rest;
    Ok(block)
}

/// The entry of a round whose batches are written already, as a site writes them once for its
/// peers and its log. It fails only where memory is refused.
pub fn write_round(alloc: Global, batches: &[Vec<u8>]) -> Result<Vec<u8>, AllocError>
    requires some { 1 ≤ length batches.now }
    requires few { length batches.now ≤ MOST_BATCHES }
    ensures { (round : List (List Placed)) → map (λ b. b.items) batches.now ≡ map batch_of round →
        IfOk result (λ v. v.items ≡ spell.entry_bytes (OfRound round)) }
{
    let mut out = Vec::new(alloc);
    write_byte(&mut out, Kind::Round.byte())?;
    write_byte(&mut out, batches.len() as u8)?;
    write_blocks(&mut out, batches)?;
    Ok(out)
}

/// Appends each, behind its length.
fn write_blocks(out: &mut Vec<u8>, batches: &[Vec<u8>]) -> Result<(), AllocError>
    ensures { OnOk result (out.new.items
        ≡ out.old.items ++ flat_map (λ b. spell.block b.items) batches.now) }
{
    for batch in batches {
        write_block(out, batch)?;
    }
    Ok(())
}

/// Appends the number of batches, and each.
#[tactic(auto, unfolding(crate::specs::Spelling::round_bytes))]
pub(crate) fn write_batches(
    alloc: Global,
    out: &mut Vec<u8>,
    batches: &[Batch],
) -> Result<(), AllocError>
    requires { length batches.now ≤ MOST_BATCHES }
    ensures written { OnOk result
        (out.new.items ≡ out.old.items ++ spell.round_bytes batches.now) }
{
    write_byte(out, batches.len() as u8)?;
    write_each(alloc, out, batches)
}

/// Appends each batch, behind its length.
fn write_each(alloc: Global, out: &mut Vec<u8>, batches: &[Batch]) -> Result<(), AllocError>
    ensures { OnOk result
        (out.new.items ≡ out.old.items ++ flat_map spell.part_bytes batches.now) }
{
    for batch in batches {
        let bytes = batch.write(alloc)?;
        write_block(out, &bytes)?;
    }
    Ok(())
}

/// Appends the length of the bytes, and them.
#[tactic(auto, unfolding(crate::specs::Spelling::block))]
fn write_block(out: &mut Vec<u8>, bytes: &[u8]) -> Result<(), AllocError>
    ensures { OnOk result (out.new.items ≡ out.old.items ++ spell.block bytes.now) }
{
    write_u64(out, bytes.len() as u64)?;
    write_bytes(out, bytes)
}
