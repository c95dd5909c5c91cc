//! Entries: their bytes by hand, each fault, beginnings and changed bytes.

use crate::hex::bytes_of;
use crate::vectors::{ENTRIES, FAULTS};
use std::alloc::{AllocError, Global};
use std::fmt::Write;
use std::process::Abort;
use std::test::Fail;
use zq_batch::{BatchFault, read_batch};
use zq_dots::{Rule, SiteNo};
use zq_entries::{Batch, Entry, EntryFault, Sealed, Start, read_entry, write_entry, write_round};
use zq_links::{FrameFault, Piece};
use zq_merge::StateFault;
use zq_posheap::Seeded;

/// What a start says, in words.
fn tell_start(out: &mut String, start: &Start) -> Result<(), Fail> {
    let rule = match start.rule {
        Rule::High => "High",
        Rule::Low => "Low",
    };
    write!(out, "start {} {} {rule} ", start.site.value(), start.heaps)?;
    for byte in start.folder {
        write!(out, "{byte:02x}")?;
    }
    write!(out, " {}", start.number)?;
    Ok(())
}

/// The heap and the number of operations of each batch.
fn tell_round(out: &mut String, batches: &[Batch]) -> Result<(), Fail> {
    write!(out, "round")?;
    for batch in batches {
        let ops = batch.ops();
        let first = ops.first().ok_or("an operation")?;
        write!(out, " {}/{}:{}", first.heap(), first.heaps(), ops.len())?;
    }
    Ok(())
}

/// The heap, and the counter of site 0 in the vector.
fn tell_sealed(out: &mut String, whole: &Sealed) -> Result<(), Fail> {
    let counter = whole.vector.get(SiteNo::new(0).ok_or("a site")?);
    write!(
        out,
        "sealed {}/{} {counter}",
        whole.heap.heap, whole.heap.heaps
    )?;
    Ok(())
}

/// The life, the number, where the next one begins, and the heap.
fn tell_piece(out: &mut String, piece: &Piece) -> Result<(), Fail> {
    let (key, member) = (piece.next.key, piece.next.member);
    let (heap, heaps) = (piece.part.heap(), piece.part.heaps());
    write!(
        out,
        "piece {} {} {key}/{member} {heap}/{heaps}",
        piece.life, piece.number
    )?;
    Ok(())
}

/// What an entry says, in words.
fn told_of(alloc: Global, entry: &Entry) -> Result<String, Fail> {
    let mut out = String::new(alloc);
    match entry {
        Entry::Start(start) => tell_start(&mut out, start)?,
        Entry::Round(batches) => tell_round(&mut out, batches)?,
        Entry::Piece(piece) => tell_piece(&mut out, piece)?,
        Entry::Sealed(whole) => tell_sealed(&mut out, whole)?,
        Entry::Rest => write!(out, "rest")?,
    }
    Ok(out)
}

/// The entry that the digits are says this, and is written as them.
fn check_told(rt: &impl Abort, alloc: Global, expected: &str, hex: &str) -> Result<(), Fail> {
    let bytes = bytes_of(alloc, hex)?;
    let entry = read_entry(alloc, &bytes, Seeded::new(1))?;
    let told = told_of(alloc, &entry)?;
    assert_eq!(rt; told.as_str(), expected);
    let written = write_entry(alloc, &entry)?;
    assert!(rt; written == bytes);
    Ok(())
}

#[test]
fn entries_are_read_and_written_as_told(rt: HostRuntime) -> Result<(), Fail> {
    for row in ENTRIES.lines() {
        let (_, row) = row.split_once(" | ").ok_or("a name")?;
        let (expected, hex) = row.split_once(" | ").ok_or("bytes")?;
        check_told(&rt, rt.alloc(), expected, hex)?;
    }
    Ok(())
}

#[test]
fn bytes_are_refused_as_told(rt: HostRuntime) -> Result<(), Fail> {
    for row in FAULTS.lines() {
        let (name, row) = row.split_once(" | ").ok_or("a name")?;
        let (hex, expected) = row.split_once(" | ").ok_or("bytes")?;
        let bytes = bytes_of(rt.alloc(), hex)?;
        let mut told = String::new(rt.alloc());
        match read_entry(rt.alloc(), &bytes, Seeded::new(1)) {
            Ok(_) => write!(told, "an entry")?,
            Err(fault) => write!(told, "{fault:?}")?,
        }
        assert_eq!(rt; told.as_str(), expected, "{name}");
    }
    Ok(())
}

/// Whether the fault is that of bytes which are missing at the end.
fn is_short(fault: EntryFault) -> bool {
    matches!(
        fault,
        EntryFault::Short
            | EntryFault::Piece(FrameFault::Short)
            | EntryFault::Piece(FrameFault::State(StateFault::Short))
    )
}

#[test]
fn a_beginning_is_short(rt: HostRuntime) -> Result<(), Fail> {
    for row in ENTRIES.lines() {
        let (_, hex) = row.rsplit_once(" | ").ok_or("bytes")?;
        let bytes = bytes_of(rt.alloc(), hex)?;
        for count in 0..bytes.len() {
            match read_entry(rt.alloc(), &bytes[..count], Seeded::new(1)) {
                Ok(_) => assert!(rt; false, "{count} of {hex}"),
                Err(fault) => assert!(rt; is_short(fault), "{count} of {hex}"),
            }
        }
    }
    Ok(())
}

/// Bytes that are read are written again as they are.
fn check_again(rt: &impl Abort, alloc: Global, bytes: &[u8]) -> Result<(), Fail> {
    let Ok(entry) = read_entry(alloc, bytes, Seeded::new(1)) else {
        return Ok(());
    };
    let again = write_entry(alloc, &entry)?;
    assert_eq!(rt; again.as_slice(), bytes);
    Ok(())
}

#[test]
fn a_changed_bit_is_a_fault_or_written_again(rt: HostRuntime) -> Result<(), Fail> {
    for row in ENTRIES.lines() {
        let (_, hex) = row.rsplit_once(" | ").ok_or("bytes")?;
        let bytes = bytes_of(rt.alloc(), hex)?;
        for place in 0..bytes.len() {
            for flip in [1, 2, 4, 8, 16, 32, 64, 128] {
                let mut changed = Vec::from_slice(rt.alloc(), &bytes)?;
                changed[place] ^= flip;
                check_again(&rt, rt.alloc(), &changed)?;
            }
        }
    }
    Ok(())
}

/// The bytes of each batch of a round.
fn written(alloc: Global, batches: &[Batch]) -> Result<Vec<Vec<u8>>, AllocError> {
    let mut out = Vec::new(alloc);
    for batch in batches {
        let bytes = batch.write(alloc)?;
        out.push(bytes)?;
    }
    Ok(out)
}

/// The round of some batches, between 1 and 64.
fn round_of(alloc: Global, batches: &[Vec<u8>]) -> Result<Vec<u8>, Fail> {
    if batches.is_empty() || batches.len() > 64 {
        return Err("a round".into());
    }
    Ok(write_round(alloc, batches)?)
}

#[test]
fn a_round_is_made_of_batches_that_are_written(rt: HostRuntime) -> Result<(), Fail> {
    for row in ENTRIES.lines() {
        let (name, hex) = row.rsplit_once(" | ").ok_or("bytes")?;
        let bytes = bytes_of(rt.alloc(), hex)?;
        if let Entry::Round(batches) = read_entry(rt.alloc(), &bytes, Seeded::new(1))? {
            let each = written(rt.alloc(), &batches)?;
            let round = round_of(rt.alloc(), &each)?;
            assert!(rt; round == bytes, "{name}");
        }
    }
    Ok(())
}

#[test]
fn a_batch_is_what_has_a_spelling_together(rt: HostRuntime) -> Result<(), Fail> {
    let none = Batch::new(rt.alloc(), Vec::new(rt.alloc()))?;
    assert!(rt; none.is_none());
    let bytes = bytes_of(rt.alloc(), "0b02000100000601710161")?;
    let ops = read_batch(rt.alloc(), &bytes)?;
    let batch = Batch::new(rt.alloc(), ops)?.ok_or("a batch")?;
    assert!(rt; batch.write(rt.alloc())? == bytes);
    let front = bytes.get(..5).ok_or("five bytes")?;
    let fault = Batch::read(rt.alloc(), front).err();
    assert!(rt; fault == Some(BatchFault::Short));
    Ok(())
}
