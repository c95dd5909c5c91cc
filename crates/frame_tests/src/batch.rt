//! Operations by differences: their bytes by hand and by an independent codec, faults, beginnings
//! and changed bytes.

mod faults;
mod vectors;

use crate::hex::bytes_of;
use faults::FAULTS;
use std::alloc::{AllocError, Global};
use std::fmt::Write;
use std::process::Abort;
use std::test::Fail;
use vectors::VECTORS;
use zq_batch::{BatchFault, read_batch, write_batch};
use zq_delta::{append_op, read_op};
use zq_dots::Op;
use zq_links::recode;

// The most digits of a batch of which each byte is changed.
const MOST_CHANGED: usize = 32;

/// The operations whose frames stand one behind the other in these bytes.
fn ops_of(alloc: Global, bytes: &[u8]) -> Result<Vec<Op>, Fail> {
    let mut ops = Vec::new(alloc);
    let mut rest = bytes;
    for _ in 0..bytes.len() {
        if rest.is_empty() {
            break;
        }
        let (op, used) = read_op(alloc, rest)?;
        ops.push(op)?;
        rest = rest.get(used..).ok_or("the bytes of an operation")?;
    }
    Ok(ops)
}

/// The frames of operations, one behind the other.
fn frames_of(alloc: Global, ops: &[Op]) -> Result<Vec<u8>, AllocError> {
    let mut out = Vec::new(alloc);
    for op in ops {
        append_op(&mut out, op)?;
    }
    Ok(out)
}

#[test]
fn operations_are_written_as_told(rt: HostRuntime) -> Result<(), Fail> {
    for row in VECTORS.lines() {
        let (name, row) = row.split_once(" | ").ok_or("a name")?;
        let (hex, expected) = row.split_once(" | ").ok_or("operations")?;
        let frames = bytes_of(rt.alloc(), hex)?;
        let ops = ops_of(rt.alloc(), &frames)?;
        match write_batch(rt.alloc(), &ops)? {
            None => assert_eq!(rt; expected, "none", "{name}"),
            Some(batch) => {
                let told = bytes_of(rt.alloc(), expected)?;
                assert!(rt; batch == told, "{name}");
                let again = read_batch(rt.alloc(), &batch)?;
                assert!(rt; frames_of(rt.alloc(), &again)? == frames, "{name}");
            }
        }
    }
    Ok(())
}

#[test]
fn frames_are_recoded_as_told(rt: HostRuntime) -> Result<(), Fail> {
    for row in VECTORS.lines() {
        let (name, row) = row.split_once(" | ").ok_or("a name")?;
        let (hex, expected) = row.split_once(" | ").ok_or("operations")?;
        let frames = bytes_of(rt.alloc(), hex)?;
        let ops = ops_of(rt.alloc(), &frames)?;
        let count = u32::try_from(ops.len()).unwrap_or(u32::MAX);
        let mut frame = Vec::from_slice(rt.alloc(), &[2])?;
        frame.extend_from_slice(&count.to_be_bytes())?;
        frame.extend_from_slice(&frames)?;
        match recode(rt.alloc(), &frame)? {
            None => assert_eq!(rt; expected, "none", "{name}"),
            Some(batch) => {
                let told = bytes_of(rt.alloc(), expected)?;
                assert!(rt; batch == told, "{name}");
            }
        }
    }
    Ok(())
}

#[test]
fn bytes_are_refused_as_told(rt: HostRuntime) -> Result<(), Fail> {
    for row in FAULTS.lines() {
        let (name, row) = row.split_once(" | ").ok_or("a name")?;
        let (hex, expected) = row.split_once(" | ").ok_or("bytes")?;
        let bytes = bytes_of(rt.alloc(), hex)?;
        let mut told = String::new(rt.alloc());
        match read_batch(rt.alloc(), &bytes) {
            Ok(ops) => write!(told, "{} operations", ops.len())?,
            Err(fault) => write!(told, "{fault:?}")?,
        }
        assert_eq!(rt; told.as_str(), expected, "{name}");
    }
    Ok(())
}

#[test]
fn a_beginning_is_short(rt: HostRuntime) -> Result<(), Fail> {
    for row in VECTORS.lines() {
        let (_, hex) = row.rsplit_once(" | ").ok_or("bytes")?;
        if hex == "none" {
            continue;
        }
        let bytes = bytes_of(rt.alloc(), hex)?;
        for count in 0..bytes.len() {
            let fault = read_batch(rt.alloc(), &bytes[..count]).err();
            assert_eq!(rt; fault, Some(BatchFault::Short));
        }
    }
    Ok(())
}

/// Bytes that are read are written again as they are.
fn check_again(rt: &impl Abort, alloc: Global, bytes: &[u8]) -> Result<(), Fail> {
    let Ok(ops) = read_batch(alloc, bytes) else {
        return Ok(());
    };
    let again = write_batch(alloc, &ops)?.ok_or("a spelling")?;
    assert_eq!(rt; again.as_slice(), bytes);
    Ok(())
}

#[test]
fn a_changed_byte_is_a_fault_or_written_again(rt: HostRuntime) -> Result<(), Fail> {
    for row in VECTORS.lines() {
        let (_, hex) = row.rsplit_once(" | ").ok_or("bytes")?;
        if hex == "none" || hex.len() > MOST_CHANGED {
            continue;
        }
        let bytes = bytes_of(rt.alloc(), hex)?;
        for place in 0..bytes.len() {
            for value in 0..=255u8 {
                let mut changed = Vec::from_slice(rt.alloc(), &bytes)?;
                changed[place] = value;
                check_again(&rt, rt.alloc(), &changed)?;
            }
        }
    }
    Ok(())
}
