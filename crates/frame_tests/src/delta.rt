//! Frames of an independent codec, beginnings and changed bytes.

mod vectors;

use crate::hex::bytes_of;
use std::alloc::{AllocError, Global};
use std::fmt::Write;
use std::process::Abort;
use std::test::Fail;
use vectors::VECTORS;
use zq_delta::{OpFault, append_op, read_op, write_op};

// A Put of 3 on the member a of the key q, the first operation of site 0, in heap 0 of 2: in
// version 1 and in version 2.
const PUTS: [&str; 2] = [
    "010200000000000000000000000000000000000000000000000000000000000000000000000000000000000000000000000000000000000000000000000000000000000000000000000000000300000001710000000161",
    "020200000000000000000000000300000001710000000161",
];

/// What a frame is read as: the fault, or how many bytes the operation has and what it is then
/// written as.
fn told_of(alloc: Global, bytes: &[u8]) -> Result<String, AllocError> {
    let mut told = String::new(alloc);
    match read_op(alloc, bytes) {
        Ok((op, used)) => {
            write!(told, "{used} ")?;
            for byte in write_op(alloc, &op)?.as_slice() {
                write!(told, "{byte:02x}")?;
            }
        }
        Err(fault) => write!(told, "{fault:?}")?,
    }
    Ok(told)
}

#[test]
fn frames_are_read_as_told(rt: HostRuntime) -> Result<(), Fail> {
    for row in VECTORS.lines() {
        let (name, row) = row.split_once(" | ").ok_or("a name")?;
        let (hex, expected) = row.split_once(" | ").ok_or("bytes")?;
        let bytes = bytes_of(rt.alloc(), hex)?;
        let told = told_of(rt.alloc(), &bytes)?;
        assert_eq!(rt; told.as_str(), expected, "{name}");
    }
    Ok(())
}

#[test]
fn a_beginning_is_short(rt: HostRuntime) -> Result<(), Fail> {
    for put in PUTS {
        let bytes = bytes_of(rt.alloc(), put)?;
        for count in 0..bytes.len() {
            let fault = read_op(rt.alloc(), &bytes[..count]).err();
            assert_eq!(rt; fault, Some(OpFault::Short));
        }
    }
    Ok(())
}

/// An operation that is read is written behind what stands there, and read again as itself. In
/// version 2 it is written as the bytes that it was read from.
fn check_again(rt: &impl Abort, alloc: Global, bytes: &[u8]) -> Result<(), Fail> {
    let Ok((op, used)) = read_op(alloc, bytes) else {
        return Ok(());
    };
    let mut out = Vec::from_slice(alloc, b"q")?;
    append_op(&mut out, &op)?;
    let frame = out.as_slice().strip_prefix(b"q").ok_or("what stood there")?;
    let (again, length) = read_op(alloc, frame)?;
    assert_eq!(rt; length, frame.len());
    assert_eq!(rt; write_op(alloc, &again)?.as_slice(), frame);
    if bytes.starts_with(&[2]) {
        assert_eq!(rt; used, frame.len());
        assert!(rt; bytes.starts_with(frame));
    }
    Ok(())
}

#[test]
fn a_changed_byte_is_a_fault_or_written_again(rt: HostRuntime) -> Result<(), Fail> {
    for put in PUTS {
        let bytes = bytes_of(rt.alloc(), put)?;
        for place in 0..bytes.len() {
            for value in 0..=255u8 {
                let mut changed = Vec::from_slice(rt.alloc(), &bytes)?;
                changed[place] = value;
                check_again(&rt, rt.alloc(), &changed)?;
            }
        }
    }
    Ok(())
}
