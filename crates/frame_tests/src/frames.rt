//! Frames of an independent codec, and cut ones.
mod vectors;

use crate::hex::bytes_of;
use std::alloc::{AllocError, Global};
use std::fmt::Write;
use std::process::Abort;
use std::test::Fail;
use vectors::VECTORS;
use zq_delta::OpFault;
use zq_links::{FrameFault, read_frame, write_frame};
use zq_merge::StateFault;
use zq_posheap::Seeded;

// Site 3 has the first operation of site 0 in heap 0 of 2.
const HAVE: &str = "050200030001000000000000000001";

// A Put of 3 on the member a of the key q, the first operation of site 0 there.
const OPS: &str = "0200000001020200000000000000000000000300000001710000000161";

// The state that has it.
const STATE: &str =
    "030302000001000000000000000001000000000000000100000001710000000000000001000000016101000000000000000001000000000000000300";

fn hex_of(alloc: Global, bytes: &[u8]) -> Result<String, AllocError> {
    let mut hex = String::new(alloc);
    for byte in bytes {
        write!(hex, "{byte:02x}")?;
    }
    Ok(hex)
}

/// What bytes are read as: the fault, or what the frame is then written as.
fn told_of(alloc: Global, bytes: &[u8]) -> Result<String, AllocError> {
    match read_frame(alloc, bytes, Seeded::new(1)) {
        Ok(frame) => hex_of(alloc, &write_frame(alloc, &frame)?),
        Err(fault) => {
            let mut told = String::new(alloc);
            write!(told, "{fault:?}")?;
            Ok(told)
        }
    }
}

#[test]
fn frames_are_read_as_told(rt: HostRuntime) -> Result<(), Fail> {
    for row in VECTORS.lines() {
        let (name, row) = row.split_once(" | ").ok_or("a name")?;
        let (hex, expected) = row.split_once(" | ").ok_or("bytes")?;
        let bytes = bytes_of(rt.alloc(), hex)?;
        let told = told_of(rt.alloc(), &bytes)?;
        assert_eq!(rt; told.as_str(), expected, "{name}");
    }
    Ok(())
}

// What begins another frame, or nothing.
const FAULTS: [(&str, &str); 6] = [
    ("02ffffffff", "Op(0, Short)"),
    ("03", "State(Short)"),
    ("05020003000100000000000000000100", "Rest"),
    ("020000000000", "Rest"),
    ("00", "Kind"),
    ("06", "Kind"),
];

#[test]
fn other_bytes_have_their_first_fault(rt: HostRuntime) -> Result<(), Fail> {
    for (hex, expected) in FAULTS {
        let bytes = bytes_of(rt.alloc(), hex)?;
        let told = told_of(rt.alloc(), &bytes)?;
        assert_eq!(rt; told.as_str(), expected);
    }
    Ok(())
}

// Each frame, where the operation or the state inside begins, and what then is too short.
const BEGINNINGS: [(&str, usize, FrameFault); 3] = [
    (HAVE, 15, FrameFault::Short),
    (OPS, 5, FrameFault::Op(0, OpFault::Short)),
    (STATE, 1, FrameFault::State(StateFault::Short)),
];

fn check_beginnings(
    rt: &impl Abort,
    alloc: Global,
    frame: &[u8],
    inside: usize,
    short: FrameFault,
) -> Result<(), Fail> {
    for count in 0..frame.len() {
        let fault = read_frame(alloc, &frame[..count], Seeded::new(1)).err();
        let expected = if count < inside {
            FrameFault::Short
        } else {
            short
        };
        assert_eq!(rt; fault, Some(expected));
    }
    Ok(())
}

#[test]
fn a_beginning_is_short(rt: HostRuntime) -> Result<(), Fail> {
    for (hex, inside, short) in BEGINNINGS {
        let frame = bytes_of(rt.alloc(), hex)?;
        check_beginnings(&rt, rt.alloc(), &frame, inside, short)?;
    }
    Ok(())
}
