//! Frames of an independent codec, beginnings and changed bytes.

pub mod vectors;

use crate::hex::bytes_of;
use std::alloc::{AllocError, Global};
use std::fmt::Write;
use std::process::Abort;
use std::test::Fail;
use vectors::VECTORS;
use zq_merge::{StateFault, read_state, write_state};
use zq_posheap::Seeded;

// The member a of the key q with a Put of 3, the first operation of site 0, in heap 0 of 2: in each
// version.
const STATES: [&str; 3] = [
    "0102000000000000000001000000000000000000000000000000000000000000000000000000000000000000000000000000000000000000000000000000000000000000000000000000010000000171000000000000000100000001610100000000000000000100000000000000030000000000000000000000000000000000000000000000000000000000000000000000000000000000000000000000000000000000000000000000000000000000000000000000000000000000000000000000000000000000000000000000000000000000000000000000000000000000000000000000000000000000000000",
    "02020001000000000000000001000000000000000100000001710000000000000001000000016101000000000000000001000000000000000300",
    "0302000001000000000000000001000000000000000100000001710000000000000001000000016101000000000000000001000000000000000300",
];

/// What a frame is read as: the fault, or what the state is then written as.
fn told_of(alloc: Global, bytes: &[u8]) -> Result<String, AllocError> {
    let mut told = String::new(alloc);
    match read_state(alloc, bytes, Seeded::new(1)) {
        Ok(shard) => {
            for byte in write_state(alloc, &shard)?.as_slice() {
                write!(told, "{byte:02x}")?;
            }
        }
        Err(fault) => write!(told, "{fault:?}")?,
    }
    Ok(told)
}

#[test]
fn frames_are_read_as_told(rt: HostRuntime) -> Result<(), Fail> {
    for row in VECTORS.lines() {
        let (name, row) = row.split_once(" | ").ok_or("a name")?;
        let (hex, expected) = row.split_once(" | ").ok_or("bytes")?;
        let bytes = bytes_of(rt.alloc(), hex)?;
        let told = told_of(rt.alloc(), &bytes)?;
        assert_eq!(rt; told.as_str(), expected, "{name}");
    }
    Ok(())
}

#[test]
fn a_beginning_is_short(rt: HostRuntime) -> Result<(), Fail> {
    for state in STATES {
        let bytes = bytes_of(rt.alloc(), state)?;
        for count in 0..bytes.len() {
            let fault = read_state(rt.alloc(), &bytes[..count], Seeded::new(1)).err();
            assert_eq!(rt; fault, Some(StateFault::Short));
        }
    }
    Ok(())
}

/// A state that is read is written and read again as itself. In version 3 it is written as the
/// bytes that it was read from.
fn check_again(rt: &impl Abort, alloc: Global, bytes: &[u8]) -> Result<(), Fail> {
    let Ok(shard) = read_state(alloc, bytes, Seeded::new(1)) else {
        return Ok(());
    };
    let frame = write_state(alloc, &shard)?;
    let again = read_state(alloc, &frame, Seeded::new(2))?;
    assert!(rt; again.same(&shard));
    if bytes.starts_with(&[3]) {
        assert_eq!(rt; frame.as_slice(), bytes);
    }
    Ok(())
}

/// Each place of a state with each value of a byte.
fn change_each_byte(rt: &impl Abort, alloc: Global, state: &str) -> Result<(), Fail> {
    let bytes = bytes_of(alloc, state)?;
    for place in 0..bytes.len() {
        for value in 0..=255u8 {
            let mut changed = Vec::from_slice(alloc, &bytes)?;
            changed[place] = value;
            check_again(rt, alloc, &changed)?;
        }
    }
    Ok(())
}

#[test]
fn a_changed_byte_of_version_one_is_a_fault_or_written_again(rt: HostRuntime) -> Result<(), Fail> {
    change_each_byte(&rt, rt.alloc(), STATES[0])
}

#[test]
fn a_changed_byte_of_version_two_is_a_fault_or_written_again(rt: HostRuntime) -> Result<(), Fail> {
    change_each_byte(&rt, rt.alloc(), STATES[1])
}

#[test]
fn a_changed_byte_of_version_three_is_a_fault_or_written_again(
    rt: HostRuntime,
) -> Result<(), Fail> {
    change_each_byte(&rt, rt.alloc(), STATES[2])
}
