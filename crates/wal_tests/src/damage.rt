//! Files that are torn or damaged: each length of one, and each byte of it as eight others.

mod vectors;

use crate::hex::bytes_of;
use crate::taken::told;
use std::process::Abort;
use std::test::Fail;
use vectors::{CHANGED, CUT, FILE};

/// What is read of the file, by how many records it begins with, and of damage.
fn answer(records: u8) -> &'static [u8] {
    match records {
        b'0' => b"",
        b'1' => b"one,",
        b'2' => b"one,two,",
        b'3' => b"one,two,\0\xfe\xff,",
        _ => b"x",
    }
}

#[test]
fn each_length_is_read_up_to_its_last_whole_record(rt: HostRuntime) -> Result<(), Fail> {
    let file = bytes_of(rt.alloc(), FILE)?;
    for (len, records) in CUT.bytes().enumerate() {
        let front = file.get(..len).ok_or("a length")?;
        for piece in [1, 7, 100] {
            let told = told(rt.alloc(), front, piece)?;
            assert!(rt; told.as_slice() == answer(records), "{len} bytes");
        }
    }
    Ok(())
}

#[test]
fn each_changed_byte_is_told(rt: HostRuntime) -> Result<(), Fail> {
    let mut file = bytes_of(rt.alloc(), FILE)?;
    for (at, row) in CHANGED.lines().enumerate() {
        let byte = *file.get(at).ok_or("a byte")?;
        let values = [0, 1, 2, 3, 254, 255, byte ^ 1, byte ^ 128];
        for (value, records) in values.iter().zip(row.bytes()) {
            *file.get_mut(at).ok_or("a byte")? = *value;
            let told = told(rt.alloc(), &file, 100)?;
            assert!(rt; told.as_slice() == answer(records), "byte {at} as {value}");
        }
        *file.get_mut(at).ok_or("a byte")? = byte;
    }
    Ok(())
}
