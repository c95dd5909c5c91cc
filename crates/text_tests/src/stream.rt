//! Streams by their bytes.
use std::alloc::Global;
use std::test::Fail;
use zq_wire::{Reader, StreamFault, write_framed};

// The frames `ab`, none and `xyz`.
const STREAM: &[u8] = b"\x00\x00\x00\x02ab\x00\x00\x00\x00\x00\x00\x00\x03xyz";

/// What a reader hands out of a piece: each frame, and a comma behind it; after a fault its letter.
fn handed(reader: &mut Reader, alloc: Global, piece: &[u8], out: &mut Vec<u8>) -> Result<(), Fail> {
    let (frames, letter) = match reader.feed(alloc, piece) {
        Ok(frames) => (frames, None),
        Err(error) => (error.before, Some(letter_of(error.fault))),
    };
    for frame in &frames {
        out.extend_from_slice(frame)?;
        out.push(b',')?;
    }
    if let Some(letter) = letter {
        out.push(letter)?;
    }
    Ok(())
}

fn letter_of(fault: StreamFault) -> u8 {
    match fault {
        StreamFault::TooLong => b'L',
        StreamFault::NoMemory => b'M',
        StreamFault::Over => b'O',
    }
}

#[test]
fn frames_come_however_a_stream_is_cut(rt: HostRuntime) -> Result<(), Fail> {
    for at in 0..=STREAM.len() {
        let mut reader = Reader::new(rt.alloc(), 3);
        let mut out = Vec::new(rt.alloc());
        handed(&mut reader, rt.alloc(), &STREAM[..at], &mut out)?;
        handed(&mut reader, rt.alloc(), &STREAM[at..], &mut out)?;
        assert_eq!(rt; out.as_slice(), b"ab,,xyz,".as_slice(), "cut at {at}");
        assert!(rt; !reader.inside());
    }
    Ok(())
}

#[test]
fn frames_come_byte_by_byte(rt: HostRuntime) -> Result<(), Fail> {
    let mut reader = Reader::new(rt.alloc(), 3);
    let mut out = Vec::new(rt.alloc());
    for at in 0..STREAM.len() {
        handed(&mut reader, rt.alloc(), &STREAM[at..at + 1], &mut out)?;
    }
    assert_eq!(rt; out.as_slice(), b"ab,,xyz,".as_slice());
    Ok(())
}

// The most bytes of a frame, a piece, and what comes of it and of a second piece, which is a whole
// frame.
const FAULTS: [(u32, &[u8], &[u8]); 4] = [
    (1, STREAM, b"LO"),
    (2, STREAM, b"ab,,LO"),
    (0, b"\x00\x00\x00\x00\x01", b","),
    (16_777_216, b"\x01\x00\x00\x01", b"LO"),
];

#[test]
fn a_length_above_the_most_ends_the_stream(rt: HostRuntime) -> Result<(), Fail> {
    for (most, piece, expected) in FAULTS {
        let mut reader = Reader::new(rt.alloc(), most);
        let mut out = Vec::new(rt.alloc());
        handed(&mut reader, rt.alloc(), piece, &mut out)?;
        if out.last() == Some(&b'L') {
            handed(&mut reader, rt.alloc(), b"\x00\x00\x00\x00", &mut out)?;
        }
        assert_eq!(rt; out.as_slice(), expected, "most {most}");
    }
    Ok(())
}

#[test]
fn a_length_takes_no_memory(rt: HostRuntime) -> Result<(), Fail> {
    let mut reader = Reader::new(rt.alloc(), u32::MAX);
    let mut out = Vec::new(rt.alloc());
    handed(&mut reader, rt.alloc(), b"\xff\xff\xff\xffab", &mut out)?;
    assert_eq!(rt; out.as_slice(), b"".as_slice());
    assert!(rt; reader.inside());
    Ok(())
}

#[test]
fn frames_are_written_behind_their_length(rt: HostRuntime) -> Result<(), Fail> {
    let mut out = Vec::new(rt.alloc());
    write_framed(&mut out, b"ab")?;
    write_framed(&mut out, b"")?;
    write_framed(&mut out, b"xyz")?;
    assert_eq!(rt; out.as_slice(), STREAM);
    Ok(())
}
