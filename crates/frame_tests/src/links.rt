//! A table of words, and 65 frames held back.

use std::alloc::Global;
use std::test::Fail;
use zq_links::{Faulty, MOST_HELD};

/// Passes a frame of one byte, and gives the bytes of the frames that come out.
fn passed(link: &mut Faulty, alloc: Global, word: u32, byte: u8) -> Result<Vec<u8>, Fail> {
    let frame = Vec::from_slice(alloc, &[byte])?;
    let Ok(frames) = link.pass(alloc, word, frame) else {
        return Err(Fail::from("memory"));
    };
    let mut bytes = Vec::new(alloc);
    for frame in &frames {
        bytes.extend_from_slice(frame)?;
    }
    Ok(bytes)
}

// The word and the byte of each frame, and the bytes that come out.
const ROWS: [(u32, u8, &[u8]); 8] = [
    (2, b'a', b""),
    (2, b'b', b""),
    (3, b'c', b"ca"),
    (0, b'd', b""),
    (1, b'e', b"ee"),
    (4, b'f', b"f"),
    (11, b'g', b"gb"),
    (3, b'h', b"h"),
];

#[test]
fn a_link_loses_doubles_and_holds_back(rt: HostRuntime) -> Result<(), Fail> {
    let mut link = Faulty::new();
    for (word, byte, want) in ROWS {
        let found = passed(&mut link, rt.alloc(), word, byte)?;
        assert_eq!(rt; found.as_slice(), want, "after {byte}");
    }
    Ok(())
}

#[test]
fn the_oldest_is_lost_where_too_many_are_held(rt: HostRuntime) -> Result<(), Fail> {
    let mut link = Faulty::new();
    for byte in 0..=MOST_HELD as u8 {
        let found = passed(&mut link, rt.alloc(), 2, byte)?;
        assert!(rt; found.is_empty());
    }
    let found = passed(&mut link, rt.alloc(), 3, 100)?;
    assert_eq!(rt; found.as_slice(), [100, 1].as_slice());
    Ok(())
}
