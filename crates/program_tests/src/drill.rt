//! Drills, by what they write, and the requests of a caller.

use std::alloc::{AllocError, Global};
use std::sync::Wait;
use std::test::Fail;
use std::thread::Threads;
use zq_drill::{Draws, drill};

/// Drills, and says whether the sites were equal, and what was written.
fn drilled<R: Threads + Wait + Sync>(
    rt: &R,
    alloc: Global,
    seed: u64,
    rounds: u32,
) -> Result<(bool, Vec<u8>), Fail> {
    let mut text = Vec::new(alloc);
    match drill(rt, alloc, seed, rounds, &mut text) {
        Ok(equal) => Ok((equal, text)),
        Err(_) => Err(Fail::from("a fault")),
    }
}

#[test]
fn a_drill_of_no_rounds_has_no_members(rt: HostRuntime) -> Result<(), Fail> {
    let (equal, text) = drilled(&rt, rt.alloc(), 1, 0)?;
    assert!(rt; equal);
    let lines = b"site 0 size 0\nsite 1 size 0\nsite 2 size 0\nequal\n";
    assert_eq!(rt; text.as_slice(), lines.as_slice());
    Ok(())
}

#[test]
fn drills_end_equal(rt: HostRuntime) -> Result<(), Fail> {
    for seed in 1..6u64 {
        let (equal, text) = drilled(&rt, rt.alloc(), seed, 200)?;
        assert!(rt; equal, "seed {seed}");
        assert!(rt; text.ends_with(b"equal\n"), "seed {seed}");
    }
    Ok(())
}

/// The words, with a space after each.
fn spaced(alloc: Global, words: &[Vec<u8>]) -> Result<Vec<u8>, AllocError> {
    let mut text = Vec::new(alloc);
    for word in words {
        text.extend_from_slice(word)?;
        text.push(b' ')?;
    }
    Ok(text)
}

// The words were drawn by a `Pcg32` that was written apart from this one.
#[test]
fn a_caller_draws_its_requests(rt: HostRuntime) -> Result<(), Fail> {
    let rows: [&[u8]; 5] = [
        b"ZREM q m1 ",
        b"ZADD q -10 m0 ",
        b"ZPOPNEAR q ",
        b"ZADD q 53 m3 ",
        b"ZADD q -77 m7 ",
    ];
    let mut draws = Draws::new(1);
    for row in rows {
        let request = draws.next().request(rt.alloc())?;
        let text = spaced(rt.alloc(), request.words())?;
        assert_eq!(rt; text.as_slice(), row);
    }
    Ok(())
}
