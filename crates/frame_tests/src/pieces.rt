//! Pieces of heaps: their bytes by hand, each fault, beginnings, changed bytes and drawn ones.

use crate::hex::bytes_of;
use crate::merge::vectors::VECTORS;
use rand_core::{Rng, SeedableRng};
use rand_pcg::Pcg64;
use std::alloc::{AllocError, Global};
use std::process::Abort;
use std::test::Fail;
use zq_links::{FrameFault, Spot, is_piece, read_piece, write_piece};
use zq_merge::{StateFault, write_state};
use zq_posheap::Seeded;

/// How many bytes stand before the state.
const FRONT: usize = 29;

/// A piece: what stands before the state, the state, and what they say.
#[derive(Clone, Copy)]
struct Told {
    front: &'static str,
    state: &'static str,
    life: u64,
    number: u32,
    next: Spot,
}

// A member of heap 0 of 2: a of the key q with a Put of 3, the first operation of site 0.
const MEMBER: &str =
    "0302000001000000000000000001000000000000000100000001710000000000000001000000016101000000000000000001000000000000000300";

// The piece that has it: life 7, piece 258, key 1, member 3.
const MIDDLE: &str = "0a00000000000000070000010200000000000000010000000000000003";

const TOLD: [Told; 3] = [
    Told {
        front: MIDDLE,
        state: MEMBER,
        life: 7,
        number: 258,
        next: Spot { key: 1, member: 3 },
    },
    // The first piece of heap 15 of 16, by the rule Low: no member, and 2 operations of site 63.
    Told {
        front: "0a0000000000000000000000000000000000000010ffffffffffffffff",
        state: "03100f01013f00000000000000020000000000000000",
        life: 0,
        number: 0,
        next: Spot {
            key: 16,
            member: 0xffff_ffff_ffff_ffff,
        },
    },
    // The last piece of a heap in which nothing was done.
    Told {
        front: "0affffffffffffffffffffffff00000000000000000000000000000000",
        state: "03010000000000000000000000",
        life: 0xffff_ffff_ffff_ffff,
        number: 0xffff_ffff,
        next: Spot { key: 0, member: 0 },
    },
];

/// The bytes that both are, one behind the other.
fn joined(alloc: Global, front: &str, state: &str) -> Result<Vec<u8>, Fail> {
    let mut bytes = bytes_of(alloc, front)?;
    let rest = bytes_of(alloc, state)?;
    bytes.extend_from_slice(&rest)?;
    Ok(bytes)
}

/// A piece says what was told of it, and its state is written as these bytes.
fn check_told(rt: &impl Abort, alloc: Global, told: &Told) -> Result<(), Fail> {
    let bytes = joined(alloc, told.front, told.state)?;
    assert!(rt; is_piece(&bytes));
    let piece = read_piece(alloc, &bytes, Seeded::new(1))?;
    assert!(rt; piece.life == told.life && piece.number == told.number);
    assert!(rt; piece.next == told.next);
    let state = write_state(alloc, &piece.part)?;
    let expected = bytes_of(alloc, told.state)?;
    assert!(rt; state == expected);
    let written = write_piece(alloc, &piece)?;
    assert!(rt; written == bytes);
    Ok(())
}

#[test]
fn pieces_are_read_and_written_as_told(rt: HostRuntime) -> Result<(), Fail> {
    for told in TOLD {
        check_told(&rt, rt.alloc(), &told)?;
    }
    Ok(())
}

// Bytes that are no piece before a state begins in them.
const OTHERS: [(&str, FrameFault); 8] = [
    ("", FrameFault::Short),
    ("00", FrameFault::Kind),
    ("03", FrameFault::Kind),
    ("09", FrameFault::Kind),
    ("0b", FrameFault::Kind),
    ("0a", FrameFault::Short),
    (
        "0b0000000000000007000001020000000000000001000000000000000300",
        FrameFault::Kind,
    ),
    (
        "0a0000000000000007000001020000000000000001000000000000",
        FrameFault::Short,
    ),
];

#[test]
fn other_bytes_have_their_first_fault(rt: HostRuntime) -> Result<(), Fail> {
    for (hex, expected) in OTHERS {
        let bytes = bytes_of(rt.alloc(), hex)?;
        let fault = read_piece(rt.alloc(), &bytes, Seeded::new(1)).err();
        assert_eq!(rt; fault, Some(expected), "{hex}");
    }
    Ok(())
}

// Bytes behind the place, and the fault of the state that they are not.
const STATES: [(&str, StateFault); 18] = [
    ("", StateFault::Short),
    ("00", StateFault::Version),
    ("01", StateFault::Version),
    ("02", StateFault::Version),
    ("04", StateFault::Version),
    (
        "02020001000000000000000001000000000000000100000001710000000000000001000000016101000000000000000001000000000000000300",
        StateFault::Version,
    ),
    ("03", StateFault::Short),
    ("0300", StateFault::Field(1)),
    ("0311", StateFault::Field(1)),
    ("030202", StateFault::Field(2)),
    ("03020002", StateFault::Field(3)),
    ("0302000041", StateFault::Field(4)),
    ("030200000140", StateFault::Field(5)),
    ("03010000000000000000000001", StateFault::Short),
    ("0301000000000000000000000000", StateFault::Rest),
    (
        "0302010001000000000000000001000000000000000100000001710000000000000001000000016101000000000000000001000000000000000300",
        StateFault::WrongHeap,
    ),
    (
        "0302000001000000000000000001000000000000000100000001710000000000000001000000016101000000000000000002000000000000000300",
        StateFault::Dot,
    ),
    (
        "030200000100000000000000000100000000000000010000000171000000000000000100000001610100000000000000000100000000000000030000",
        StateFault::Rest,
    ),
];

#[test]
fn the_state_has_its_first_fault(rt: HostRuntime) -> Result<(), Fail> {
    for (hex, expected) in STATES {
        let bytes = joined(rt.alloc(), MIDDLE, hex)?;
        let fault = read_piece(rt.alloc(), &bytes, Seeded::new(1)).err();
        assert_eq!(rt; fault, Some(FrameFault::State(expected)), "{hex}");
    }
    Ok(())
}

#[test]
fn only_kind_10_is_a_piece(rt: HostRuntime) {
    for kind in 0..=255u8 {
        assert_eq!(rt; is_piece(&[kind]), kind == 10, "{kind}");
        assert_eq!(rt; is_piece(&[kind, 0]), kind == 10, "{kind}");
    }
    assert!(rt; !is_piece(&[]));
}

#[test]
fn a_beginning_is_short(rt: HostRuntime) -> Result<(), Fail> {
    let bytes = joined(rt.alloc(), MIDDLE, MEMBER)?;
    for count in 0..bytes.len() {
        let fault = read_piece(rt.alloc(), &bytes[..count], Seeded::new(1)).err();
        let expected = if count < FRONT {
            FrameFault::Short
        } else {
            FrameFault::State(StateFault::Short)
        };
        assert_eq!(rt; fault, Some(expected), "{count}");
    }
    Ok(())
}

/// Bytes that are read are written again as they are.
fn check_again(rt: &impl Abort, alloc: Global, bytes: &[u8]) -> Result<(), Fail> {
    let Ok(piece) = read_piece(alloc, bytes, Seeded::new(1)) else {
        return Ok(());
    };
    let again = write_piece(alloc, &piece)?;
    assert_eq!(rt; again.as_slice(), bytes);
    Ok(())
}

#[test]
fn a_changed_byte_is_a_fault_or_written_again(rt: HostRuntime) -> Result<(), Fail> {
    let bytes = joined(rt.alloc(), MIDDLE, MEMBER)?;
    for place in 0..bytes.len() {
        for value in 0..=255u8 {
            let mut changed = Vec::from_slice(rt.alloc(), &bytes)?;
            changed[place] = value;
            check_again(&rt, rt.alloc(), &changed)?;
        }
    }
    Ok(())
}

/// The bytes of a piece of this state.
fn spelled(
    alloc: Global,
    life: u64,
    number: u32,
    next: Spot,
    state: &[u8],
) -> Result<Vec<u8>, AllocError> {
    let mut bytes = Vec::from_slice(alloc, &[10])?;
    bytes.extend_from_slice(&life.to_be_bytes())?;
    bytes.extend_from_slice(&number.to_be_bytes())?;
    bytes.extend_from_slice(&next.key.to_be_bytes())?;
    bytes.extend_from_slice(&next.member.to_be_bytes())?;
    bytes.extend_from_slice(state)?;
    Ok(bytes)
}

/// A piece of this state, with all else drawn, is read as what its bytes were made of, and written
/// as these.
fn check_drawn(
    rt: &impl Abort,
    alloc: Global,
    state: &[u8],
    draws: &mut Pcg64,
) -> Result<(), Fail> {
    let life = draws.next_u64();
    let number = draws.next_u32();
    let next = Spot {
        key: draws.next_u64(),
        member: draws.next_u64(),
    };
    let bytes = spelled(alloc, life, number, next, state)?;
    let piece = read_piece(alloc, &bytes, Seeded::new(1))?;
    assert!(rt; piece.life == life && piece.number == number && piece.next == next);
    let part = write_state(alloc, &piece.part)?;
    assert!(rt; part.as_slice() == state);
    let written = write_piece(alloc, &piece)?;
    assert!(rt; written == bytes);
    Ok(())
}

// The states are those of an independent codec.
#[test]
fn drawn_pieces_are_read_and_written_again(rt: HostRuntime) -> Result<(), Fail> {
    let mut draws = Pcg64::seed_from_u64(1);
    for row in VECTORS.lines() {
        let (_, state) = row.rsplit_once(" | ").ok_or("bytes")?;
        if state.starts_with("03") {
            let bytes = bytes_of(rt.alloc(), state)?;
            for _ in 0..20 {
                check_drawn(&rt, rt.alloc(), &bytes, &mut draws)?;
            }
        }
    }
    Ok(())
}
