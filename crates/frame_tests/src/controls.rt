//! Control frames: their bytes, each fault at its place, cut ones and drawn ones.

mod drawn;

use crate::hex::bytes_of;
use drawn::drawn_control;
use rand_core::SeedableRng;
use rand_pcg::Pcg64;
use std::alloc::Global;
use std::process::Abort;
use std::test::Fail;
use zq_dots::{Rule, SiteNo, Vector};
use zq_links::{
    At, Behind, Control, Fetch, FrameFault, Resume, Routes, Spot, is_control, read_control,
    write_control,
};

// Sites 0 and 2 can be reached, site 63 is asked for, and site 1 is far.
const ROUTES: &str = "06000000000000000580000000000000000000000000000002";

// Heap 1 of 2, by the rule Low, is open: turn 9, echo 8 and window 1024, the same routes, and 255
// operations of site 3.
const AT: &str =
    "0702010101000000000000000900000000000000080000000000000400000000000000000580000000000000000000000000000002010300000000000000ff";

// Heap 0 of 2, and the first operation of site 63.
const BEHIND: &str = "080200013f0000000000000001";

// Heap 15 of 16.
const FETCH: &str = "09100f00";

// Heap 2 of 3, from where a stage stands: life 7, piece 258, key 1, member 3, and two operations of
// site 63.
const RESUME: &str =
    "0903020100000000000000070000010200000000000000010000000000000003013f0000000000000002";

const FRAMES: [&str; 5] = [ROUTES, AT, BEHIND, FETCH, RESUME];

const SHOWN: Routes = Routes {
    reach: 5,
    ask: 0x8000_0000_0000_0000,
    far: 2,
};

/// A vector that has operations of one site.
#[tactic(auto, unfolding(zq_model::specs::Sets::LAST))]
fn vector_of(site: u8, n: u8) -> Result<Vector, Fail> {
    let mut vector = Vector::new();
    vector.set(SiteNo::new(site).ok_or("a site")?, u64::from(n));
    Ok(vector)
}

/// The control frames, in the order of their bytes.
fn controls() -> Result<[Control; 5], Fail> {
    let at = At {
        heaps: 2,
        heap: 1,
        rule: Rule::Low,
        open: true,
        turn: 9,
        echo: 8,
        window: 1024,
        routes: SHOWN,
        vector: vector_of(3, 255)?,
    };
    let behind = Behind {
        heaps: 2,
        heap: 0,
        vector: vector_of(63, 1)?,
    };
    let fetch = Fetch {
        heaps: 16,
        heap: 15,
        resume: None,
    };
    let resume = Resume {
        life: 7,
        number: 258,
        next: Spot { key: 1, member: 3 },
        vector: vector_of(63, 2)?,
    };
    let resuming = Fetch {
        heaps: 3,
        heap: 2,
        resume: Some(resume),
    };
    Ok([
        Control::Routes(SHOWN),
        Control::At(at),
        Control::Behind(behind),
        Control::Fetch(fetch),
        Control::Fetch(resuming),
    ])
}

#[test]
fn control_frames_are_read_as_told(rt: HostRuntime) -> Result<(), Fail> {
    let controls = controls()?;
    for (hex, control) in FRAMES.iter().zip(controls.iter()) {
        let bytes = bytes_of(rt.alloc(), hex)?;
        assert!(rt; is_control(&bytes));
        assert_eq!(rt; read_control(&bytes), Ok(*control));
    }
    Ok(())
}

/// Whether the control frame that these bytes are is written as they are.
fn is_written_again(alloc: Global, bytes: &[u8]) -> Option<bool> {
    match read_control(bytes) {
        Ok(control) => Some(write_control(alloc, &control).ok()?.as_slice() == bytes),
        Err(_) => None,
    }
}

/// The fault of these bytes, and `None` where they are a control frame.
fn fault_in(bytes: &[u8]) -> Option<FrameFault> {
    match read_control(bytes) {
        Ok(_) => None,
        Err(fault) => Some(fault),
    }
}

#[test]
fn control_frames_are_written_as_told(rt: HostRuntime) -> Result<(), Fail> {
    for hex in FRAMES {
        let bytes = bytes_of(rt.alloc(), hex)?;
        assert_eq!(rt; is_written_again(rt.alloc(), &bytes), Some(true), "{hex}");
    }
    Ok(())
}

// A control frame, the place of a byte, another value there, and the place of the field that is
// then out of its range.
const FAULTS: [(&str, usize, u8, usize); 30] = [
    (AT, 1, 0, 1),
    (AT, 1, 17, 1),
    (AT, 1, 1, 2),
    (AT, 2, 2, 2),
    (AT, 3, 2, 3),
    (AT, 4, 2, 4),
    (AT, 4, 3, 4),
    (AT, 4, 0x81, 4),
    (AT, 53, 65, 53),
    (AT, 54, 64, 54),
    (AT, 55, 1, 55),
    (AT, 62, 0, 55),
    (BEHIND, 1, 0, 1),
    (BEHIND, 1, 17, 1),
    (BEHIND, 2, 2, 2),
    (BEHIND, 3, 65, 3),
    (BEHIND, 4, 64, 4),
    (BEHIND, 12, 0, 5),
    (FETCH, 1, 17, 1),
    (FETCH, 2, 16, 2),
    (FETCH, 3, 2, 3),
    (FETCH, 3, 255, 3),
    (RESUME, 1, 0, 1),
    (RESUME, 1, 17, 1),
    (RESUME, 2, 3, 2),
    (RESUME, 3, 2, 3),
    (RESUME, 32, 65, 32),
    (RESUME, 33, 64, 33),
    (RESUME, 34, 255, 34),
    (RESUME, 41, 0, 34),
];

#[test]
fn a_field_out_of_its_range_is_told_by_its_place(rt: HostRuntime) -> Result<(), Fail> {
    for (hex, place, value, field) in FAULTS {
        let mut bytes = bytes_of(rt.alloc(), hex)?;
        let byte = bytes.get_mut(place).ok_or("a byte")?;
        *byte = value;
        assert_eq!(rt;
            fault_in(&bytes),
            Some(FrameFault::Field(field)),
            "{hex} {place} {value}"
        );
    }
    Ok(())
}

// Bytes with more than one fault, or none that is a control frame's.
const OTHERS: [(&str, FrameFault); 11] = [
    ("", FrameFault::Short),
    ("00", FrameFault::Kind),
    ("050200030001000000000000000001", FrameFault::Kind),
    ("0a100f00", FrameFault::Kind),
    ("ff", FrameFault::Kind),
    ("0711100202", FrameFault::Field(1)),
    ("07100f02", FrameFault::Field(3)),
    ("09000001", FrameFault::Field(1)),
    ("09100f0200", FrameFault::Field(3)),
    ("09100f01", FrameFault::Short),
    ("09100f0100", FrameFault::Short),
];

#[test]
fn other_bytes_have_their_first_fault(rt: HostRuntime) -> Result<(), Fail> {
    for (hex, expected) in OTHERS {
        let bytes = bytes_of(rt.alloc(), hex)?;
        assert_eq!(rt; read_control(&bytes), Err(expected), "{hex}");
    }
    Ok(())
}

#[test]
fn only_kinds_6_to_9_are_control_frames(rt: HostRuntime) {
    for kind in 0..=255u8 {
        let expected = kind == 6 || kind == 7 || kind == 8 || kind == 9;
        assert_eq!(rt; is_control(&[kind]), expected, "{kind}");
        assert_eq!(rt; is_control(&[kind, 0]), expected, "{kind}");
    }
    assert!(rt; !is_control(&[]));
}

#[test]
fn a_beginning_is_short_and_a_byte_more_is_rest(rt: HostRuntime) -> Result<(), Fail> {
    for hex in FRAMES {
        let mut bytes = bytes_of(rt.alloc(), hex)?;
        for count in 0..bytes.len() {
            let found = read_control(&bytes[..count]);
            assert_eq!(rt; found, Err(FrameFault::Short), "{hex} {count}");
        }
        bytes.push(0)?;
        assert_eq!(rt; read_control(&bytes), Err(FrameFault::Rest), "{hex}");
    }
    Ok(())
}

#[test]
fn drawn_control_frames_are_read_again(rt: HostRuntime) -> Result<(), Fail> {
    let mut draws = Pcg64::seed_from_u64(1);
    for _ in 0..2000 {
        let control = drawn_control(&mut draws);
        let bytes = write_control(rt.alloc(), &control)?;
        assert!(rt; is_control(&bytes));
        assert_eq!(rt; read_control(&bytes), Ok(control));
    }
    Ok(())
}
