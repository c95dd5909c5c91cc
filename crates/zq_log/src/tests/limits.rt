//! How many lines of a kind there may be.

use crate::{Kinds, Limiter, kind_of};

#[test]
fn ten_lines_pass_in_ten_seconds(rt: HostRuntime) {
    // So many lines come at this time, of which so many pass, and the first one that does says how
    // many were held back before it.
    let rows: [(u64, u64, u64, u64); 8] = [
        (5, 4, 4, 0),
        (1_000, 9, 6, 0),
        (10_004, 1, 0, 0),
        (10_005, 6, 4, 4),
        (10_999, 1, 0, 0),
        (11_000, 7, 6, 3),
        (25_000, 11, 10, 1),
        (1_000_000, 1, 1, 1),
    ];
    let mut limiter = Limiter::new();
    for (now, come, pass, held) in rows {
        let mut answers = (0u64, 0u64);
        for _line in 0..come {
            if let Some(before) = limiter.admit(now) {
                answers = (answers.0.wrapping_add(1), answers.1.max(before));
            }
        }
        assert!(rt; answers == (pass, held));
    }
}

#[test]
fn a_kind_is_three_words(rt: HostRuntime) {
    let rows: [(&[u8], &[u8]); 8] = [
        (b"", b""),
        (b"site", b"site"),
        (b"site 3 protocol fault", b"site 3 protocol"),
        (b"site 3 refuses a peer at 10.0.0.1:4711", b"site 3 refuses"),
        (b"site 3 refuses site 1 at [::1]:7102", b"site 3 refuses"),
        (b"site 13 refuses", b"site 13 refuses"),
        (b"  a b", b"  a"),
        (
            b"aaaaaaaaaaaaaaaaaaaaaaaaaaaaaaaaaaaa b c",
            b"aaaaaaaaaaaaaaaaaaaaaaaaaaaaaaaa",
        ),
    ];
    for (message, kind) in rows {
        assert!(rt; kind_of(message) == kind);
    }
}

#[test]
fn each_kind_has_a_limit_of_its_own(rt: HostRuntime) {
    // So many lines of this kind at this time, and how many of them pass.
    let rows: [(&[u8], u64, u64, u64); 6] = [
        (b"site 0 refuses", 0, 10, 10),
        (b"site 0 refuses", 9_999, 5, 0),
        (b"site 1 refuses", 9_999, 11, 10),
        (b"site 0 lost", 9_999, 1, 1),
        (b"site 0 refuses", 10_000, 3, 3),
        (b"site 1 refuses", 10_000, 3, 0),
    ];
    let mut kinds = Kinds::new(rt.alloc());
    for (kind, now, come, pass) in rows {
        let mut passed = 0u64;
        for _line in 0..come {
            if kinds.admit(rt.alloc(), kind, now).is_some() {
                passed = passed.wrapping_add(1);
            }
        }
        assert!(rt; passed == pass);
    }
}
