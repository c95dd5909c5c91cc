//! The form of a line, and lines that wait.

use crate::{Backlog, line_of, push_pair, stamp_of};
use log::Level;
use std::test::Fail;

#[test]
fn a_time_has_its_text(rt: HostRuntime) {
    // The seconds are those of GNU date.
    let rows: [(u64, &[u8]); 18] = [
        (0, b"1970-01-01T00:00:00.000Z"),
        (999, b"1970-01-01T00:00:00.999Z"),
        (2_678_399_001, b"1970-01-31T23:59:59.001Z"),
        (5_097_599_999, b"1970-02-28T23:59:59.999Z"),
        (5_097_600_000, b"1970-03-01T00:00:00.000Z"),
        (68_212_800_010, b"1972-02-29T12:00:00.010Z"),
        (946_684_799_999, b"1999-12-31T23:59:59.999Z"),
        (951_782_400_000, b"2000-02-29T00:00:00.000Z"),
        (978_307_199_000, b"2000-12-31T23:59:59.000Z"),
        (1_677_628_799_000, b"2023-02-28T23:59:59.000Z"),
        (1_709_251_199_000, b"2024-02-29T23:59:59.000Z"),
        (1_709_251_200_000, b"2024-03-01T00:00:00.000Z"),
        (1_777_593_599_500, b"2026-04-30T23:59:59.500Z"),
        (1_795_893_635_123, b"2026-11-28T19:20:35.123Z"),
        (4_107_542_399_000, b"2100-02-28T23:59:59.000Z"),
        (4_107_542_400_000, b"2100-03-01T00:00:00.000Z"),
        (253_402_300_799_999, b"9999-12-31T23:59:59.999Z"),
        (u64::MAX, b"9999-12-31T23:59:59.999Z"),
    ];
    for (milli, text) in rows {
        assert!(rt; stamp_of(milli).as_slice() == text);
    }
}

#[test]
fn a_line_has_its_form(rt: HostRuntime) -> Result<(), Fail> {
    let rows: [(Level, &[u8], &[u8], u64, &[u8]); 5] = [
        (
            Level::Warn,
            b"site 3 protocol fault",
            b"",
            0,
            b"1970-01-01T00:00:00.000Z WARN site 3 protocol fault\n",
        ),
        (
            Level::Warn,
            b"site=3 link lost",
            b" peer=1 reason=\"it broke\"",
            12,
            b"1970-01-01T00:00:00.000Z WARN site=3 link lost peer=1 reason=\"it broke\" more=12\n",
        ),
        (
            Level::Info,
            b"",
            b"",
            0,
            b"1970-01-01T00:00:00.000Z INFO \n",
        ),
        (
            Level::Debug,
            b"two\nlines \x1b[2J\x7f\xc3\xa9",
            b"",
            1,
            b"1970-01-01T00:00:00.000Z DEBUG two?lines ?[2J?\xc3\xa9 more=1\n",
        ),
        (
            Level::Error,
            b"a",
            b"",
            u64::MAX,
            b"1970-01-01T00:00:00.000Z ERROR a more=18446744073709551615\n",
        ),
    ];
    for (level, message, pairs, more, line) in rows {
        let bytes = line_of(rt.alloc(), &stamp_of(0), level, message, pairs, more)?;
        assert!(rt; bytes.as_slice() == line);
    }
    Ok(())
}

#[test]
fn a_value_is_quoted_where_it_has_to_be(rt: HostRuntime) -> Result<(), Fail> {
    let rows: [(&[u8], &[u8]); 8] = [
        (b"7101", b" key=7101"),
        (b"[::1]:7101", b" key=[::1]:7101"),
        (b"", b" key=\"\""),
        (b"it broke", b" key=\"it broke\""),
        (b"a=b", b" key=\"a=b\""),
        (b"\\\"", b" key=\"\\\\\\\"\""),
        (b"a\n\x1f\x7f", b" key=\"a\\u000a\\u001f\\u007f\""),
        (b"\xc3\xa9", b" key=\xc3\xa9"),
    ];
    for (value, pair) in rows {
        let mut bytes = Vec::new(rt.alloc());
        push_pair(&mut bytes, b"key", value)?;
        assert!(rt; bytes.as_slice() == pair);
    }
    Ok(())
}

#[test]
fn a_long_line_is_cut(rt: HostRuntime) -> Result<(), Fail> {
    // A message of so many bytes behind a head of 30, how many bytes the line has, and how it ends.
    let rows: [(usize, usize, &[u8]); 4] = [
        (993, 1_024, b"aaaa\n"),
        (994, 1_025, b"aaaa\n"),
        (995, 1_025, b"a...\n"),
        (5_000, 1_025, b"a...\n"),
    ];
    let message = [b'a'; 5_000];
    for (size, length, end) in rows {
        let bytes = line_of(
            rt.alloc(),
            &stamp_of(0),
            Level::Warn,
            &message[..size],
            b"",
            0,
        )?;
        assert!(rt; bytes.len() == length && bytes.as_slice().ends_with(end));
    }
    Ok(())
}

/// A step of a backlog: so many lines come, or so many are taken; the last of them then says how
/// many were dropped before it, and has bytes or has none.
#[derive(Clone, Copy)]
enum Step {
    Put(u64),
    Take(u64, u64, bool),
}

#[test]
fn lines_that_find_no_room_are_counted(rt: HostRuntime) -> Result<(), Fail> {
    let steps = [
        Step::Put(1_024),
        Step::Take(1, 0, true),
        Step::Put(3),
        Step::Take(1, 0, true),
        Step::Put(1),
        Step::Put(5),
        Step::Take(1_023, 0, true),
        Step::Take(1, 2, true),
        Step::Take(1, 5, false),
        Step::Put(1),
        Step::Take(1, 0, true),
    ];
    let mut backlog = Backlog::new(rt.alloc());
    for step in steps {
        match step {
            Step::Put(count) => {
                for _line in 0..count {
                    backlog.put(Vec::from_slice(rt.alloc(), b"a\n")?);
                }
            }
            Step::Take(count, lost, has_bytes) => {
                let mut found = (u64::MAX, false);
                for _line in 0..count {
                    if let Some(entry) = backlog.take(rt.alloc()) {
                        found = (entry.lost, !entry.line.is_empty());
                    }
                }
                assert!(rt; found == (lost, has_bytes));
            }
        }
    }
    assert!(rt; backlog.take(rt.alloc()).is_none());
    Ok(())
}
