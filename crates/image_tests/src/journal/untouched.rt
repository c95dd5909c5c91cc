//! Whether a book says that keys were not changed since a vector.

use super::calls::{merge, vector_of};
use crate::deed::Deed;
use crate::rows::row_holds;
use std::alloc::{AllocError, Global};
use std::process::Abort;
use zq_dots::SiteNo;
use zq_journal::{Book, TailLimits};
use zq_shard::Shard;

/// What is done to a book, or what it says.
enum Step {
    /// A site makes a Put of a member of the key that is this byte.
    Make(u8, u8),
    /// The book merges a heap in which nothing was done.
    Merge,
    /// It is cut, and so many records are left.
    Cut(usize),
    /// Whether it says that none of these keys was changed since it had so many operations of the
    /// sites 0, 1 and 2.
    Untouched([u64; 3], &'static [&'static str], bool),
}

/// Of a book whose tail of five records is cut to two.
const STEPS: &[Step] = &[
    Step::Untouched([0, 0, 0], &["q"], true),
    Step::Make(0, b'q'),
    Step::Make(1, b'r'),
    Step::Untouched([0, 0, 0], &["q"], false),
    Step::Untouched([0, 0, 0], &["r"], false),
    Step::Untouched([0, 0, 0], &["s", ""], true),
    Step::Untouched([0, 0, 0], &[], true),
    // What the vector has is no change, wherever it stands.
    Step::Untouched([1, 0, 0], &["q"], true),
    Step::Untouched([1, 0, 0], &["q", "r"], false),
    Step::Untouched([0, 1, 0], &["r"], true),
    Step::Untouched([0, 1, 0], &["q"], false),
    Step::Untouched([1, 1, 0], &["q", "r"], true),
    Step::Make(0, b'q'),
    Step::Make(2, b's'),
    Step::Untouched([1, 1, 0], &["q"], false),
    Step::Untouched([1, 1, 0], &["r"], true),
    Step::Untouched([2, 1, 0], &["q", "r"], true),
    Step::Untouched([2, 1, 0], &["s"], false),
    // Past the records nothing is known, of whatever key.
    Step::Make(1, b'r'),
    Step::Cut(2),
    Step::Untouched([2, 1, 0], &["q"], true),
    Step::Untouched([2, 1, 0], &["r"], false),
    Step::Untouched([1, 1, 0], &["t"], false),
    Step::Untouched([2, 1, 1], &["s"], true),
    Step::Merge,
    Step::Untouched([2, 2, 1], &["q", "r", "s"], true),
    Step::Untouched([2, 1, 1], &["t"], false),
];

/// A site makes a Put of the member a of the key that is this byte: whether it could.
fn makes(book: &mut Book, alloc: Global, site: u8, key: u8) -> bool {
    let (Some(site), Some(act)) = (SiteNo::new(site), Deed::Put(1).act()) else {
        return false;
    };
    let stamp = book.stamp();
    book.make(alloc, site, stamp, &[key], b"a", act).is_ok()
}

fn copied(alloc: Global, keys: &[&str]) -> Result<Vec<Vec<u8>>, AllocError> {
    let mut words = Vec::new(alloc);
    for key in keys {
        words.push(Vec::from_slice(alloc, key.as_bytes())?)?;
    }
    Ok(words)
}

/// Whether the step could be done, or what it says holds.
fn follows(book: &mut Book, alloc: Global, step: &Step) -> bool {
    match *step {
        Step::Make(site, key) => makes(book, alloc, site, key),
        Step::Merge => merge(book, alloc, &Shard::new(alloc, 0, 1)).is_ok(),
        Step::Cut(left) => {
            book.cut();
            book.tail_len() == left
        }
        Step::Untouched(counters, keys, untouched) => {
            let (Some(vector), Ok(keys)) = (vector_of(counters), copied(alloc, keys)) else {
                return false;
            };
            book.is_untouched(&vector, &keys) == untouched
        }
    }
}

#[test]
fn a_book_says_which_keys_were_not_changed(rt: HostRuntime) {
    let alloc = rt.alloc();
    let mut book = Book::new(alloc, Shard::new(alloc, 0, 1));
    book.set_limits(TailLimits {
        long: 5,
        kept: 2,
        bytes: None,
    });
    for (row, step) in STEPS.iter().enumerate() {
        row_holds(&rt, "untouched", row, follows(&mut book, alloc, step));
    }
}
