//! What a book hands on, what it then may cut off its tail, and how it cuts it to so many bytes.

use super::calls::{make, merge, vector_of};
use crate::deed::Deed;
use crate::rows::row_holds;
use std::alloc::Global;
use std::process::Abort;
use zq_dots::{Op, SiteNo};
use zq_journal::{Book, FirstSince, Since, TailLimits};
use zq_shard::Shard;

/// What is done to a book, or what it shows.
enum Step {
    /// A site makes so many Puts of the member a.
    Make(u8, usize),
    /// A site makes a Put of a member of so many bytes, 64 at most.
    MakeLong(u8, usize),
    /// The book merges a heap in which nothing was done.
    Merge,
    /// It is told that all but its newest records, so many, were handed on.
    Hand(usize),
    /// It is cut, and so many records are left.
    Cut(usize),
    /// It counts so many steps.
    Counts(u64),
    /// It knows, or does not, that all but its newest records, so many, were handed on.
    Knows(usize, bool),
    /// A log of so many operations of the sites 0, 1 and 2 is given at most so many: those of these
    /// sites and counters, or `TooOld`. And so many records there are from the oldest on that it
    /// lacks.
    Given([u64; 3], usize, Option<&'static [(u8, u64)]>, usize),
}

/// Steps of a book of these limits of which nothing was handed on.
struct Table {
    name: &'static str,
    limits: TailLimits,
    steps: &'static [Step],
}

const TABLES: &[Table] = &[
    Table {
        name: "a_cut_takes_what_was_handed_on",
        limits: TailLimits {
            long: 4,
            kept: 2,
            bytes: None,
        },
        steps: &[
            Step::Make(0, 5),
            Step::Cut(5),
            // Of five that are lacking three at once,
            Step::Given([0, 0, 0], 3, Some(&[(0, 1), (0, 2), (0, 3)]), 5),
            Step::Given([0, 0, 0], 0, Some(&[]), 5),
            // then two, and then none.
            Step::Given([3, 0, 0], 3, Some(&[(0, 4), (0, 5)]), 2),
            Step::Given([5, 0, 0], 3, Some(&[]), 0),
            Step::Cut(5),
            Step::Knows(2, false),
            Step::Hand(2),
            Step::Knows(2, true),
            Step::Knows(1, false),
            Step::Counts(6),
            Step::Cut(2),
            Step::Given([3, 0, 0], 3, Some(&[(0, 4), (0, 5)]), 2),
            Step::Given([2, 0, 0], 3, None, 2),
            // What is made after that was not handed on.
            Step::Make(0, 3),
            Step::Cut(5),
            Step::Hand(4),
            Step::Cut(4),
            Step::Knows(4, true),
            Step::Hand(0),
            Step::Cut(2),
            Step::Counts(11),
            // Nor was what a merge brought, after which the count goes on.
            Step::Merge,
            Step::Make(1, 4),
            Step::Cut(4),
            Step::Hand(1),
            Step::Cut(2),
            Step::Counts(17),
        ],
    },
    Table {
        name: "what_is_lacking_need_not_be_the_newest",
        limits: TailLimits {
            long: 3,
            kept: 0,
            bytes: None,
        },
        steps: &[
            Step::Make(0, 1),
            Step::Make(1, 1),
            Step::Make(0, 1),
            Step::Make(2, 1),
            Step::Given([2, 1, 1], 9, Some(&[]), 0),
            Step::Given([2, 0, 1], 9, Some(&[(1, 1)]), 3),
            Step::Given([1, 0, 1], 9, Some(&[(1, 1), (0, 2)]), 3),
            Step::Given([1, 0, 1], 1, Some(&[(1, 1)]), 3),
            Step::Given([0, 1, 1], 1, Some(&[(0, 1)]), 4),
            Step::Hand(3),
            Step::Cut(3),
            Step::Given([2, 0, 1], 9, Some(&[(1, 1)]), 3),
        ],
    },
    Table {
        name: "a_tail_has_so_many_bytes",
        limits: TailLimits {
            long: 99,
            kept: 99,
            bytes: Some(8),
        },
        steps: &[
            Step::Make(0, 1),
            Step::MakeLong(0, 5),
            Step::Hand(0),
            Step::Cut(2),
            // Nine bytes with the key's are one too many, and eight are not.
            Step::MakeLong(0, 2),
            Step::Hand(0),
            Step::Cut(1),
            Step::MakeLong(0, 4),
            Step::Hand(0),
            Step::Cut(2),
            Step::Make(0, 1),
            Step::Hand(2),
            Step::Cut(2),
            // A member that lies in memory of its own counts as well.
            Step::MakeLong(0, 64),
            Step::Cut(3),
            Step::Hand(1),
            Step::Cut(1),
            Step::Hand(0),
            Step::Cut(0),
            Step::MakeLong(0, 7),
            Step::Hand(0),
            Step::Cut(1),
            // After a merge there are none.
            Step::Merge,
            Step::Make(0, 4),
            Step::Hand(0),
            Step::Cut(4),
        ],
    },
];

/// Makes Puts of the member a of the key q: whether it could.
fn makes(book: &mut Book, alloc: Global, site: SiteNo, times: usize) -> bool {
    for _ in 0..times {
        if make(book, alloc, site, b'a', Deed::Put(1)).is_none() {
            return false;
        }
    }
    true
}

/// Makes a Put of a member of so many bytes, 64 at most: whether it could.
fn makes_long(book: &mut Book, alloc: Global, site: SiteNo, bytes: usize) -> bool {
    let Some(act) = Deed::Put(1).act() else {
        return false;
    };
    let member = [b'b'; 64];
    let stamp = book.stamp();
    book.make(alloc, site, stamp, b"q", &member[..bytes.min(64)], act)
        .is_ok()
}

/// Tells a book what was handed on: whether it could.
#[tactic(auto, unfolding(zq_journal::specs::Books::LAST_STAMP))]
fn hands_on(book: &mut Book, newest: usize) -> bool {
    if newest > book.tail_len() || book.count() > 9999 {
        return false;
    }
    let stamp = book.stamp();
    book.hand_on(stamp, newest);
    true
}

/// Whether a book knows that all but its newest records, so many, were handed on.
fn knows(book: &Book, newest: usize) -> bool {
    newest <= book.tail_len() && book.knows_handed(newest)
}

/// Whether the operations are those of these sites and counters.
fn are_of(ops: &[Op], dots: &[(u8, u64)]) -> bool {
    let mut same = ops.len() == dots.len();
    for (op, (site, n)) in ops.iter().zip(dots) {
        let dot = op.dot();
        same = same && dot.site.value() == *site && dot.n == *n;
    }
    same
}

/// Whether a log is given these, or `TooOld`, and the number of records.
fn gives(given: &FirstSince, dots: Option<&[(u8, u64)]>, newest: usize) -> bool {
    let same = match (&given.since, dots) {
        (Since::TooOld, None) => true,
        (Since::Ops(ops), Some(dots)) => are_of(ops, dots),
        _ => false,
    };
    same && given.newest == newest
}

/// Whether the step could be done, or what it says holds.
fn follows(book: &mut Book, alloc: Global, step: &Step) -> bool {
    match *step {
        Step::Make(site, times) => {
            SiteNo::new(site).is_some_and(|site| makes(book, alloc, site, times))
        }
        Step::MakeLong(site, bytes) => {
            SiteNo::new(site).is_some_and(|site| makes_long(book, alloc, site, bytes))
        }
        Step::Merge => merge(book, alloc, &Shard::new(alloc, 0, 1)).is_ok(),
        Step::Hand(newest) => hands_on(book, newest),
        Step::Cut(left) => {
            book.cut();
            book.tail_len() == left
        }
        _ => shows(book, alloc, step),
    }
}

/// Whether the book shows what the step says.
fn shows(book: &Book, alloc: Global, step: &Step) -> bool {
    match *step {
        Step::Counts(count) => book.count() == count,
        Step::Knows(newest, known) => knows(book, newest) == known,
        Step::Given(counters, most, dots, newest) => {
            let Some(vector) = vector_of(counters) else {
                return false;
            };
            match book.first_since(alloc, &vector, most) {
                Ok(given) => gives(&given, dots, newest),
                Err(_) => false,
            }
        }
        _ => false,
    }
}

/// A book of these limits of which nothing was handed on.
fn new_book(alloc: Global, limits: TailLimits) -> Book {
    let mut book = Book::new(alloc, Shard::new(alloc, 0, 1));
    book.set_limits(limits);
    book.set_handed(Some(0));
    book
}

/// A book follows the steps of a table.
fn follow(rt: &impl Abort, alloc: Global, table: &Table) {
    let mut book = new_book(alloc, table.limits);
    for (row, step) in table.steps.iter().enumerate() {
        row_holds(rt, table.name, row, follows(&mut book, alloc, step));
    }
}

#[test]
fn books_hand_on_by_the_tables(rt: HostRuntime) {
    for table in TABLES {
        follow(&rt, rt.alloc(), table);
    }
}
