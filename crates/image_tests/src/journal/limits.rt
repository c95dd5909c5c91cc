//! A long tail, last values, and what is of another heap.

use super::calls::{gives_number, is_sound, is_worn_for, merge, shows, take};
use crate::deed::Deed;
use crate::rows::row_holds;
use std::alloc::Global;
use zq_dots::{Act, Op, Rule, SiteNo};
use zq_journal::{Book, MergeFault, TailLimits, TakeFault};
use zq_posheap::Seeded;
use zq_shard::{Shard, Taken};

/// Puts the member a of the key q, and cuts the tail before as a site does: whether it could.
fn puts(book: &mut Book, alloc: Global, site: SiteNo, score: i64) -> bool {
    let Some(act) = Deed::Put(score).act() else {
        return false;
    };
    book.cut();
    let stamp = book.stamp();
    book.make(alloc, site, stamp, b"q", b"a", act).is_ok()
}

/// Does so this often, with rising scores.
fn puts_often(book: &mut Book, alloc: Global, times: i64) -> bool {
    let Some(site) = SiteNo::new(0) else {
        return false;
    };
    for time in 1..=times {
        if !puts(book, alloc, site, time) {
            return false;
        }
    }
    true
}

/// How many operations a peer has, and how many it is given then.
const GIVEN: [(u64, Option<usize>); 4] = [
    (0, None),
    (2047, None),
    (2048, Some(2049)),
    (4097, Some(0)),
];

/// Whether the tail of 4,097 Puts is cut, and nothing else.
fn is_cut(book: &Book, alloc: Global) -> bool {
    shows(book, 0, 4097, 2049)
        && book.shard().score(b"q", b"a") == Some(4097)
        && is_sound(book, alloc)
}

#[test]
fn a_long_tail_is_cut(rt: HostRuntime) {
    let mut book = Book::new(rt.alloc(), Shard::new(rt.alloc(), 0, 1));
    assert!(rt; puts_often(&mut book, rt.alloc(), 4097));
    assert!(rt; is_cut(&book, rt.alloc()));
    for (row, (first, count)) in GIVEN.iter().enumerate() {
        row_holds(
            &rt,
            "given",
            row,
            gives_number(&book, rt.alloc(), *first, *count),
        );
    }
}

/// From how many records on a tail is cut, and to how many; how many bytes it may have, and how
/// many of the first operations may be cut; how many Puts of two bytes each are made, and how many
/// records are left of them.
type Tail = (usize, usize, Option<u64>, Option<u64>, i64, usize);

const TAILS: [Tail; 9] = [
    // Two of four are left,
    (4, 2, None, None, 5, 3),
    (4, 2, None, None, 7, 3),
    // but what was not handed on stays.
    (4, 2, None, Some(1), 5, 4),
    (4, 2, None, Some(1), 6, 5),
    (1, 0, None, Some(0), 5, 5),
    // Two have at most five bytes.
    (9, 9, Some(5), None, 6, 3),
    (9, 9, Some(5), Some(3), 6, 3),
    (9, 9, Some(0), None, 3, 1),
    // No more are cut than there are.
    (0, 9, None, None, 3, 3),
];

/// Whether a book of these limits has so many records left.
fn is_left(alloc: Global, tail: &Tail) -> bool {
    let (long, kept, bytes, handed, puts, left) = *tail;
    let mut book = Book::new(alloc, Shard::new(alloc, 0, 1));
    book.set_limits(TailLimits { long, kept, bytes });
    book.set_handed(handed);
    puts_often(&mut book, alloc, puts) && book.tail_len() == left
}

#[test]
fn a_tail_is_cut_to_its_limits(rt: HostRuntime) {
    for (row, tail) in TAILS.iter().enumerate() {
        row_holds(&rt, "tails", row, is_left(rt.alloc(), tail));
    }
}

/// An operation of site 0 on the member a, which a fresh heap takes.
fn first_op(alloc: Global) -> Option<Op> {
    let site = SiteNo::new(0)?;
    let shard = Shard::new(alloc, 0, 1);
    shard.draft(alloc, site, b"q", b"a", Act::Drop).ok()
}

/// Whether a book refuses to merge a state with this fault.
fn refuses(book: &mut Book, alloc: Global, state: Shard, fault: MergeFault) -> bool {
    merge(book, alloc, &state) == Err(fault)
}

/// A book over this heap whose count is at its last value.
#[tactic(auto, unfolding(zq_journal::specs::Books::LAST_STAMP))]
fn counted_out(alloc: Global, shard: Shard) -> Book {
    Book::new_at(alloc, shard, 7, 4_611_686_018_427_387_904)
}

/// Whether such a book refuses, as worn, what is new: an operation, a merge, and one of its own.
fn is_worn(alloc: Global, op: &Op) -> bool {
    let mut book = counted_out(alloc, Shard::new(alloc, 0, 1));
    take(&mut book, alloc, op) == Err(TakeFault::Worn)
        && refuses(&mut book, alloc, Shard::new(alloc, 0, 1), MergeFault::Worn)
        && is_worn_for(&mut book, alloc, op.dot().site)
}

/// Whether such a book knows an operation that its heap has taken.
fn knows(alloc: Global, op: &Op) -> bool {
    let mut shard = Shard::new(alloc, 0, 1);
    let takes = shard.take(alloc, op) == Ok(Taken::New);
    let mut book = counted_out(alloc, shard);
    takes && take(&mut book, alloc, op) == Ok(Taken::Known)
}

#[test]
fn a_book_that_cannot_count_on_is_worn(rt: HostRuntime) {
    let op = first_op(rt.alloc()).expect(&rt, "an operation");
    assert!(rt; is_worn(rt.alloc(), &op));
    assert!(rt; knows(rt.alloc(), &op));
}

#[test]
fn a_book_refuses_what_is_of_another_heap(rt: HostRuntime) {
    let alloc = rt.alloc();
    let mut book = Book::new(alloc, Shard::new(alloc, 1, 2));
    let op = first_op(alloc).expect(&rt, "an operation");
    assert!(rt; take(&mut book, alloc, &op) == Err(TakeFault::WrongHeap));
    assert!(rt;
        refuses(
            &mut book,
            alloc,
            Shard::new(alloc, 0, 2),
            MergeFault::WrongHeap
        )
    );
}

#[test]
fn a_book_refuses_to_merge_what_goes_by_another_rule(rt: HostRuntime) {
    let alloc = rt.alloc();
    let mut book = Book::new(alloc, Shard::new(alloc, 0, 1));
    let state = Shard::new_ruled(alloc, 0, 1, Rule::Low, Seeded::new(1));
    assert!(rt; refuses(&mut book, alloc, state, MergeFault::WrongRule));
}
