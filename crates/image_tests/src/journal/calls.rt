//! Calls of one book, for the tests.

use crate::deed::Deed;
use std::alloc::Global;
use zq_dots::{Act, Op, SiteNo, Vector};
use zq_journal::{Book, MergeFault, Since, TakeFault};
use zq_shard::{MakeFault, Shard, Taken};

/// A heap in which site 0 has put x at 1 and y at 2.
pub(crate) fn two_members(alloc: Global) -> Option<Shard> {
    let mut shard = Shard::new(alloc, 0, 1);
    if add(&mut shard, alloc, b"x", Deed::Put(1)) && add(&mut shard, alloc, b"y", Deed::Put(2)) {
        Some(shard)
    } else {
        None
    }
}

/// Whether site 0 could act on a member of the key q.
fn add(shard: &mut Shard, alloc: Global, member: &[u8; 1], deed: Deed) -> bool {
    match (SiteNo::new(0), deed.act()) {
        (Some(site), Some(act)) => shard.make(alloc, site, b"q", member, act).is_ok(),
        _ => false,
    }
}

/// Makes the next operation of a site at the book's stamp, and copies it.
pub(crate) fn make(
    book: &mut Book,
    alloc: Global,
    site: SiteNo,
    member: u8,
    deed: Deed,
) -> Option<Op> {
    let act = deed.act()?;
    let stamp = book.stamp();
    book.make(alloc, site, stamp, b"q", &[member], act).ok()?;
    book.newest(alloc).ok()?
}

/// Hands an operation to a book, at the book's stamp.
pub(crate) fn take(book: &mut Book, alloc: Global, op: &Op) -> Result<Taken, TakeFault> {
    let stamp = book.stamp();
    book.take(alloc, stamp, op)
}

/// Hands operations to a book: whether it takes them.
pub(crate) fn takes_all(book: &mut Book, alloc: Global, ops: &[Op]) -> bool {
    for op in ops {
        if take(book, alloc, op).is_err() {
            return false;
        }
    }
    true
}

/// Merges a state into a book, at the book's stamp.
pub(crate) fn merge(book: &mut Book, alloc: Global, state: &Shard) -> Result<(), MergeFault> {
    let stamp = book.stamp();
    book.merge(alloc, stamp, state)
}

/// Whether a book refuses, as worn, to drop the member a of the key q.
pub(crate) fn is_worn_for(book: &mut Book, alloc: Global, site: SiteNo) -> bool {
    let stamp = book.stamp();
    book.make(alloc, site, stamp, b"q", b"a", Act::Drop) == Err(MakeFault::Worn)
}

/// Touches a book at a stamp from its own up to 9: whether it is one.
#[tactic(auto, unfolding(zq_journal::specs::Books::LAST_STAMP))]
pub(crate) fn touches(book: &mut Book, stamp: u64) -> bool {
    if stamp < book.stamp() || stamp > 9 {
        return false;
    }
    book.touch(stamp);
    true
}

/// Drops so many of the oldest records, where there are as many.
pub(crate) fn cuts(book: &mut Book, records: usize) -> bool {
    records <= book.tail_len() && book.advance(records).is_ok()
}

/// The vector of so many operations of the sites 0, 1 and 2, 9999 at most of each.
#[tactic(auto, unfolding(zq_model::specs::Sets::LAST))]
pub(crate) fn vector_of(counters: [u64; 3]) -> Option<Vector> {
    let mut vector = Vector::new();
    let [first, second, third] = counters;
    for (site, counter) in [(0, first), (1, second), (2, third)] {
        vector.set(SiteNo::new(site)?, counter.min(9999));
    }
    Some(vector)
}

/// What a peer is given that has so many operations of the sites 0, 1 and 2.
pub(crate) fn since(book: &Book, alloc: Global, counters: [u64; 3]) -> Option<Since> {
    book.since(alloc, &vector_of(counters)?).ok()
}

/// Whether such a peer is given operations on these members, in this order, or `TooOld`.
pub(crate) fn gives(
    book: &Book,
    alloc: Global,
    counters: [u64; 3],
    members: Option<&[u8]>,
) -> bool {
    match (since(book, alloc, counters), members) {
        (Some(Since::TooOld), None) => true,
        (Some(Since::Ops(ops)), Some(members)) => are_on(&ops, members),
        _ => false,
    }
}

/// Whether the operations are on these members of one byte, in this order.
fn are_on(ops: &[Op], members: &[u8]) -> bool {
    let mut same = ops.len() == members.len();
    for (op, member) in ops.iter().zip(members) {
        same = same && op.member() == [*member].as_slice();
    }
    same
}

/// Whether a peer that has the first operations of site 0 is given so many, or `TooOld`.
pub(crate) fn gives_number(book: &Book, alloc: Global, first: u64, count: Option<usize>) -> bool {
    match (since(book, alloc, [first, 0, 0]), count) {
        (Some(Since::TooOld), None) => true,
        (Some(Since::Ops(ops)), Some(count)) => ops.len() == count,
        _ => false,
    }
}

/// Whether a book has this stamp, this count and so many records.
pub(crate) fn shows(book: &Book, stamp: u64, count: u64, records: usize) -> bool {
    book.stamp() == stamp && book.count() == count && book.tail_len() == records
}

/// Whether a book passes its audit.
pub(crate) fn is_sound(book: &Book, alloc: Global) -> bool {
    matches!(book.audit(alloc), Ok(true))
}
