//! A book of a state that a peer may send, in which a site's own counter is at its last value.
ghost use Rattle.std.specs.Prelude.{IfSome};
ghost use Rattle.zq_trials.specs.Books.{IsEven};

use crate::lines::Line;
use std::alloc::Global;
use zq_dots::Rule;
use zq_journal::Book;
use zq_merge::read_state;
use zq_posheap::Seeded;

/// A state of version 1: heap 0 of two, of which site 0 has made as many operations as it ever can;
/// the first of them put the member a of key q at 3.
const STATE: &str =
    "0102000000ffffffffffff00000000000000000000000000000000000000000000000000000000000000000000000000\
    000000000000000000000000000000000000000000000000000001000000017100000000000000010000000161010000\
    000000000000010000000000000003000000000000000000000000000000000000000000000000000000000000000000\
    000000000000000000000000000000000000000000000000000000000000000000000000000000000000000000000000\
    0000000000000000000000000000000000000000000000000000000000000000000000000000000000000000000000";

/// What is asked, and what is answered: b lies in the other heap.
pub const LINES: [Line; 4] = [
    ("ZADD q 1 b 2 a", "-ERR worn after 1\r\n"),
    ("ZPOPMIN q 2", "*2\r\n$1\r\nb\r\n$1\r\n1\r\n"),
    ("ZPOPMIN q", "-ERR worn after 0\r\n"),
    ("ZSCORE q a", "$1\r\n3\r\n"),
];

/// The book of that state.
pub fn worn_book(alloc: Global) -> Option<Book>
    ensures { IfSome result IsEven }
{
    let bytes = hex::decode(alloc, STATE).ok()?;
    let shard = read_state(alloc, &bytes, Seeded::new(0)).ok()?;
    if shard.heap() != 0 || shard.heaps() != 2 || shard.rule() != Rule::High {
        return None;
    }
    Some(Book::new(alloc, shard))
}
