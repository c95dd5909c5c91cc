//! A book with a key of so many members that an ordered index is made of it, of which a growth is
//! refused when it is made, and when it is kept. No command is refused for it.
ghost use Rattle.std.specs.Prelude.{IfSome};
ghost use Rattle.zq_trials.specs.Books.{IsEven};

use crate::books::empty;
use crate::lines::Line;
use std::alloc::Global;
use zq_dots::{Act, Score, SiteNo};
use zq_journal::Book;
use zq_shard::MakeFault;

/// So many names of two bytes are tried. Of key q every second one lies in heap 0, 300 in all: more
/// than are read without an index.
const NAMES: u16 = 600;

/// What is asked, and what is answered. The members a, m and y, and the one whose name is too long
/// to lie in the index itself, are of heap 0 and not among those of two bytes. The first line makes
/// the index, the last ones read by it, or make it anew.
pub const LINES: [Line; 12] = [
    ("ZCOUNT q 1 100", ":100\r\n"),
    ("ZADD q 100 a", ":1\r\n"),
    ("ZADD q 200 a-long-name-of-a-member", ":1\r\n"),
    ("ZADD q 400 m", ":1\r\n"),
    ("ZINCRBY q 150 a", "$3\r\n250\r\n"),
    ("ZADD q 50 a-long-name-of-a-member", ":0\r\n"),
    ("ZADD q -5 y", ":1\r\n"),
    ("ZPOPMIN q", "*2\r\n$1\r\ny\r\n$2\r\n-5\r\n"),
    ("ZREM q m", ":1\r\n"),
    ("ZRANK q a-long-name-of-a-member", ":50\r\n"),
    (
        "ZRANGE q 251 251 WITHSCORES",
        "*2\r\n$1\r\na\r\n$3\r\n250\r\n",
    ),
    ("ZCOUNT q 1 100", ":101\r\n"),
];

/// The score of the next place of a book, from 1.
fn next_score(book: &Book) -> Option<Score> {
    let place = i64::try_from(book.count()).ok()?;
    Score::new(place.checked_add(1)?)
}

/// Puts the member of that name at the score of the next place, where it lies in the book's heap.
/// `None` where it had no memory.
fn put(alloc: Global, book: &mut Book, site: SiteNo, number: u16) -> Option<()>
    requires { IsEven book.old }
    ensures { IsEven book.new }
{
    let act = Act::Put(next_score(book)?);
    let (stamp, member) = (book.stamp(), number.to_be_bytes());
    match book.make(alloc, site, stamp, b"q", &member, act) {
        Ok(_) | Err(MakeFault::WrongHeap) => Some(()),
        Err(_) => None,
    }
}

/// Puts all members.
fn fill(alloc: Global, book: &mut Book) -> Option<()>
    requires { IsEven book.old }
    ensures { IsEven book.new }
{
    let site = SiteNo::new(0)?;
    for number in 0..NAMES {
        put(alloc, book, site, number)?;
    }
    Some(())
}

/// The book of heap 0 with its members.
pub fn filled(alloc: Global) -> Option<Book>
    ensures { IfSome result IsEven }
{
    let mut book = empty(alloc);
    fill(alloc, &mut book)?;
    Some(book)
}
