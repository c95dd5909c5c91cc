//! Books of heap 0, and a site over books of which a growth is refused when it is made.
ghost use Rattle.std.specs.Prelude.{◌≡◌, IfErr, IfSome, All, length};
ghost use Rattle.zq_spread.specs.Calls.{heaps_of};
ghost use Rattle.zq_spread.specs.Makers.{AreOfHeaps};
ghost use Rattle.zq_spread.specs.Passes.{IsPassOf};
ghost use Rattle.zq_trials.specs.Books.{IsEven};

use crate::ended::{Ended, Tried, judge};
use crate::shards::{OURS, is_written, operations, put_by, written};
use std::alloc::Global;
use zq_dots::{Op, SiteNo};
use zq_journal::Book;
use zq_shard::Shard;
use zq_spread::{Pass, Site, SiteFault};

/// The book of heap 0 of two, in which nothing was done.
pub fn empty(alloc: Global) -> Book
    ensures { IsEven result }
{
    Book::new(alloc, Shard::new(alloc, 0, 2))
}

/// This book of heap 0, and one of an empty heap 1.
pub fn both(alloc: Global, even: Book) -> Option<Vec<Book>>
    requires { IsEven even }
    ensures heaps { IfSome result (λ books. AreOfHeaps books.items) }
    ensures count { IfSome result (λ books. length books.items ≡ 2) }
{
    let mut books = Vec::new(alloc);
    books.push(even).ok()?;
    let odd = Book::new(alloc, Shard::new(alloc, 1, 2));
    books.push(odd).ok()?;
    Some(books)
}

/// The book of heap 0 with the members of site 0, each with its record.
pub fn recorded(alloc: Global) -> Option<Book>
    ensures { IfSome result IsEven }
{
    let ops = operations(alloc, 0, &OURS)?;
    let mut book = empty(alloc);
    if take_all(alloc, &mut book, &ops) {
        Some(book)
    } else {
        None
    }
}

/// Takes these operations, and says whether each was taken.
fn take_all(alloc: Global, book: &mut Book, ops: &[Op]) -> bool
    requires { IsEven book.old }
    ensures { IsEven book.new }
{
    for op in ops {
        let stamp = book.stamp();
        if book.take(alloc, stamp, op).is_err() {
            return false;
        }
    }
    true
}

/// Whether a book has this state, so many records, and a state that its records give.
pub fn is_book(alloc: Global, book: &Book, bytes: &[u8], records: usize) -> Option<bool> {
    let state = is_written(alloc, book.shard(), bytes)?;
    let audit = book.audit(alloc).ok()?;
    Some(state && audit && book.tail_len() == records)
}

/// Site 0 over this book and an empty one, and its pass.
pub fn opened_over(alloc: Global, even: Book) -> Option<(Site, Vec<Pass>)>
    requires { IsEven even }
    ensures heaps { IfSome result (λ made. heaps_of made.0 ≡ 2) }
    ensures passes { IfSome result (λ made. All (IsPassOf made.0) made.1.items) }
{
    let books = both(alloc, even)?;
    match Site::of_books(alloc, SiteNo::new(0)?, books, 1) {
        Ok(made) => Some(made),
        Err(_) => None,
    }
}

/// Makes a site with three passes over these books, which come back where there is no memory.
fn settled(alloc: Global, number: SiteNo, books: Vec<Book>) -> Result<Tried, Vec<Book>>
    requires { AreOfHeaps books.items }
    ensures { IfErr result (λ back. back.items ≡ books.items) }
{
    match Site::of_books(alloc, number, books, 3) {
        Ok((_, passes)) => Ok(if passes.len() == 3 {
            Tried::Done
        } else {
            Tried::Other
        }),
        Err((SiteFault::NoMemory, back)) => Err(back),
        Err(_) => Ok(Tried::Other),
    }
}

/// A site over two books, which come back where there is no memory.
pub fn books(alloc: Global) -> Option<Ended> {
    let number = SiteNo::new(5)?;
    let bytes = written(alloc, &put_by(alloc, 0, &OURS)?)?;
    let given = both(alloc, recorded(alloc)?)?;
    match settled(alloc, number, given) {
        Ok(tried) => Some(judge(tried, true, true)),
        Err(back) => {
            let kept = is_book(alloc, back.first()?, &bytes, OURS.len())?;
            let again = settled(alloc, number, back);
            Some(judge(Tried::Refused, kept, matches!(again, Ok(Tried::Done))))
        }
    }
}
