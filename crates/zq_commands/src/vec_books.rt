//! The books of some heaps of a site in a list.

ghost use Rattle.std.specs.Prelude.{List, Some, length, map, slice_get, ◌<◌, ◌≡◌};
ghost use Rattle.zq_commands.specs.Lending.{IsLending};
ghost use Rattle.zq_commands.specs.VecBooks.{AreRecordedOn, lending_of, rule_in};
ghost use Rattle.zq_model.specs.Books.{Book as Books};
ghost use Rattle.zq_journal.specs.Books.{state_of};
ghost use Rattle.zq_model.specs.Sets.{IsIn};

use crate::books::Books;
use crate::indexing::MOST_SCANNED;
use crate::one_book::make_in;
use crate::stopped::Stopped;
use std::alloc::Global;
use zq_dots::{Act, SiteNo, heap_of};
use zq_journal::Book;
use zq_shard::Shard;

impl Books for Vec<Book> {
    ghost use Rattle.zq_commands.specs.RecordedBooks.{recorded_books_itself, recorded_books_through};

    ghost lent = { λ books. lending_of books.items };

    ghost keeps = { λ old new. AreRecordedOn old.items new.items };

    fn len(&self) -> usize {
        self.as_slice().len()
    }

    #[inline(always)]
    fn home(&self, key: &[u8], member: &[u8]) -> usize {
        match self.as_slice() {
            [first, _, ..] => place_of(self, heap_of(key, member, first.shard().heaps())),
            _ => 0,
        }
    }

    #[inline(always)]
    fn shard(&self, place: usize) -> &Shard {
        heap_at(self, place)
    }

    fn index(&mut self, alloc: Global, place: usize, key: &[u8]) {
        self[place].index(alloc, key, MOST_SCANNED);
    }

    fn make(
        &mut self,
        alloc: Global,
        place: usize,
        site: SiteNo,
        stamp: u64,
        key: &[u8],
        member: &[u8],
        act: Act,
    ) -> Result<bool, Stopped> {
        make_in(&mut self[place], alloc, site, stamp, key, member, act)
    }

    ghost keeps_itself = { λ books. recorded_books_itself books.items };

    ghost keeps_through = { λ x y z. recorded_books_through x.items y.items z.items };
}

/// The place of the book of a heap, which is one of these.
fn place_of(books: &[Book], heap: u8) -> usize
    requires { IsIn heap (map (λ book. book.heap) books.now) }
    ensures inside { result < length books.now }
    ensures heap { (book : Books) → slice_get books.now result ≡ Some book → book.heap ≡ heap }
{
    // Where all heaps of a site are there, each book stands at its heap's number, and nothing is
    // searched.
    let number = heap as usize;
    if number < books.len() && books[number].shard().heap() == heap {
        return number;
    }
    for (place, book) in books.iter().enumerate() {
        if book.shard().heap() == heap {
            return place;
        }
    }
    unreachable!()
}

/// The heap of the book at a place.
fn heap_at(books: &[Book], place: usize) -> &Shard
    requires lent { IsLending (lending_of books.now) }
    requires inside { place < length books.now }
    ensures { (book : Books) → slice_get books.now place ≡ Some book →
        result.now ≡ record (state_of book) { rule = rule_in books.now } }
{
    books[place].shard()
}
