//! How a call begins with the books of a site.

ghost use Rattle.std.specs.Prelude.{IfSome, None, Some, map, slice_get, ◌≡◌, ◌≤◌, ℕ};
ghost use Rattle.zq_commands.specs.Beginning.{HasStamp, IsNextStamp, begun};
ghost use Rattle.zq_commands.specs.Lending.{IsDated};
ghost use Rattle.zq_commands.specs.VecBooks.{lending_of};
ghost use Rattle.zq_model.specs.Books.{Book as Books};
ghost use Rattle.zq_journal.specs.Books.{LAST_STAMP};

use crate::site_books::SiteBooks;
use zq_journal::{Book, LAST_COUNT};

impl SiteBooks {
    /// The stamp of the next call: the one after the greatest of the books', and `None` where that
    /// is the last.
    #[tactic(auto, unfolding(zq_journal::specs::Books::LAST_STAMP))]
    pub fn next_stamp(&self) -> Option<u64>
        ensures next { IfSome result (IsNextStamp self.now) }
        ensures worn { result ≡ None → HasStamp LAST_STAMP self.now }
    {
        let stamp = self.stamp();
        if stamp < LAST_COUNT {
            Some(stamp + 1)
        } else {
            None
        }
    }

    /// Begins a call of this stamp, which is no less than the books': cuts each tail to its limits,
    /// and raises each book's stamp to the call's. It takes no memory.
    pub fn begin(&mut self, stamp: u64)
        requires dated { IsDated stamp (lending_of self.old) }
        ensures begun { self.new ≡ map (begun stamp) self.old }
        ensures dated { IsDated stamp (lending_of self.new) }
    {
        begin_all(&mut self.books, stamp);
    }
}

/// Begins a call in each of these books.
fn begin_all(books: &mut [Book], stamp: u64)
    requires below { (place : ℕ) (book : Books) → slice_get books.old place ≡ Some book →
        book.stamp ≤ stamp }
    requires bounded { stamp ≤ LAST_STAMP }
    ensures { books.new ≡ map (begun stamp) books.old }
{
    for book in books.iter_mut() {
        begin_in(book, stamp);
    }
}

/// Begins a call in a book.
fn begin_in(book: &mut Book, stamp: u64)
    requires stamp { book.old.stamp ≤ stamp }
    requires bounded { stamp ≤ LAST_STAMP }
    ensures { book.new ≡ begun stamp book.old }
{
    book.cut();
    book.touch(stamp);
}
