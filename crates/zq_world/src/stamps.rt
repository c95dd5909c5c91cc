//! The stamps and the numbers of some books.

ghost use Rattle.std.specs.Prelude.{◌≡◌, ◌≤◌};
ghost use Rattle.zq_semantics.specs.Run.{LAST_COUNT};
ghost use Rattle.zq_semantics.specs.Books as site;

use zq_journal::Book;

/// The greatest stamp of some books, and 0 for none.
pub(crate) fn greatest_stamp(books: &[Book]) -> u64
    ensures greatest { result ≡ site.greatest_stamp books.now }
    ensures bounded { result ≤ LAST_COUNT }
{
    let mut greatest = 0;
    let mut place = books.len();
    while place > 0 {
        place -= 1;
        greatest = books[place].stamp().max(greatest);
    }
    greatest
}

/// No number of the books is past its last value, as their types say.
pub(crate) fn look_at(books: &[Book])
    ensures { site.AreUnworn books.now }
{
    for book in books {
        // For the proof: what a book says of its bounds.
        let _vector = book.shard().vector();
        let _count = book.count();
    }
}
