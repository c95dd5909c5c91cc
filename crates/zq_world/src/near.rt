//! The heap that ZPOPNEAR pops.

ghost use Rattle.std.specs.Prelude.{List, Some, [], length, max, min, option_map, slice_get, ◌<◌, ◌∷◌, ◌≡◌, ◌≤◌};
ghost use Rattle.zq_commands.specs.FirstPairs.{lent_pair};
ghost use Rattle.zq_commands.specs.Lending.{IsLending};
ghost use Rattle.zq_commands.specs.VecBooks.{lending_of, rule_in};
ghost use Rattle.zq_model.specs.Books as history;
ghost use Rattle.zq_model.specs.Meaning.{scored_cmp};
ghost use Rattle.zq_model.specs.Lent.{queues_of};
ghost use Rattle.zq_model.specs.Merging.{least};
ghost use Rattle.zq_semantics.specs.Doing.{first_drawn, second_drawn};
ghost use Rattle.zq_world.specs.Near.{is_least, near_queue};

use std::cmp::Ordering;
use zq_commands::Books;
use zq_journal::Book;
use zq_model::heading;

/// The place of the book that ZPOPNEAR pops by two words: of the two that they draw, the one whose
/// first pair of the key is less, and where both have none, the one of all whose first pair is the
/// least.
pub(crate) fn nearest(books: &Vec<Book>, key: &[u8], w1: u64, w2: u64) -> usize
    requires lent { IsLending (lending_of books.now.items) }
    requires some { 2 ≤ length books.now.items }
    requires few { length books.now.items ≤ 16 }
    ensures inside { result < length books.now.items }
    ensures first { (low high near : history.Book) →
        slice_get books.now.items
        (min (first_drawn (length books.now.items) w1)
        (second_drawn (length books.now.items) w1 w2)) ≡ Some low →
        slice_get books.now.items
        (max (first_drawn (length books.now.items) w1)
        (second_drawn (length books.now.items) w1 w2)) ≡ Some high →
        slice_get books.now.items result ≡ Some near →
        slice_get (queues_of (rule_in books.now.items) (near ∷ []) key.now) 0
        ≡ slice_get (near_queue (rule_in books.now.items) low high books.now.items key.now) 0 }
{
    // For the proof: the first pair of two books is the lesser of theirs.
    heading();
    let heaps = books.as_slice().len() as u64;
    let first = w1 % heaps;
    let second = (first + 1 + w2 % (heaps - 1)) % heaps;
    let near = lesser(
        books,
        key,
        first.min(second) as usize,
        first.max(second) as usize,
    );
    if books.top(near, key).is_some() {
        near
    } else {
        least_of(books, key)
    }
}

/// Of two books the place of the one whose first pair of a key is less, and of the second where
/// neither has one.
fn lesser(books: &Vec<Book>, key: &[u8], one: usize, other: usize) -> usize
    requires lent { IsLending (lending_of books.now.items) }
    requires one { one < length books.now.items }
    requires other { other < length books.now.items }
    ensures inside { result < length books.now.items }
    ensures first { (first second near : history.Book) →
        slice_get books.now.items one ≡ Some first → slice_get books.now.items other ≡ Some second →
        slice_get books.now.items result ≡ Some near →
        slice_get (queues_of (rule_in books.now.items) (near ∷ []) key.now) 0
        ≡ least (slice_get (queues_of (rule_in books.now.items) (first ∷ []) key.now) 0)
        (slice_get (queues_of (rule_in books.now.items) (second ∷ []) key.now) 0) }
{
    if is_first(books.top(one, key), books.top(other, key)) {
        one
    } else {
        other
    }
}

/// Whether the first pair is there, and less than the second, if that is there.
fn is_first(first: Option<(i128, &[u8])>, second: Option<(i128, &[u8])>) -> bool
    ensures { result ≡ is_least (option_map lent_pair first.entry)
        (option_map lent_pair second.entry) }
{
    match (first, second) {
        (None, _) => false,
        (Some(_), None) => true,
        (Some(first), Some(second)) => order(&first, &second).is_lt(),
    }
}

/// Where a pair stands to another.
fn order(pair: &(i128, &[u8]), other: &(i128, &[u8])) -> Ordering
    ensures { result ≡ scored_cmp (lent_pair pair.now) (lent_pair other.now) }
{
    match pair.0.cmp(&other.0) {
        Ordering::Equal => pair.1.cmp(other.1),
        unlike => unlike,
    }
}

/// The place of the book whose first pair of a key is the least of all, and of the last where no
/// book has one.
fn least_of(books: &Vec<Book>, key: &[u8]) -> usize
    requires lent { IsLending (lending_of books.now.items) }
    requires some { 1 ≤ length books.now.items }
    ensures inside { result < length books.now.items }
    ensures first { (near : history.Book) → slice_get books.now.items result ≡ Some near →
        slice_get (queues_of (rule_in books.now.items) (near ∷ []) key.now) 0
        ≡ slice_get (queues_of (rule_in books.now.items) books.now.items key.now) 0 }
{
    // For the proof: the first pair of the books from a place on is the least of that book's and of
    // those behind it.
    heading();
    let mut place = books.as_slice().len() - 1;
    let mut near = place;
    while place > 0 {
        place -= 1;
        near = lesser(books, key, place, near);
    }
    near
}
