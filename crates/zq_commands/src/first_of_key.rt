//! The first pair of a key over the books.

ghost use Rattle.std.specs.Prelude.{IfSome, Some, [], length, option_map, slice_get, ◌<◌, ◌∷◌, ◌≡◌, ◌⊎◌};
ghost use Rattle.zq_commands.specs.FirstPairs.{lent_pair, top_in, top_pair};
ghost use Rattle.zq_commands.specs.Lending.{IsHomeAt, IsLending};
ghost use Rattle.zq_model.specs.Books.{Book};
ghost use Rattle.zq_model.specs.Meaning.{scored_cmp};
ghost use Rattle.zq_model.specs.Lent.{queues_of};
ghost use Rattle.zq_model.specs.Merging.{least};

use crate::books::Books;
use std::cmp::Ordering;
use zq_model::heading;

/// A pair and the place of its book.
#[derive(Clone, Copy, Debug)]
pub struct Top<'a> {
    pub place: usize,
    pub pair: (i128, &'a [u8]),
}

/// The first pair of a key, and `None` where it has no members. The place is that of the book in
/// whose heap the member lies.
pub fn top_of<'a, B: Books>(books: &'a B, key: &[u8]) -> Option<Top<'a>>
    requires { IsLending (B.lent books.now) }
    ensures top { option_map top_pair result ≡ top_in (B.lent books.now) key.now }
    ensures home { IfSome result
        (λ top. IsHomeAt key.now top.pair.1.now top.place (B.lent books.now)) }
{
    // For the proof: the first pair of the books from a place on is the least of that book's and
    // of those behind it.
    heading();
    let mut top = None;
    let mut place = books.len();
    while place > 0 {
        place -= 1;
        top = lesser(top_at(books, place, key), top);
    }
    top
}

/// The first pair of a key in the book at a place, with the place.
fn top_at<'a, B: Books>(books: &'a B, place: usize, key: &[u8]) -> Option<Top<'a>>
    requires lent { IsLending (B.lent books.now) }
    requires inside { place < length (B.lent books.now).books }
    ensures top { (book : Book) → slice_get (B.lent books.now).books place ≡ Some book →
        option_map top_pair result
        ≡ slice_get (queues_of (B.lent books.now).rule (book ∷ []) key.now) 0 }
    ensures home { IfSome result
        (λ top. IsHomeAt key.now top.pair.1.now top.place (B.lent books.now)) }
{
    let pair = books.top(place, key)?;
    Some(Top { place, pair })
}

/// The first of two pairs, where there are two.
fn lesser<'a>(first: Option<Top<'a>>, second: Option<Top<'a>>) -> Option<Top<'a>>
    ensures least { option_map top_pair result
        ≡ least (option_map top_pair first.entry) (option_map top_pair second.entry) }
    ensures either { (result ≡ first.entry) ⊎ (result ≡ second.entry) }
{
    match (first, second) {
        (Some(one), Some(other)) => {
            if order(&one.pair, &other.pair).is_lt() {
                Some(one)
            } else {
                Some(other)
            }
        }
        (None, second) => second,
        (first, None) => first,
    }
}

/// Where a pair stands to another.
pub fn order(pair: &(i128, &[u8]), other: &(i128, &[u8])) -> Ordering
    ensures { result ≡ scored_cmp (lent_pair pair.now) (lent_pair other.now) }
{
    match pair.0.cmp(&other.0) {
        Ordering::Equal => pair.1.cmp(other.1),
        unlike => unlike,
    }
}
