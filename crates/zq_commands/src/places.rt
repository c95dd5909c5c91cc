//! How many pairs of a book stand ahead of those that are read.

ghost use Rattle.std.specs.Prelude.{Some, [], count_by, length, not, option_map, slice_get, ℤ, ◌∷◌, ◌<◌, ◌≡◌};
ghost use Rattle.zq_commands.specs.FirstPairs.{lent_pair};
ghost use Rattle.zq_commands.specs.Lending.{IsLending};
ghost use Rattle.zq_commands.specs.Sections.{is_entered};
ghost use Rattle.zq_commands.specs.Starts.{is_left, is_reached};
ghost use Rattle.zq_commands.specs.Weaving.{goes_before};
ghost use Rattle.zq_model.specs.Books.{Book};
ghost use Rattle.zq_model.specs.Lent.{queues_of};
ghost use Rattle.zq_semantics.specs.Ranges.{is_above, is_below};

use crate::books::Books;
use crate::range_section::{HIGHEST, LOWEST, Section};
use zq_words::{Bound, Limit};

/// How many pairs of the book stand ahead of those within the bounds, from the end that is read
/// first. A bound that is none costs no count.
pub fn count_ahead<B: Books>(
    books: &B,
    place: usize,
    key: &[u8],
    is_turned: bool,
    section: &Section,
) -> usize
    requires lent { IsLending (B.lent books.now) }
    requires inside { place < length (B.lent books.now).books }
    ensures { (book : Book) → slice_get (B.lent books.now).books place ≡ Some book →
        result ≡ count_by (λ pair. not (is_entered is_turned section.now.min section.now.max pair))
        (queues_of (B.lent books.now).rule (book ∷ []) key.now) }
{
    if is_turned {
        match section.max.limit {
            Limit::Highest => 0,
            _ => books.count_within(place, key, &beyond(&section.max), &HIGHEST),
        }
    } else {
        match section.min.limit {
            Limit::Lowest => 0,
            _ => books.count_within(place, key, &LOWEST, &beyond(&section.min)),
        }
    }
}

/// The place of the first pair of the book that is past the bound and does not go before the one
/// that reading starts at, which need not stand there.
pub fn first_place<B: Books>(
    books: &B,
    place: usize,
    key: &[u8],
    is_turned: bool,
    section: &Section,
    first: Option<(i128, &[u8])>,
) -> usize
    requires lent { IsLending (B.lent books.now) }
    requires inside { place < length (B.lent books.now).books }
    ensures { (book : Book) → slice_get (B.lent books.now).books place ≡ Some book →
        result ≡ count_by (λ pair.
        not (is_reached is_turned (option_map lent_pair first.entry) section.now.min
        section.now.max pair)) (queues_of (B.lent books.now).rule (book ∷ []) key.now) }
{
    let ahead = count_ahead(books, place, key, is_turned, section);
    let Some(pair) = first else {
        return ahead;
    };
    ahead.max(count_to(books, place, key, is_turned, &pair))
}

/// How many pairs of the book past the bound go before the one that reading starts at.
pub fn count_left<B: Books>(
    books: &B,
    place: usize,
    key: &[u8],
    is_turned: bool,
    section: &Section,
    first: Option<(i128, &[u8])>,
) -> usize
    requires lent { IsLending (B.lent books.now) }
    requires inside { place < length (B.lent books.now).books }
    ensures { (book : Book) → slice_get (B.lent books.now).books place ≡ Some book →
        result ≡ count_by (is_left is_turned
        (option_map lent_pair first.entry) section.now.min section.now.max)
        (queues_of (B.lent books.now).rule (book ∷ []) key.now) }
{
    let Some(pair) = first else {
        return 0;
    };
    let before = count_to(books, place, key, is_turned, &pair);
    before.saturating_sub(count_ahead(books, place, key, is_turned, section))
}

/// How many pairs of the book go before this one, or after it where they are turned round.
fn count_to<B: Books>(
    books: &B,
    place: usize,
    key: &[u8],
    is_turned: bool,
    pair: &(i128, &[u8]),
) -> usize
    requires lent { IsLending (B.lent books.now) }
    requires inside { place < length (B.lent books.now).books }
    ensures { (book : Book) → slice_get (B.lent books.now).books place ≡ Some book →
        result ≡ count_by (λ other. goes_before is_turned other (lent_pair pair.now))
        (queues_of (B.lent books.now).rule (book ∷ []) key.now) }
{
    if is_turned {
        books.count_after(place, key, &pair.0, pair.1)
    } else {
        books.count_before(place, key, &pair.0, pair.1)
    }
}

/// What lies on the other side of a bound.
fn beyond(bound: &Bound) -> Bound
    ensures below { (score : ℤ) → is_below result score ≡ not (is_above bound.now score) }
    ensures above { (score : ℤ) → is_above result score ≡ not (is_below bound.now score) }
{
    Bound {
        is_out: !bound.is_out,
        limit: bound.limit,
    }
}
