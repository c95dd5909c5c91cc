//! Where the reading of a section starts. For a section deep in a key the books are searched for a
//! pair shortly before its first one, so that what goes before that pair is counted and not read.
//! Any pair serves that does not leave out pairs of the section: the search only makes reading
//! fast.

ghost use Rattle.std.specs.Prelude.{IfOk, IfSome, length, ◌+◌, ◌<◌, ◌^◌, ◌≤◌};
ghost use Rattle.zq_commands.specs.Lending.{IsLending, queues_in};
ghost use Rattle.zq_commands.specs.Starts.{IsStart};

use crate::books::Books;
use crate::places::first_place;
use crate::range_section::Section;
use crate::totals::total_left;
use std::alloc::{AllocError, Global};

/// So many pairs before those of a section are read in vain at most, and no search is made for
/// fewer.
const NEAR: usize = 64;

/// A book is looked at so often at most. Each third look halves the places that are left, so that
/// these are enough.
const LOOKS: usize = 128;

/// A pair at which the reading of a section starts, or none where it starts at the first pair
/// within the section's bounds, and how many of the pairs within the bounds go before it.
#[derive(Clone, Copy, Debug)]
pub struct Start<'a> {
    pub pair: Option<(i128, &'a [u8])>,
    pub skipped: usize,
}

/// A start near the first pair of a section. Each book is searched in turn, until no more than
/// `NEAR` pairs stand between: as a rule after some looks at the first book.
pub fn find_start<'a, B: Books>(
    books: &'a B,
    alloc: Global,
    key: &[u8],
    is_turned: bool,
    section: &Section,
) -> Result<Start<'a>, AllocError>
    requires { IsLending (B.lent books.now) }
    ensures { IfOk result (IsStart is_turned section.now (queues_in (B.lent books.now) key.now)) }
{
    let mut start = Start {
        pair: None,
        skipped: 0,
    };
    for place in 0..books.len() {
        start = lead_on(books, alloc, place, key, is_turned, section, start)?;
    }
    Ok(start)
}

/// The start led on towards the last pair of the book at a place that leaves out none of the
/// section.
fn lead_on<'a, B: Books>(
    books: &'a B,
    alloc: Global,
    place: usize,
    key: &[u8],
    is_turned: bool,
    section: &Section,
    mut start: Start<'a>,
) -> Result<Start<'a>, AllocError>
    requires lent { IsLending (B.lent books.now) }
    requires inside { place < length (B.lent books.now).books }
    requires start { IsStart is_turned section.now (queues_in (B.lent books.now) key.now) start }
    ensures { IfOk result (IsStart is_turned section.now (queues_in (B.lent books.now) key.now)) }
{
    if section.from - start.skipped <= NEAR {
        return Ok(start);
    }
    let mut low = first_place(books, place, key, is_turned, section, start.pair);
    let mut high = books.count(place, key);
    for look in 0..LOOKS {
        let rest = section.from - start.skipped;
        if rest <= NEAR || high <= low {
            break;
        }
        let at = place_between(low, high, rest / books.len(), look % 3 == 2);
        match start_at(books, alloc, place, key, is_turned, section, at)? {
            Some(next) => {
                start = next;
                low = at + 1;
            }
            None => high = at,
        }
    }
    Ok(start)
}

/// A place to look at: so far behind the lowest but for a sixteenth, so as not to pass what is
/// looked for, or the middle.
fn place_between(low: usize, high: usize, step: usize, is_middle: bool) -> usize
    requires { low < high }
    ensures low { low ≤ result }
    ensures high { result < high }
{
    let most = high - low - 1;
    if is_middle {
        low + most / 2
    } else {
        low + most.min(step - step / 16)
    }
}

/// The start at the pair that the book has at this place of a key, and `None` where it has none, or
/// where the start would leave out pairs of the section.
fn start_at<'a, B: Books>(
    books: &'a B,
    alloc: Global,
    place: usize,
    key: &[u8],
    is_turned: bool,
    section: &Section,
    at: usize,
) -> Result<Option<Start<'a>>, AllocError>
    requires lent { IsLending (B.lent books.now) }
    requires inside { place < length (B.lent books.now).books }
    requires bounded { at + 1 < 2 ^ 64 }
    ensures { IfOk result
        (λ found. IfSome found
        (IsStart is_turned section.now (queues_in (B.lent books.now) key.now))) }
{
    let pairs = books.slice(alloc, place, key, is_turned, at, at + 1)?;
    let Some(pair) = pairs.first() else {
        return Ok(None);
    };
    let pair = Some(*pair);
    match total_left(books, key, is_turned, section, pair) {
        Some(left) if left <= section.from as u64 => Ok(Some(Start {
            pair,
            skipped: left as usize,
        })),
        _ => Ok(None),
    }
}
