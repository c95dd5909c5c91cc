//! Counts over the books, each book's added to those before.

ghost use Rattle.std.specs.Prelude.{IfSome, None, count_by, length, option_map, ◌+◌, ◌<◌, ◌^◌, ◌≡◌, ◌≤◌};
ghost use Rattle.zq_commands.specs.FirstPairs.{lent_pair};
ghost use Rattle.zq_commands.specs.Lending.{IsLending, queues_in};
ghost use Rattle.zq_commands.specs.Starts.{is_left};
ghost use Rattle.zq_model.specs.Readings.{is_before};
ghost use Rattle.zq_semantics.specs.Ranges.{is_within};
ghost use Rattle.zq_semantics.specs.Run.{UNCOUNTED};

use crate::books::Books;
use crate::places::count_left;
use crate::range_section::Section;
use zq_words::Bound;

/// The number of members of a key, and `None` where an `i64` does not hold it.
pub fn total_members<B: Books>(books: &B, key: &[u8]) -> Option<u64>
    requires { IsLending (B.lent books.now) }
    ensures total { IfSome result (λ total. total ≡ length (queues_in (B.lent books.now) key.now)) }
    ensures past { result ≡ None → UNCOUNTED ≤ length (queues_in (B.lent books.now) key.now) }
    ensures small { IfSome result (λ total. total < 2 ^ 63) }
{
    let mut total = 0;
    for place in 0..books.len() {
        total = add_count(total, books.count(place, key))?;
    }
    Some(total)
}

/// The number of pairs of a key before this one, and `None` where an `i64` does not hold it.
pub fn total_before<B: Books>(books: &B, key: &[u8], score: &i128, member: &[u8]) -> Option<u64>
    requires { IsLending (B.lent books.now) }
    ensures total { IfSome result
        (λ total. total ≡ count_by (λ pair. is_before pair (score.now, member.now))
        (queues_in (B.lent books.now) key.now)) }
    ensures past { result ≡ None → UNCOUNTED ≤ length (queues_in (B.lent books.now) key.now) }
    ensures small { IfSome result (λ total. total < 2 ^ 63) }
{
    let mut total = 0;
    for place in 0..books.len() {
        total = add_count(total, books.count_before(place, key, score, member))?;
    }
    Some(total)
}

/// The number of pairs of a key after this one, and `None` where an `i64` does not hold it.
pub fn total_after<B: Books>(books: &B, key: &[u8], score: &i128, member: &[u8]) -> Option<u64>
    requires { IsLending (B.lent books.now) }
    ensures total { IfSome result
        (λ total. total ≡ count_by (λ pair. is_before (score.now, member.now) pair)
        (queues_in (B.lent books.now) key.now)) }
    ensures past { result ≡ None → UNCOUNTED ≤ length (queues_in (B.lent books.now) key.now) }
    ensures small { IfSome result (λ total. total < 2 ^ 63) }
{
    let mut total = 0;
    for place in 0..books.len() {
        total = add_count(total, books.count_after(place, key, score, member))?;
    }
    Some(total)
}

/// The number of pairs of a key that a section leaves out which starts at this pair, and `None`
/// where an `i64` does not hold it.
pub fn total_left<B: Books>(
    books: &B,
    key: &[u8],
    is_turned: bool,
    section: &Section,
    first: Option<(i128, &[u8])>,
) -> Option<u64>
    requires { IsLending (B.lent books.now) }
    ensures total { IfSome result
        (λ total. total ≡ count_by
        (is_left is_turned (option_map lent_pair first.entry) section.now.min section.now.max)
        (queues_in (B.lent books.now) key.now)) }
    ensures small { IfSome result (λ total. total < 2 ^ 63) }
{
    let mut total = 0;
    for place in 0..books.len() {
        let left = count_left(books, place, key, is_turned, section, first);
        total = add_count(total, left)?;
    }
    Some(total)
}

/// The number of pairs of a key within these bounds, and `None` where an `i64` does not hold it.
pub fn total_within<B: Books>(books: &B, key: &[u8], min: &Bound, max: &Bound) -> Option<u64>
    requires { IsLending (B.lent books.now) }
    ensures total { IfSome result
        (λ total. total ≡ count_by (is_within min.now max.now)
        (queues_in (B.lent books.now) key.now)) }
    ensures past { result ≡ None → UNCOUNTED ≤ length (queues_in (B.lent books.now) key.now) }
    ensures small { IfSome result (λ total. total < 2 ^ 63) }
{
    let mut total = 0;
    for place in 0..books.len() {
        total = add_count(total, books.count_within(place, key, min, max))?;
    }
    Some(total)
}

/// The sum, and `None` where an `i64` does not hold it.
fn add_count(total: u64, more: usize) -> Option<u64>
    requires { total < 2 ^ 63 }
    ensures sum { IfSome result (λ sum. sum ≡ total + more) }
    ensures past { result ≡ None → UNCOUNTED ≤ total + more }
    ensures small { IfSome result (λ sum. sum < 2 ^ 63) }
{
    let most = i64::MAX as u64 - total;
    if more as u64 > most {
        return None;
    }
    Some(total + more as u64)
}
