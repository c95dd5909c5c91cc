//! ZRANGE.

ghost use Rattle.std.specs.Prelude.{IfOk, IsTrue, OnErr, Some, [], count_by, drop, filter, length, map, option_map, slice_get, slice_range, take, ◌∷◌, ◌<◌, ◌≡◌};
ghost use Rattle.zq_commands.specs.FirstPairs.{lent_pair};
ghost use Rattle.zq_commands.specs.Lending.{IsLending, queues_in};
ghost use Rattle.zq_commands.specs.Running.{IsReadAs};
ghost use Rattle.zq_commands.specs.Starts.{is_read};
ghost use Rattle.zq_model.specs.Books.{Book};
ghost use Rattle.zq_model.specs.Lent.{queues_of};
ghost use Rattle.zq_semantics.specs.Plan.{is_there};
ghost use Rattle.zq_semantics.specs.Ranges.{is_within, ranged, turned_if};
ghost use Rattle.zq_semantics.specs.Replies as plan;
ghost use Rattle.zq_semantics.specs.Run.{ForReply};
ghost use Rattle.zq_resp.specs.Reply.{is_writable, reply_bytes};

use crate::books::Books;
use crate::merging::merge;
use crate::pairs::pairs_reply;
use crate::places::{count_ahead, first_place};
use crate::ran::Outcome;
use crate::range_section::Section;
use crate::range_start::find_start;
use crate::stopped::Stopped;
use crate::totals::{total_members, total_within};
use std::alloc::{AllocError, Global};
use zq_words::Range;

/// The pairs that a range takes of a key's queue, or of it turned round.
pub fn read_range<B: Books, O: Outcome>(
    books: &B,
    alloc: Global,
    key: &[u8],
    range: &Range,
    is_turned: bool,
    with_scores: bool,
) -> O
    requires { IsLending (B.lent books.now) }
    ensures read { IsReadAs
        (ForReply (is_there (ranged range.now
        (turned_if is_turned (queues_in (B.lent books.now) key.now))))
        (length (queues_in (B.lent books.now) key.now)))
        (plan.pairs_reply with_scores
        (ranged range.now (turned_if is_turned (queues_in (B.lent books.now) key.now))))
        (reply_bytes (O.reply result)) (O.is_short result) }
    ensures writable { IsTrue (is_writable (O.reply result)) }
{
    let Some(size) = total_members(books, key) else {
        return O::of_cut(Stopped::NoMemory, 0);
    };
    let section = Section::of_range(range, size);
    let Some(within) = total_within(books, key, &section.min, &section.max) else {
        return O::of_cut(Stopped::NoMemory, 0);
    };
    match section_pairs(books, alloc, key, is_turned, &section, within) {
        Ok((pairs, before)) => pairs_reply(alloc, &pairs, before, with_scores),
        Err(AllocError) => O::of_cut(Stopped::NoMemory, 0),
    }
}

/// The pairs of a section behind so many that are not, where so many are within its bounds.
pub fn section_pairs<'a, B: Books>(
    books: &'a B,
    alloc: Global,
    key: &[u8],
    is_turned: bool,
    section: &Section,
    within: u64,
) -> Result<(Vec<(i128, &'a [u8])>, usize), AllocError>
    requires lent { IsLending (B.lent books.now) }
    requires within { within ≡ count_by (is_within section.now.min section.now.max)
        (queues_in (B.lent books.now) key.now) }
    ensures some { OnErr result (IsTrue (is_there
        (slice_range (filter (is_within section.now.min section.now.max)
        (turned_if is_turned (queues_in (B.lent books.now) key.now))) section.now.from
        section.now.to))) }
    ensures pairs { IfOk result (λ found. drop found.1 (map lent_pair found.0.items) ≡
        slice_range (filter (is_within section.now.min section.now.max)
        (turned_if is_turned (queues_in (B.lent books.now) key.now))) section.now.from
        section.now.to) }
{
    if section.to <= section.from || within <= section.from as u64 {
        return Ok((Vec::new(alloc), 0));
    }
    // One book has them side by side.
    if books.len() == 1 {
        let (from, to) = (section.from, section.to);
        let pairs = slice_run(books, alloc, 0, key, is_turned, section, None, from, to)?;
        return Ok((pairs, 0));
    }
    let start = find_start(books, alloc, key, is_turned, section)?;
    let most = section.to - start.skipped;
    let pairs = first_pairs(books, alloc, key, is_turned, section, start.pair, most)?;
    Ok((pairs, section.from - start.skipped))
}

/// The first so many pairs within the bounds of a section, from where reading starts. No book gives
/// more than so many.
pub fn first_pairs<'a, B: Books>(
    books: &'a B,
    alloc: Global,
    key: &[u8],
    is_turned: bool,
    section: &Section,
    first: Option<(i128, &[u8])>,
    most: usize,
) -> Result<Vec<(i128, &'a [u8])>, AllocError>
    requires { IsLending (B.lent books.now) }
    ensures { IfOk result (λ pairs.
        map lent_pair pairs.items
        ≡ take most (filter (is_read is_turned
        (option_map lent_pair first.entry) section.now.min section.now.max)
        (turned_if is_turned (queues_in (B.lent books.now) key.now)))) }
{
    let mut pairs = Vec::new(alloc);
    let mut place = books.len();
    while place > 0 {
        place -= 1;
        let run = slice_run(books, alloc, place, key, is_turned, section, first, 0, most)?;
        pairs = merge(alloc, run, pairs, is_turned, most)?;
    }
    Ok(pairs)
}

/// The same of the book at a place, but for some that come first. Its pairs within the bounds stand
/// one behind the other.
fn slice_run<'a, B: Books>(
    books: &'a B,
    alloc: Global,
    place: usize,
    key: &[u8],
    is_turned: bool,
    section: &Section,
    first: Option<(i128, &[u8])>,
    skipped: usize,
    most: usize,
) -> Result<Vec<(i128, &'a [u8])>, AllocError>
    requires lent { IsLending (B.lent books.now) }
    requires inside { place < length (B.lent books.now).books }
    ensures { IfOk result (λ pairs. (book : Book) →
        slice_get (B.lent books.now).books place ≡ Some book → map lent_pair pairs.items ≡
        drop skipped (take most
        (filter (is_read is_turned (option_map lent_pair first.entry) section.now.min
        section.now.max) (turned_if is_turned
        (queues_of (B.lent books.now).rule (book ∷ []) key.now))))) }
{
    let size = books.count(place, key);
    let from = first_place(books, place, key, is_turned, section, first);
    let behind = count_ahead(books, place, key, !is_turned, section);
    let taken = (size - behind).saturating_sub(from).min(most);
    books.slice(
        alloc,
        place,
        key,
        is_turned,
        from + skipped.min(taken),
        from + taken,
    )
}
