//! A pop of the first of some keys that has members.

ghost use Rattle.std.specs.Prelude.{All, Bool, IfOk, IfSome, IsTrue, Some, length, map, option_map, reverse, slice_get, true, ◌∷◌, ◌≡◌, ◌≤◌};
ghost use Rattle.zq_commands.specs.Arrays.{are_writable};
ghost use Rattle.zq_commands.specs.Ends.{IsCopyOf, IsEndOf};
ghost use Rattle.zq_commands.specs.FirstPairs.{lent_pair};
ghost use Rattle.zq_commands.specs.Lending.{HasBook, IsDated, IsHomeAt, IsLending, queues_in};
ghost use Rattle.zq_commands.specs.Running.{EndsOver};
ghost use Rattle.zq_model.specs.Operation.{LONGEST};
ghost use Rattle.zq_resp.specs.Reply.{bulk, is_writable, reply_bytes};
ghost use Rattle.zq_semantics.specs.Plan.{is_there};
ghost use Rattle.zq_semantics.specs.Procedures as pops;
ghost use Rattle.zq_semantics.specs.Ranges.{turned_if};
ghost use Rattle.zq_semantics.specs.Replies.{parts_of_pair};
ghost use Rattle.zq_semantics.specs.Run.{ForCopies, cut_error};
ghost use Rattle.zq_words.specs.Limits.{IsShort};
ghost use Rattle.zq_words.specs.Words.{views};

use crate::books::Books;
use crate::call::Call;
use crate::first_of_key::top_of;
use crate::keys_there::has_members;
use crate::making::make_at;
use crate::pairs::{push_pair, push_part};
use crate::ran::Outcome;
use crate::range_section::WHOLE;
use crate::replies::array_reply;
use crate::stopped::Stopped;
use crate::zrange::first_pairs;
use std::alloc::{AllocError, Global};
use zq_dots::Act;
use zq_resp::{Reply, Text};

/// The pair at an end of a key: its member, the place of the member's book, and the parts of the
/// reply, which are the key, the member and its score.
#[derive(Debug, Drop)]
pub struct End {
    pub place: usize,
    pub member: Vec<u8>,
    pub parts: Vec<Reply>,
}

/// Drops the first pair of the first of the keys that has members, or its last pair where it is
/// turned, and answers the key, the member and its score; where no key has members, the null array.
/// The pair is copied first: where there is no memory for that, it is not dropped.
pub fn pop_leftmost<B: Books, O: Outcome>(
    books: &mut B,
    call: &Call,
    keys: &[Vec<u8>],
    is_turned: bool,
) -> O
    requires lent { IsLending (B.lent books.old) }
    requires dated { IsDated call.now.stamp (B.lent books.old) }
    requires keys { All IsShort (views keys.now) }
    ensures ran { EndsOver call.now.site call.now.stamp ForCopies
        ((pops.pop_leftmost (views keys.now) is_turned).plan (queues_in (B.lent books.old)))
        cut_error (B.lent books.old) (B.lent books.new) (reply_bytes (O.reply result))
        (O.is_short result) }
    ensures lent { IsLending (B.lent books.new) }
    ensures dated { IsDated call.now.stamp (B.lent books.new) }
    ensures keeps { B.keeps books.old books.new }
    ensures writable { IsTrue (is_writable (O.reply result)) }
{
    match leftmost(books, keys) {
        Some(key) => pop_end(books, call, key, is_turned),
        None => O::of_reply(Reply::NullArray),
    }
}

/// The first of the keys that has members.
fn leftmost<'a, B: Books>(books: &B, keys: &'a [Vec<u8>]) -> Option<&'a [u8]>
    requires lent { IsLending (B.lent books.now) }
    requires keys { All IsShort (views keys.now) }
    ensures first { option_map (λ key. key.now) result
        ≡ pops.leftmost (views keys.now) (queues_in (B.lent books.now)) }
    ensures short { IfSome result (λ key. length key.now ≤ LONGEST) }
    ensures there { IfSome result (λ key.
        IsTrue (is_there (queues_in (B.lent books.now) key.now))) }
{
    for key in keys {
        if has_members(books, key) {
            return Some(key);
        }
    }
    None
}

/// Drops the pair at an end of a key that has members.
fn pop_end<B: Books, O: Outcome>(books: &mut B, call: &Call, key: &[u8], is_turned: bool) -> O
    requires lent { IsLending (B.lent books.old) }
    requires dated { IsDated call.now.stamp (B.lent books.old) }
    requires key { length key.now ≤ LONGEST }
    requires there { IsTrue (is_there (queues_in (B.lent books.old) key.now)) }
    ensures ran { EndsOver call.now.site call.now.stamp ForCopies
        (pops.popping_from is_turned (Some key.now) (queues_in (B.lent books.old)))
        cut_error (B.lent books.old) (B.lent books.new) (reply_bytes (O.reply result))
        (O.is_short result) }
    ensures lent { IsLending (B.lent books.new) }
    ensures dated { IsDated call.now.stamp (B.lent books.new) }
    ensures keeps { B.keeps books.old books.new }
    ensures writable { IsTrue (is_writable (O.reply result)) }
{
    match copy_end(books, call.alloc, key, is_turned) {
        Ok(end) => drop_end(books, call, key, end),
        Err(AllocError) => O::of_cut(Stopped::NoMemory, 0),
    }
}

/// Drops the pair of which this is a copy, and answers the parts.
fn drop_end<B: Books, O: Outcome>(books: &mut B, call: &Call, key: &[u8], end: End) -> O
    requires lent { IsLending (B.lent books.old) }
    requires dated { IsDated call.now.stamp (B.lent books.old) }
    requires key { length key.now ≤ LONGEST }
    requires home { IsHomeAt key.now end.member.items end.place (B.lent books.old) }
    requires member { IsShort end.member.items }
    requires parts { IsTrue (are_writable end.parts.items) }
    ensures ran { (t : Bool) → IsEndOf t key.now (B.lent books.old) end →
        EndsOver call.now.site call.now.stamp ForCopies
        (pops.popping_from t (Some key.now) (queues_in (B.lent books.old)))
        cut_error (B.lent books.old) (B.lent books.new) (reply_bytes (O.reply result))
        (O.is_short result) }
    ensures lent { IsLending (B.lent books.new) }
    ensures dated { IsDated call.now.stamp (B.lent books.new) }
    ensures keeps { B.keeps books.old books.new }
    ensures writable { IsTrue (is_writable (O.reply result)) }
{
    let End {
        place,
        member,
        parts,
    } = end;
    let made = make_at(books, call, place, key, &member, Act::Drop);
    drop(member);
    match made {
        Ok(_) => O::of_reply(array_reply(parts)),
        Err(cut) => {
            drop(parts);
            O::of_cut(cut, 0)
        }
    }
}

/// A copy of the pair at an end of a key that has members.
fn copy_end<B: Books>(
    books: &B,
    alloc: Global,
    key: &[u8],
    is_turned: bool,
) -> Result<End, AllocError>
    requires lent { IsLending (B.lent books.now) }
    requires key { length key.now ≤ LONGEST }
    requires there { IsTrue (is_there (queues_in (B.lent books.now) key.now)) }
    ensures end { IfOk result (IsEndOf is_turned key.now (B.lent books.now)) }
{
    match end_of(books, alloc, key, is_turned) {
        Ok(Some(pair)) => copy_pair(books, alloc, key, pair),
        Ok(None) => unreachable!(),
        Err(AllocError) => Err(AllocError),
    }
}

/// A copy of a pair of a key, whose member lies in one of the heaps.
fn copy_pair<B: Books>(
    books: &B,
    alloc: Global,
    key: &[u8],
    pair: (i128, &[u8]),
) -> Result<End, AllocError>
    requires lent { IsLending (B.lent books.now) }
    requires key { length key.now ≤ LONGEST }
    requires home { HasBook key.now (lent_pair pair).1 (B.lent books.now) }
    ensures copied { IfOk result (IsCopyOf (lent_pair pair.entry) key.now (B.lent books.now)) }
{
    let parts = parts_of(alloc, key, &pair)?;
    let member = Vec::from_slice(alloc, pair.1)?;
    let place = books.home(key, &member);
    Ok(End {
        place,
        member,
        parts,
    })
}

/// A key, and a member and its score behind it, as the parts of a reply.
fn parts_of(alloc: Global, key: &[u8], pair: &(i128, &[u8])) -> Result<Vec<Reply>, AllocError>
    ensures parts { IfOk result (λ parts. map reply_bytes parts.items
        ≡ map bulk (key.now ∷ parts_of_pair true (lent_pair pair.now))) }
    ensures writable { IfOk result (λ parts. IsTrue (are_writable parts.items)) }
{
    let mut parts = Vec::with_capacity(alloc, 3)?;
    let first = Text::from_slice(alloc, key)?;
    push_part(&mut parts, Reply::Bulk(first))?;
    push_pair(alloc, &mut parts, pair, true)?;
    Ok(parts)
}

/// The first pair of a key, or the last one where it is turned.
fn end_of<'a, B: Books>(
    books: &'a B,
    alloc: Global,
    key: &[u8],
    is_turned: bool,
) -> Result<Option<(i128, &'a [u8])>, AllocError>
    requires { IsLending (B.lent books.now) }
    ensures { IfOk result (λ pair. option_map lent_pair pair
        ≡ slice_get (turned_if is_turned (queues_in (B.lent books.now) key.now)) 0) }
{
    if is_turned {
        return last_of(books, alloc, key);
    }
    match top_of(books, key) {
        Some(top) => Ok(Some(top.pair)),
        None => Ok(None),
    }
}

/// The last pair of a key.
fn last_of<'a, B: Books>(
    books: &'a B,
    alloc: Global,
    key: &[u8],
) -> Result<Option<(i128, &'a [u8])>, AllocError>
    requires { IsLending (B.lent books.now) }
    ensures { IfOk result (λ pair. option_map lent_pair pair
        ≡ slice_get (reverse (queues_in (B.lent books.now) key.now)) 0) }
{
    let pairs = first_pairs(books, alloc, key, true, &WHOLE, None, 1)?;
    match pairs.first() {
        Some(pair) => Ok(Some(*pair)),
        None => Ok(None),
    }
}
