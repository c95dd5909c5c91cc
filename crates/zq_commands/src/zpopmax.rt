//! ZPOPMAX.

ghost use Rattle.std.specs.Prelude.{IfOk, IsTrue, OnErr, flat_map, length, map, take, true, ◌≡◌, ◌≤◌};
ghost use Rattle.zq_commands.specs.Arrays.{are_writable};
ghost use Rattle.zq_commands.specs.Lending.{IsDated, IsLending, queues_in};
ghost use Rattle.zq_commands.specs.Running.{EndsOver};
ghost use Rattle.zq_commands.specs.Stopped.{want_of};
ghost use Rattle.zq_model.specs.Moves.{Queue};
ghost use Rattle.zq_model.specs.Operation.{LONGEST};
ghost use Rattle.zq_resp.specs.Reply.{bulk, is_writable, reply_bytes};
ghost use Rattle.zq_semantics.specs.Plan as plan;
ghost use Rattle.zq_semantics.specs.Procedures as pops;
ghost use Rattle.zq_semantics.specs.Replies as replies;
ghost use Rattle.zq_semantics.specs.Run.{ForCopies};
ghost use Rattle.zq_words.specs.Words.{views};

use crate::books::Books;
use crate::call::Call;
use crate::copied::copy_members;
use crate::dropping::drop_each;
use crate::keys_there::has_members;
use crate::pairs::copy_parts;
use crate::ran::{Outcome, Ran};
use crate::range_section::WHOLE;
use crate::replies::{array_reply, cut_reply};
use crate::stopped::Stopped;
use crate::zrange::first_pairs;
use std::alloc::{AllocError, Global};
use zq_resp::Reply;

/// Copies of the last pairs of a key: their members, and the parts of the reply.
#[derive(Debug, Drop)]
pub struct LastPairs {
    pub members: Vec<Vec<u8>>,
    pub parts: Vec<Reply>,
}

/// Drops the last so many pairs of a key, the last one first, and answers them with their scores.
/// Where one is refused, it answers those before, and an error where there are none. It is short
/// where memory was refused. They are copied first: where there is no memory for that, none is
/// dropped.
pub fn pop_last<B: Books>(books: &mut B, call: &Call, key: &[u8], count: usize) -> Ran
    requires lent { IsLending (B.lent books.old) }
    requires dated { IsDated call.now.stamp (B.lent books.old) }
    requires key { length key.now ≤ LONGEST }
    ensures ran { EndsOver call.now.site call.now.stamp ForCopies
        ((pops.pop_last key.now count).plan (queues_in (B.lent books.old)))
        ((pops.pop_last key.now count).cut (queues_in (B.lent books.old)))
        (B.lent books.old) (B.lent books.new) (reply_bytes result.reply) result.is_short }
    ensures lent { IsLending (B.lent books.new) }
    ensures dated { IsDated call.now.stamp (B.lent books.new) }
    ensures keeps { B.keeps books.old books.new }
    ensures writable { IsTrue (is_writable result.reply) }
{
    let last = match copy_last(books, call.alloc, key, count) {
        Ok(last) => last,
        Err(AllocError) => return Ran::of_cut(Stopped::NoMemory, 0),
    };
    let LastPairs { members, parts } = last;
    let dropped = drop_each(books, call, key, &members);
    drop(members);
    match dropped.cut {
        None => Ran {
            reply: array_reply(parts),
            is_short: false,
        },
        Some(cut) => Ran {
            reply: cut_parts(parts, dropped.done, cut),
            is_short: cut.is_memory(),
        },
    }
}

/// The reply of a pop of these parts, two for each pair, of which so many pairs were dropped.
fn cut_parts(parts: Vec<Reply>, done: u64, cut: Stopped) -> Reply
    requires { IsTrue (are_writable parts.items) }
    ensures bytes { (pairs : Queue) → map reply_bytes parts.items
        ≡ map bulk (flat_map (replies.parts_of_pair true) pairs) →
        reply_bytes result ≡ replies.bytes_of (pops.cut_pairs pairs done (want_of cut)) }
    ensures writable { IsTrue (is_writable result) }
{
    if done == 0 {
        drop(parts);
        return cut_reply(cut, 0);
    }
    array_reply(first_parts(parts, done))
}

/// The parts of the first so many pairs.
fn first_parts(mut parts: Vec<Reply>, done: u64) -> Vec<Reply>
    requires { IsTrue (are_writable parts.items) }
    ensures parts { (pairs : Queue) → map reply_bytes parts.items
        ≡ map bulk (flat_map (replies.parts_of_pair true) pairs) → map reply_bytes result.items
        ≡ map bulk (flat_map (replies.parts_of_pair true) (take done pairs)) }
    ensures writable { IsTrue (are_writable result.items) }
{
    if done >= parts.len() as u64 {
        return parts;
    }
    parts.truncate(2 * done as usize);
    parts
}

/// Copies of the last so many pairs of a key, the last one first.
fn copy_last<B: Books>(
    books: &B,
    alloc: Global,
    key: &[u8],
    count: usize,
) -> Result<LastPairs, AllocError>
    requires { IsLending (B.lent books.now) }
    ensures members { IfOk result (λ last. views last.members.items
        ≡ pops.members_of (pops.last_pairs count (queues_in (B.lent books.now) key.now))) }
    ensures parts { IfOk result (λ last. map reply_bytes last.parts.items
        ≡ map bulk (flat_map (replies.parts_of_pair true)
        (pops.last_pairs count (queues_in (B.lent books.now) key.now)))) }
    ensures writable { IfOk result (λ last. IsTrue (are_writable last.parts.items)) }
    ensures some { OnErr result (IsTrue (plan.is_there
        (pops.last_pairs count (queues_in (B.lent books.now) key.now)))) }
{
    if has_last(books, key, count) {
        return copy_pairs(books, alloc, key, count);
    }
    Ok(LastPairs {
        members: Vec::new(alloc),
        parts: Vec::new(alloc),
    })
}

/// Whether there is one of the last so many pairs.
fn has_last<B: Books>(books: &B, key: &[u8], count: usize) -> bool
    requires { IsLending (B.lent books.now) }
    ensures { result ≡ plan.is_there
        (pops.last_pairs count (queues_in (B.lent books.now) key.now)) }
{
    if count == 0 {
        return false;
    }
    has_members(books, key)
}

/// The copies, where there may be none.
fn copy_pairs<B: Books>(
    books: &B,
    alloc: Global,
    key: &[u8],
    count: usize,
) -> Result<LastPairs, AllocError>
    requires { IsLending (B.lent books.now) }
    ensures members { IfOk result (λ last. views last.members.items
        ≡ pops.members_of (pops.last_pairs count (queues_in (B.lent books.now) key.now))) }
    ensures parts { IfOk result (λ last. map reply_bytes last.parts.items
        ≡ map bulk (flat_map (replies.parts_of_pair true)
        (pops.last_pairs count (queues_in (B.lent books.now) key.now)))) }
    ensures writable { IfOk result (λ last. IsTrue (are_writable last.parts.items)) }
{
    let pairs = first_pairs(books, alloc, key, true, &WHOLE, None, count)?;
    let parts = copy_parts(alloc, &pairs, 0, true)?;
    let members = copy_members(alloc, &pairs, 0)?;
    Ok(LastPairs { members, parts })
}
