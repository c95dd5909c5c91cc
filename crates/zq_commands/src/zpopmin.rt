//! ZPOPMIN and ZPOPNEAR.

ghost use Rattle.std.specs.Prelude.{IsErrOf, IsTrue, Ok, OnErr, Some, [], false, length, map, true, ◌<◌, ◌≡◌, ◌≤◌};
ghost use Rattle.zq_commands.specs.Arrays.{are_writable, array_bytes};
ghost use Rattle.zq_commands.specs.Stopped.{want_of};
ghost use Rattle.zq_commands.specs.Lending.{IsDated, IsLending, queues_in};
ghost use Rattle.zq_commands.specs.Running.{EndsOver};
ghost use Rattle.zq_commands.specs.FirstPairs.{IsFirstWorn, PopsFirst};
ghost use Rattle.zq_model.specs.Operation.{LONGEST};
ghost use Rattle.zq_semantics.specs.Plan as plan;
ghost use Rattle.zq_semantics.specs.Replies as replies;
ghost use Rattle.zq_semantics.specs.Run.{ForCopies, cut_pop, cut_text};
ghost use Rattle.zq_resp.specs.Reply.{is_writable, reply_bytes};

use crate::books::Books;
use crate::call::Call;
use crate::first_pair::{Copied, copy_top, drop_top};
use crate::ran::{Outcome, Ran};
use crate::replies::{array_reply, cut_reply};
use crate::stopped::Stopped;
use zq_resp::Reply;

/// Drops the first so many pairs of a key, one after the other, and answers them with their scores.
/// Where one is refused, it answers those before, and an error where there are none. It is short
/// where memory was refused.
pub fn pop<B: Books>(books: &mut B, call: &Call, key: &[u8], count: u64) -> Ran
    requires lent { IsLending (B.lent books.old) }
    requires dated { IsDated call.now.stamp (B.lent books.old) }
    requires key { length key.now ≤ LONGEST }
    ensures ran { EndsOver call.now.site call.now.stamp ForCopies
        (plan.pop key.now count (queues_in (B.lent books.old)))
        (cut_pop (Some (key.now, count)) (queues_in (B.lent books.old)))
        (B.lent books.old) (B.lent books.new) (reply_bytes result.reply) result.is_short }
    ensures lent { IsLending (B.lent books.new) }
    ensures dated { IsDated call.now.stamp (B.lent books.new) }
    ensures keeps { B.keeps books.old books.new }
    ensures writable { IsTrue (is_writable result.reply) }
{
    if count == 1 {
        return pop_first(books, call, key);
    }
    let mut parts = Vec::new(call.alloc);
    let mut done = 0;
    while done < count {
        match pop_one(books, call, key, &mut parts) {
            Ok(true) => done += 1,
            Ok(false) => return whole(parts),
            Err(cut) => {
                return Ran {
                    reply: cut_pop_reply(parts, done, cut),
                    is_short: cut.is_memory(),
                };
            }
        }
    }
    whole(parts)
}

/// A pop of one pair. Its reply takes no memory where the member has at most 16 bytes.
fn pop_first<B: Books>(books: &mut B, call: &Call, key: &[u8]) -> Ran
    requires lent { IsLending (B.lent books.old) }
    requires dated { IsDated call.now.stamp (B.lent books.old) }
    requires key { length key.now ≤ LONGEST }
    ensures ran { EndsOver call.now.site call.now.stamp ForCopies
        (plan.pop key.now 1 (queues_in (B.lent books.old)))
        (cut_pop (Some (key.now, 1)) (queues_in (B.lent books.old)))
        (B.lent books.old) (B.lent books.new) (reply_bytes result.reply) result.is_short }
    ensures lent { IsLending (B.lent books.new) }
    ensures dated { IsDated call.now.stamp (B.lent books.new) }
    ensures keeps { B.keeps books.old books.new }
    ensures writable { IsTrue (is_writable result.reply) }
{
    let pair = match copy_top(books, call.alloc, key) {
        Ok(Some(pair)) => pair,
        Ok(None) => return whole(Vec::new(call.alloc)),
        Err(cut) => return Ran::of_cut(cut, 0),
    };
    match drop_top(books, call, pair.place, key, &pair.member) {
        Ok(()) => {}
        Err(cut) => {
            drop(pair);
            return Ran::of_cut(cut, 0);
        }
    }
    let Copied { member, score, .. } = pair;
    Ran {
        reply: Reply::Pair(member, score),
        is_short: false,
    }
}

/// The pairs of a pop that was not cut.
fn whole(parts: Vec<Reply>) -> Ran
    requires { IsTrue (are_writable parts.items) }
    ensures bytes { reply_bytes result.reply ≡ array_bytes (map reply_bytes parts.items) }
    ensures writable { IsTrue (is_writable result.reply) }
    ensures short { result.is_short ≡ false }
{
    Ran {
        reply: array_reply(parts),
        is_short: false,
    }
}

/// The pairs that were dropped before the move that was refused.
fn cut_pop_reply(parts: Vec<Reply>, done: u64, cut: Stopped) -> Reply
    requires { IsTrue (are_writable parts.items) }
    ensures some { 0 < done → reply_bytes result ≡ array_bytes (map reply_bytes parts.items) }
    ensures none { done ≡ 0 → reply_bytes result
        ≡ replies.bytes_of (replies.Error (cut_text (want_of cut)) (Some 0)) }
    ensures writable { IsTrue (is_writable result) }
{
    if done == 0 {
        drop(parts);
        return cut_reply(cut, 0);
    }
    array_reply(parts)
}

/// Drops the first pair of a key, if there is one, with its member and its score behind the parts.
/// There is room for them first.
fn pop_one<B: Books>(
    books: &mut B,
    call: &Call,
    key: &[u8],
    parts: &mut Vec<Reply>,
) -> Result<bool, Stopped>
    requires lent { IsLending (B.lent books.old) }
    requires dated { IsDated call.now.stamp (B.lent books.old) }
    requires key { length key.now ≤ LONGEST }
    ensures popped { result ≡ Ok true →
        PopsFirst call.now.site call.now.stamp key.now (B.lent books.old) (B.lent books.new)
        (map reply_bytes parts.old.items) (map reply_bytes parts.new.items) }
    ensures empty { result ≡ Ok false → queues_in (B.lent books.old) key.now ≡ [] }
    ensures idle { result ≡ Ok false → B.lent books.new ≡ B.lent books.old }
    ensures same { result ≡ Ok false → parts.new.items ≡ parts.old.items }
    ensures refused { OnErr result (B.lent books.new ≡ B.lent books.old) }
    ensures kept { OnErr result (parts.new.items ≡ parts.old.items) }
    ensures worn { IsErrOf result Stopped.Worn →
        IsFirstWorn call.now.site key.now (B.lent books.old) }
    ensures there { OnErr result (IsTrue (plan.is_there (queues_in (B.lent books.old) key.now))) }
    ensures lent { IsLending (B.lent books.new) }
    ensures dated { IsDated call.now.stamp (B.lent books.new) }
    ensures keeps { B.keeps books.old books.new }
    ensures writable { IsTrue (are_writable parts.old.items) →
        IsTrue (are_writable parts.new.items) }
{
    let pair = match copy_top(books, call.alloc, key)? {
        Some(pair) => pair,
        None => return Ok(false),
    };
    if parts.reserve(2).is_err() {
        drop(pair);
        return Err(Stopped::NoMemory);
    }
    match drop_top(books, call, pair.place, key, &pair.member) {
        Ok(()) => {}
        Err(cut) => {
            drop(pair);
            return Err(cut);
        }
    }
    let Copied { member, score, .. } = pair;
    parts.push_reserved(Reply::Bulk(member));
    parts.push_reserved(Reply::Number(score));
    Ok(true)
}
