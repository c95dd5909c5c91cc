//! The commands that only read.

ghost use Rattle.std.specs.Prelude.{IsTrue, count_by, false, length, ◌≡◌, ◌≤◌};
ghost use Rattle.zq_commands.specs.Lending.{HasBook, IsLending, queues_in};
ghost use Rattle.zq_commands.specs.Running.{IsReadAs};
ghost use Rattle.zq_model.specs.Operation.{LONGEST};
ghost use Rattle.zq_model.specs.Moves.{score_in};
ghost use Rattle.zq_model.specs.Readings.{rank_in, turned_rank_in};
ghost use Rattle.zq_semantics.specs.Ranges.{is_within};
ghost use Rattle.zq_semantics.specs.Replies as plan;
ghost use Rattle.zq_semantics.specs.Run.{ForReply};
ghost use Rattle.zq_resp.specs.Reply.{is_writable, reply_bytes};

use crate::books::Books;
use crate::ran::Outcome;
use crate::replies::{count_reply, score_reply};
use crate::scores::score_of;
use crate::stopped::Stopped;
use crate::totals::{total_after, total_before, total_members, total_within};
use zq_resp::Reply;
use zq_words::Bound;

/// ZSCORE: a member's score as a text, and the null bulk where it is not there.
pub fn read_score<B: Books, O: Outcome>(books: &B, key: &[u8], member: &[u8]) -> O
    requires lent { IsLending (B.lent books.now) }
    requires home { HasBook key.now member.now (B.lent books.now) }
    requires key { length key.now ≤ LONGEST }
    ensures bytes { reply_bytes (O.reply result)
        ≡ plan.bytes_of (plan.score_reply
        (score_in (queues_in (B.lent books.now) key.now) member.now)) }
    ensures writable { IsTrue (is_writable (O.reply result)) }
{
    O::of_reply(score_reply(score_of(books, key, member)))
}

/// ZCARD: the number of members of a key. One that no reply holds is answered as want of memory is.
pub fn read_count<B: Books, O: Outcome>(books: &B, key: &[u8]) -> O
    requires { IsLending (B.lent books.now) }
    ensures read { IsReadAs (ForReply false (length (queues_in (B.lent books.now) key.now)))
        (plan.count_reply (length (queues_in (B.lent books.now) key.now)))
        (reply_bytes (O.reply result)) (O.is_short result) }
    ensures writable { IsTrue (is_writable (O.reply result)) }
{
    match total_members(books, key) {
        Some(total) => O::of_reply(count_reply(total)),
        None => O::of_cut(Stopped::NoMemory, 0),
    }
}

/// ZCOUNT: the number of pairs within two bounds. One that no reply holds is answered as want of
/// memory is.
pub fn read_within<B: Books, O: Outcome>(books: &B, key: &[u8], min: &Bound, max: &Bound) -> O
    requires { IsLending (B.lent books.now) }
    ensures read { IsReadAs (ForReply false (length (queues_in (B.lent books.now) key.now)))
        (plan.count_reply (count_by (is_within min.now max.now)
        (queues_in (B.lent books.now) key.now)))
        (reply_bytes (O.reply result)) (O.is_short result) }
    ensures writable { IsTrue (is_writable (O.reply result)) }
{
    match total_within(books, key, min, max) {
        Some(total) => O::of_reply(count_reply(total)),
        None => O::of_cut(Stopped::NoMemory, 0),
    }
}

/// ZRANK: how many pairs go before the member's, and the null bulk where it is not there.
pub fn read_rank<B: Books, O: Outcome>(books: &B, key: &[u8], member: &[u8]) -> O
    requires lent { IsLending (B.lent books.now) }
    requires home { HasBook key.now member.now (B.lent books.now) }
    requires key { length key.now ≤ LONGEST }
    ensures read { IsReadAs (ForReply false (length (queues_in (B.lent books.now) key.now)))
        (plan.place_reply (rank_in (queues_in (B.lent books.now) key.now) member.now))
        (reply_bytes (O.reply result)) (O.is_short result) }
    ensures writable { IsTrue (is_writable (O.reply result)) }
{
    let Some(score) = score_of(books, key, member) else {
        return O::of_reply(Reply::NullBulk);
    };
    match total_before(books, key, &score, member) {
        Some(total) => O::of_reply(count_reply(total)),
        None => O::of_cut(Stopped::NoMemory, 0),
    }
}

/// ZREVRANK: how many pairs go after the member's, and the null bulk where it is not there.
pub fn read_turned_rank<B: Books, O: Outcome>(books: &B, key: &[u8], member: &[u8]) -> O
    requires lent { IsLending (B.lent books.now) }
    requires home { HasBook key.now member.now (B.lent books.now) }
    requires key { length key.now ≤ LONGEST }
    ensures read { IsReadAs (ForReply false (length (queues_in (B.lent books.now) key.now)))
        (plan.place_reply (turned_rank_in (queues_in (B.lent books.now) key.now) member.now))
        (reply_bytes (O.reply result)) (O.is_short result) }
    ensures writable { IsTrue (is_writable (O.reply result)) }
{
    let Some(score) = score_of(books, key, member) else {
        return O::of_reply(Reply::NullBulk);
    };
    match total_after(books, key, &score, member) {
        Some(total) => O::of_reply(count_reply(total)),
        None => O::of_cut(Stopped::NoMemory, 0),
    }
}
