//! EXISTS and TYPE.

ghost use Rattle.std.specs.Prelude.{IsTrue, count_by, length, ◌≡◌, ◌≤◌};
ghost use Rattle.zq_commands.specs.Lending.{IsLending, queues_in};
ghost use Rattle.zq_resp.specs.Reply.{is_writable, reply_bytes};
ghost use Rattle.zq_semantics.specs.Plan.{is_there};
ghost use Rattle.zq_semantics.specs.Procedures.{type_text};
ghost use Rattle.zq_semantics.specs.Replies as plan;
ghost use Rattle.zq_words.specs.Words.{views};

use crate::books::Books;
use crate::first_of_key::top_of;
use crate::ran::Outcome;
use crate::replies::count_reply;
use zq_resp::Reply;

/// EXISTS: how many of the keys have members. A key counts as often as it is named.
pub fn read_keys<B: Books, O: Outcome>(books: &B, keys: &[Vec<u8>]) -> O
    requires lent { IsLending (B.lent books.now) }
    requires few { length keys.now ≤ 65536 }
    ensures bytes { reply_bytes (O.reply result) ≡ plan.bytes_of (plan.count_reply
        (count_by (λ key. is_there (queues_in (B.lent books.now) key)) (views keys.now))) }
    ensures writable { IsTrue (is_writable (O.reply result)) }
{
    let mut count = 0;
    for key in keys {
        if has_members(books, key) {
            count += 1;
        }
    }
    O::of_reply(count_reply(count))
}

/// TYPE: what is behind the key, which is a sorted set or nothing.
pub fn read_type<B: Books, O: Outcome>(books: &B, key: &[u8]) -> O
    requires { IsLending (B.lent books.now) }
    ensures bytes { reply_bytes (O.reply result) ≡ plan.bytes_of (plan.Simple
        (type_text (queues_in (B.lent books.now) key.now))) }
    ensures writable { IsTrue (is_writable (O.reply result)) }
{
    if has_members(books, key) {
        O::of_reply(Reply::Simple("zset"))
    } else {
        O::of_reply(Reply::Simple("none"))
    }
}

/// Whether a key has members.
pub fn has_members<B: Books>(books: &B, key: &[u8]) -> bool
    requires { IsLending (B.lent books.now) }
    ensures { result ≡ is_there (queues_in (B.lent books.now) key.now) }
{
    top_of(books, key).is_some()
}
