//! Replies of commands.

ghost use Rattle.std.specs.Prelude.{IsTrue, None, Some, map, option_map, ◌<◌, ◌^◌, ◌≡◌};
ghost use Rattle.zq_commands.specs.Arrays.{are_writable, array_bytes};
ghost use Rattle.zq_commands.specs.Stopped.{want_of};
ghost use Rattle.zq_commands.specs.Running.{IsRead, IsReadAs};
ghost use Rattle.zq_semantics.specs.Replies as plan;
ghost use Rattle.zq_semantics.specs.Run.{ForReply, cut_text, is_long};
ghost use Rattle.zq_resp.specs.Reply.{is_writable, reply_bytes};

use crate::ran::Outcome;
use crate::stopped::Stopped;
use std::alloc::{AllocError, Global};
use zq_resp::{Reply, Text};

/// A number of members.
pub fn count_reply(count: u64) -> Reply
    requires { count < 2 ^ 63 }
    ensures bytes { reply_bytes result ≡ plan.bytes_of (plan.count_reply count) }
    ensures writable { IsTrue (is_writable result) }
{
    Reply::Integer(count as i64)
}

/// PING: its message, and PONG where it has none.
pub fn message_reply(alloc: Global, message: Option<&[u8]>) -> Reply
    ensures read { IsRead (ForReply (is_long (option_map (λ m. m.now) message.entry)) 0)
        (plan.ping_reply (option_map (λ m. m.now) message.entry)) (reply_bytes result) }
    ensures writable { IsTrue (is_writable result) }
{
    answer_message(alloc, message)
}

/// The same, with whether memory was refused.
pub fn answer_message<O: Outcome>(alloc: Global, message: Option<&[u8]>) -> O
    ensures read { IsReadAs (ForReply (is_long (option_map (λ m. m.now) message.entry)) 0)
        (plan.ping_reply (option_map (λ m. m.now) message.entry)) (reply_bytes (O.reply result))
        (O.is_short result) }
    ensures writable { IsTrue (is_writable (O.reply result)) }
{
    match message {
        None => O::of_reply(Reply::Simple("PONG")),
        Some(message) => match Text::from_slice(alloc, message) {
            Ok(text) => O::of_reply(Reply::Bulk(text)),
            Err(AllocError) => O::of_cut(Stopped::NoMemory, 0),
        },
    }
}

/// A score as a text, and the null bulk for none.
pub fn score_reply(score: Option<i128>) -> Reply
    ensures bytes { reply_bytes result ≡ plan.bytes_of (plan.score_reply score) }
    ensures writable { IsTrue (is_writable result) }
{
    match score {
        None => Reply::NullBulk,
        Some(score) => Reply::Number(score),
    }
}

/// An array of these parts.
pub fn array_reply(parts: Vec<Reply>) -> Reply
    requires { IsTrue (are_writable parts.items) }
    ensures bytes { reply_bytes result ≡ array_bytes (map reply_bytes parts.items) }
    ensures writable { IsTrue (is_writable result) }
{
    Reply::Array(parts)
}

/// The error of a command of which the first `done` moves stand.
pub fn cut_reply(cut: Stopped, done: u64) -> Reply
    ensures bytes { reply_bytes result
        ≡ plan.bytes_of (plan.Error (cut_text (want_of cut)) (Some done)) }
    ensures writable { IsTrue (is_writable result) }
{
    let text = match cut {
        Stopped::Worn => "ERR worn after",
        Stopped::NoMemory => "OOM after",
    };
    Reply::Error {
        text,
        after: Some(done),
    }
}
