//! ZMSCORE.

ghost use Rattle.std.specs.Prelude.{All, IfOk, IsTrue, length, map, true, ◌≡◌, ◌≤◌};
ghost use Rattle.zq_commands.specs.Arrays.{are_writable};
ghost use Rattle.zq_commands.specs.Lending.{HasBook, IsLending, queues_in};
ghost use Rattle.zq_commands.specs.Running.{IsReadAs};
ghost use Rattle.zq_model.specs.Moves.{score_in};
ghost use Rattle.zq_model.specs.Operation.{LONGEST};
ghost use Rattle.zq_resp.specs.Reply.{is_writable, reply_bytes};
ghost use Rattle.zq_semantics.specs.Replies as plan;
ghost use Rattle.zq_semantics.specs.Run.{ForReply};
ghost use Rattle.zq_words.specs.Words.{views};

use crate::books::Books;
use crate::pairs::push_part;
use crate::ran::Outcome;
use crate::replies::{array_reply, score_reply};
use crate::scores::score_of;
use crate::stopped::Stopped;
use std::alloc::{AllocError, Global};
use zq_resp::Reply;

/// The score of each member as a text, and the null bulk for each that is not there.
pub fn read_scores<B: Books, O: Outcome>(
    books: &B,
    alloc: Global,
    key: &[u8],
    members: &[Vec<u8>],
) -> O
    requires lent { IsLending (B.lent books.now) }
    requires homes { All (λ member. HasBook key.now member (B.lent books.now)) (views members.now) }
    requires key { length key.now ≤ LONGEST }
    ensures read { IsReadAs (ForReply true 0)
        (plan.Scores (map (score_in (queues_in (B.lent books.now) key.now)) (views members.now)))
        (reply_bytes (O.reply result)) (O.is_short result) }
    ensures writable { IsTrue (is_writable (O.reply result)) }
{
    match copy_scores(books, alloc, key, members) {
        Ok(parts) => O::of_reply(array_reply(parts)),
        Err(AllocError) => O::of_cut(Stopped::NoMemory, 0),
    }
}

fn copy_scores<B: Books>(
    books: &B,
    alloc: Global,
    key: &[u8],
    members: &[Vec<u8>],
) -> Result<Vec<Reply>, AllocError>
    requires lent { IsLending (B.lent books.now) }
    requires homes { All (λ member. HasBook key.now member (B.lent books.now)) (views members.now) }
    requires key { length key.now ≤ LONGEST }
    ensures parts { IfOk result (λ parts. map reply_bytes parts.items ≡ map plan.score_bytes
        (map (score_in (queues_in (B.lent books.now) key.now)) (views members.now))) }
    ensures writable { IfOk result (λ parts. IsTrue (are_writable parts.items)) }
{
    let mut parts = Vec::with_capacity(alloc, members.len())?;
    for member in members {
        push_part(&mut parts, score_reply(score_of(books, key, member)))?;
    }
    Ok(parts)
}
