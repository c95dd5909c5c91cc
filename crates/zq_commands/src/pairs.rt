//! Pairs as the parts of a reply.

ghost use Rattle.std.specs.Prelude.{IfOk, IsTrue, OnErr, OnOk, [], drop, flat_map, map, ◌++◌, ◌∷◌, ◌≡◌};
ghost use Rattle.zq_commands.specs.Arrays.{are_writable};
ghost use Rattle.zq_commands.specs.FirstPairs.{lent_pair};
ghost use Rattle.zq_commands.specs.Running.{IsReadAs};
ghost use Rattle.zq_semantics.specs.Plan.{is_there};
ghost use Rattle.zq_semantics.specs.Replies as plan;
ghost use Rattle.zq_semantics.specs.Run.{ForReply};
ghost use Rattle.zq_resp.specs.Reply.{bulk, is_writable, reply_bytes};

use crate::ran::Outcome;
use crate::replies::array_reply;
use crate::stopped::Stopped;
use std::alloc::{AllocError, Global};
use zq_resp::{Reply, Text};

/// The members of these pairs from a place on, each with its score behind it where scores are asked
/// for.
pub fn pairs_reply<O: Outcome>(
    alloc: Global,
    pairs: &[(i128, &[u8])],
    from: usize,
    with_scores: bool,
) -> O
    ensures read { IsReadAs (ForReply (is_there (drop from (map lent_pair pairs.now))) 0)
        (plan.pairs_reply with_scores (drop from (map lent_pair pairs.now)))
        (reply_bytes (O.reply result)) (O.is_short result) }
    ensures writable { IsTrue (is_writable (O.reply result)) }
{
    match copy_parts(alloc, pairs, from, with_scores) {
        Ok(parts) => O::of_reply(array_reply(parts)),
        Err(AllocError) => O::of_cut(Stopped::NoMemory, 0),
    }
}

pub fn copy_parts(
    alloc: Global,
    pairs: &[(i128, &[u8])],
    from: usize,
    with_scores: bool,
) -> Result<Vec<Reply>, AllocError>
    ensures parts { IfOk result (λ parts. map reply_bytes parts.items
        ≡ map bulk (flat_map (plan.parts_of_pair with_scores)
        (drop from (map lent_pair pairs.now)))) }
    ensures some { OnErr result (IsTrue (is_there (drop from (map lent_pair pairs.now)))) }
    ensures writable { IfOk result (λ parts. IsTrue (are_writable parts.items)) }
{
    let mut parts = Vec::new(alloc);
    for place in from..pairs.len() {
        push_pair(alloc, &mut parts, &pairs[place], with_scores)?;
    }
    Ok(parts)
}

/// Puts a pair behind the parts. Where there is no memory for all of it, its member may stand
/// there.
pub fn push_pair(
    alloc: Global,
    parts: &mut Vec<Reply>,
    pair: &(i128, &[u8]),
    with_scores: bool,
) -> Result<(), AllocError>
    ensures parts { OnOk result (map reply_bytes parts.new.items ≡ map reply_bytes parts.old.items
        ++ map bulk (plan.parts_of_pair with_scores (lent_pair pair.now))) }
    ensures writable { IsTrue (are_writable parts.old.items) →
        IsTrue (are_writable parts.new.items) }
{
    let member = Text::from_slice(alloc, pair.1)?;
    push_part(parts, Reply::Bulk(member))?;
    if with_scores {
        push_part(parts, Reply::Number(pair.0))?;
    }
    Ok(())
}

pub fn push_part(parts: &mut Vec<Reply>, part: Reply) -> Result<(), AllocError>
    requires { IsTrue (is_writable part) }
    ensures parts { OnOk result (map reply_bytes parts.new.items ≡ map reply_bytes parts.old.items
        ++ reply_bytes part ∷ []) }
    ensures writable { IsTrue (are_writable parts.old.items) →
        IsTrue (are_writable parts.new.items) }
{
    parts.push(part)?;
    Ok(())
}
