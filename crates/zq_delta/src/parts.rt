//! What an operation is made of, before memory is asked for.

ghost use Rattle.std.specs.Prelude.{◌≡◌, ◌++◌, IfOk};
ghost use Rattle.zq_delta.specs.Fields.{fields_at, placed};
ghost use Rattle.zq_delta.specs.Spelling.{fields};
ghost use Rattle.zq_delta.specs.Version.{HasSpelling};
ghost use Rattle.zq_dots.specs.Act.{act_of};
ghost use Rattle.zq_dots.specs.Placed.{IsRanged};
ghost use Rattle.zq_fields.specs.Reading.{Gives};

use crate::act::read_act;
use crate::head::{Head, read_head};
use crate::vector::read_vector;
use crate::version::Version;
use std::alloc::{AllocError, Global};
use zq_dots::{Act, Dot, Op, Vector};
use zq_fields::{PartFault, read_text};

#[derive(Clone, Copy, Debug)]
pub(crate) struct Parts<'a> {
    head: Head,
    seen: Vector,
    act: Act,
    key: &'a [u8],
    member: &'a [u8],
}

/// Takes what follows the version.
#[tactic(auto, unfolding(crate::specs::Fields::fields_at, crate::specs::Spelling::fields))]
pub(crate) fn read_parts<'a>(
    version: Version,
    whole: usize,
    bytes: &mut &'a [u8],
) -> Result<Parts<'a>, PartFault>
    ensures exact { Gives
        (λ p. (placed p.head p.seen (act_of p.act) p.key.now p.member.now, bytes.new.now)) result
        (fields_at version whole bytes.old.now) }
    ensures found { IfOk result
        (λ p. bytes.old.now ≡ fields version
        (placed p.head p.seen (act_of p.act) p.key.now p.member.now) ++ bytes.new.now) }
    ensures version { IfOk result
        (λ p. HasSpelling version (placed p.head p.seen (act_of p.act) p.key.now p.member.now)) }
    ensures sound { IfOk result
        (λ p. IsRanged (placed p.head p.seen (act_of p.act) p.key.now p.member.now)) }
{
    let head = read_head(version, whole, bytes)?;
    let seen = read_vector(version, whole, head.site, bytes)?;
    let act = read_act(whole, bytes)?;
    let key = read_text(bytes)?;
    let member = read_text(bytes)?;
    Ok(Parts {
        head,
        seen,
        act,
        key,
        member,
    })
}

/// The operation of these parts, over copies of its texts.
#[tactic(auto, unfolding(zq_model::specs::Sets::LAST))]
pub(crate) fn operation(alloc: Global, parts: &Parts<'_>) -> Result<Op, AllocError>
    requires { IsRanged (placed parts.now.head parts.now.seen
        (act_of parts.now.act) parts.now.key.now parts.now.member.now) }
    ensures { IfOk result
        (λ o. o ≡ placed parts.now.head parts.now.seen
        (act_of parts.now.act) parts.now.key.now parts.now.member.now) }
{
    let head = parts.head;
    let dot = Dot {
        site: head.site,
        n: parts.seen.get(head.site) + 1,
    };
    let key = Vec::from_slice(alloc, parts.key)?;
    let member = Vec::from_slice(alloc, parts.member)?;
    Ok(Op::new(
        head.heap.heap,
        head.heap.heaps,
        dot,
        parts.seen,
        key,
        member,
        parts.act,
    ))
}
