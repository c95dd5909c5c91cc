//! What follows the kind of a control frame.

ghost use Rattle.std.specs.Prelude.{IfOk, IfSome, OnOk, [], ◌++◌, ◌∷◌, ◌≡◌};
ghost use Rattle.zq_fields.specs.Reading.{Gives};
ghost use Rattle.zq_links.specs.Control.{IsAt, IsFetch, IsHeapOf, at_of};
ghost use Rattle.zq_links.specs.ControlParts as read;
ghost use Rattle.zq_links.specs.ControlSpelling as spell;
ghost use Rattle.zq_model.specs.Sets.{IsCounters};

use crate::control::fields::{
    flags_of, read_open, read_routes, read_three, write_routes, write_three,
};
use crate::control::form::{read_form, write_form};
use crate::control::{At, Behind, Fetch};
use std::alloc::AllocError;
use zq_fields::{
    PartFault, read_heap, read_rule, read_sparse, rule_byte, write_bytes, write_sparse,
};

/// Takes what a site has and grants.
#[tactic(auto, unfolding(crate::specs::ControlParts::at_at, crate::specs::ControlSpelling::at_bytes))]
pub(crate) fn read_at(whole: usize, bytes: &mut &[u8]) -> Result<At, PartFault>
    ensures exact { Gives (λ x. (at_of x, bytes.new.now)) result (read.at_at whole bytes.old.now) }
    ensures found { IfOk result (λ x. bytes.old.now ≡ spell.at_bytes (at_of x) ++ bytes.new.now) }
    ensures heap { IfOk result (λ x. IsHeapOf x.heaps x.heap) }
    ensures counters { IfOk result (λ x. IsCounters x.vector) }
{
    let heap = read_heap(whole, bytes)?;
    let rule = read_rule(whole, bytes)?;
    let is_open = read_open(whole, bytes)?;
    let (turn, echo, window) = read_three(bytes)?;
    let routes = read_routes(bytes)?;
    let vector = read_sparse(whole, None, bytes)?;
    Ok(At {
        heaps: heap.heaps,
        heap: heap.heap,
        rule,
        open: is_open,
        turn,
        echo,
        window,
        routes,
        vector,
    })
}

/// Appends what a site has and grants.
#[tactic(auto, unfolding(crate::specs::ControlSpelling::at_bytes))]
pub(crate) fn write_at(out: &mut Vec<u8>, at: &At) -> Result<(), AllocError>
    requires heap { IsHeapOf at.now.heaps at.now.heap }
    requires counters { IsCounters at.now.vector }
    ensures written { OnOk result
        (out.new.items ≡ out.old.items ++ spell.at_bytes (at_of at.now)) }
    ensures sound { OnOk result (IsAt (at_of at.now)) }
{
    write_bytes(
        out,
        &[at.heaps, at.heap, rule_byte(at.rule), flags_of(at.open)],
    )?;
    write_three(out, at.turn, at.echo, at.window)?;
    write_routes(out, &at.routes)?;
    write_sparse(out, &at.vector)
}

/// Takes what a site has, whose receiver is behind.
#[tactic(auto, unfolding(crate::specs::ControlParts::behind_at, crate::specs::ControlSpelling::behind_bytes))]
pub(crate) fn read_behind(whole: usize, bytes: &mut &[u8]) -> Result<Behind, PartFault>
    ensures exact { Gives (λ x. (x, bytes.new.now)) result (read.behind_at whole bytes.old.now) }
    ensures found { IfOk result (λ x. bytes.old.now ≡ spell.behind_bytes x ++ bytes.new.now) }
    ensures heap { IfOk result (λ x. IsHeapOf x.heaps x.heap) }
    ensures counters { IfOk result (λ x. IsCounters x.vector) }
{
    let heap = read_heap(whole, bytes)?;
    let vector = read_sparse(whole, None, bytes)?;
    Ok(Behind {
        heaps: heap.heaps,
        heap: heap.heap,
        vector,
    })
}

/// Appends what a site has, whose receiver is behind.
#[tactic(auto, unfolding(crate::specs::ControlSpelling::behind_bytes))]
pub(crate) fn write_behind(out: &mut Vec<u8>, behind: &Behind) -> Result<(), AllocError>
    requires { IsCounters behind.now.vector }
    ensures { OnOk result (out.new.items ≡ out.old.items ++ spell.behind_bytes behind.now) }
{
    write_bytes(out, &[behind.heaps, behind.heap])?;
    write_sparse(out, &behind.vector)
}

/// Takes which heap's state is asked for, and where its stream is to go on.
#[tactic(auto, unfolding(crate::specs::ControlParts::fetch_at, crate::specs::ControlSpelling::fetch_bytes))]
pub(crate) fn read_fetch(whole: usize, bytes: &mut &[u8]) -> Result<Fetch, PartFault>
    ensures exact { Gives (λ x. (x, bytes.new.now)) result (read.fetch_at whole bytes.old.now) }
    ensures found { IfOk result (λ x. bytes.old.now ≡ spell.fetch_bytes x ++ bytes.new.now) }
    ensures heap { IfOk result (λ x. IsHeapOf x.heaps x.heap) }
    ensures counters { IfOk result (λ x. IfSome x.resume (λ r. IsCounters r.vector)) }
{
    let heap = read_heap(whole, bytes)?;
    let resume = read_form(whole, bytes)?;
    Ok(Fetch {
        heaps: heap.heaps,
        heap: heap.heap,
        resume,
    })
}

/// Appends which heap's state is asked for, and where its stream is to go on.
#[tactic(auto, unfolding(crate::specs::ControlSpelling::fetch_bytes))]
pub(crate) fn write_fetch(out: &mut Vec<u8>, fetch: &Fetch) -> Result<(), AllocError>
    requires heap { IsHeapOf fetch.now.heaps fetch.now.heap }
    requires counters { IfSome fetch.now.resume (λ r. IsCounters r.vector) }
    ensures written { OnOk result (out.new.items ≡ out.old.items ++ spell.fetch_bytes fetch.now) }
    ensures sound { OnOk result (IsFetch fetch.now) }
{
    write_bytes(out, &[fetch.heaps, fetch.heap])?;
    write_form(out, &fetch.resume)
}
