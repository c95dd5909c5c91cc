//! Threads that call one site, each by a pass of its own.
ghost use Rattle.std.specs.Prelude.{◌<◌, ◌≤◌, IfSome, length};
ghost use Rattle.zq_spread.specs.Companies.{AreAllPasses};
ghost use Rattle.zq_spread.specs.Passes.{IsPassOf};

use super::asking::{Line, ask, follow};
use super::{opened, opened_for, two_of};
use std::alloc::Global;
use std::process::Abort;
use std::sync::Wait;
use std::test::Fail;
use std::thread::{Threads, for_each_mut};
use zq_spread::{Pass, Site};

/// Adds a member that no other call and no other place adds.
fn add_one<R: Wait>(
    rt: &R,
    alloc: Global,
    site: &Site,
    pass: &mut Pass,
    place: usize,
    call: u32,
) -> Option<Vec<u8>>
    requires { IsPassOf site.now pass.old }
    ensures { IsPassOf site.now pass.new }
{
    let line = format!(in alloc; "ZADD q {call} {place}-{call}").ok()?;
    ask(rt, alloc, site, pass, line.as_str(), (0, 0))
}

/// Adds members by so many calls, one by each.
fn add_own<R: Wait + Abort>(
    rt: &R,
    alloc: Global,
    site: &Site,
    pass: &mut Pass,
    place: usize,
    calls: u32,
)
    requires { IsPassOf site.now pass.old }
    ensures { IsPassOf site.now pass.new }
{
    for call in 0..calls {
        let answer = add_one(rt, alloc, site, pass, place, call);
        assert!(rt;
            answer.as_deref() == Some(b":1\r\n".as_slice()),
            "call {call} of {place}"
        );
    }
}

/// Writes a member, and reads it back so often.
fn read_back<R: Wait + Abort>(rt: &R, alloc: Global, site: &Site, pass: &mut Pass, times: u32)
    requires { IsPassOf site.now pass.old }
    ensures { IsPassOf site.now pass.new }
{
    follow(rt, alloc, site, pass, &[("ZADD q 4 y", (0, 0), ":1\r\n")]);
    for _time in 0..times {
        follow(
            rt,
            alloc,
            site,
            pass,
            &[("ZSCORE q y", (0, 0), "$1\r\n4\r\n")],
        );
    }
}

/// The first reads back what it wrote, and the others add members.
fn read_or_add<R: Wait + Abort>(
    rt: &R,
    alloc: Global,
    site: &Site,
    pass: &mut Pass,
    place: usize,
    calls: u32,
)
    requires { IsPassOf site.now pass.old }
    ensures { IsPassOf site.now pass.new }
{
    if place == 0 {
        read_back(rt, alloc, site, pass, calls);
    } else {
        add_own(rt, alloc, site, pass, place, calls);
    }
}

/// Calls by each of the passes, in a thread of its own. The places of the passes are the numbers
/// from the first one on.
fn call_in_crowd<R: Threads + Wait + Abort + Sync>(
    rt: &R,
    alloc: Global,
    site: &Site,
    passes: &mut [Pass],
    first: usize,
    calls: u32,
)
    requires { AreAllPasses site.now passes.old }
    ensures { AreAllPasses site.now passes.new }
{
    let threads = passes.len();
    for_each_mut(
        rt,
        passes,
        threads,
        &|place: usize, pass: &mut Pass|
            requires { IsPassOf site.now pass.now }
            ensures { IsPassOf site.entry.now pass.exit.now }
        {
            read_or_add(rt, alloc, site, pass, place.saturating_add(first), calls);
        },
    );
}

/// Whether these passes, which are all, are tallied in each of two heaps.
fn are_tallied<R: Wait>(rt: &R, site: &Site, passes: &mut [Pass]) -> bool
    requires heaps { 2 ≤ length site.now.slots.items }
    requires passes { AreAllPasses site.now passes.old }
    ensures passes { AreAllPasses site.now passes.new }
{
    let first = site.tally(rt, passes, 0).is_ok();
    first && site.tally(rt, passes, 1).is_ok()
}

/// Whether two passes meet in each of two heaps.
fn have_met<R: Wait>(rt: &R, site: &Site, first: &mut Pass, second: &mut Pass) -> bool
    requires heaps { 2 ≤ length site.now.slots.items }
    requires first { IsPassOf site.now first.old }
    requires second { IsPassOf site.now second.old }
    ensures first { IsPassOf site.now first.new }
    ensures second { IsPassOf site.now second.new }
{
    let here = site.meet(rt, first, second, 0).is_ok();
    here && site.meet(rt, second, first, 1).is_ok()
}

/// The audit of a heap's book, while it is held. `None` where the heap was not free.
fn audited(alloc: Global, site: &Site, pass: Pass, heap: u8) -> Option<(bool, Pass)>
    requires heap { heap < length site.now.slots.items }
    requires pass { IsPassOf site.now pass }
    ensures pass { IfSome result (λ audited. IsPassOf site.now audited.1) }
{
    let Ok(holding) = site.hold(pass, heap) else {
        return None;
    };
    let audit = holding.book().audit(alloc);
    let pass = site.release(holding);
    Some((audit == Ok(true), pass))
}

/// Whether both books are sound, as an audit says. `None` where a heap was not free.
fn are_sound(alloc: Global, site: &Site, pass: Pass) -> Option<bool>
    requires heaps { 2 ≤ length site.now.slots.items }
    requires pass { IsPassOf site.now pass }
{
    let (first, pass) = audited(alloc, site, pass, 0)?;
    let (second, _) = audited(alloc, site, pass, 1)?;
    Some(first && second)
}

/// Whether another site that merges the state of a heap then has the same vector there.
fn is_merged<R: Wait>(
    rt: &R,
    alloc: Global,
    site: &Site,
    pass: &mut Pass,
    other: &Site,
    guest: &mut Pass,
    heap: u8,
) -> Option<bool>
    requires heap { (heap < length site.now.slots.items) × (heap < length other.now.slots.items) }
    requires pass { IsPassOf site.now pass.old }
    requires guest { IsPassOf other.now guest.old }
    ensures pass { IsPassOf site.now pass.new }
{
    let state = site.state(rt, alloc, pass, heap).ok()?;
    other.merge(rt, alloc, guest, &state).ok()?;
    let vector = site.vector(rt, pass, heap).ok()?;
    let merged = other.vector(rt, guest, heap).ok()?;
    Some(merged == vector)
}

const ALL_THERE: [Line; 3] = [
    ("ZCARD q", (0, 0), ":1000\r\n"),
    ("ZSCORE q 1-499", (0, 0), "$3\r\n499\r\n"),
    ("ZSCORE q 2-0", (0, 0), "$1\r\n0\r\n"),
];

#[test]
fn two_threads_add_side_by_side(rt: HostRuntime) -> Result<(), Fail> {
    let (site, mut passes) = opened_for(rt.alloc(), 2)?;
    call_in_crowd(&rt, rt.alloc(), &site, passes.as_mut_slice(), 1, 500);
    for pass in &passes {
        assert_eq!(rt; pass.steps(0).wrapping_add(pass.steps(1)), 500);
    }
    assert!(rt; are_tallied(&rt, &site, passes.as_mut_slice()));
    let (mut pass, mut other_pass) = two_of(&site, passes).ok_or("two passes")?;
    assert!(rt; have_met(&rt, &site, &mut pass, &mut other_pass));
    follow(&rt, rt.alloc(), &site, &mut pass, &ALL_THERE);
    let (other, mut guest, _) = opened(rt.alloc(), 1, 2).ok_or("memory")?;
    let merged = is_merged(&rt, rt.alloc(), &site, &mut pass, &other, &mut guest, 0);
    assert_eq!(rt; merged, Some(true));
    assert_eq!(rt; are_sound(rt.alloc(), &site, pass), Some(true));
    Ok(())
}

#[test]
fn a_pass_reads_back_what_it_wrote_while_others_write(rt: HostRuntime) -> Result<(), Fail> {
    let (site, mut passes) = opened_for(rt.alloc(), 3)?;
    call_in_crowd(&rt, rt.alloc(), &site, passes.as_mut_slice(), 0, 500);
    Ok(())
}
