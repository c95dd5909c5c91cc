//! A heap that goes from one site to another in portions, while both are called, and then takes the
//! place of the heap that was there.
ghost use Rattle.std.specs.Prelude.{◌<◌, ◌≤◌, length};
ghost use Rattle.zq_spread.specs.Passes.{IsPassOf};

use super::asking::{Line, follow};
use super::opened;
use std::alloc::Global;
use std::process::Abort;
use std::sync::Wait;
use std::test::Fail;
use zq_dots::{Op, Vector};
use zq_journal::{Since, TakeOverFault};
use zq_posheap::Seeded;
use zq_shard::{Shard, Spot};
use zq_spread::{Pass, Site};
use zq_stage::{Portion, PortionLimits, Stage};

/// The life that the portions are of.
const LIFE: u64 = 9;

/// Two members at once.
const LIMITS: PortionLimits = PortionLimits {
    rows: 2,
    bytes: 1_000_000,
};

/// What the first site is asked before a heap goes.
const BEFORE: [Line; 2] = [
    ("ZADD q 1 a 2 b 3 c 4 d 5 e 6 f 7 g 8 h", (0, 0), ":8\r\n"),
    ("ZADD r 1 a 2 b", (0, 0), ":2\r\n"),
];

/// What the second site is asked meanwhile.
const ELSEWHERE: [Line; 1] = [("ZADD s 1 a 2 b 3 c 4 d", (0, 0), ":4\r\n")];

/// What the first site is asked between two portions, in turn.
const BETWEEN: [&[Line]; 4] = [
    &[("ZREM q a b", (0, 0), ":2\r\n")],
    &[("ZADD q 9 i 1 h", (0, 0), ":1\r\n")],
    &[("ZINCRBY q 5 d", (0, 0), "$1\r\n9\r\n")],
    &[("DEL r", (0, 0), ":1\r\n")],
];

/// The operations of a heap that a site has and this vector lacks.
fn lacking<R: Wait>(
    rt: &R,
    alloc: Global,
    site: &Site,
    pass: &mut Pass,
    heap: u8,
    vector: &Vector,
) -> Option<Vec<Op>>
    requires heap { heap < length site.now.slots.items }
    requires pass { IsPassOf site.now pass.old }
    ensures pass { IsPassOf site.now pass.new }
{
    match site.since(rt, alloc, pass, heap, vector).ok()? {
        Since::TooOld => None,
        Since::Ops(ops) => Some(ops),
    }
}

/// The next portion of a heap of a site.
fn portion<R: Wait>(
    rt: &R,
    alloc: Global,
    site: &Site,
    pass: &mut Pass,
    heap: u8,
    spot: Spot,
) -> Option<Portion>
    requires heap { heap < length site.now.slots.items }
    requires pass { IsPassOf site.now pass.old }
    ensures pass { IsPassOf site.now pass.new }
{
    site.portion(rt, alloc, pass, heap, spot, LIMITS, Seeded::new(3))
        .ok()
}

/// The stage takes what a site has and it lacks.
fn hear<R: Wait>(
    rt: &R,
    alloc: Global,
    site: &Site,
    pass: &mut Pass,
    heap: u8,
    stage: &mut Stage,
) -> Option<()>
    requires heap { heap < length site.now.slots.items }
    requires pass { IsPassOf site.now pass.old }
    ensures pass { IsPassOf site.now pass.new }
{
    let ops = lacking(rt, alloc, site, pass, heap, stage.vector())?;
    for op in &ops {
        stage.take(alloc, op).ok()?;
    }
    Some(())
}

/// The stage takes the next portion of a heap, and what the site made before it. Where the walk goes
/// on then.
fn step<R: Wait>(
    rt: &R,
    alloc: Global,
    site: &Site,
    pass: &mut Pass,
    heap: u8,
    spot: Spot,
    stage: &mut Stage,
) -> Option<Spot>
    requires heap { heap < length site.now.slots.items }
    requires pass { IsPassOf site.now pass.old }
    ensures pass { IsPassOf site.now pass.new }
{
    hear(rt, alloc, site, pass, heap, stage)?;
    let Portion { part, next } = portion(rt, alloc, site, pass, heap, spot)?;
    let number = stage.next();
    stage.piece(alloc, LIFE, number, &part, next.is_end()).ok()?;
    Some(next)
}

/// The first site's heap 0 is asked these lines, and the stage takes the next portion, if one is left.
/// Where the walk goes on then.
fn step_after<R: Wait + Abort>(
    rt: &R,
    alloc: Global,
    site: &Site,
    pass: &mut Pass,
    heap: u8,
    calls: &[Line],
    spot: Spot,
    stage: &mut Stage,
) -> Option<Spot>
    requires heap { heap < length site.now.slots.items }
    requires pass { IsPassOf site.now pass.old }
    ensures pass { IsPassOf site.now pass.new }
{
    if heap == 0 {
        follow(rt, alloc, site, pass, calls);
    }
    if spot.is_end() {
        return Some(spot);
    }
    step(rt, alloc, site, pass, heap, spot, stage)
}

/// A heap of a site that came in portions, with calls between them.
fn gathered<R: Wait + Abort>(
    rt: &R,
    alloc: Global,
    site: &Site,
    pass: &mut Pass,
    heap: u8,
) -> Option<Shard>
    requires heap { heap < length site.now.slots.items }
    requires pass { IsPassOf site.now pass.old }
    ensures pass { IsPassOf site.now pass.new }
{
    let Portion { part, next } = portion(rt, alloc, site, pass, heap, Spot::start())?;
    let mut stage = Stage::new(LIFE, part, next.is_end());
    let mut spot = next;
    for calls in BETWEEN {
        spot = step_after(rt, alloc, site, pass, heap, calls, spot, &mut stage)?;
    }
    while_left(rt, alloc, site, pass, heap, spot, &mut stage)?;
    hear(rt, alloc, site, pass, heap, &mut stage)?;
    stage.finish()
}

/// The stage takes the portions that are left.
fn while_left<R: Wait>(
    rt: &R,
    alloc: Global,
    site: &Site,
    pass: &mut Pass,
    heap: u8,
    spot: Spot,
    stage: &mut Stage,
) -> Option<()>
    requires heap { heap < length site.now.slots.items }
    requires pass { IsPassOf site.now pass.old }
    ensures pass { IsPassOf site.now pass.new }
{
    let mut next = spot;
    for _portion in 0..20u8 {
        if !next.is_end() {
            next = step(rt, alloc, site, pass, heap, next, stage)?;
        }
    }
    Some(())
}

/// A heap that came takes the place of the second site's own, with what that made meanwhile. Then
/// the first site is given what it lacks: whether both have the same.
fn is_taken_over<R: Wait>(
    rt: &R,
    alloc: Global,
    a: &Site,
    first: &mut Pass,
    b: &Site,
    second: &mut Pass,
    heap: u8,
    whole: Shard,
) -> Option<bool>
    requires heap { (heap < length a.now.slots.items) × (heap < length b.now.slots.items) }
    requires first { IsPassOf a.now first.old }
    requires second { IsPassOf b.now second.old }
    ensures first { IsPassOf a.now first.new }
    ensures second { IsPassOf b.now second.new }
{
    let mut whole = whole;
    let lacks = b.take_over(rt, second, &mut whole) == Err(TakeOverFault::Lacks);
    let ops = lacking(rt, alloc, b, second, heap, whole.vector())?;
    for op in &ops {
        whole.take(alloc, op).ok()?;
        a.take(rt, alloc, first, op).ok()?;
    }
    let done = b.take_over(rt, second, &mut whole) == Ok(());
    let one = a.state(rt, alloc, first, heap).ok()?;
    let other = b.state(rt, alloc, second, heap).ok()?;
    Some(lacks && done && one.same(&other))
}

/// Whether each heap of a site goes so to another one.
fn are_moved<R: Wait + Abort>(rt: &R, alloc: Global) -> Option<bool> {
    let (a, mut first, _) = opened(alloc, 7, 2)?;
    let (b, mut second, _) = opened(alloc, 63, 2)?;
    follow(rt, alloc, &a, &mut first, &BEFORE);
    follow(rt, alloc, &b, &mut second, &ELSEWHERE);
    let mut all = true;
    for heap in 0..2u8 {
        let whole = gathered(rt, alloc, &a, &mut first, heap)?;
        all &= is_taken_over(rt, alloc, &a, &mut first, &b, &mut second, heap, whole)?;
    }
    Some(all)
}

#[test]
fn a_heap_goes_to_another_site_in_portions(rt: HostRuntime) -> Result<(), Fail> {
    assert!(rt; are_moved(&rt, rt.alloc()).ok_or("memory")?);
    Ok(())
}
