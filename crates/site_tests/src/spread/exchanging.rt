//! Two sites of two heaps that exchange what they made. Expected bytes are those of Redis and of
//! the rules for merging.
ghost use Rattle.std.specs.Prelude.{◌<◌, ◌≤◌, length};
ghost use Rattle.zq_spread.specs.Passes.{IsPassOf};

use super::asking::follow;
use super::opened;
use std::alloc::Global;
use std::process::Abort;
use std::sync::Wait;
use std::test::Fail;
use zq_dots::Op;
use zq_journal::Since;
use zq_shard::Taken;
use zq_spread::{Pass, Site};

/// What is done.
#[derive(Clone, Copy)]
enum Step {
    /// The first site is asked a line, and answers these bytes.
    A(&'static str, &'static str),
    /// The second site is.
    B(&'static str, &'static str),
    /// Each site is given the operations that it lacks, each one twice.
    Give,
    /// Each site merges the states of the other one.
    Merge,
}

use Step::{A, B, Give, Merge};

/// Increments made apart are all added, once.
const SUMS: [Step; 9] = [
    A("ZADD q 10 x", ":1\r\n"),
    Give,
    A("ZINCRBY q 5 x", "$2\r\n15\r\n"),
    B("ZINCRBY q 7 x", "$2\r\n17\r\n"),
    Give,
    A("ZSCORE q x", "$2\r\n22\r\n"),
    Merge,
    A("ZSCORE q x", "$2\r\n22\r\n"),
    B("ZSCORE q x", "$2\r\n22\r\n"),
];

/// What was added apart stays where the member is removed.
const ADDED_APART: [Step; 7] = [
    A("ZADD q 3 x", ":1\r\n"),
    Give,
    A("ZREM q x", ":1\r\n"),
    B("ZADD q 4 x", ":0\r\n"),
    Give,
    A("ZSCORE q x", "$1\r\n4\r\n"),
    B("ZSCORE q x", "$1\r\n4\r\n"),
];

/// An increment made apart goes with what it raised.
const RAISED_APART: [Step; 7] = [
    A("ZADD q 3 x", ":1\r\n"),
    Merge,
    A("ZREM q x", ":1\r\n"),
    B("ZINCRBY q 7 x", "$2\r\n10\r\n"),
    Merge,
    A("ZSCORE q x", "$-1\r\n"),
    B("ZSCORE q x", "$-1\r\n"),
];

/// The greatest of the values put apart counts.
const GREATEST: [Step; 9] = [
    A("ZADD q 5 x", ":1\r\n"),
    B("ZADD q 9 x", ":1\r\n"),
    Give,
    A("ZSCORE q x", "$1\r\n9\r\n"),
    B("ZSCORE q x", "$1\r\n9\r\n"),
    A("ZINCRBY q -6 x", "$1\r\n3\r\n"),
    Give,
    A("ZSCORE q x", "$1\r\n3\r\n"),
    B("ZSCORE q x", "$1\r\n3\r\n"),
];

/// Sums that pass the range of a score are kept, and no command makes one.
const WIDE: [Step; 9] = [
    A("ZADD q 0 x", ":1\r\n"),
    Give,
    A(
        "ZINCRBY q 9007199254740992 x",
        "$16\r\n9007199254740992\r\n",
    ),
    B(
        "ZINCRBY q 9007199254740992 x",
        "$16\r\n9007199254740992\r\n",
    ),
    Give,
    A("ZSCORE q x", "$17\r\n18014398509481984\r\n"),
    B("ZSCORE q x", "$17\r\n18014398509481984\r\n"),
    A("ZINCRBY q 1 x", "-ERR result out of range\r\n"),
    A(
        "ZINCRBY q -9007199254740992 x",
        "$16\r\n9007199254740992\r\n",
    ),
];

/// A member may be popped at both sites.
const POPPED: [Step; 7] = [
    A("ZADD q 1 x", ":1\r\n"),
    Give,
    A("ZPOPMIN q", "*2\r\n$1\r\nx\r\n$1\r\n1\r\n"),
    B("ZPOPMIN q", "*2\r\n$1\r\nx\r\n$1\r\n1\r\n"),
    Give,
    A("ZCARD q", ":0\r\n"),
    B("ZCARD q", ":0\r\n"),
];

const ROWS: [&[Step]; 6] = [
    &SUMS,
    &ADDED_APART,
    &RAISED_APART,
    &GREATEST,
    &WIDE,
    &POPPED,
];

/// Takes each of the operations twice.
fn take_twice<R: Wait + Abort>(rt: &R, alloc: Global, site: &Site, pass: &mut Pass, ops: &[Op])
    requires { IsPassOf site.now pass.old }
    ensures { IsPassOf site.now pass.new }
{
    for op in ops {
        let first = site.take(rt, alloc, pass, op);
        let again = site.take(rt, alloc, pass, op);
        assert!(rt; first == Ok(Taken::New) && again == Ok(Taken::Known));
    }
}

/// The operations of a heap that another site lacks.
fn lacking<R: Wait>(
    rt: &R,
    alloc: Global,
    from: &Site,
    giver: &mut Pass,
    to: &Site,
    taker: &mut Pass,
    heap: u8,
) -> Option<Vec<Op>>
    requires heap { (heap < length from.now.slots.items) × (heap < length to.now.slots.items) }
    requires giver { IsPassOf from.now giver.old }
    requires taker { IsPassOf to.now taker.old }
    ensures giver { IsPassOf from.now giver.new }
    ensures taker { IsPassOf to.now taker.new }
{
    let vector = to.vector(rt, taker, heap).ok()?;
    match from.since(rt, alloc, giver, heap, &vector).ok()? {
        Since::TooOld => None,
        Since::Ops(ops) => Some(ops),
    }
}

/// Gives a site what it lacks of each heap.
fn give<R: Wait + Abort>(
    rt: &R,
    alloc: Global,
    from: &Site,
    giver: &mut Pass,
    to: &Site,
    taker: &mut Pass,
)
    requires heaps { (2 ≤ length from.now.slots.items) × (2 ≤ length to.now.slots.items) }
    requires giver { IsPassOf from.now giver.old }
    requires taker { IsPassOf to.now taker.old }
    ensures giver { IsPassOf from.now giver.new }
    ensures taker { IsPassOf to.now taker.new }
{
    for heap in 0..2u8 {
        match lacking(rt, alloc, from, giver, to, taker, heap) {
            Some(ops) => take_twice(rt, alloc, to, taker, &ops),
            None => panic!(rt; "heap {heap}"),
        }
    }
}

/// Has a site merge a heap of another one, and says whether it did.
fn is_merged<R: Wait>(
    rt: &R,
    alloc: Global,
    from: &Site,
    giver: &mut Pass,
    to: &Site,
    taker: &mut Pass,
    heap: u8,
) -> bool
    requires heap { heap < length from.now.slots.items }
    requires giver { IsPassOf from.now giver.old }
    requires taker { IsPassOf to.now taker.old }
    ensures giver { IsPassOf from.now giver.new }
    ensures taker { IsPassOf to.now taker.new }
{
    match from.state(rt, alloc, giver, heap) {
        Ok(state) => to.merge(rt, alloc, taker, &state).is_ok(),
        Err(_) => false,
    }
}

/// Has a site merge each heap of another one.
fn merge<R: Wait + Abort>(
    rt: &R,
    alloc: Global,
    from: &Site,
    giver: &mut Pass,
    to: &Site,
    taker: &mut Pass,
)
    requires heaps { 2 ≤ length from.now.slots.items }
    requires giver { IsPassOf from.now giver.old }
    requires taker { IsPassOf to.now taker.old }
    ensures giver { IsPassOf from.now giver.new }
    ensures taker { IsPassOf to.now taker.new }
{
    for heap in 0..2u8 {
        assert!(rt;
            is_merged(rt, alloc, from, giver, to, taker, heap),
            "heap {heap}"
        );
    }
}

/// Does a step.
fn take_step<R: Wait + Abort>(
    rt: &R,
    alloc: Global,
    a: &Site,
    first: &mut Pass,
    b: &Site,
    second: &mut Pass,
    step: Step,
)
    requires heaps { (2 ≤ length a.now.slots.items) × (2 ≤ length b.now.slots.items) }
    requires first { IsPassOf a.now first.old }
    requires second { IsPassOf b.now second.old }
    ensures first { IsPassOf a.now first.new }
    ensures second { IsPassOf b.now second.new }
{
    match step {
        A(line, says) => follow(rt, alloc, a, first, &[(line, (0, 0), says)]),
        B(line, says) => follow(rt, alloc, b, second, &[(line, (0, 0), says)]),
        Give => {
            give(rt, alloc, a, first, b, second);
            give(rt, alloc, b, second, a, first);
        }
        Merge => {
            merge(rt, alloc, a, first, b, second);
            merge(rt, alloc, b, second, a, first);
        }
    }
}

/// Follows the steps by two new sites.
fn follow_row<R: Wait + Abort>(rt: &R, alloc: Global, steps: &[Step]) -> Option<()> {
    let (a, mut first, _) = opened(alloc, 7, 2)?;
    let (b, mut second, _) = opened(alloc, 63, 2)?;
    for step in steps {
        take_step(rt, alloc, &a, &mut first, &b, &mut second, *step);
    }
    Some(())
}

#[test]
fn two_sites_meet(rt: HostRuntime) -> Result<(), Fail> {
    for row in ROWS {
        follow_row(&rt, rt.alloc(), row).ok_or("memory")?;
    }
    Ok(())
}
