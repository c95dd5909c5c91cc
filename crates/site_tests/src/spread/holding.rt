//! What a pass finds while another one holds a heap. With key q and 2 heaps the member y lies in
//! heap 0 and x in heap 1.
ghost use Rattle.std.specs.Prelude.{◌≡◌, ◌<◌, IfSome, length};
ghost use Rattle.zq_spread.specs.Passes.{IsPassOf};

use super::asking::{Line, follow, try_ask};
use super::opened;
use std::alloc::Global;
use std::process::Abort;
use std::test::Fail;
use zq_spread::{Busy, HoldFault, Pass, Site};

/// A line, and its answer, or `None` where it is `Busy`.
type Tried = (&'static str, Option<&'static str>);

const BEFORE: [Line; 1] = [("ZADD q 4 y 5 x", (0, 0), ":2\r\n")];

const WHILE_HELD: [Tried; 10] = [
    ("ZSCORE q y", None),
    ("ZSCORE q x", Some("$1\r\n5\r\n")),
    ("PING", Some("+PONG\r\n")),
    ("ZADD q 7 y", None),
    ("ZADD q 6 x", Some(":0\r\n")),
    ("ZADD q 7 y 8 x", None),
    ("ZCARD q", None),
    ("ZPOPMIN q", None),
    ("ZPOPNEAR q", None),
    ("ZSCORE q x", Some("$1\r\n6\r\n")),
];

const AFTER: [Tried; 3] = [
    ("ZSCORE q y", Some("$1\r\n4\r\n")),
    ("ZCARD q", Some(":2\r\n")),
    (
        "ZRANGE q 0 -1 WITHSCORES",
        Some("*4\r\n$1\r\ny\r\n$1\r\n4\r\n$1\r\nx\r\n$1\r\n6\r\n"),
    ),
];

/// Whether that is the answer.
fn is_said(answer: &Option<Result<Vec<u8>, Busy>>, says: Option<&str>) -> bool {
    match answer {
        Some(Ok(bytes)) => says.map(str::as_bytes) == Some(bytes.as_slice()),
        Some(Err(Busy)) => says.is_none(),
        None => false,
    }
}

/// Tries the lines in turn, and looks at each answer.
fn try_each<R: Abort>(rt: &R, alloc: Global, site: &Site, pass: &mut Pass, lines: &[Tried])
    requires { IsPassOf site.now pass.old }
    ensures { IsPassOf site.now pass.new }
{
    for (line, says) in lines {
        let answer = try_ask(alloc, site, pass, line, (0, 0));
        assert!(rt; is_said(&answer, *says), "{line}");
    }
}

/// Holds heap 0 by the first pass while the second one tries lines. `None` where it was not free.
fn hold_while_tried<R: Abort>(
    rt: &R,
    alloc: Global,
    site: &Site,
    first: Pass,
    second: &mut Pass,
) -> Option<Pass>
    requires heaps { 0 < length site.now.slots.items }
    requires first { IsPassOf site.now first }
    requires second { IsPassOf site.now second.old }
    ensures first { IfSome result (IsPassOf site.now) }
    ensures second { IsPassOf site.now second.new }
{
    let Ok(holding) = site.hold(first, 0) else {
        return None;
    };
    try_each(rt, alloc, site, second, &WHILE_HELD);
    Some(site.release(holding))
}

#[test]
fn a_heap_that_is_held_leaves_the_others_free(rt: HostRuntime) -> Result<(), Fail> {
    let alloc = rt.alloc();
    let (site, first, mut second) = opened(alloc, 0, 2).ok_or("memory")?;
    follow(&rt, alloc, &site, &mut second, &BEFORE);
    let mut first = hold_while_tried(&rt, alloc, &site, first, &mut second).ok_or("not free")?;
    try_each(&rt, alloc, &site, &mut second, &AFTER);
    try_each(&rt, alloc, &site, &mut first, &AFTER);
    Ok(())
}

/// Why the pass does not hold heap 0, if it does not.
fn fault_of(site: &Site, pass: Pass) -> Option<HoldFault>
    requires heaps { 0 < length site.now.slots.items }
    requires pass { IsPassOf site.now pass }
{
    match site.hold(pass, 0) {
        Ok(holding) => {
            site.release(holding);
            None
        }
        Err((fault, _)) => Some(fault),
    }
}

/// Why the second pass does not hold heap 0 while the first one does.
fn fault_while_held(site: &Site, first: Pass, second: Pass) -> Option<HoldFault>
    requires heaps { 0 < length site.now.slots.items }
    requires first { IsPassOf site.now first }
    requires second { IsPassOf site.now second }
{
    let Ok(holding) = site.hold(first, 0) else {
        return None;
    };
    let fault = fault_of(site, second);
    site.release(holding);
    fault
}

#[test]
fn a_heap_is_held_once(rt: HostRuntime) -> Result<(), Fail> {
    let (site, first, second) = opened(rt.alloc(), 0, 2).ok_or("memory")?;
    assert_eq!(rt;
        fault_while_held(&site, first, second),
        Some(HoldFault::Busy)
    );
    Ok(())
}
