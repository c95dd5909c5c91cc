//! Sites that take the same operations in opposite order.

use super::{asked, request};
use std::alloc::Global;
use std::process::Abort;
use std::test::Fail;
use zq_world::{Event, World, play};

/// Ten lines, made at five sites, none of which makes two in one heap.
const LINES: [(u8, &str); 10] = [
    (0, "ZADD q 3 a"),
    (0, "ZADD q 1 b"),
    (1, "ZADD q 5 a"),
    (1, "ZADD q 4 d"),
    (2, "ZADD q 8 m"),
    (2, "ZINCRBY q 2 b"),
    (3, "ZADD q 2 y"),
    (3, "ZADD q 6 x"),
    (4, "ZADD q 7 c"),
    (4, "ZADD q 0 x"),
];

/// The number of operations that the lines make.
const MADE: usize = 10;

/// The events of the lines.
fn made(alloc: Global) -> Result<Vec<Event>, Fail> {
    let mut events = Vec::new(alloc);
    for (site, line) in LINES {
        events.push(asked(alloc, site, line, 0, 0)?)?;
    }
    Ok(events)
}

/// A world in which the sixth site takes all operations, in order or from the last on, once or
/// twice.
fn taken(alloc: Global, is_turned: bool, times: usize) -> Result<World, Fail> {
    let mut events = made(alloc)?;
    for place in 0..MADE {
        let op = if is_turned { MADE - 1 - place } else { place };
        for _ in 0..times {
            events.push(Event::Take { site: 5, op })?;
        }
    }
    let Ok(world) = play(alloc, 6, 2, &events) else {
        return Err("no world".into());
    };
    Ok(world)
}

/// What the sixth site answers to a line.
fn answered(alloc: Global, world: &World, line: &str) -> Result<Vec<u8>, Fail> {
    let asked = request(alloc, line)?;
    let Ok(bytes) = world.answer(alloc, 5, &asked) else {
        return Err("no answer".into());
    };
    Ok(bytes)
}

#[test]
fn answer_alike(rt: HostRuntime) -> Result<(), Fail> {
    let alloc = rt.alloc();
    let one = taken(alloc, false, 1)?;
    let other = taken(alloc, true, 2)?;
    assert!(rt; one.operations().len() == MADE);
    for line in ["ZRANGE q 0 -1 WITHSCORES", "ZCARD q", "ZSCORE q x"] {
        let first = answered(alloc, &one, line)?;
        let second = answered(alloc, &other, line)?;
        assert!(rt; first == second, "{line}");
    }
    Ok(())
}
