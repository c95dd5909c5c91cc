//! Worlds that are not played, and answers that are refused.

use super::{asked, request};
use std::alloc::Global;
use std::process::Abort;
use std::test::Fail;
use zq_world::{AnswerFault, Event, PlayFault, World, play};

/// Why these events are not played by two sites.
fn fault_of(alloc: Global, sites: u8, heaps: u8, events: &[Event]) -> Option<PlayFault> {
    play(alloc, sites, heaps, events).err()
}

#[test]
fn bounds_of_worlds(rt: HostRuntime) {
    for (sites, heaps, is_played) in [
        (0, 2, false),
        (1, 2, true),
        (9, 2, true),
        (64, 2, true),
        (65, 2, false),
        (2, 1, false),
        (2, 16, true),
        (2, 17, false),
    ] {
        let fault = fault_of(rt.alloc(), sites, heaps, &[]);
        let expected = if is_played {
            None
        } else {
            Some(PlayFault::Bounds)
        };
        assert!(rt; fault == expected, "{sites} sites of {heaps} heaps");
    }
}

#[test]
fn what_does_not_exist(rt: HostRuntime) -> Result<(), Fail> {
    let alloc = rt.alloc();
    let early = [Event::Take { site: 0, op: 0 }];
    assert!(rt; fault_of(alloc, 2, 2, &early) == Some(PlayFault::NoSuch(0)));
    let late = [
        asked(alloc, 0, "ZADD q 1 a", 0, 0)?,
        Event::Merge {
            site: 1,
            from: 0,
            heap: 0,
            moment: 2,
        },
    ];
    assert!(rt; fault_of(alloc, 2, 2, &late) == Some(PlayFault::NoSuch(1)));
    assert!(rt; fault_of(alloc, 1, 2, &late) == Some(PlayFault::NoSuch(1)));
    Ok(())
}

/// Why a site does not answer a line.
fn unanswered(
    alloc: Global,
    world: &World,
    site: u8,
    line: &str,
) -> Result<Option<AnswerFault>, Fail> {
    let asked = request(alloc, line)?;
    Ok(world.answer(alloc, site, &asked).err())
}

#[test]
fn what_is_not_answered(rt: HostRuntime) -> Result<(), Fail> {
    let alloc = rt.alloc();
    let Ok(world) = play(alloc, 2, 2, &[]) else {
        return Err("no world".into());
    };
    for (site, line, expected) in [
        (2, "ZCARD q", Some(AnswerFault::NoSuch)),
        (2, "PING", Some(AnswerFault::NoSuch)),
        (1, "PING", Some(AnswerFault::NotReading)),
        (1, "ZADD q", Some(AnswerFault::NotReading)),
        (1, "zcard q", None),
        (1, "ZRANGE q", None),
    ] {
        assert!(rt;
            unanswered(alloc, &world, site, line)? == expected,
            "{line}"
        );
    }
    assert!(rt; world.operations().is_empty());
    Ok(())
}
