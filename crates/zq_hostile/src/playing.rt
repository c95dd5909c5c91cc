//! A world of which a growth is refused while it is played.

use std::alloc::Global;
use zq_trials::{Ended, Tried, judge, request};
use zq_world::{Event, PlayFault, World, play};

/// An event, with a line in place of its request.
enum Step {
    Ask { site: u8, line: &'static str },
    Merge { moment: usize },
    Take { op: usize },
}

/// Site 0 adds three members; site 1 merges its heap 0 as it was then, and takes the operation of
/// heap 1; then it pops.
const STEPS: [Step; 4] = [
    Step::Ask {
        site: 0,
        line: "ZADD q 1 a 2 b 3 c",
    },
    Step::Merge { moment: 1 },
    Step::Take { op: 1 },
    Step::Ask {
        site: 1,
        line: "ZPOPMIN q 2",
    },
];

/// The event of a step. What is no question is done by site 1.
fn event(alloc: Global, step: &Step) -> Option<Event> {
    match step {
        Step::Ask { site, line } => Some(Event::Do {
            site: *site,
            request: request(alloc, line)?,
            w1: 0,
            w2: 0,
        }),
        Step::Merge { moment } => Some(Event::Merge {
            site: 1,
            from: 0,
            heap: 0,
            moment: *moment,
        }),
        Step::Take { op } => Some(Event::Take { site: 1, op: *op }),
    }
}

/// The events of the steps.
fn events(alloc: Global) -> Option<Vec<Event>> {
    let mut events = Vec::new(alloc);
    for step in &STEPS {
        let event = event(alloc, step)?;
        events.push(event).ok()?;
    }
    Some(events)
}

/// Whether the world's requests were answered as they are owed.
fn is_answered(world: &World) -> bool {
    let popped = b"*4\r\n$1\r\na\r\n$1\r\n1\r\n$1\r\nb\r\n$1\r\n2\r\n".as_slice();
    world.reply(0) == Some(b":3\r\n".as_slice()) && world.reply(3) == Some(popped)
}

/// What it says to play the events in a world of two sites of two heaps.
fn played(alloc: Global, events: &[Event]) -> Tried {
    match play(alloc, 2, 2, events) {
        Ok(world) if is_answered(&world) => Tried::Done,
        Err(PlayFault::NoMemory) => Tried::Refused,
        _ => Tried::Other,
    }
}

/// The events are played, and once more where there was no memory.
pub fn world(alloc: Global) -> Option<Ended> {
    let events = events(alloc)?;
    let tried = played(alloc, &events);
    let again = match tried {
        Tried::Refused => played(alloc, &events),
        other => other,
    };
    Some(judge(tried, true, again == Tried::Done))
}
