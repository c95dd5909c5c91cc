//! Runs of worlds by tables. Expected bytes are those of Redis and of the rules for merging.

mod faults;
mod orders;
mod rows;
mod table;
mod worlds;

use std::alloc::Global;
use std::process::Abort;
use std::test::Fail;
use zq_dots::Rule;
use zq_resp::{Reader, Request};
use zq_shard::Taken;
use zq_world::{Event, World, play_ruled};

/// What is done, and what it answers.
#[derive(Clone, Copy)]
enum Step {
    /// A site is asked a line.
    Ask(u8, &'static str, &'static str),
    /// A site is asked a line, with two words drawn.
    Draw(u8, &'static str, u64, u64, &'static str),
    /// A site is handed an operation.
    Hand(u8, usize, Taken),
    /// A site merges a heap of another, as it was after so many events.
    Merge(u8, u8, u8, usize),
    /// After all events a site answers a line that only reads.
    Read(u8, &'static str, &'static str),
}

/// The request of a line's words.
fn request(alloc: Global, line: &str) -> Result<Request, Fail> {
    let count = line.split(' ').count();
    let mut bytes = Vec::new(alloc);
    bytes.extend_from_slice(format!(in alloc; "*{count}\r\n")?.as_bytes())?;
    for word in line.split(' ') {
        let length = word.len();
        bytes.extend_from_slice(format!(in alloc; "${length}\r\n{word}\r\n")?.as_bytes())?;
    }
    first_request(alloc, bytes.as_slice())
}

/// The request that some bytes are.
fn first_request(alloc: Global, bytes: &[u8]) -> Result<Request, Fail> {
    let Ok(mut requests) = Reader::new().feed(alloc, bytes) else {
        return Err("no request".into());
    };
    Ok(requests.pop().ok_or("no request")?)
}

/// The event of a step, if it is one.
fn event_of(alloc: Global, step: Step) -> Result<Option<Event>, Fail> {
    Ok(match step {
        Step::Ask(site, line, _) => Some(asked(alloc, site, line, 0, 0)?),
        Step::Draw(site, line, w1, w2, _) => Some(asked(alloc, site, line, w1, w2)?),
        Step::Hand(site, op, _) => Some(Event::Take { site, op }),
        Step::Merge(site, from, heap, moment) => Some(Event::Merge {
            site,
            from,
            heap,
            moment,
        }),
        Step::Read(..) => None,
    })
}

fn asked(alloc: Global, site: u8, line: &str, w1: u64, w2: u64) -> Result<Event, Fail> {
    Ok(Event::Do {
        site,
        request: request(alloc, line)?,
        w1,
        w2,
    })
}

/// The events of some steps.
fn events_of(alloc: Global, steps: &[Step]) -> Result<Vec<Event>, Fail> {
    let mut events = Vec::new(alloc);
    for step in steps {
        if let Some(event) = event_of(alloc, *step)? {
            events.push(event)?;
        }
    }
    Ok(events)
}

/// Looks at what the step answered, which is the event of this place where it is one.
fn look(
    rt: &impl Abort,
    alloc: Global,
    world: &World,
    place: usize,
    step: Step,
) -> Result<(), Fail> {
    match step {
        Step::Ask(_, line, says) | Step::Draw(_, line, _, _, says) => {
            assert!(rt; world.reply(place) == Some(says.as_bytes()), "{line}");
        }
        Step::Hand(_, op, taken) => {
            assert!(rt; world.taken(place) == Some(taken), "operation {op}");
        }
        Step::Merge(..) => {
            assert!(rt; world.reply(place).is_none());
        }
        Step::Read(site, line, says) => {
            let asked = request(alloc, line)?;
            let Ok(bytes) = world.answer(alloc, site, &asked) else {
                return Err("no answer".into());
            };
            assert!(rt; bytes.as_slice() == says.as_bytes(), "{line}");
        }
    }
    Ok(())
}

/// Plays the steps in a world, and looks at each.
fn follow(
    rt: &impl Abort,
    alloc: Global,
    heaps: u8,
    rule: Rule,
    steps: &[Step],
) -> Result<(), Fail> {
    let events = events_of(alloc, steps)?;
    let Ok(world) = play_ruled(alloc, 64, heaps, rule, &events) else {
        return Err("no world".into());
    };
    for (place, step) in steps.iter().enumerate() {
        look(rt, alloc, &world, place, *step)?;
    }
    Ok(())
}
