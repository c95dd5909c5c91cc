//! Events a second of a world of 8 sites: so many events are drawn, and merges added after which
//! all sites have the same; all are played, and then each site answers the whole queue.
mod answers;
mod script;

use crate::clock::{now, rate, since};
use crate::numbers::number_of;
use answers::{Answers, answer_all};
use rand_pcg::Pcg64;
use script::{HEAPS, SITES, Script};
use std::alloc::Global;
use std::rt::Clock;
use zq_world::{World, play};

/// What the word `EVENTS` asks for: so many drawn events.
pub fn read(words: &[String]) -> Option<u32> {
    let [events] = words else {
        return None;
    };
    number_of(events)
}

/// Standard output has the number of events, and whether all sites answered alike. Standard error
/// has the events a second, the operations that were made, and the nanoseconds of an answer.
pub fn measure<R: Clock + Print + Eprint>(rt: &R, alloc: Global, events: u32) -> Option<()> {
    let script = drawn(alloc, events)?;
    time(rt, alloc, &script)
}

/// So many drawn events, and merges of all that they did.
fn drawn(alloc: Global, events: u32) -> Option<Script> {
    let mut draws = Pcg64::new(1, 1);
    let mut script = Script::new(alloc)?;
    fill(alloc, &mut script, &mut draws, events)?;
    Some(script)
}

fn fill(alloc: Global, script: &mut Script, draws: &mut Pcg64, events: u32) -> Option<()> {
    for _event in 0..events {
        script.draw(alloc, draws)?;
    }
    script.gather()
}

/// Times the events of a script, and the answers of the sites after them.
fn time<R: Clock + Print + Eprint>(rt: &R, alloc: Global, script: &Script) -> Option<()> {
    let began = now(rt);
    let world = play(alloc, SITES, HEAPS, script.events()).ok()?;
    let played = since(rt, began);
    time_answers(rt, alloc, &world, script.events().len(), played)
}

/// Times the answers of a world that so many events made in so many nanoseconds, and writes what
/// both took.
fn time_answers<R: Clock + Print + Eprint>(
    rt: &R,
    alloc: Global,
    world: &World,
    events: usize,
    played: u128,
) -> Option<()> {
    let began = now(rt);
    let Answers { are_alike, bytes } = answer_all(alloc, world)?;
    let answered = since(rt, began);
    let alike = if are_alike { "alike" } else { "otherwise" };
    println!(rt; "{events} events, {SITES} sites answer {alike}").ok()?;
    eprintln!(rt; "events {}", rate(events as u128, played)).ok()?;
    eprintln!(rt; "operations {}", world.operations().len()).ok()?;
    eprintln!(rt; "answer {} of {bytes} bytes", answered / u128::from(SITES)).ok()
}
