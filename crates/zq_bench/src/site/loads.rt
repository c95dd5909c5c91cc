//! A load of drawn requests, and the time that it takes by each number of passes.
ghost use Rattle.std.specs.Prelude.{All, ◌<◌, length};
ghost use Rattle.zq_spread.specs.Passes.{IsPassOf};

use crate::clock::{now, rate, since};
use crate::site::calls::{call_side_by_side, opened, read};
use crate::site::drawing::{draw, fill};
use rand_pcg::Pcg64;
use std::alloc::Global;
use std::sync::Wait;
use std::thread::Threads;
use std::time::Clock;
use zq_resp::Request;
use zq_spread::{Pass, Site};
use zq_words::Command;

/// Times calls of requests that are drawn with this word for a pop.
pub fn time_load<R: Clock + Print + Eprint + Threads + Wait + Sync>(
    rt: &R,
    alloc: Global,
    pop: &str,
    calls: usize,
) -> Option<()> {
    let mut draws = Pcg64::new(1, 1);
    let filling = fill(alloc)?;
    let drawn = draw(alloc, &mut draws, pop)?;
    tell_load(rt, alloc, pop, &filling, &drawn, calls)
}

fn tell_load<R: Clock + Print + Eprint + Threads + Wait + Sync>(
    rt: &R,
    alloc: Global,
    pop: &str,
    fill: &[Request],
    drawn: &[Request],
    calls: usize,
) -> Option<()> {
    println!(rt; "{pop}").ok()?;
    eprintln!(rt; "{pop}").ok()?;
    time_requests(rt, alloc, fill, drawn, calls)
}

/// Times calls of the drawn requests by each number of passes, each over a new site that was filled
/// before.
fn time_requests<R: Clock + Print + Eprint + Threads + Wait + Sync>(
    rt: &R,
    alloc: Global,
    fill: &[Request],
    drawn: &[Request],
    calls: usize,
) -> Option<()> {
    let filling = read(alloc, fill)?;
    let drawn = read(alloc, drawn)?;
    time_all(rt, alloc, &filling, &drawn, calls)
}

fn time_all<R: Clock + Print + Eprint + Threads + Wait + Sync>(
    rt: &R,
    alloc: Global,
    fill: &[Command<'_>],
    drawn: &[Command<'_>],
    calls: usize,
) -> Option<()> {
    for passes in [1usize, 2, 4] {
        time_passes(rt, alloc, fill, drawn, passes, calls / passes)?;
    }
    Some(())
}

/// Times so many calls of each of so many passes.
fn time_passes<R: Clock + Print + Eprint + Threads + Wait + Sync>(
    rt: &R,
    alloc: Global,
    fill: &[Command<'_>],
    drawn: &[Command<'_>],
    passes: usize,
    calls: usize,
) -> Option<()>
    requires { 0 < passes }
{
    let (site, mut made) = opened(alloc, passes)?;
    let (errors, time) = timed(rt, alloc, &site, &mut made, fill, drawn, calls);
    tell(rt, passes, calls.saturating_mul(passes), errors, time)
}

/// How many of the calls of a site that is filled first answered an error, and the nanoseconds of
/// all.
fn timed<R: Clock + Threads + Wait + Sync>(
    rt: &R,
    alloc: Global,
    site: &Site,
    passes: &mut [Pass],
    fill: &[Command<'_>],
    drawn: &[Command<'_>],
    calls: usize,
) -> (u64, u128)
    requires some { 0 < length passes.old }
    requires passes { All (IsPassOf site.now) passes.old }
{
    let part = fill.len() / passes.len();
    call_side_by_side(rt, alloc, site, passes, fill, part);
    let began = now(rt);
    let errors = call_side_by_side(rt, alloc, site, passes, drawn, calls);
    (errors, since(rt, began))
}

fn tell<R: Print + Eprint>(
    rt: &R,
    passes: usize,
    calls: usize,
    errors: u64,
    time: u128,
) -> Option<()> {
    println!(rt; "{passes} passes, {calls} calls, {errors} errors").ok()?;
    eprintln!(rt; "{passes} {}", rate(calls as u128, time)).ok()
}
