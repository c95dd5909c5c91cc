//! Lockings a second of a `TicketLock`, beside a `Mutex` of std.
mod counts;
mod mutex;
mod spread;
mod ticket;
mod worker;

use crate::clock::rate;
use crate::numbers::number_of;
use counts::{lock_counts, mutex_counts, total};
use spread::tell_spread;
use std::alloc::Global;
use std::sync::Wait;
use std::thread::Threads;
use std::time::{Clock, Duration};
use worker::Load;

// Steps of work that take about half a microsecond.
const HALF_MICROSECOND: u32 = 300;

/// What is asked of each lock.
#[derive(Clone, Copy)]
pub enum Contest {
    /// Its lockings a second by 1, 2, 4, 16 and 64 threads, for so many milliseconds each, with
    /// nothing done under it and with about half a microsecond of work.
    Rates { milliseconds: u32 },
    /// How often each of 64 threads takes it in so many milliseconds.
    Spread { milliseconds: u32 },
}

/// What the words `rates MS` or `spread MS` ask for.
pub fn read(words: &[String]) -> Option<Contest> {
    let [name, milliseconds] = words else {
        return None;
    };
    let milliseconds = number_of(milliseconds)?;
    match name.as_str() {
        "rates" => Some(Contest::Rates { milliseconds }),
        "spread" => Some(Contest::Spread { milliseconds }),
        _ => None,
    }
}

/// Standard output has a line for each number of threads and each kind of work, or one for each
/// lock: the lockings of the thread that took it least, of the median one, and of the one that took
/// it most.
pub fn measure<R: Clock + Print + Threads + Wait + Sync>(
    rt: &R,
    alloc: Global,
    contest: Contest,
) -> Option<()> {
    match contest {
        Contest::Rates { milliseconds } => tell_rates(rt, alloc, span(milliseconds)),
        Contest::Spread { milliseconds } => tell_spread(rt, alloc, span(milliseconds)),
    }
}

fn span(milliseconds: u32) -> Duration {
    Duration::from_millis(u64::from(milliseconds))
}

/// Lockings a second, with nothing done under the lock and with some work.
fn tell_rates<R: Clock + Print + Threads + Wait + Sync>(
    rt: &R,
    alloc: Global,
    time: Duration,
) -> Option<()> {
    tell_rates_of(rt, alloc, time, 0, "nothing")?;
    tell_rates_of(rt, alloc, time, HALF_MICROSECOND, "half a microsecond")
}

/// Lockings a second by each number of threads.
fn tell_rates_of<R: Clock + Print + Threads + Wait + Sync>(
    rt: &R,
    alloc: Global,
    time: Duration,
    work: u32,
    inside: &str,
) -> Option<()> {
    for threads in [1u32, 2, 4, 16, 64] {
        let load = Load {
            threads,
            work,
            time,
        };
        tell_rate(rt, alloc, load, inside)?;
    }
    Some(())
}

fn tell_rate<R: Clock + Print + Threads + Wait + Sync>(
    rt: &R,
    alloc: Global,
    load: Load,
    inside: &str,
) -> Option<()> {
    let ours = lock_rate(rt, alloc, load)?;
    let theirs = mutex_rate(rt, alloc, load)?;
    println!(rt;
        "{} threads, {inside} inside: ticket lock {ours} a second, mutex {theirs} a second, {}% of it",
        load.threads,
        percent(ours, theirs)
    )
    .ok()
}

fn lock_rate<R: Clock + Threads + Wait + Sync>(rt: &R, alloc: Global, load: Load) -> Option<u128> {
    let counts = lock_counts(rt, alloc, load)?;
    Some(rate(total(&counts), load.time.as_nanos()))
}

fn mutex_rate<R: Clock + Threads + Wait + Sync>(rt: &R, alloc: Global, load: Load) -> Option<u128> {
    let counts = mutex_counts(rt, alloc, load)?;
    Some(rate(total(&counts), load.time.as_nanos()))
}

fn percent(part: u128, whole: u128) -> u128 {
    part.saturating_mul(100) / whole.max(1)
}
