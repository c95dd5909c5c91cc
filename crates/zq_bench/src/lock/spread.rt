//! How evenly threads share a lock.
use crate::lock::counts::{lock_counts, mutex_counts, total};
use crate::lock::worker::Load;
use std::alloc::Global;
use std::sync::Wait;
use std::thread::Threads;
use std::time::{Clock, Duration};

/// How many threads share it.
const THREADS: u32 = 64;

/// The least, the median, the greatest and the mean of some counts.
#[derive(Clone, Copy)]
struct Spread {
    least: u64,
    median: u64,
    greatest: u64,
    mean: u128,
}

/// Writes how often the threads took each lock in a time.
pub fn tell_spread<R: Clock + Print + Threads + Wait + Sync>(
    rt: &R,
    alloc: Global,
    time: Duration,
) -> Option<()> {
    let load = Load {
        threads: THREADS,
        work: 0,
        time,
    };
    let ours = spread_of(lock_counts(rt, alloc, load)?)?;
    tell(rt, "ticket lock", ours)?;
    let theirs = spread_of(mutex_counts(rt, alloc, load)?)?;
    tell(rt, "mutex", theirs)
}

fn spread_of(mut counts: Vec<u64>) -> Option<Spread> {
    counts.sort().ok()?;
    Some(Spread {
        least: counts.first().copied().unwrap_or(0),
        median: counts.get(counts.len() / 2).copied().unwrap_or(0),
        greatest: counts.last().copied().unwrap_or(0),
        mean: total(&counts) / (counts.len().max(1) as u128),
    })
}

fn tell<R: Print>(rt: &R, name: &str, spread: Spread) -> Option<()> {
    let Spread {
        least,
        median,
        greatest,
        mean,
    } = spread;
    println!(rt;
        "{name}, lockings of each thread: least {least}, median {median}, greatest {greatest}, mean {mean}"
    ).ok()
}
