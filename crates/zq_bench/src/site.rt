//! Calls a second of a site of 16 heaps that 1, 2 and 4 threads use side by side, each by a pass of
//! its own.
//!
//! So many calls in all are made for each number of passes, over 1,000 keys of ten members: half of
//! them ZSCORE, a third ZADD, a twelfth ZINCRBY and a twelfth ZPOPMIN, drawn before. Then it does
//! so again with ZPOPNEAR in place of ZPOPMIN, which holds two heaps and not all.
mod calls;
mod drawing;
mod loads;

use crate::numbers::number_of;
use loads::time_load;
use std::alloc::Global;
use std::sync::Wait;
use std::thread::Threads;
use std::time::Clock;

/// What the word `CALLS` asks for: so many calls.
pub fn read(words: &[String]) -> Option<usize> {
    let [calls] = words else {
        return None;
    };
    Some(number_of(calls)? as usize)
}

/// Standard output has the calls that were made and how many of them answered an error, and
/// standard error the calls a second.
pub fn measure<R: Clock + Print + Eprint + Threads + Wait + Sync>(
    rt: &R,
    alloc: Global,
    calls: usize,
) -> Option<()> {
    time_load(rt, alloc, "ZPOPMIN", calls)?;
    time_load(rt, alloc, "ZPOPNEAR", calls)
}
