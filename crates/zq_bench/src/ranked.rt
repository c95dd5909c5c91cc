//! Nanoseconds a step of a `Ranked` and of a `PosHeap`: they put in so many pairs of drawn scores,
//! take so many steps of each kind over them, take half of the pairs out, and then the first until
//! none is left.
mod heap_times;
mod heap_work;
mod ranked_times;
mod ranked_work;
mod scores;
mod watch;

use crate::numbers::number_of;
use std::alloc::Global;
use std::rt::Clock;

/// How many steps of each kind are taken, and over how many pairs.
#[derive(Clone, Copy)]
pub struct Sizes {
    pub steps: u32,
    pub pairs: u32,
}

/// What the words `STEPS PAIRS` ask for.
pub fn read(words: &[String]) -> Option<Sizes> {
    let [steps, pairs] = words else {
        return None;
    };
    Some(Sizes {
        steps: number_of(steps)?,
        pairs: number_of(pairs)?,
    })
}

/// Standard output has a checksum of what the `Ranked` answered, and standard error a line for each
/// kind of step.
pub fn measure<R: Clock + Print + Eprint>(rt: &R, alloc: Global, sizes: Sizes) -> Option<()> {
    ranked_times::time_all(rt, alloc, sizes)?;
    heap_times::time_all(rt, alloc, sizes)
}
