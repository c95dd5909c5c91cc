//! How far from the first member those are that pops take, and how many pops there are a second.
//!
//! A key has so many members, with the scores 0, 1, 2 and so on, spread over so many heaps. Half of
//! them are popped by so many passes at the same time, each in a thread of its own.
mod popping;
mod telling;

use crate::numbers::number_of;
use popping::pop_half;
use std::alloc::Global;
use std::sync::Wait;
use std::thread::Threads;
use std::time::Clock;
use telling::tell;

/// What is popped, and by what.
#[derive(Clone, Copy)]
pub struct Plan {
    /// The command that pops.
    pub pop: &'static str,
    /// How many members the key has.
    pub members: u32,
    /// How many heaps the site has.
    pub heaps: u8,
    /// How many passes pop.
    pub passes: usize,
}

/// What the words `ZPOPMIN MEMBERS HEAPS PASSES` ask for, or those with ZPOPNEAR.
pub fn read(words: &[String]) -> Option<Plan> {
    let [name, members, heaps, passes] = words else {
        return None;
    };
    let pop = match name.as_str() {
        "ZPOPMIN" => "ZPOPMIN",
        "ZPOPNEAR" => "ZPOPNEAR",
        _ => return None,
    };
    Some(Plan {
        pop,
        members: number_of(members)?,
        heaps: u8::try_from(number_of(heaps)?).ok()?,
        passes: number_of(passes)? as usize,
    })
}

/// Standard output says how many were popped. Standard error has a line for each pop, with the
/// stamp of its call and the score of its member, and before them how many there were a second. By
/// the order of stamps they are one thread's pops.
pub fn measure<R: Clock + Print + Eprint + Threads + Wait + Sync>(
    rt: &R,
    alloc: Global,
    plan: Plan,
) -> Option<()> {
    let (popped, time) = pop_half(rt, alloc, plan)?;
    tell(rt, plan, &popped, time)
}
