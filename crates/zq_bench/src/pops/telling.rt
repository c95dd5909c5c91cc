//! What is said of pops.
use crate::clock::rate;
use crate::pops::Plan;
use crate::pops::popping::Pop;
use std::sync::{Mutex, Wait};

/// Writes how many pops there were in so many nanoseconds, and each of them.
pub fn tell<R: Print + Eprint + Wait>(
    rt: &R,
    plan: Plan,
    popped: &[Mutex<Vec<Pop>>],
    time: u128,
) -> Option<()> {
    let mut count = 0u128;
    for own in popped {
        count = count.wrapping_add(own.lock(rt).len() as u128);
    }
    let Plan { pop, members, .. } = plan;
    println!(rt; "{pop} {count} of {members} members").ok()?;
    eprintln!(rt; "{pop} {}", rate(count, time)).ok()?;
    for own in popped {
        let own = own.lock(rt);
        tell_each(rt, &own)?;
    }
    Some(())
}

fn tell_each<R: Eprint>(rt: &R, pops: &[Pop]) -> Option<()> {
    for pop in pops {
        let Pop { stamp, score } = pop;
        eprintln!(rt; "{stamp} {score}").ok()?;
    }
    Some(())
}
