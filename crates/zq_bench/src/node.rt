//! How long a node takes to catch up with another one, by frames that are written and read as
//! bytes.
//!
//! Operations are made at site 0, each a ZADD of another member, and after each so many of them the
//! node of site 1 catches up. A site keeps some thousand records of a heap: a peer that lacks older
//! ones is told whole heaps, and else operations.
mod catching;
mod making;
mod rounds;
mod sites;
mod traffic;

use crate::numbers::number_of;
pub use rounds::Plan;
use rounds::{Outcome, catch_up_in_rounds};
use std::alloc::Global;
use std::rt::Clock;
use std::sync::Wait;

/// What the words `OPERATIONS ROUND` ask for, or `OPERATIONS` alone, after all of which the other
/// node catches up.
pub fn read(words: &[String]) -> Option<Plan> {
    let (operations, round) = match words {
        [operations] => (operations, operations),
        [operations, round] => (operations, round),
        _ => return None,
    };
    Some(Plan {
        operations: number_of(operations)?,
        round: number_of(round)?,
    })
}

/// Standard output has the members that each site has in the end, and whether their vectors are
/// equal. Standard error has the nanoseconds in which the operations were made and those of the
/// catching up, and the frames and bytes of the latter.
pub fn measure<R: Clock + Print + Eprint + Wait>(rt: &R, alloc: Global, plan: Plan) -> Option<()> {
    let outcome = catch_up_in_rounds(rt, alloc, plan)?;
    tell(rt, outcome)
}

fn tell<R: Print + Eprint>(rt: &R, outcome: Outcome) -> Option<()> {
    let Outcome {
        members,
        are_equal,
        times,
        traffic,
    } = outcome;
    let equal = if are_equal { "equal" } else { "different" };
    println!(rt;
        "{} and {} members, vectors are {equal}",
        members[0], members[1]
    )
    .ok()?;
    eprintln!(rt; "make {}", times.make).ok()?;
    eprintln!(rt; "catch-up {}", times.catch_up).ok()?;
    eprintln!(rt; "frames {}", traffic.frames).ok()?;
    eprintln!(rt; "bytes {}", traffic.bytes).ok()
}
