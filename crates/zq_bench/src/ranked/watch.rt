//! What a kind of step took.
use crate::clock::since;
use std::rt::Clock;
use std::time::Instant;

/// Writes a kind of step, and how many nanoseconds one took since a moment.
pub fn tell<R: Clock + Eprint>(
    rt: &R,
    kind: &str,
    steps: u32,
    began: Option<Instant>,
) -> Option<()> {
    let time = since(rt, began);
    eprintln!(rt; "{kind} {}", time / u128::from(steps.max(1))).ok()
}
