//! `Effect`.

use zq_dots::{Act, Dot, Vector};

/// What an operation does to its member: its act, its site and counter, and what it had seen.
#[derive(Clone, Copy)]
pub struct Effect<'a> {
    /// The operation's site and counter.
    pub dot: Dot,
    /// What it does to the member's additions.
    pub act: Act,
    /// What its site knew of its heap before it.
    pub seen: &'a Vector,
}
