//! What sites tell each other of a heap, as far as it is kept here.

use zq_dots::Vector;

/// How many Ats later a probe that was not answered gives way to another: a minute of calms.
pub const PROBE_TURNS: u64 = 12;

/// What a peer told of a heap.
#[derive(Clone, Copy, Debug, PartialEq, Eq)]
pub struct HeardAt {
    /// What it knows.
    pub vector: Vector,
    /// The number of its At.
    pub turn: u64,
    /// The number of the last At that it had heard from this site.
    pub echo: u64,
    /// Whether it takes operations.
    pub open: bool,
    /// How many operations may be on their way to it.
    pub window: u64,
}

/// The head of an At to a peer.
#[derive(Clone, Copy, Debug, PartialEq, Eq)]
pub struct AtHead {
    /// Its number.
    pub turn: u64,
    /// The number of the last At that was heard from the peer.
    pub echo: u64,
    /// Whether this site takes operations.
    pub open: bool,
}

/// What is asked of a peer: whether what was sent before an At came to it.
#[derive(Clone, Copy, Debug, PartialEq, Eq)]
pub struct Probe {
    /// The number of the At.
    pub turn: u64,
    /// What counted as sent then.
    pub sent: Vector,
}
