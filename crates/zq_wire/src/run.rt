//! The run of a site, as it tells its peers.

/// The most heaps of a site.
pub const MOST_HEAPS: usize = 16;

/// The bytes that name a run.
pub const RUN: usize = 16;

/// What a peer said of its run.
#[derive(Clone, Copy, Debug, PartialEq, Eq)]
pub struct Run {
    /// What names the run.
    pub name: [u8; RUN],
    /// The number of its start.
    pub start: u64,
    /// The peer's own counter of each heap, as it was read at the start, and 0 behind the last.
    pub counters: [u64; MOST_HEAPS],
}
