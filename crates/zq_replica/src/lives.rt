//! How a site's heaps go to its peers in pieces.

ghost use Rattle.zq_replica.specs.Fence.{IsSteady};

use crate::replica::Replica;
use std::alloc::{AllocError, Global};
use zq_stage::PortionLimits;

/// How much of a heap goes at once: 1,000 members, or so many that a frame has no more than some 900
/// kilobytes and one member.
pub const PORTION: PortionLimits = PortionLimits {
    rows: 1_000,
    bytes: 900_000,
};

/// How a site's heaps go to its peers in pieces.
#[derive(Clone, Copy, Debug, PartialEq, Eq)]
pub struct Portioning {
    /// The number of each heap's first life. It is drawn for the run: a stream of an earlier run of
    /// a site does not go on.
    pub life: u64,
    /// How much goes at once.
    pub limits: PortionLimits,
}

/// The lives of so many heaps, which begin with this one.
pub(crate) fn lives(alloc: Global, heaps: u8, first: u64) -> Result<Vec<u64>, AllocError> {
    (0..heaps).map(|_heap| first).collect(alloc)
}

impl Replica<'_> {
    /// The life of a heap: another one each time that the places of its members were laid out anew.
    pub(crate) fn life_of(&self, heap: u8) -> u64 {
        match self.lives.get(usize::from(heap)) {
            Some(life) => *life,
            None => 0,
        }
    }

    /// The places of a heap's members were laid out anew, so that no stream of it goes on.
    pub(crate) fn begin_life(&mut self, heap: u8)
        ensures { IsSteady self.old self.new }
    {
        if let Some(life) = self.lives.get_mut(usize::from(heap)) {
            *life = life.wrapping_add(1);
        }
    }
}
