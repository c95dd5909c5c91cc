//! What a thread uses a site by.
ghost use Rattle.std.specs.Prelude.{◌≡◌};
ghost use Rattle.zq_spread.specs.Passes.{steps_at};

use crate::locked_heap::LockedHeap;
use zq_tally::Count;
use zq_ticketlock::Seat;

/// A thread's seat at the lock of each heap of a site, how many steps it has made in each, and the
/// stamp of its latest call. It is used with the site that made it.
#[derive(Drop)]
pub struct Pass {
    // A seat and a count are out while a call works in their heap.
    pub(crate) seats: Vec<Option<Seat<LockedHeap>>>,
    pub(crate) counts: Vec<Option<Count>>,
    pub(crate) stamp: u64,
}

impl Pass {
    /// How many steps its calls have made in a heap.
    pub fn steps(&self, heap: u8) -> u64
        ensures { result ≡ steps_at self.now heap }
    {
        match self.counts.get(usize::from(heap)) {
            Some(Some(count)) => count.steps(),
            _ => 0,
        }
    }

    /// The stamp of its latest call, 0 before the first.
    pub fn stamp(&self) -> u64
        ensures { result ≡ self.now.stamp }
    {
        self.stamp
    }
}
