//! What a heap takes beside its book.
ghost use Rattle.std.specs.Prelude.{◌≡◌, []};
ghost use Rattle.zq_tally.specs.Words.{id_of, kept_of, passes_of, total_of, total_table};
ghost use Rattle.zq_tally.specs.Limits.{ALL_PARTS};

use crate::locked_heap::LockedHeap;
use std::alloc::{AllocError, Global};
use zq_tally::{Tally, Total};
use zq_ticketlock::Vacant;

/// The lock of a heap that has no book yet, and the table that will count the steps there.
#[derive(Drop)]
pub(crate) struct EmptySlot {
    pub(crate) lock: Vacant<LockedHeap>,
    pub(crate) tally: Tally,
    pub(crate) total: Total,
    ghost own: { total_table total ≡ id_of tally },
    ghost zero: { total_of total ≡ 0 },
    ghost parts: { kept_of total ≡ ALL_PARTS },
    ghost nobody: { passes_of total ≡ [] },
}

impl EmptySlot {
    /// The memory of a heap.
    pub(crate) fn new(alloc: Global) -> Result<EmptySlot, AllocError> {
        let Ok(lock) = Vacant::new(alloc, 0) else {
            return Err(AllocError);
        };
        match Tally::new(alloc) {
            Ok((tally, total)) => Ok(EmptySlot { lock, tally, total }),
            Err(_) => Err(AllocError),
        }
    }
}
