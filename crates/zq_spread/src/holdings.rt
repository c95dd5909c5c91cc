//! A heap that a pass holds, its type.

use crate::locked_heap::LockedHeap;
use crate::pass::Pass;
use zq_ticketlock::Held;

/// A heap that a pass holds, with its book. It has no `Drop`: [`crate::Site::release`] of the site
/// that made it puts the heap home, and gives the pass back.
pub struct Holding {
    // The pass has no seat in the heap until then.
    pub(crate) pass: Pass,
    pub(crate) heap: usize,
    pub(crate) held: Held<LockedHeap>,
}
