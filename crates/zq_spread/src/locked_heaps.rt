//! The heaps that a call holds, their type.

use crate::locked_heap::LockedHeap;
use zq_ticketlock::Held;

/// The heaps that a call holds, a stack with the lowest heap on top. It has no `Drop`, since each
/// heap is put home.
pub(crate) struct LockedHeaps {
    pub(crate) helds: Vec<Held<LockedHeap>>,
}
