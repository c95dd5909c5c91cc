//! How heaps are put onto the stack of those that a call holds, and taken off.
ghost use Rattle.std.specs.Prelude.{◌≡◌, ◌≤◌, ◌<◌, ◌∷◌, IfOk, [], length, vec_capacity};
ghost use Rattle.zq_journal.specs.Books.{LAST_STAMP};
ghost use Rattle.zq_spread.specs.Several.{IsBegunFrom, helds_of};
ghost use Rattle.zq_ticketlock.specs.Seats.{value_of};

use crate::locked_heap::LockedHeap;
use crate::locked_heaps::LockedHeaps;
use std::alloc::{AllocError, Global};
use zq_ticketlock::Held;

/// Begins a call of this stamp in a heap that is held.
pub(crate) fn begun(mut held: Held<LockedHeap>, stamp: u64) -> Held<LockedHeap>
    requires stamp { (value_of held).book.stamp ≤ stamp }
    requires bounded { stamp ≤ LAST_STAMP }
    ensures { IsBegunFrom stamp held result }
{
    held.value_mut().begin(stamp);
    // For the proof: a book is within its bounds.
    let _vector = held.value().book.shard().vector();
    held
}

impl LockedHeaps {
    /// An empty stack with room for so many heaps.
    pub(crate) fn with_room(alloc: Global, heaps: usize) -> Result<LockedHeaps, AllocError>
        ensures empty { IfOk result (λ holds. helds_of holds ≡ []) }
        ensures room { IfOk result (λ holds. heaps ≤ vec_capacity holds.helds) }
    {
        let helds = Vec::with_capacity(alloc, heaps)?;
        Ok(LockedHeaps { helds })
    }

    /// Puts a heap onto the stack.
    pub(crate) fn push(&mut self, held: Held<LockedHeap>)
        requires room { length (helds_of self.old) < vec_capacity self.old.helds }
        ensures pushed { helds_of self.new ≡ held ∷ helds_of self.old }
        ensures room { vec_capacity self.new.helds ≡ vec_capacity self.old.helds }
    {
        self.helds.push_reserved(held);
    }

    /// Takes the heap from the top.
    pub(crate) fn pop(&mut self) -> Held<LockedHeap>
        requires some { 0 < length (helds_of self.old) }
        ensures popped { helds_of self.old ≡ result ∷ helds_of self.new }
        ensures room { vec_capacity self.new.helds ≡ vec_capacity self.old.helds }
    {
        self.helds.take_last()
    }

    /// Ends an empty stack.
    pub(crate) fn end(self)
        requires { helds_of self ≡ [] }
    {
        let LockedHeaps { helds } = self;
        helds.destroy_empty();
    }
}
