//! How a book takes another heap in the place of its own.
ghost use Rattle.std.specs.Prelude.{◌≡◌, ◌≢◌, ◌≤◌, ◌↔◌, ◌++◌, ◌∷◌, [], IsErrOf, List, OnErr, OnOk, false, true};
ghost use Rattle.zq_model.specs.Books.{Book as Books, Step, TookOver, taken_over};
ghost use Rattle.zq_model.specs.Reach.{IsWorked};
ghost use Rattle.zq_model.specs.Sets.{covers};
ghost use Rattle.zq_journal.specs.Books.{LAST_STAMP, state_of};
ghost use Rattle.zq_shard.specs.Shard.{IsSameHeap};

use crate::book::{Book, LAST_COUNT};
use crate::faults::TakeOverFault;
use std::mem::swap;
use zq_model::{keeping, working};
use zq_shard::Shard;

impl Book {
    /// Exchanges its heap for another one, which has all that it has. No record is left, since a
    /// peer that lacks any of what came so needs the whole state. It takes no memory and copies no
    /// member, and leaves the heap that it had in the place of the other, where a caller can drop it
    /// once nobody waits for the book. The stamp is no less than the book's.
    ///
    /// `WrongHeap` where the heap or the number of heaps is another, else `WrongRule` where the
    /// rule is, else `Worn` where the book's count is at its last value, else `Lacks` where the
    /// other's vector does not cover the book's; after each nothing has changed.
    #[tactic(auto, unfolding(crate::specs::Books::LAST_STAMP))]
    pub fn take_over(&mut self, stamp: u64, other: &mut Shard) -> Result<(), TakeOverFault>
        requires stamp { self.old.stamp ≤ stamp }
        requires bounded { stamp ≤ LAST_STAMP }
        ensures wrong_heap { IsErrOf result TakeOverFault.WrongHeap
            ↔ (IsSameHeap (state_of self.old) other.old → ⊥) }
        ensures wrong_rule { IsErrOf result TakeOverFault.WrongRule
            ↔ (IsSameHeap (state_of self.old) other.old × (self.old.rule ≢ other.old.rule)) }
        ensures worn { IsErrOf result TakeOverFault.Worn
            ↔ (IsSameHeap (state_of self.old) other.old × (self.old.rule ≡ other.old.rule)
            × (self.old.count ≡ LAST_STAMP)) }
        ensures lacks { IsErrOf result TakeOverFault.Lacks →
            covers other.old.image.vector self.old.state.vector ≡ false }
        ensures covers { OnOk result
            (covers other.old.image.vector self.old.state.vector ≡ true) }
        ensures taken_over { OnOk result (self.new ≡ taken_over self.old stamp other.old.image) }
        ensures worked { OnOk result ((a : Books) (steps : List Step) →
            IsWorked self.old a stamp steps →
            IsWorked self.new a stamp (steps ++ TookOver stamp other.old.image ∷ [])) }
        ensures handed_back { OnOk result (other.new ≡ state_of self.old) }
        ensures refused { OnErr result (self.new ≡ self.old) }
        ensures kept { OnErr result (other.new ≡ other.old) }
    {
        // For the proof: another heap in its place keeps what a book keeps.
        keeping();
        // For the proof: it goes on with a call's work.
        working();
        if other.heap() != self.shard.heap() || other.heaps() != self.shard.heaps() {
            return Err(TakeOverFault::WrongHeap);
        }
        if other.rule() != self.shard.rule() {
            return Err(TakeOverFault::WrongRule);
        }
        if self.count == LAST_COUNT {
            return Err(TakeOverFault::Worn);
        }
        if !other.vector().covers(self.shard.vector()) {
            return Err(TakeOverFault::Lacks);
        }
        swap(&mut self.shard, other);
        self.vector = *self.shard.vector();
        self.tail.clear();
        self.bytes = 0;
        self.stamp = stamp;
        self.count += 1;
        Ok(())
    }
}
