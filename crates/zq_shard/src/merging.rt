//! How a shard takes what another has.
ghost use Rattle.std.specs.Prelude.{◌≡◌, ◌≢◌, ◌↔◌, ◌++◌, IsErrOf, List, OnErr, OnOk};
ghost use Rattle.zq_model.specs.Image.{join};
ghost use Rattle.zq_model.specs.Operation.{Operation};
ghost use Rattle.zq_model.specs.Sets.{IsWorld};
ghost use Rattle.zq_shard.specs.Shard.{HoldsImage, IsSameHeap};

use crate::faults::MergeFault;
use crate::shard::Shard;
use std::alloc::Global;

impl Shard {
    /// Takes all that the other has: its image becomes the join of the two, by which an addition
    /// that both have stands, and one that only one has stands where the other has not seen it.
    ///
    /// Its members stand elsewhere then: a walk that has begun before is no good any more.
    ///
    /// `WrongHeap` where the heap or the number of heaps is another, else `WrongRule` where the
    /// rule is, else `NoMemory` where the join found no memory; after each nothing has changed.
    ///
    /// The join is the least upper bound of a state-based replicated type (Shapiro, Preguiça,
    /// Baquero and Zawirski 2011).
    pub fn merge(&mut self, alloc: Global, other: &Shard) -> Result<(), MergeFault>
        ensures wrong_heap { IsErrOf result MergeFault.WrongHeap
            ↔ (IsSameHeap self.old other.now → ⊥) }
        ensures wrong_rule { IsErrOf result MergeFault.WrongRule
            ↔ (IsSameHeap self.old other.now × (self.old.rule ≢ other.now.rule)) }
        ensures one_heap { OnOk result (IsSameHeap self.old other.now) }
        ensures one_rule { OnOk result (self.old.rule ≡ other.now.rule) }
        ensures heap { self.new.heap ≡ self.old.heap }
        ensures heaps { self.new.heaps ≡ self.old.heaps }
        ensures rule { self.new.rule ≡ self.old.rule }
        ensures joined { OnOk result (self.new.image ≡ join self.old.image other.now.image) }
        ensures set { OnOk result ((S T : List Operation) → HoldsImage self.old S →
            HoldsImage other.now T → IsWorld self.old.heaps (S ++ T) →
            HoldsImage self.new (S ++ T)) }
        ensures refused { OnErr result (self.new ≡ self.old) }
    {
        if self.heap != other.heap || self.heaps != other.heaps {
            return Err(MergeFault::WrongHeap);
        }
        if !self.queues.has_rule_of(&other.queues) {
            return Err(MergeFault::WrongRule);
        }
        let queues = self
            .queues
            .merge(alloc, &self.vector, &other.queues, &other.vector)?;
        self.queues = queues;
        self.vector.join_with(&other.vector);
        Ok(())
    }
}
