//! How a shard takes operations and undoes them.
ghost use Rattle.std.specs.Prelude.{◌≡◌, ◌↔◌, ◌∷◌, IfErr, IfOk, IfSome, IsErrOf, IsOk, List, OnErr, OnOk, false};
ghost use Rattle.std.specs.FinMap as map;
ghost use Rattle.zq_model.specs.Bounded.{IsBounded};
ghost use Rattle.zq_model.specs.Image.{image_after, image_taken, is_bare, place_of};
ghost use Rattle.zq_model.specs.Operation.{Operation};
ghost use Rattle.zq_model.specs.Sets as sets;
ghost use Rattle.zq_model.specs.Sets.{IsWorld, taken_of};
ghost use Rattle.zq_shard.specs.Queues.{or_none};
ghost use Rattle.zq_shard.specs.Shard.{HoldsImage, IsOfHeap, with_entry, with_vector};
ghost use Rattle.zq_shard.specs.Taken.{answer_of};

use crate::faults::TakeFault;
use crate::shard::Shard;
use crate::taken::Taken;
use std::alloc::{AllocError, Global};
use zq_dots::{Op, Vector, heap_of};
use zq_entry::Entry;
use zq_queue::Effect;

impl Shard {
    /// Takes an operation of this heap that is New here, and answers what its member had before.
    /// Where memory is short nothing changes.
    pub fn put_in(&mut self, alloc: Global, op: &Op) -> Result<Option<Entry>, AllocError>
        requires placed { IsOfHeap self.old op.now }
        requires new { taken_of self.old.image.vector op.now.operation ≡ sets.New }
        ensures heap { self.new.heap ≡ self.old.heap }
        ensures heaps { self.new.heaps ≡ self.old.heaps }
        ensures rule { self.new.rule ≡ self.old.rule }
        ensures before { IfOk result
            (λ before. before ≡ map.get self.old.image.members (place_of op.now.operation)) }
        ensures taken { OnOk result (self.new.image ≡ image_after op.now.operation self.old.image) }
        ensures set { OnOk result ((S : List Operation) → HoldsImage self.old S →
            IsWorld self.old.heaps (op.now.operation ∷ S) →
            HoldsImage self.new (op.now.operation ∷ S)) }
        ensures refused { OnErr result (self.new ≡ self.old) }
    {
        let effect = Effect {
            dot: op.dot(),
            act: op.act(),
            seen: op.seen(),
        };
        let before = self.queues.take(alloc, op.key(), op.member(), &effect)?;
        let dot = op.dot();
        self.vector.set(dot.site, dot.n);
        Ok(before)
    }

    /// Gives a member back what it had before an operation, and takes it out where that is nothing.
    /// The vector stays. It undoes an operation where [`Shard::set_vector`] sets the vector back
    /// too. Where memory is short nothing changes.
    ///
    /// A member that does not stand comes above all others, with additions that a walk may count as
    /// old: a walk that has begun before is no good any more.
    pub fn put_back(
        &mut self,
        alloc: Global,
        key: &[u8],
        member: &[u8],
        before: Option<Entry>,
    ) -> Result<(), AllocError>
        requires full { IfSome before (λ entry. is_bare entry ≡ false) }
        requires bounded { IsBounded self.old.heaps self.old.heap
            (with_entry (key.now, member.now) (or_none before) self.old.image) }
        ensures heap { self.new.heap ≡ self.old.heap }
        ensures heaps { self.new.heaps ≡ self.old.heaps }
        ensures rule { self.new.rule ≡ self.old.rule }
        ensures image { OnOk result
            (self.new.image ≡ with_entry (key.now, member.now) (or_none before) self.old.image) }
        ensures refused { OnErr result (self.new ≡ self.old) }
    {
        self.queues.put_back(alloc, key, member, before)
    }

    /// Sets its vector to one in which its members keep their bounds.
    pub fn set_vector(&mut self, vector: &Vector)
        requires { IsBounded self.old.heaps self.old.heap (with_vector vector.now self.old.image) }
        ensures heap { self.new.heap ≡ self.old.heap }
        ensures heaps { self.new.heaps ≡ self.old.heaps }
        ensures rule { self.new.rule ≡ self.old.rule }
        ensures image { self.new.image ≡ with_vector vector.now self.old.image }
    {
        self.vector = *vector;
    }

    /// What becomes of an operation that is handed to this heap: `Known` where the vector has its
    /// dot, else `Early` where it does not cover what the operation has seen, else `New`.
    ///
    /// `WrongHeap` where the heap, the number of heaps or the member's hash is another.
    pub fn judge(&self, op: &Op) -> Result<Taken, TakeFault>
        ensures judged { IfOk result
            (λ taken. answer_of taken ≡ taken_of self.now.image.vector op.now.operation) }
        ensures placed { IsOk result ↔ IsOfHeap self.now op.now }
        ensures wrong_heap { IfErr result (λ fault. fault ≡ TakeFault.WrongHeap) }
    {
        if op.heap() != self.heap
            || op.heaps() != self.heaps
            || heap_of(op.key(), op.member(), self.heaps) != self.heap
        {
            return Err(TakeFault::WrongHeap);
        }
        if self.vector.has(op.dot()) {
            return Ok(Taken::Known);
        }
        if self.vector.covers(op.seen()) {
            Ok(Taken::New)
        } else {
            Ok(Taken::Early)
        }
    }

    /// Takes an operation of another site where it is New; what is Known or Early changes nothing.
    /// The answer is that of [`Shard::judge`], and `NoMemory` where a New one finds no memory;
    /// after a fault nothing has changed.
    pub fn take(&mut self, alloc: Global, op: &Op) -> Result<Taken, TakeFault>
        ensures judged { IfOk result
            (λ taken. answer_of taken ≡ taken_of self.old.image.vector op.now.operation) }
        ensures wrong_heap { IsErrOf result TakeFault.WrongHeap ↔ (IsOfHeap self.old op.now → ⊥) }
        ensures no_memory { IsErrOf result TakeFault.NoMemory →
            taken_of self.old.image.vector op.now.operation ≡ sets.New }
        ensures heap { self.new.heap ≡ self.old.heap }
        ensures heaps { self.new.heaps ≡ self.old.heaps }
        ensures rule { self.new.rule ≡ self.old.rule }
        ensures image { OnOk result (self.new.image ≡ image_taken op.now.operation self.old.image) }
        ensures set { IfOk result (λ taken. (S : List Operation) → HoldsImage self.old S →
            IsWorld self.old.heaps (op.now.operation ∷ S) → (answer_of taken ≡ sets.Early → ⊥) →
            HoldsImage self.new (op.now.operation ∷ S)) }
        ensures refused { OnErr result (self.new ≡ self.old) }
    {
        match self.judge(op)? {
            Taken::New => {
                drop(self.put_in(alloc, op)?);
                Ok(Taken::New)
            }
            Taken::Known => Ok(Taken::Known),
            Taken::Early => Ok(Taken::Early),
        }
    }
}
