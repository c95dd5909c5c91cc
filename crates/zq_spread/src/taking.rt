//! Operations of other sites.
ghost use Rattle.std.specs.Prelude.{◌≡◌, ◌<◌, ◌↔◌, ◌⊎◌, ◌∷◌, [], IfOk, IsErrOf, OnErr, drop, true};
ghost use Rattle.zq_spread.specs.Answers.{IsTaken};
ghost use Rattle.zq_spread.specs.Batches.{IsTakenAll};
ghost use Rattle.zq_spread.specs.Calls.{IsCall, IsOfSite, heaps_of};
ghost use Rattle.zq_spread.specs.Passes.{IsPassOf};
ghost use Rattle.zq_spread.specs.Worn.{IsWornIn};

use crate::pass::Pass;
use crate::site::Site;
use crate::taken_all::TakenAll;
use std::alloc::Global;
use std::sync::Wait;
use zq_dots::{Op, heap_of};
use zq_journal::TakeFault;
use zq_shard::Taken;
use zq_ticketlock::Worn;

impl Site {
    /// Whether the operation was made among as many heaps as the site has, and lies in its own.
    fn has_place(&self, op: &Op) -> bool
        ensures { (result ≡ true) ↔ IsOfSite self.now op.now }
    {
        usize::from(op.heaps()) == self.slots.len()
            && heap_of(op.key(), op.member(), op.heaps()) == op.heap()
    }

    /// Takes an operation of another site where it is New; what is Known or Early changes nothing.
    ///
    /// `WrongHeap` where the number of heaps or the member's heap is another: then no lock is
    /// taken. Else `Worn` where the heap's lock or the stamp is at its last value, and then no
    /// image, book or stamp has changed. Else a New one is refused with `Worn` where the book's
    /// count is at its last value, or with `NoMemory`.
    pub fn take<R: Wait>(
        &self,
        rt: &R,
        alloc: Global,
        pass: &mut Pass,
        op: &Op,
    ) -> Result<Taken, TakeFault>
        requires pass { IsPassOf self.now pass.old }
        ensures pass { IsPassOf self.now pass.new }
        ensures wrong_heap { IsErrOf result TakeFault.WrongHeap ↔ (IsOfSite self.now op.now → ⊥) }
        ensures unlocked { (IsOfSite self.now op.now → ⊥) → pass.new ≡ pass.old }
        ensures called { IsOfSite self.now op.now →
            IsCall (IsTaken pass.new.stamp op.now result) pass.old pass.new
            (op.now.operation.heap ∷ [])
            ⊎ (IsErrOf result TakeFault.Worn
            × IsWornIn (op.now.operation.heap ∷ []) pass.old pass.new) }
    {
        if !self.has_place(op) {
            return Err(TakeFault::WrongHeap);
        }
        let heap = usize::from(op.heap());
        let Ok((mut held, stamp)) = self.begin_in(rt, pass, heap) else {
            return Err(TakeFault::Worn);
        };
        let taken = held.value_mut().take(alloc, stamp, op);
        self.end_in(pass, heap, held, stamp);
        taken
    }

    /// Takes operations of other sites in one heap, under one hold of its lock and with one stamp,
    /// one after the other up to the first that is Early or that the heap's book refuses. It answers
    /// how many it took and why it took no more: `WrongHeap` where the heap, the number of heaps or
    /// the member's heap of the next one is another, `Worn` where that is New and the book's count is
    /// at its last value, `NoMemory` where it is New and a growth was refused. Those before it stay
    /// taken.
    ///
    /// What was New is handed over by value: its key and its member are empty then. Those from the
    /// first on that it did not take are as they were.
    ///
    /// Other calls wait for the heap until all are taken, so its caller hands over few at a time.
    ///
    /// `Worn` where the heap's lock or the stamp is at its last value, and then no image, book or
    /// stamp has changed, and no operation.
    pub fn take_all<R: Wait>(
        &self,
        rt: &R,
        alloc: Global,
        pass: &mut Pass,
        heap: u8,
        ops: &mut [Op],
    ) -> Result<TakenAll, Worn>
        requires pass { IsPassOf self.now pass.old }
        requires heap { heap < heaps_of self.now }
        ensures pass { IsPassOf self.now pass.new }
        ensures called { IfOk result
            (λ taken. IsCall (IsTakenAll pass.new.stamp ops.old taken) pass.old pass.new
            (heap ∷ [])) }
        ensures left { IfOk result
            (λ taken. drop taken.taken ops.new ≡ drop taken.taken ops.old) }
        ensures refused { OnErr result (IsWornIn (heap ∷ []) pass.old pass.new) }
        ensures kept { OnErr result (ops.new ≡ ops.old) }
    {
        let heap = usize::from(heap);
        let Ok((mut held, stamp)) = self.begin_in(rt, pass, heap) else {
            return Err(Worn);
        };
        let taken = held.value_mut().take_all(alloc, stamp, ops);
        self.end_in(pass, heap, held, stamp);
        Ok(taken)
    }
}
