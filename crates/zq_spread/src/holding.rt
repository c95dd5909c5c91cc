//! Holding a heap for a while.
ghost use Rattle.std.specs.Prelude.{◌≡◌, ◌<◌, ◌≤◌, ◌↔◌, IfErr, IfOk};
ghost use Rattle.zq_spread.specs.Calls.{heaps_of};
ghost use Rattle.zq_spread.specs.Companies.{IsSamePass};
ghost use Rattle.zq_spread.specs.Holdings.{IsBack, IsHeldBy, IsHoldingOf, book_held};
ghost use Rattle.zq_spread.specs.Passes.{IsPassOf};
ghost use Rattle.zq_spread.specs.Worn.{reached_at, served_at};
ghost use Rattle.zq_ticketlock.specs.Limits.{last_ticket};

use crate::faults::HoldFault;
use crate::holdings::Holding;
use crate::pass::Pass;
use crate::site::Site;
use zq_journal::Book;

impl Holding {
    /// The heap's book.
    pub fn book(&self) -> &Book
        ensures { result.now ≡ book_held self.now }
    {
        &self.held.value().book
    }
}

impl Site {
    /// Takes a heap's lock, if nobody holds it or waits for it, and shows its book, which was
    /// reached from what the pass had seen. Other passes cannot work in the heap until it is
    /// released. It never waits, and takes no memory.
    ///
    /// Or else the pass comes back as it was: `Worn` where the lock is at its last value, else
    /// `Busy`, where it has found that somebody else had drawn the ticket which is served.
    pub fn hold(&self, mut pass: Pass, heap: u8) -> Result<Holding, (HoldFault, Pass)>
        requires pass { IsPassOf self.now pass }
        requires heap { heap < heaps_of self.now }
        ensures holding { IfOk result (IsHoldingOf self.now) }
        ensures held { IfOk result (IsHeldBy pass heap) }
        ensures back { IfErr result (λ e. IsPassOf self.now e.1) }
        ensures same { IfErr result (λ e. IsSamePass pass e.1) }
        ensures worn { IfErr result (λ e. (e.0 ≡ HoldFault.Worn)
            ↔ (last_ticket ≤ served_at e.1 heap)) }
        ensures busy { IfErr result (λ e. e.0 ≡ HoldFault.Busy →
            served_at e.1 heap < reached_at e.1 heap) }
    {
        let heap = usize::from(heap);
        let seat = self.take_seat(&mut pass, heap);
        match self.slots[heap].lock.try_lock(seat) {
            Ok(held) => Ok(Holding { pass, heap, held }),
            Err((fault, seat)) => {
                self.put_seat(&mut pass, heap, seat);
                Err((HoldFault::from(fault), pass))
            }
        }
    }

    /// Puts a heap home that was held, with its book, its stamp and all its records as they were.
    /// The pass has then seen that book. It takes no memory.
    pub fn release(&self, holding: Holding) -> Pass
        requires holding { IsHoldingOf self.now holding }
        ensures pass { IsPassOf self.now result }
        ensures back { IsBack holding result }
    {
        let Holding {
            mut pass,
            heap,
            held,
        } = holding;
        let seat = self.slots[heap].lock.unlock(held);
        self.put_seat(&mut pass, heap, seat);
        pass
    }
}
