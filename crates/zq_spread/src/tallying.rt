//! That all steps of a heap are the passes' own.
ghost use Rattle.std.specs.List.{AllZip};
ghost use Rattle.std.specs.Prelude.{◌≡◌, ◌+◌, ◌<◌, All, Some, OnErr, OnOk, length, slice_get, sum};
ghost use Rattle.zq_spread.specs.Companies.{AreAllPasses, HasSeenAll, IsCountBack, IsSeenByFirst, steps_of_all};
ghost use Rattle.zq_spread.specs.Passes.{IsCountOf, steps_at};
ghost use Rattle.zq_spread.specs.Worn.{HasFoundWorn};
ghost use Rattle.zq_tally.specs.Words.{IsSameTotal, id_of, parts_of, passes_of, total_of, total_table};
ghost use Rattle.zq_tally.specs.Limits.{ALL_PARTS};

use crate::heap_slot::HeapSlot;
use crate::pass::Pass;
use crate::site::Site;
use std::sync::Wait;
use zq_tally::Total;
use zq_ticketlock::Worn;

impl HeapSlot {
    /// Joins the counts of these passes with the total, looks, and splits them again as they were.
    fn gather(&self, total: &mut Total, first: &mut Pass, others: &mut [Pass], heap: usize)
        requires own { total_table total.old ≡ id_of self.now.tally }
        requires first { IsCountOf self.now (slice_get first.old.counts.items heap) }
        requires others { All (λ pass. IsCountOf self.now (slice_get pass.counts.items heap))
            others.old }
        requires all { 1 + length others.old + parts_of total.old ≡ ALL_PARTS }
        ensures sum { total_of total.old ≡ steps_at first.old heap + steps_of_all heap others.old
            + sum (passes_of total.old) }
        ensures first { IsCountBack self.now heap first.old first.new }
        ensures others { AllZip (IsCountBack self.now heap) others.old others.new }
        ensures stays { IsSameTotal total.new total.old }
    {
        let Some(count) = first.counts[heap].take() else {
            unreachable!()
        };
        let steps = count.steps();
        self.tally.join(total, count);
        match others.split_first_mut() {
            None => self.tally.look(total),
            Some((second, rest)) => self.gather(total, second, rest, heap),
        }
        first.counts[heap] = Some(self.tally.split(total, steps));
    }
}

impl Site {
    /// Makes sure that what was recorded and merged in a heap is what these passes have made there.
    /// The first pass then has seen a book there whose count is that of the opening book with the
    /// steps of all of them. No image, book or stamp has changed: the book is let go as it was
    /// given. `Worn` where the heap's lock is at its last ticket, which the first pass has then
    /// found.
    pub fn tally<R: Wait>(&self, rt: &R, passes: &mut [Pass], heap: u8) -> Result<(), Worn>
        requires all { AreAllPasses self.now passes.old }
        requires heap { heap < length self.now.slots.items }
        ensures all { AreAllPasses self.now passes.new }
        ensures stays { IsSeenByFirst heap passes.old passes.new }
        ensures sum { OnOk result (HasSeenAll self.now heap passes.new) }
        ensures worn { OnErr result (HasFoundWorn heap passes.new) }
    {
        let heap = usize::from(heap);
        let Some((first, others)) = passes.split_first_mut() else {
            unreachable!()
        };
        let slot = &self.slots[heap];
        let seat = self.take_seat(first, heap);
        match slot.lock.lock(rt, seat) {
            Ok(mut held) => {
                slot.gather(&mut held.value_mut().total, first, others, heap);
                let seat = slot.lock.unlock(held);
                self.put_seat(first, heap, seat);
                Ok(())
            }
            Err((_, seat)) => {
                self.put_seat(first, heap, seat);
                Err(Worn)
            }
        }
    }
}
