//! How the heaps of a site get their memory and their books.
ghost use Rattle.std.specs.List.{AllZip};
ghost use Rattle.std.specs.Prelude.{◌≡◌, ◌≤◌, ◌<◌, ◌+◌, ◌++◌, ◌∷◌, List, Some, [], IfOk, length, slice_get, ℕ};
ghost use Rattle.zq_dots.specs.Rule.{rule_of};
ghost use Rattle.zq_dots.specs.declared.rule.Rule.{Rule as Rules};
ghost use Rattle.zq_model.specs.Books.{Book as Books};
ghost use Rattle.zq_spread.specs.SiteBuilders.{AreSettled, HasPlaces, IsCounted, IsGround, IsNextBook, IsReady, IsSeated};
ghost use Rattle.zq_spread.specs.Makers.{AreOfHeaps};
ghost use Rattle.zq_spread.specs.declared.pass.Pass.{Pass as Passes};
ghost use Rattle.zq_tally.specs.Words.{id_of as table_of, kept_of, passes_of, total_of, total_table};
ghost use Rattle.zq_ticketlock.specs.Seats.{id_of, lock_of, seen};

use crate::empty_slot::EmptySlot;
use crate::heap_slot::HeapSlot;
use crate::locked_heap::LockedHeap;
use crate::pass::Pass;
use crate::site_builder::SiteBuilder;
use std::alloc::{AllocError, Global};
use zq_dots::Rule;
use zq_journal::Book;
use zq_tally::{PARTS, Tally, Total};
use zq_ticketlock::{Seat, TicketLock};

/// So many places with nothing in them.
fn empty_places<T: Drop>(alloc: Global, count: u8) -> Result<Vec<Option<T>>, AllocError>
    ensures { IfOk result (λ places. length places.items ≡ count) }
{
    let mut places = Vec::new(alloc);
    for _place in 0..count {
        places.push(None)?;
    }
    Ok(places)
}

/// A pass with places for so many heaps.
fn empty_pass(alloc: Global, heaps: u8) -> Result<Pass, AllocError>
    ensures { IfOk result (HasPlaces heaps) }
{
    Ok(Pass {
        seats: empty_places(alloc, heaps)?,
        counts: empty_places(alloc, heaps)?,
        stamp: 0,
    })
}

fn empty_passes(alloc: Global, heaps: u8, count: usize) -> Result<Vec<Pass>, AllocError>
    ensures number { IfOk result (λ passes. length passes.items ≡ count) }
    ensures places { IfOk result (λ passes. (i : ℕ) (pass : Passes) →
        slice_get passes.items i ≡ Some pass → HasPlaces heaps pass) }
{
    let mut passes = Vec::new(alloc);
    for _pass in 0..count {
        let pass = empty_pass(alloc, heaps)?;
        passes.push(pass)?;
    }
    Ok(passes)
}

fn empty_slots(alloc: Global, count: u8) -> Result<Vec<EmptySlot>, AllocError>
    ensures { IfOk result (λ empty_slots. length empty_slots.items ≡ count) }
{
    let mut empty_slots = Vec::new(alloc);
    for _empty_slot in 0..count {
        let empty_slot = EmptySlot::new(alloc)?;
        empty_slots.push(empty_slot)?;
    }
    Ok(empty_slots)
}

/// Gives each pass a new count in a heap.
fn deal_counts(tally: &Tally, total: &mut Total, heap: usize, passes: &mut [Pass])
    requires own { total_table total.old ≡ table_of tally.now }
    requires spare { length passes.old < kept_of total.old }
    requires places { (i : ℕ) (pass : Passes) → slice_get passes.old i ≡ Some pass →
        heap < length pass.counts.items }
    ensures total { (total_table total.new ≡ total_table total.old)
        × (total_of total.new ≡ total_of total.old) × (passes_of total.new ≡ passes_of total.old) }
    ensures own { total_table total.new ≡ table_of tally.now }
    ensures kept { kept_of total.new + length passes.old ≡ kept_of total.old }
    ensures dealt { AllZip (IsCounted tally.now heap) passes.old passes.new }
{
    for pass in passes {
        pass.counts[heap] = Some(tally.add_pass(total));
    }
}

/// Gives each pass a seat in a heap, which has seen what the first seat has.
fn deal_seats(
    lock: &TicketLock<LockedHeap>,
    first: Seat<LockedHeap>,
    heap: usize,
    passes: &mut [Pass],
)
    requires lock { lock_of first ≡ id_of lock.now }
    requires places { (i : ℕ) (pass : Passes) → slice_get passes.old i ≡ Some pass →
        heap < length pass.seats.items }
    ensures dealt { AllZip (IsSeated lock.now (seen first) heap) passes.old passes.new }
{
    let mut seat = first;
    for pass in passes {
        let (one, other) = lock.split(seat);
        pass.seats[heap] = Some(one);
        seat = other;
    }
}

impl SiteBuilder {
    /// All the memory of a site of so many heaps and passes, beside its books.
    pub(crate) fn new(
        alloc: Global,
        heaps: u8,
        passes: usize,
        rule: Rule,
    ) -> Result<SiteBuilder, AllocError>
        ensures { IfOk result (IsGround heaps passes rule []) }
    {
        Ok(SiteBuilder {
            empty_slots: empty_slots(alloc, heaps)?,
            slots: Vec::with_capacity(alloc, usize::from(heaps))?,
            passes: empty_passes(alloc, heaps, passes)?,
            heaps,
            rule,
        })
    }

    /// Gives the next heap its book, and each pass a seat and a count there.
    fn build_next(&mut self, book: Book)
        requires ready { IsReady self.old }
        requires book { IsNextBook self.old book }
        ensures settled { (heaps n : ℕ) (rule : Rules) (books : List Books) →
            IsGround heaps n rule books self.old →
            IsGround heaps n rule (books ++ book ∷ []) self.new }
    {
        let Some(
            EmptySlot {
                lock,
                tally,
                mut total,
            },
        ) = self.empty_slots.pop()
        else {
            unreachable!()
        };
        let heap = self.slots.len();
        let spare = PARTS - self.passes.len() as u64;
        deal_counts(&tally, &mut total, heap, &mut self.passes);
        let opening = book.count();
        let (lock, seat) = lock.fill(LockedHeap { book, total });
        deal_seats(&lock, seat, heap, &mut self.passes);
        self.slots.push_reserved(HeapSlot {
            lock,
            tally,
            heap: heap as u8,
            heaps: self.heaps,
            rule: self.rule,
            opening,
            spare,
        });
    }

    /// Gives each heap its book. It takes no memory.
    pub(crate) fn build(mut self, books: Vec<Book>) -> (Vec<HeapSlot>, Vec<Pass>)
        requires builder { IsGround (length books.items)
            (length self.passes.items) self.rule [] self }
        requires books { AreOfHeaps books.items }
        requires rule { (h : ℕ) (book : Books) → slice_get books.items h ≡ Some book →
            book.rule ≡ rule_of self.rule }
        requires bounded { length self.passes.items ≤ 128 }
        ensures { AreSettled (length books.items)
            (length self.passes.items) self.rule books.items result.0.items result.1.items }
    {
        for book in books {
            self.build_next(book);
        }
        let SiteBuilder { slots, passes, .. } = self;
        (slots, passes)
    }
}
