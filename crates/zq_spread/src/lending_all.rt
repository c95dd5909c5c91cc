//! How the heaps that a call holds are lent to a command.
ghost use Rattle.std.specs.FinMap.{get};
ghost use Rattle.std.specs.Prelude.{IfOk, IsErrOf, OnErr, OnOk, Some, is_some, length, slice_get, ◌<◌, ◌↔◌, ◌≡◌, ◌≤◌, true, ℕ};
ghost use Rattle.zq_commands.specs.Lending.{IsLending};
ghost use Rattle.zq_commands.specs.VecBooks.{lending_of, rule_in};
ghost use Rattle.zq_dots.specs.Act.{act_of};
ghost use Rattle.zq_model.specs.Books.{Book as Books};
ghost use Rattle.zq_journal.specs.Books.{state_of};
ghost use Rattle.zq_model.specs.Operation.{LONGEST};
ghost use Rattle.zq_model.specs.Lent.{is_home_of, made_in};
ghost use Rattle.zq_semantics.specs.Run.{LAST_COUNT, is_worn};
ghost use Rattle.zq_spread.specs.Several.{IsBoundedBook, IsHeldOn, books_of, helds_of};
ghost use Rattle.zq_ticketlock.specs.Seats.{value_of};

use crate::locked_heap::LockedHeap;
use crate::locked_heaps::LockedHeaps;
use std::alloc::Global;
use zq_commands::{Books, MOST_SCANNED, Stopped, make_in};
use zq_dots::{Act, SiteNo, heap_of};
use zq_journal::Book;
use zq_shard::Shard;
use zq_ticketlock::Held;

impl Books for LockedHeaps {
    ghost use Rattle.zq_spread.specs.Several.{AreHeldOn, held_on_itself, held_on_through};

    ghost lent = { λ holds. lending_of (books_of (helds_of holds)) };

    ghost keeps = { λ old new. AreHeldOn (helds_of old) (helds_of new) };

    fn len(&self) -> usize {
        self.helds.as_slice().len()
    }

    fn home(&self, key: &[u8], member: &[u8]) -> usize {
        place_of(self, heap_of(key, member, book_at(self, 0).shard().heaps()))
    }

    fn shard(&self, place: usize) -> &Shard {
        shard_at(self, place)
    }

    fn index(&mut self, alloc: Global, place: usize, key: &[u8]) {
        let index = self.helds.as_slice().len() - 1 - place;
        index_held(&mut self.helds[index], alloc, key);
    }

    fn make(
        &mut self,
        alloc: Global,
        place: usize,
        site: SiteNo,
        stamp: u64,
        key: &[u8],
        member: &[u8],
        act: Act,
    ) -> Result<bool, Stopped> {
        let index = self.helds.as_slice().len() - 1 - place;
        make_held(&mut self.helds[index], alloc, site, stamp, key, member, act)
    }

    ghost keeps_itself = { λ holds. held_on_itself (helds_of holds) };

    ghost keeps_through = { λ x y z. held_on_through (helds_of x) (helds_of y) (helds_of z) };
}

/// The book at a place. The lowest heap is the last of the stack.
pub(crate) fn book_at(holds: &LockedHeaps, place: usize) -> &Book
    requires { place < length (helds_of holds.now) }
    ensures { slice_get (books_of (helds_of holds.now)) place ≡ Some result.now }
{
    let index = holds.helds.as_slice().len() - 1 - place;
    &holds.helds[index].value().book
}

/// The place of the book of a heap, which is one of these.
fn place_of(holds: &LockedHeaps, heap: u8) -> usize
    requires { (place : ℕ) × (book : Books)
        × (slice_get (books_of (helds_of holds.now)) place ≡ Some book) × (book.heap ≡ heap) }
    ensures inside { result < length (books_of (helds_of holds.now)) }
    ensures heap { (book : Books) → slice_get (books_of (helds_of holds.now)) result ≡ Some book →
        book.heap ≡ heap }
{
    for place in 0..holds.helds.as_slice().len() {
        if book_at(holds, place).shard().heap() == heap {
            return place;
        }
    }
    unreachable!()
}

/// The heap at a place.
fn shard_at(holds: &LockedHeaps, place: usize) -> &Shard
    requires lent { IsLending (lending_of (books_of (helds_of holds.now))) }
    requires inside { place < length (books_of (helds_of holds.now)) }
    ensures { (book : Books) → slice_get (books_of (helds_of holds.now)) place ≡ Some book →
        result.now ≡ record (state_of book) { rule = rule_in (books_of (helds_of holds.now)) } }
{
    book_at(holds, place).shard()
}

/// Makes an ordered index of a key's members in a heap that is held.
fn index_held(held: &mut Held<LockedHeap>, alloc: Global, key: &[u8])
    ensures same { (value_of held.new).book ≡ (value_of held.old).book }
    ensures held { IsHeldOn held.old held.new }
{
    let kept = held.value_mut();
    kept.book.index(alloc, key, MOST_SCANNED);
}

/// Makes a site's next operation of an act in a heap that is held, which is the member's, and
/// answers whether the member stood before. Nothing has changed after an error.
fn make_held(
    held: &mut Held<LockedHeap>,
    alloc: Global,
    site: SiteNo,
    stamp: u64,
    key: &[u8],
    member: &[u8],
    act: Act,
) -> Result<bool, Stopped>
    requires home { is_home_of key.now member.now (value_of held.old).book ≡ true }
    requires stamp { (value_of held.old).book.stamp ≤ stamp }
    requires bounded { stamp ≤ LAST_COUNT }
    requires key { length key.now ≤ LONGEST }
    requires member { length member.now ≤ LONGEST }
    ensures made { OnOk result ((value_of held.new).book
        ≡ made_in site stamp (record { key = key.now; member = member.now; act = act_of act })
        (value_of held.old).book) }
    ensures stood { IfOk result
        (λ stood. stood ≡ is_some
        (get (value_of held.old).book.state.members (key.now, member.now))) }
    ensures bounded { OnOk result (IsBoundedBook (value_of held.new).book) }
    ensures held { IsHeldOn held.old held.new }
    ensures worn { IsErrOf result Stopped.Worn ↔ (is_worn site (value_of held.old).book ≡ true) }
    ensures refused { OnErr result ((value_of held.new).book ≡ (value_of held.old).book) }
{
    let kept = held.value_mut();
    make_in(&mut kept.book, alloc, site, stamp, key, member, act)
}
