//! How a heap that is held is lent to a command.
ghost use Rattle.std.specs.Prelude.{Some, [], slice_get, ◌∷◌, ◌≡◌};
ghost use Rattle.zq_commands.specs.VecBooks.{lending_of};
ghost use Rattle.zq_model.specs.Books.{Book as Books};
ghost use Rattle.zq_journal.specs.Books.{state_of};

use crate::locked_heap::LockedHeap;
use std::alloc::Global;
use zq_commands::{Books, MOST_SCANNED, Stopped, make_in};
use zq_dots::{Act, SiteNo};
use zq_shard::Shard;

impl Books for LockedHeap {
    ghost use Rattle.zq_spread.specs.Recorded.{kept_itself, kept_through, IsKeptOn};

    ghost lent = { λ kept. lending_of (kept.book ∷ []) };

    ghost keeps = { IsKeptOn };

    fn len(&self) -> usize {
        1
    }

    fn home(&self, _key: &[u8], _member: &[u8]) -> usize {
        0
    }

    fn shard(&self, place: usize) -> &Shard {
        heap_at(self, place)
    }

    fn index(&mut self, alloc: Global, _place: usize, key: &[u8]) {
        self.book.index(alloc, key, MOST_SCANNED);
    }

    fn make(
        &mut self,
        alloc: Global,
        _place: usize,
        site: SiteNo,
        stamp: u64,
        key: &[u8],
        member: &[u8],
        act: Act,
    ) -> Result<bool, Stopped> {
        make_in(&mut self.book, alloc, site, stamp, key, member, act)
    }

    ghost keeps_itself = { kept_itself };

    ghost keeps_through = { kept_through };
}

/// The heap at the one place.
fn heap_at(kept: &LockedHeap, _place: usize) -> &Shard
    ensures { (book : Books) → slice_get (kept.now.book ∷ []) _place ≡ Some book →
        result.now ≡ record (state_of book) { rule = kept.now.book.rule } }
{
    kept.book.shard()
}
