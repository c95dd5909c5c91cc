//! Sites that merge an image.

ghost use Rattle.std.specs.Prelude.{IfErr, OnOk, Some, slice_get, ◌≡◌, ℕ};
ghost use Rattle.zq_model.specs.Books as history;
ghost use Rattle.zq_semantics.specs.Events as runs;
ghost use Rattle.zq_shard.specs.Shard.{IsSameHeap};
ghost use Rattle.zq_journal.specs.Books.{state_of};
ghost use Rattle.zq_world.specs.Play.{Holds, Played, after};
ghost use Rattle.zq_world.specs.Keeping.{IsMergeable};
ghost use Rattle.zq_world.specs.Steps.{IsMerged};

use crate::answer::Answer;
use crate::faults::PlayFault;
use crate::frames::receive;
use crate::player::Player;
use crate::stamps::{greatest_stamp, look_at};
use std::alloc::Global;
use zq_journal::{Book, LAST_COUNT, MergeFault};
use zq_posheap::Seeded;
use zq_shard::Shard;

/// Merges the image of a frame into a site. It fails only where memory is refused.
pub(crate) fn merge(
    alloc: Global,
    player: &mut Player,
    site: u8,
    frame: &[u8],
) -> Result<(), PlayFault>
    requires held { (played : Played)
        × ((from : ℕ) × ((heap : ℕ)
        × ((moment : ℕ) × IsMergeable played player.old site from heap moment frame.now))) }
    ensures held { OnOk result ((played : Played) (from heap moment : ℕ) →
        IsMergeable played player.old site from heap moment frame.now →
        Holds (after played (runs.Merge site from heap moment)) player.new) }
    ensures memory { IfErr result (λ fault. fault ≡ PlayFault.NoMemory) }
{
    let shard = receive(alloc, frame, Seeded::new(0))?;
    merge_in(alloc, &mut player.sites[site as usize], &shard)?;
    player.answers.reserve(1)?;
    player.answers.push_reserved(Answer::Merged);
    Ok(())
}

/// Merges an image into the book of its heap, unless one of the books' stamps, or its count, is at
/// its last value.
fn merge_in(alloc: Global, books: &mut Vec<Book>, shard: &Shard) -> Result<(), PlayFault>
    requires placed { (book : history.Book) × (slice_get books.old.items shard.now.heap ≡ Some book)
        × IsSameHeap (state_of book) shard.now × (book.rule ≡ shard.now.rule) }
    ensures merged { OnOk result (IsMerged shard.now books.old.items books.new.items) }
    ensures memory { IfErr result (λ fault. fault ≡ PlayFault.NoMemory) }
{
    look_at(books);
    let stamp = greatest_stamp(books);
    if stamp == LAST_COUNT {
        return Ok(());
    }
    match books[shard.heap() as usize].merge(alloc, stamp + 1, shard) {
        Ok(()) => Ok(()),
        Err(MergeFault::Worn) => Ok(()),
        Err(MergeFault::NoMemory) => Err(PlayFault::NoMemory),
        Err(MergeFault::WrongHeap) => unreachable!(),
        Err(MergeFault::WrongRule) => unreachable!(),
    }
}
