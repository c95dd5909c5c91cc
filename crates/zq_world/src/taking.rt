//! Sites that are handed an operation.

ghost use Rattle.std.specs.Prelude.{IfErr, IfOk, OnOk, Some, length, slice_get, ◌<◌, ◌≡◌, ℕ};
ghost use Rattle.zq_model.specs.Books as history;
ghost use Rattle.zq_journal.specs.Books.{state_of};
ghost use Rattle.zq_semantics.specs.Events as runs;
ghost use Rattle.zq_shard.specs.Shard.{IsOfHeap};
ghost use Rattle.zq_world.specs.Play.{Holds, Played, after};
ghost use Rattle.zq_world.specs.Steps.{IsHanded};

use crate::answer::Answer;
use crate::faults::PlayFault;
use crate::frames::{carry, carrying};
use crate::player::Player;
use crate::stamps::{greatest_stamp, look_at};
use std::alloc::Global;
use zq_dots::Op;
use zq_journal::{Book, LAST_COUNT, TakeFault};
use zq_shard::Taken;

/// Hands a site the operation of this place among those that were made. It fails only where memory
/// is refused.
pub(crate) fn hand(alloc: Global, player: &mut Player, site: u8, op: usize) -> Result<(), PlayFault>
    requires held { (played : Played) × Holds played player.old }
    requires inside { site < length player.old.sites.items }
    requires made { op < length player.old.made.items }
    ensures memory { IfErr result (λ fault. fault ≡ PlayFault.NoMemory) }
    ensures held { OnOk result ((played : Played) → Holds played player.old →
        Holds (after played (runs.Take site op)) player.new) }
{
    // For the proof: what was made is read as it was written.
    carrying();
    let op = carry(alloc, &player.made[op])?;
    let taken = take_in(alloc, &mut player.sites[site as usize], &op)?;
    player.answers.reserve(1)?;
    player.answers.push_reserved(Answer::Handed(taken));
    Ok(())
}

/// What becomes of an operation that is handed to books, and nothing where one of their stamps, or
/// the count of its heap, is at its last value.
fn take_in(alloc: Global, books: &mut Vec<Book>, op: &Op) -> Result<Option<Taken>, PlayFault>
    requires placed { (book : history.Book)
        × (slice_get books.old.items op.now.operation.heap ≡ Some book)
        × IsOfHeap (state_of book) op.now }
    ensures memory { IfErr result (λ fault. fault ≡ PlayFault.NoMemory) }
    ensures handed { IfOk result
        (λ taken. IsHanded op.now.operation books.old.items books.new.items taken) }
{
    look_at(books);
    let stamp = greatest_stamp(books);
    if stamp == LAST_COUNT {
        return Ok(None);
    }
    match books[op.heap() as usize].take(alloc, stamp + 1, op) {
        Ok(taken) => Ok(Some(taken)),
        Err(TakeFault::Worn) => Ok(None),
        Err(TakeFault::NoMemory) => Err(PlayFault::NoMemory),
        Err(TakeFault::WrongHeap) => unreachable!(),
    }
}
