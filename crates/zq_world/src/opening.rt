//! A world before its first event.

ghost use Rattle.std.specs.Prelude.{IfErr, IfOk, [], length, ◌<◌, ◌≡◌, ◌≤◌, ℕ};
ghost use Rattle.zq_dots.specs.Rule.{rule_of};
ghost use Rattle.zq_model.specs.Sets.{IsHeaps};
ghost use Rattle.zq_semantics.specs.Books.{AreBooksOf};
ghost use Rattle.zq_semantics.specs.Runs as runs;
ghost use Rattle.zq_world.specs.Play.{Holds};

use crate::faults::PlayFault;
use crate::player::Player;
use std::alloc::{AllocError, Global};
use zq_dots::Rule;
use zq_journal::Book;
use zq_posheap::Seeded;
use zq_shard::Shard;

/// So many sites of so many heaps, in which nothing was done.
pub(crate) fn opening(alloc: Global, sites: u8, heaps: u8, rule: Rule) -> Result<Player, PlayFault>
    requires heaps { IsHeaps heaps }
    requires two { 2 ≤ heaps }
    requires sites { sites ≤ 64 }
    ensures memory { IfErr result (λ fault. fault ≡ PlayFault.NoMemory) }
    ensures held { IfOk result
        (λ player. Holds (record { rule = rule_of rule; heaps = heaps; sites = sites; events = [] })
        player) }
{
    let mut all = Vec::new(alloc);
    for _site in 0..sites {
        let books = empty_books(alloc, heaps, rule)?;
        all.reserve(1)?;
        all.push_reserved(books);
    }
    Ok(Player {
        sites: all,
        made: Vec::new(alloc),
        answers: Vec::new(alloc),
    })
}

/// The books of a site that has done nothing.
fn empty_books(alloc: Global, heaps: u8, rule: Rule) -> Result<Vec<Book>, AllocError>
    requires heaps { IsHeaps heaps }
    ensures { IfOk result (λ books. (site : ℕ) →
        AreBooksOf (rule_of rule) heaps runs.opening site books.items) }
{
    let mut books = Vec::new(alloc);
    for heap in 0..heaps {
        let shard = Shard::new_ruled(alloc, heap, heaps, rule, Seeded::new(0));
        books.push(Book::new(alloc, shard))?;
    }
    Ok(books)
}
