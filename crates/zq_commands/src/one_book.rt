//! What commands read and make in the book of one heap.

ghost use Rattle.std.specs.FinMap.{get};
ghost use Rattle.std.specs.Prelude.{IfOk, IsErrOf, OnErr, OnOk, count_by, is_some, length, not, true, ◌↔◌, ◌≡◌, ◌≤◌};
ghost use Rattle.zq_commands.specs.VecBooks.{IsRecordedOn};
ghost use Rattle.zq_dots.specs.Act.{act_of};
ghost use Rattle.zq_model.specs.Bounded.{IsBounded};
ghost use Rattle.zq_model.specs.Operation.{LONGEST};
ghost use Rattle.zq_model.specs.Lent.{is_home_of, made_in};
ghost use Rattle.zq_semantics.specs.Ranges.{is_below_limit, is_within};
ghost use Rattle.zq_semantics.specs.Run.{LAST_COUNT, is_worn};
ghost use Rattle.zq_shard.specs.Shard.{queue_at};

use crate::stopped::Stopped;
use std::alloc::Global;
use zq_dots::{Act, SiteNo};
use zq_journal::Book;
use zq_shard::{MakeFault, Shard};
use zq_words::{Bound, Limit};

/// How many scores of a key are below a limit, or at it unless it is out.
fn count_to(shard: &Shard, key: &[u8], is_out: bool, limit: Limit) -> usize
    ensures { result ≡ count_by (λ pair. is_below_limit is_out limit pair.0)
        (queue_at shard.now key.now) }
{
    match limit {
        Limit::Lowest => 0,
        Limit::At(score) => shard.count_below(key, i128::from(score), !is_out),
        Limit::Highest => shard.count(key),
    }
}

/// How many scores of a key are within these bounds.
pub(crate) fn count_between(shard: &Shard, key: &[u8], min: &Bound, max: &Bound) -> usize
    ensures { result ≡ count_by (is_within min.now max.now) (queue_at shard.now key.now) }
{
    let below = count_to(shard, key, max.is_out, max.limit);
    below.saturating_sub(count_to(shard, key, !min.is_out, min.limit))
}

/// Makes a site's next operation of an act in a book, which is that of the member's heap, and
/// answers whether the member stood before. Nothing has changed after an error.
pub fn make_in(
    book: &mut Book,
    alloc: Global,
    site: SiteNo,
    stamp: u64,
    key: &[u8],
    member: &[u8],
    act: Act,
) -> Result<bool, Stopped>
    requires home { is_home_of key.now member.now book.old ≡ true }
    requires stamp { book.old.stamp ≤ stamp }
    requires bounded { stamp ≤ LAST_COUNT }
    requires key { length key.now ≤ LONGEST }
    requires member { length member.now ≤ LONGEST }
    ensures made { OnOk result
        (book.new ≡ made_in site stamp
        (record { key = key.now; member = member.now; act = act_of act }) book.old) }
    ensures stood { IfOk result
        (λ stood. stood ≡ is_some (get book.old.state.members (key.now, member.now))) }
    ensures bounded { OnOk result (IsBounded book.new.heaps book.new.heap book.new.state) }
    ensures recorded { IsRecordedOn book.old book.new }
    ensures worn { IsErrOf result Stopped.Worn ↔ (is_worn site book.old ≡ true) }
    ensures refused { OnErr result (book.new ≡ book.old) }
{
    match book.make_here(alloc, site, stamp, key, member, act) {
        Ok(stood) => {
            // For the proof: the book's state is within bounds.
            let _vector = book.shard().vector();
            Ok(stood)
        }
        Err(MakeFault::Worn) => Err(Stopped::Worn),
        Err(MakeFault::NoMemory) => Err(Stopped::NoMemory),
        Err(MakeFault::WrongHeap) => unreachable!(),
    }
}
