//! The first pair of a key, copied and dropped.

ghost use Rattle.std.specs.Prelude.{IfOk, IfSome, IsErrOf, IsTrue, OnErr, OnOk, Some, length, option_map, true, ◌≡◌, ◌≤◌};
ghost use Rattle.zq_commands.specs.Arrays.{copied_parts};
ghost use Rattle.zq_commands.specs.Lending.{IsDated, IsHomeAt, IsLending, queues_in};
ghost use Rattle.zq_commands.specs.FirstPairs.{DropsFirst, IsFirstWorn, top_in};
ghost use Rattle.zq_model.specs.Operation.{LONGEST};
ghost use Rattle.zq_semantics.specs.Plan.{is_there};
ghost use Rattle.zq_semantics.specs.Replies.{parts_of_pair};

use crate::books::Books;
use crate::call::Call;
use crate::first_of_key::top_of;
use crate::making::make_at;
use crate::stopped::Stopped;
use std::alloc::{AllocError, Global};
use zq_dots::Act;
use zq_model::heading;
use zq_resp::Text;

/// A member and its score, and the place of its book.
#[derive(Debug, Drop)]
pub struct Copied {
    pub place: usize,
    pub member: Text,
    pub score: i128,
}

/// A copy of the first pair of a key.
pub fn copy_top<B: Books>(books: &B, alloc: Global, key: &[u8]) -> Result<Option<Copied>, Stopped>
    requires lent { IsLending (B.lent books.now) }
    ensures copied { IfOk result (λ copied. option_map copied_parts copied
        ≡ option_map (parts_of_pair true) (top_in (B.lent books.now) key.now)) }
    ensures home { IfOk result
        (λ copied. IfSome copied
        (λ pair. IsHomeAt key.now pair.member.items pair.place (B.lent books.now))) }
    ensures refused { IsErrOf result Stopped.Worn → ⊥ }
    ensures there { OnErr result (IsTrue (is_there (queues_in (B.lent books.now) key.now))) }
{
    let Some(top) = top_of(books, key) else {
        return Ok(None);
    };
    let (score, member) = top.pair;
    match Text::from_slice(alloc, member) {
        Ok(member) => Ok(Some(Copied {
            place: top.place,
            member,
            score,
        })),
        Err(AllocError) => Err(Stopped::NoMemory),
    }
}

/// Drops the first pair of a key, of which this is the member, in the book at the place where it
/// was found.
pub fn drop_top<B: Books>(
    books: &mut B,
    call: &Call,
    place: usize,
    key: &[u8],
    member: &[u8],
) -> Result<(), Stopped>
    requires lent { IsLending (B.lent books.old) }
    requires dated { IsDated call.now.stamp (B.lent books.old) }
    requires key { length key.now ≤ LONGEST }
    requires home { IsHomeAt key.now member.now place (B.lent books.old) }
    requires top { option_map (λ pair. pair.1) (top_in (B.lent books.old) key.now)
        ≡ Some member.now }
    ensures dropped { OnOk result
        (DropsFirst call.now.site call.now.stamp key.now (B.lent books.old) (B.lent books.new)) }
    ensures refused { OnErr result (B.lent books.new ≡ B.lent books.old) }
    ensures worn { IsErrOf result Stopped.Worn →
        IsFirstWorn call.now.site key.now (B.lent books.old) }
    ensures lent { IsLending (B.lent books.new) }
    ensures dated { IsDated call.now.stamp (B.lent books.new) }
    ensures keeps { B.keeps books.old books.new }
{
    // For the proof: without its first member a queue is the rest.
    heading();
    match make_at(books, call, place, key, member, Act::Drop) {
        Ok(_) => Ok(()),
        Err(cut) => Err(cut),
    }
}
