//! Removal of the pairs of a range.

ghost use Rattle.std.specs.Prelude.{IfOk, IsTrue, OnErr, length, ◌<◌, ◌^◌, ◌≡◌, ◌≤◌, ◌⊎◌};
ghost use Rattle.zq_commands.specs.Lending.{IsDated, IsLending, queues_in};
ghost use Rattle.zq_commands.specs.Running.{EndsOver};
ghost use Rattle.zq_model.specs.Operation.{LONGEST};
ghost use Rattle.zq_resp.specs.Reply.{is_writable, reply_bytes};
ghost use Rattle.zq_semantics.specs.Plan.{in_turn, is_there, zrem_part};
ghost use Rattle.zq_semantics.specs.Procedures.{members_of, takes_found};
ghost use Rattle.zq_semantics.specs.Ranges.{ranged};
ghost use Rattle.zq_semantics.specs.Run.{UNCOUNTED, cut_error};
ghost use Rattle.zq_words.specs.Words.{views};

use crate::books::Books;
use crate::call::Call;
use crate::copied::copy_members;
use crate::dropping::drop_each;
use crate::ran::Outcome;
use crate::range_section::Section;
use crate::stopped::Stopped;
use crate::totals::{total_members, total_within};
use crate::zrange::section_pairs;
use crate::zrem::answer_dropped;
use std::alloc::{AllocError, Global};
use zq_words::Range;

/// Drops the pairs that a range takes of a key, in order, and answers how many there were. Their
/// members are copied first: where there is no memory for that, none is dropped.
pub fn remove_range<B: Books, O: Outcome>(
    books: &mut B,
    call: &Call,
    key: &[u8],
    range: &Range,
) -> O
    requires lent { IsLending (B.lent books.old) }
    requires dated { IsDated call.now.stamp (B.lent books.old) }
    requires key { length key.now ≤ LONGEST }
    ensures ran { EndsOver call.now.site call.now.stamp
        (takes_found (length (queues_in (B.lent books.old) key.now)))
        (in_turn (zrem_part key.now)
        (members_of (ranged range.now (queues_in (B.lent books.old) key.now)))
        (queues_in (B.lent books.old))) cut_error
        (B.lent books.old) (B.lent books.new) (reply_bytes (O.reply result)) (O.is_short result) }
    ensures lent { IsLending (B.lent books.new) }
    ensures dated { IsDated call.now.stamp (B.lent books.new) }
    ensures keeps { B.keeps books.old books.new }
    ensures writable { IsTrue (is_writable (O.reply result)) }
{
    match members_within(books, call.alloc, key, range) {
        Ok(members) => answer_dropped(&drop_each(books, call, key, &members)),
        Err(AllocError) => O::of_cut(Stopped::NoMemory, 0),
    }
}

/// Copies of the members that a range takes of a key. Where no number counts the members of the
/// key, it answers as where there is no memory.
fn members_within<B: Books>(
    books: &B,
    alloc: Global,
    key: &[u8],
    range: &Range,
) -> Result<Vec<Vec<u8>>, AllocError>
    requires { IsLending (B.lent books.now) }
    ensures members { IfOk result (λ members. views members.items
        ≡ members_of (ranged range.now (queues_in (B.lent books.now) key.now))) }
    ensures some { OnErr result ((UNCOUNTED ≤ length (queues_in (B.lent books.now) key.now))
        ⊎ IsTrue (is_there (ranged range.now (queues_in (B.lent books.now) key.now)))) }
{
    let Some(size) = total_members(books, key) else {
        return Err(AllocError);
    };
    let section = Section::of_range(range, size);
    let Some(within) = total_within(books, key, &section.min, &section.max) else {
        return Err(AllocError);
    };
    match section_pairs(books, alloc, key, false, &section, within) {
        Ok((pairs, before)) => copy_members(alloc, &pairs, before),
        Err(AllocError) => Err(AllocError),
    }
}
