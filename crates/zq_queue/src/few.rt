//! `Member`, and lists of few.

ghost use Rattle.std.specs.Prelude.{IfSome, List, OnErr, OnOk, Some, [], is_some, length, option_map, slice_get, ◌++◌, ◌<◌, ◌∷◌, ◌≡◌};
ghost use Rattle.std.specs.FinMap.{contains_key, get};
ghost use Rattle.zq_queue.specs.Few.{AreFew, entries_by, names_in};

use std::alloc::{AllocError, Global};
use zq_entry::Entry;
use zq_posheap::Name;

/// A member with its entry.
#[derive(Drop)]
pub(crate) struct Member {
    pub(crate) name: Name,
    pub(crate) entry: Entry,
}

// Most keys have few members: a scan of them is to stay in few lines of a cache.
const _: () = prove!(size_of::<Member>() == 64);

/// Where a member is in a list.
pub(crate) fn find(list: &[Member], member: &[u8]) -> Option<usize>
    ensures there { is_some result ≡ contains_key (entries_by list.now) member.now }
    ensures place { IfSome result (λ place. slice_get (names_in list.now) place ≡ Some member.now) }
    ensures within { IfSome result (λ place. place < length list.now) }
{
    for place in 0..list.len() {
        if list[place].name.as_slice() == member {
            return Some(place);
        }
    }
    None
}

/// Adds a member at the end, in room for one or two more. Where memory is refused nothing changes.
pub(crate) fn push(
    alloc: Global,
    list: &mut Vec<Member>,
    member: &[u8],
    entry: Entry,
) -> Result<(), AllocError>
    ensures pushed { OnOk result (list.new.items
        ≡ list.old.items ++ record { name = member.now; entry = entry } ∷ []) }
    ensures refused { OnErr result (list.new.items ≡ list.old.items) }
{
    let name = Name::copied(alloc, member)?;
    if list.len() == list.capacity() {
        list.reserve_exact(if list.len() < 4 { 1 } else { 2 })?;
    }
    list.push(Member { name, entry })?;
    Ok(())
}

/// The member of this number in a list, with its entry.
pub(crate) fn nth(list: &[Member], number: usize) -> Option<(&[u8], &Entry)>
    requires few { AreFew list.now }
    ensures member { option_map (λ row. row.0.now) result ≡ slice_get (names_in list.now) number }
    ensures entry { IfSome result
        (λ row. get (entries_by list.now) row.0.now ≡ Some row.1.now) }
{
    let member = list.get(number)?;
    Some((member.name.as_slice(), &member.entry))
}
