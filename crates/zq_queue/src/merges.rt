//! The join of two queues.

ghost use Rattle.std.specs.Prelude.{IfOk, List, None, OnOk, if◌then◌else◌, ℕ, ◌≡◌};
ghost use Rattle.std.specs.FinMap.{contains_key, empty, get};
ghost use Rattle.zq_model.specs.Image.{join_entry, no_additions};
ghost use Rattle.zq_queue.specs.Entries.{entry_in, entry_joined, joined_entries};

use crate::members::Members;
use crate::queue::Queue;
use std::alloc::{AllocError, Global};
use zq_dots::Vector;
use zq_entry::Entry;

/// The join of what the first side has of a member and what the second has, which may be nothing.
fn with_second(
    alloc: Global,
    mine: &Vector,
    entry: &Entry,
    theirs: &Vector,
    other: &Queue,
    member: &[u8],
) -> Result<Entry, AllocError>
    ensures { IfOk result
        (λ joined. joined ≡ join_entry mine.now theirs.now entry.now
        (entry_in other.now.entries member.now)) }
{
    match other.entry(member) {
        Some(their_entry) => entry.merge(alloc, mine, their_entry, theirs),
        None => entry.merge(alloc, mine, &Entry::new(), theirs),
    }
}

/// The join of nothing and what the second side has of a member.
fn of_second(
    alloc: Global,
    mine: &Vector,
    theirs: &Vector,
    entry: &Entry,
) -> Result<Entry, AllocError>
    ensures { IfOk result
        (λ joined. joined ≡ join_entry mine.now theirs.now no_additions entry.now) }
{
    Entry::new().merge(alloc, mine, entry, theirs)
}

/// Adds to a queue without members the joins at each member of the first side.
fn join_first(
    alloc: Global,
    mine: &Vector,
    members: &Members,
    theirs: &Vector,
    other: &Queue,
    merged: &mut Queue,
) -> Result<(), AllocError>
    requires empty { merged.old.entries ≡ empty }
    ensures rule { merged.new.rule ≡ merged.old.rule }
    ensures joined { OnOk result ((member : List ℕ) → get merged.new.entries member
        ≡ if contains_key members.now.entries member then entry_joined mine.now theirs.now
        members.now.entries other.now.entries member else None) }
{
    for (member, entry) in members.iter() {
        let joined = with_second(alloc, mine, entry, theirs, other, member)?;
        merged.add(member, joined)?;
    }
    Ok(())
}

/// Adds to a queue with the joins at each member of the first side those at the members that the
/// second side has alone.
fn join_second(
    alloc: Global,
    mine: &Vector,
    first: &Queue,
    theirs: &Vector,
    members: &Members,
    merged: &mut Queue,
) -> Result<(), AllocError>
    requires joined { (member : List ℕ) → get merged.old.entries member
        ≡ if contains_key first.now.entries member then entry_joined mine.now theirs.now
        first.now.entries members.now.entries member else None }
    ensures rule { merged.new.rule ≡ merged.old.rule }
    ensures joined { OnOk result ((member : List ℕ) →
        get merged.new.entries member ≡ entry_joined mine.now theirs.now first.now.entries
        members.now.entries member) }
{
    for (member, entry) in members.iter() {
        if first.entry(member).is_none() {
            let joined = of_second(alloc, mine, theirs, entry)?;
            merged.add(member, joined)?;
        }
    }
    Ok(())
}

impl Queue {
    /// The queue of what two sides have together, each with the vector of what it has seen: each
    /// member's entries are joined, and a member that has no addition left does not stand. Both
    /// sides stay as they are. Its members have places of their own.
    pub fn merge(
        &self,
        alloc: Global,
        mine: &Vector,
        other: &Queue,
        theirs: &Vector,
    ) -> Result<Queue, AllocError>
        requires { other.now.rule ≡ self.now.rule }
        ensures rule { IfOk result (λ merged. merged.rule ≡ self.now.rule) }
        ensures joined { IfOk result
            (λ merged. merged.entries
            ≡ joined_entries mine.now theirs.now self.now.entries other.now.entries) }
    {
        let mut merged = self.without_members(alloc);
        merged.reserve(self.members.len().max(other.members.len()))?;
        join_first(alloc, mine, &self.members, theirs, other, &mut merged)?;
        join_second(alloc, mine, self, theirs, &other.members, &mut merged)?;
        merged.settle();
        Ok(merged)
    }
}
