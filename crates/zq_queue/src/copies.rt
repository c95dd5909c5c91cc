//! Copies of queues, and whether two are the same.

ghost use Rattle.std.specs.Prelude.{IfOk, IsTrue, List, OnOk, Some, [], ℕ, ◌≡◌, ◌↔◌};
ghost use Rattle.std.specs.FinMap.{empty, get};
ghost use Rattle.zq_model.specs.Image.{Entry as ModelEntry};
ghost use Rattle.zq_queue.specs.Entries.{NoneIsBare};
ghost use Rattle.zq_queue.specs.Queued.{without_places};

use crate::members::Members;
use crate::queue::Queue;
use std::alloc::{AllocError, Global};
use zq_entry::Entry;

/// Adds copies of these members to a queue without members.
fn add_copies(alloc: Global, members: &Members, copied: &mut Queue) -> Result<(), AllocError>
    requires bare { NoneIsBare members.now.entries }
    requires empty { copied.old.entries ≡ empty }
    requires no_places { copied.old.places ≡ [] }
    ensures rule { copied.new.rule ≡ copied.old.rule }
    ensures entries { OnOk result (copied.new.entries ≡ members.now.entries) }
    ensures places { OnOk result (copied.new.places ≡ members.now.places) }
{
    for (member, entry) in members.iter() {
        copied.add(member, entry.copy(alloc)?)?;
    }
    Ok(())
}

/// Whether a member stands in a queue with this entry.
fn stands(queue: &Queue, member: &[u8], entry: &Entry) -> bool
    ensures { IsTrue result ↔ (get queue.now.entries member.now ≡ Some entry.now) }
{
    match queue.entry(member) {
        Some(its_entry) => its_entry.same(entry),
        None => false,
    }
}

/// Whether each of these members stands in a queue with the same entry.
fn is_within(members: &Members, queue: &Queue) -> bool
    ensures { IsTrue result
        ↔ ((member : List ℕ) (e : ModelEntry) → get members.now.entries member ≡ Some e →
        get queue.now.entries member ≡ Some e) }
{
    for (member, entry) in members.iter() {
        if !stands(queue, member, entry) {
            return false;
        }
    }
    true
}

impl Queue {
    /// An equal queue, whose members have the same places.
    pub fn copy(&self, alloc: Global) -> Result<Queue, AllocError>
        ensures { IfOk result (λ copy. copy ≡ self.now) }
    {
        let mut copied = self.without_members(alloc);
        copied.reserve(self.members.len())?;
        add_copies(alloc, &self.members, &mut copied)?;
        Ok(copied)
    }

    /// Whether it has the same rule, and the same members with the same entries, wherever they stand.
    pub fn same(&self, other: &Queue) -> bool
        ensures { IsTrue result ↔ (without_places self.now ≡ without_places other.now) }
    {
        if self.rule() != other.rule() || self.len() != other.len() {
            return false;
        }
        is_within(&self.members, other)
    }
}
