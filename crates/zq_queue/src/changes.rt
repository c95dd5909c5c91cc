//! What changes the entries of a queue.

ghost use Rattle.std.specs.Prelude.{IfOk, List, None, OnErr, OnOk, Some, [], false, if◌then◌else◌, unwrap_or, ℕ, ◌++◌, ◌∷◌, ◌≡◌, ◌≤◌};
ghost use Rattle.std.specs.FinMap.{get, insert};
ghost use Rattle.std.specs.List.{list_all};
ghost use Rattle.zq_entry.specs.Placed.{placed_of};
ghost use Rattle.zq_model.specs.Image.{entry_after, is_bare, no_additions};
ghost use Rattle.zq_model.specs.Operation.{Drop as ActDrop};
ghost use Rattle.zq_model.specs.Sets.{LAST};
ghost use Rattle.zq_queue.specs.Effects.{HasRoom, affected, entries_after, is_seen};
ghost use Rattle.zq_queue.specs.Entries.{entry_in, set_entry};
ghost use Rattle.zq_queue.specs.Sinks.{Sinks};

use crate::effect::Effect;
use crate::queue::Queue;
use std::alloc::{AllocError, Global};
use zq_dots::{Act, Vector};
use zq_entry::Entry;

/// What an effect makes of an entry. Additions that it takes away are not copied.
#[inline(always)]
fn changed(alloc: Global, entry: &Entry, effect: &Effect<'_>) -> Result<Entry, AllocError>
    requires counter { (1 ≤ effect.now.dot.n) × (effect.now.dot.n ≤ LAST) }
    requires room { HasRoom effect.now entry.now }
    ensures { IfOk result (λ new. new ≡ affected effect.now entry.now) }
{
    match effect.act {
        Act::Put(score) => {
            let mut changed = unseen(alloc, entry, effect.seen)?;
            changed.put(alloc, effect.dot, score, effect.seen)?;
            Ok(changed)
        }
        Act::Bump(increment) => {
            let mut changed = entry.copy(alloc)?;
            changed.bump(alloc, effect.dot, increment, effect.seen)?;
            Ok(changed)
        }
        Act::Drop => unseen(alloc, entry, effect.seen),
    }
}

/// A copy of the additions that a vector has not seen.
#[inline(always)]
fn unseen(alloc: Global, entry: &Entry, seen: &Vector) -> Result<Entry, AllocError>
    ensures { (site n : ℕ) →
        IfOk result (λ new. new ≡ entry_after ActDrop site n seen.now entry.now) }
{
    // A site has seen all that stands where its own operation comes.
    if has_all(seen, entry) {
        return Ok(Entry::new());
    }
    entry.merge(alloc, seen, &Entry::new(), seen)
}

/// Whether a vector has seen all additions of an entry.
fn has_all(seen: &Vector, entry: &Entry) -> bool
    ensures { result ≡ list_all (is_seen seen.now) (placed_of entry.now) }
{
    for place in 0..entry.len() {
        if !seen.has(entry.at(place).dot) {
            return false;
        }
    }
    true
}

impl Queue {
    /// Takes the effect of a new operation on a member, and answers the entry that the member had:
    /// it is moved out, and only what stays of it is copied. A member whose last addition goes does
    /// not stand any more. Where memory is refused nothing changes.
    pub fn take(
        &mut self,
        alloc: Global,
        member: &[u8],
        effect: &Effect<'_>,
    ) -> Result<Option<Entry>, AllocError>
        requires counter { (1 ≤ effect.now.dot.n) × (effect.now.dot.n ≤ LAST) }
        requires room { HasRoom effect.now (entry_in self.old.entries member.now) }
        ensures rule { self.new.rule ≡ self.old.rule }
        ensures taken { OnOk result
            (self.new.entries ≡ entries_after effect.now member.now self.old.entries) }
        ensures before { IfOk result (λ before. before ≡ get self.old.entries member.now) }
        ensures sinks { OnOk result (Sinks self.old self.new) }
        ensures refused { OnErr result (self.new ≡ self.old) }
    {
        match self.members.find(member) {
            Some(place) => {
                let entry = changed(alloc, self.members.at(place), effect)?;
                Ok(Some(self.members.exchange(member, place, entry)))
            }
            None => {
                let entry = changed(alloc, &Entry::new(), effect)?;
                self.add(member, entry)?;
                Ok(None)
            }
        }
    }

    /// Adds a member that does not stand behind all others, unless its entry is bare.
    pub(crate) fn add(&mut self, member: &[u8], entry: Entry) -> Result<(), AllocError>
        requires { get self.old.entries member.now ≡ None }
        ensures rule { self.new.rule ≡ self.old.rule }
        ensures added { OnOk result
            (self.new.entries ≡ set_entry self.old.entries member.now entry) }
        ensures places { OnOk result (self.new.places
            ≡ if is_bare entry then self.old.places else self.old.places ++ member.now ∷ []) }
        ensures refused { OnErr result (self.new ≡ self.old) }
    {
        self.members.add(member, entry)
    }

    /// Gives a member back the entry that it had, or takes it out where it had none, so that a
    /// change is undone. A bare entry counts as none. A member that does not stand comes behind all
    /// others. Where memory is refused, which is only for a
    /// member that does not stand, nothing changes.
    pub fn put_back(&mut self, member: &[u8], before: Option<Entry>) -> Result<(), AllocError>
        ensures rule { self.new.rule ≡ self.old.rule }
        ensures back { OnOk result
            (self.new.entries ≡ set_entry self.old.entries member.now
            (unwrap_or before no_additions)) }
        ensures sinks { OnOk result (Sinks self.old self.new) }
        ensures refused { OnErr result (self.new ≡ self.old) }
        ensures absent { OnErr result (get self.old.entries member.now ≡ None) }
    {
        match before {
            Some(entry) => self.set(member, entry),
            None => self.set(member, Entry::new()),
        }
    }

    /// Gives a member this entry, whether it stands or not.
    fn set(&mut self, member: &[u8], entry: Entry) -> Result<(), AllocError>
        ensures rule { self.new.rule ≡ self.old.rule }
        ensures set { OnOk result (self.new.entries ≡ set_entry self.old.entries member.now entry) }
        ensures sinks { OnOk result (Sinks self.old self.new) }
        ensures refused { OnErr result (self.new ≡ self.old) }
        ensures absent { OnErr result (get self.old.entries member.now ≡ None) }
    {
        match self.members.find(member) {
            Some(place) => {
                drop(self.members.exchange(member, place, entry));
                Ok(())
            }
            None => self.members.add(member, entry),
        }
    }

    /// Adds a member that does not stand behind all others, with its entry. Where memory is refused
    /// nothing changes.
    pub fn push(&mut self, member: &[u8], entry: Entry) -> Result<(), AllocError>
        requires absent { get self.old.entries member.now ≡ None }
        requires some { is_bare entry ≡ false }
        ensures rule { self.new.rule ≡ self.old.rule }
        ensures pushed { OnOk result (self.new.entries ≡ insert self.old.entries member.now entry) }
        ensures places { OnOk result (self.new.places ≡ self.old.places ++ member.now ∷ []) }
        ensures refused { OnErr result (self.new ≡ self.old) }
    {
        self.add(member, entry)
    }

    /// Makes room for so many members more, so that they are added without growth.
    pub fn reserve(&mut self, additional: usize) -> Result<(), AllocError>
        ensures { self.new ≡ self.old }
    {
        self.members.reserve(additional)
    }

    /// Makes an ordered index of its members, unless it has one or has no more members than so
    /// many. Changes keep it, and by it `in_order` and what is read of it cost a logarithm of the
    /// members and what they answer. Where memory is refused there is no index, now or from a later
    /// change on, and such readings look at all members.
    pub fn index(&mut self, alloc: Global, most: usize)
        ensures { self.new ≡ self.old }
    {
        self.members.index(alloc, most);
    }

    /// Whether it has an ordered index.
    pub fn has_index(&self) -> bool {
        self.members.has_index()
    }
}
