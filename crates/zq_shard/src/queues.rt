//! The keys of a heap, each with its members.

ghost use Rattle.std.specs.Prelude.{◌≡◌, ◌≢◌, ◌≤◌, ◌↔◌, ◌∷◌, [], IfNone, IfOk, IfSome, IsTrue, List, None, Some, ℕ, OnErr, OnOk, length, option_map, slice_get, swap_remove};
ghost use Rattle.std.specs.FinMap as map;
ghost use Rattle.indexmap.specs.IndexMap.{keys};
ghost use Rattle.zq_dots.specs.Rule.{rule_of};
ghost use Rattle.zq_model.specs.Image.{entry_at, is_bare, put_entry};
ghost use Rattle.zq_model.specs.Queue.{queue_of};
ghost use Rattle.zq_model.specs.Score.{score_of};
ghost use Rattle.zq_model.specs.Sets.{LAST};
ghost use Rattle.zq_queue.specs.Effects.{HasRoom, entries_after};
ghost use Rattle.zq_queue.specs.Entries.{bytes_cmp, entry_in, set_entry};
ghost use Rattle.zq_queue.specs.Queued.{Queued, without_places};
ghost use Rattle.zq_queue.specs.Listed.{listed};
ghost use Rattle.zq_queue.specs.Sinks.{AreListed};
ghost use Rattle.zq_shard.specs.Queues.{AreQueues, HasAt, HasSame, entries_at, entries_in, members_after, or_none, unless_empty};
ghost use Rattle.zq_shard.specs.Sinking.{IsAddedLast, IsSetAt};
ghost use Rattle.zq_shard.specs.Walk.{Sinks};

use crate::boxed_queue::BoxedQueue;
use indexmap::IndexMap;
use std::alloc::{AllocError, Global};
use std::marker::Model;
use zq_dots::Rule;
use zq_entry::Entry;
use zq_posheap::{Guess, Name, Seeded};
use zq_queue::{Effect, Queue};

/// A table with room for so many keys, or for fewer, keeps it when keys go.
const SMALL: usize = 64;

/// The keys of a heap with their queues. A key without members is not there. A call looks one key
/// up time after time, so a look-up begins where the last one ended.
#[derive(Drop)]
pub(crate) struct Queues {
    pub(crate) rule: Rule,
    pub(crate) queues: IndexMap<Name, BoxedQueue, Seeded>,
    pub(crate) guess: Guess,
}

impl Model for Queues {
    ghost use Rattle.zq_dots.specs.Rule.{rule_of};
    ghost use Rattle.zq_shard.specs.Queues.{AreQueues, Keyed, keyed_code, members_in};
    ghost use Rattle.zq_shard.specs.Standing.{order_of};

    ghost Value = { Keyed };

    ghost coded = { keyed_code };

    ghost view = { λ q. record {
      rule = rule_of q.rule;
      members = members_in q.queues.entries;
      order = order_of q.queues.entries;
    } };

    ghost invariant = { λ q. AreQueues (rule_of q.rule) q.queues.entries };
}

impl Queues {
    /// No keys. Keys and members will be placed by the hasher.
    pub fn new(alloc: Global, rule: Rule, hasher: Seeded) -> Queues
        ensures rule { result.rule ≡ rule_of rule }
        ensures members { result.members ≡ map.empty }
    {
        Queues {
            rule,
            queues: IndexMap::with_hasher(alloc, hasher),
            guess: Guess::new(),
        }
    }

    /// Which of the values of a member's additions is its score.
    pub fn rule(&self) -> Rule
        ensures { rule_of result ≡ self.now.rule }
    {
        self.rule
    }

    /// Whether the other has the same rule.
    pub fn has_rule_of(&self, other: &Queues) -> bool
        ensures { IsTrue result ↔ (self.now.rule ≡ other.now.rule) }
    {
        self.rule == other.rule
    }

    /// The queue of a key, which has members.
    pub fn queue(&self, key: &[u8]) -> Option<&Queue>
        ensures entries { IfSome result
            (λ queue. queue.now.entries ≡ entries_at self.now.members key.now) }
        ensures rule { IfSome result (λ queue. queue.now.rule ≡ self.now.rule) }
        ensures list { IfSome result
            (λ queue. listed queue.now.rule queue.now.entries
            ≡ queue_of self.now.rule key.now (self.now.members ∷ [])) }
        ensures absent { IfNone result (entries_at self.now.members key.now ≡ map.empty) }
        ensures no_list { IfNone result
            (queue_of self.now.rule key.now (self.now.members ∷ []) ≡ []) }
    {
        match self.guess.get(&self.queues, key) {
            Some(queue) => Some(queue.get()),
            None => None,
        }
    }

    /// The entry of a member of a key, and `None` where it does not stand.
    pub fn entry(&self, key: &[u8], member: &[u8]) -> Option<&Entry>
        ensures { option_map (λ entry. entry.now) result
            ≡ map.get self.now.members (key.now, member.now) }
    {
        match self.queue(key) {
            Some(queue) => queue.entry(member),
            None => None,
        }
    }

    /// The score of a member of a key, and `None` where it does not stand.
    pub fn score(&self, key: &[u8], member: &[u8]) -> Option<i128>
        ensures { result ≡ score_of self.now.rule
            (entry_at self.now.members (key.now, member.now)) }
    {
        match self.queue(key) {
            Some(queue) => queue.score(member),
            None => None,
        }
    }

    /// Makes an ordered index of a key's members, as the key's queue does.
    pub fn index(&mut self, alloc: Global, key: &[u8], most: usize)
        ensures { self.new ≡ self.old }
    {
        index(&mut self.queues, &self.guess, alloc, key, most);
    }

    /// Takes the effect of a new operation on a member of a key, and answers what the member had.
    pub fn take(
        &mut self,
        alloc: Global,
        key: &[u8],
        member: &[u8],
        effect: &Effect<'_>,
    ) -> Result<Option<Entry>, AllocError>
        requires counter { (1 ≤ effect.now.dot.n) × (effect.now.dot.n ≤ LAST) }
        requires room { HasRoom effect.now (entry_at self.old.members (key.now, member.now)) }
        ensures rule { self.new.rule ≡ self.old.rule }
        ensures before { IfOk result
            (λ before. before ≡ map.get self.old.members (key.now, member.now)) }
        ensures taken { OnOk result
            (self.new.members ≡ members_after effect.now (key.now, member.now) self.old.members) }
        ensures sinks { OnOk result (Sinks self.old self.new) }
        ensures refused { OnErr result (self.new ≡ self.old) }
    {
        take(
            &mut self.queues,
            &self.guess,
            alloc,
            self.rule,
            key,
            member,
            effect,
        )
    }

    /// Gives a member of a key this entry, and takes it out where there is none.
    pub fn put_back(
        &mut self,
        alloc: Global,
        key: &[u8],
        member: &[u8],
        before: Option<Entry>,
    ) -> Result<(), AllocError>
        ensures rule { self.new.rule ≡ self.old.rule }
        ensures back { OnOk result
            (self.new.members ≡ put_entry self.old.members (key.now, member.now) (or_none before)) }
        ensures sinks { OnOk result (Sinks self.old self.new) }
        ensures refused { OnErr result (self.new ≡ self.old) }
    {
        put_back(
            &mut self.queues,
            &self.guess,
            alloc,
            self.rule,
            key,
            member,
            before,
        )
    }

    /// Equal queues, whose keys and members stand alike.
    pub fn copy(&self, alloc: Global) -> Result<Queues, AllocError>
        ensures { IfOk result (λ copy. copy ≡ self.now) }
    {
        let hasher = *self.queues.hasher();
        let mut queues = IndexMap::with_capacity_and_hasher(alloc, self.queues.len(), hasher)?;
        copy_into(&mut queues, alloc, &self.queues)?;
        Ok(Queues {
            rule: self.rule,
            queues,
            guess: Guess::new(),
        })
    }

    /// Whether it has the same rule, and the same members with the same entries, wherever these
    /// stand.
    pub fn same(&self, other: &Queues) -> bool
        ensures { IsTrue result ↔ ((self.now.rule ≡ other.now.rule)
            × (self.now.members ≡ other.now.members)) }
    {
        self.rule == other.rule && are_same(&self.queues, &other.queues)
    }
}

/// Makes an ordered index of a key's members.
fn index(
    queues: &mut IndexMap<Name, BoxedQueue, Seeded>,
    guess: &Guess,
    alloc: Global,
    key: &[u8],
    most: usize,
)
    ensures { queues.new.entries ≡ queues.old.entries }
{
    if let Some(place) = guess.find(queues, key) {
        let (_, boxed) = queues.pair_mut(place);
        boxed.get_mut().index(alloc, most);
    }
}

/// Takes the effect of a new operation on a member of a key, and answers what the member had.
fn take(
    queues: &mut IndexMap<Name, BoxedQueue, Seeded>,
    guess: &Guess,
    alloc: Global,
    rule: Rule,
    key: &[u8],
    member: &[u8],
    effect: &Effect<'_>,
) -> Result<Option<Entry>, AllocError>
    requires counter { (1 ≤ effect.now.dot.n) × (effect.now.dot.n ≤ LAST) }
    requires room { HasRoom effect.now
        (entry_in (entries_in queues.old.entries key.now) member.now) }
    requires kept { AreQueues (rule_of rule) queues.old.entries }
    ensures before { IfOk result
        (λ before. before ≡ map.get (entries_in queues.old.entries key.now) member.now) }
    ensures taken { OnOk result (IsSetAt (rule_of rule) key.now
        (entries_after effect.now member.now (entries_in queues.old.entries key.now))
        queues.old.entries queues.new.entries) }
    ensures refused { OnErr result (queues.new.entries ≡ queues.old.entries) }
{
    if let Some(index) = guess.find(queues, key) {
        let (_, boxed) = queues.pair_mut(index);
        let queue = boxed.get_mut();
        let before = queue.take(alloc, member, effect)?;
        if queue.is_empty() {
            remove_at(queues, index);
        }
        return Ok(before);
    }
    let mut queue = Queue::new(alloc, rule, *queues.hasher());
    drop(queue.take(alloc, member, effect)?);
    add(queues, alloc, key, queue)?;
    Ok(None)
}

/// Gives a member of a key this entry, and takes it out where there is none.
fn put_back(
    queues: &mut IndexMap<Name, BoxedQueue, Seeded>,
    guess: &Guess,
    alloc: Global,
    rule: Rule,
    key: &[u8],
    member: &[u8],
    before: Option<Entry>,
) -> Result<(), AllocError>
    requires kept { AreQueues (rule_of rule) queues.old.entries }
    ensures back { OnOk result (IsSetAt (rule_of rule) key.now
        (set_entry (entries_in queues.old.entries key.now) member.now (or_none before))
        queues.old.entries queues.new.entries) }
    ensures refused { OnErr result (queues.new.entries ≡ queues.old.entries) }
{
    if let Some(index) = guess.find(queues, key) {
        let (_, boxed) = queues.pair_mut(index);
        let queue = boxed.get_mut();
        queue.put_back(member, before)?;
        if queue.is_empty() {
            remove_at(queues, index);
        }
        return Ok(());
    }
    let mut queue = Queue::new(alloc, rule, *queues.hasher());
    queue.put_back(member, before)?;
    add(queues, alloc, key, queue)
}

/// Adds a key that is not there behind all others with its queue, unless that has no members.
pub(crate) fn add(
    queues: &mut IndexMap<Name, BoxedQueue, Seeded>,
    alloc: Global,
    key: &[u8],
    queue: Queue,
) -> Result<(), AllocError>
    requires absent { map.find bytes_cmp key.now queues.old.entries ≡ None }
    ensures added { OnOk result
        (HasAt key.now (unless_empty queue) queues.old.entries queues.new.entries) }
    ensures last { OnOk result
        (IsAddedLast key.now (unless_empty queue) queues.old.entries queues.new.entries) }
    ensures listed { AreListed queue }
    ensures refused { OnErr result (queues.new.entries ≡ queues.old.entries) }
{
    if !queue.is_empty() {
        let key = Name::copied(alloc, key)?;
        let queue = BoxedQueue::new(alloc, queue)?;
        drop(queues.insert(key, queue)?);
    }
    Ok(())
}

/// Takes the key at an index out with its queue, and the last key comes to its index. Where three
/// quarters of the table's room are free then, it gives half of the room back; where memory for the
/// smaller table is refused, it stays as large.
fn remove_at(queues: &mut IndexMap<Name, BoxedQueue, Seeded>, index: usize)
    ensures without { (key : List ℕ) → slice_get (keys queues.old) index ≡ Some key →
        HasAt key None queues.old.entries queues.new.entries }
    ensures last { (pair : List ℕ × Queued) → slice_get queues.old.entries index ≡ Some pair →
        queues.new.entries ≡ swap_remove queues.old.entries index pair }
{
    let Some(pair) = queues.swap_remove_index(index) else {
        return;
    };
    drop(pair);
    let room = queues.capacity();
    if room > SMALL && queues.len() <= room / 4 {
        queues.shrink_to(room / 2);
    }
}

/// Adds copies of these queues, which have members, in their order where there are none.
fn copy_into(
    queues: &mut IndexMap<Name, BoxedQueue, Seeded>,
    alloc: Global,
    source: &IndexMap<Name, BoxedQueue, Seeded>,
) -> Result<(), AllocError>
    requires empty { queues.old.entries ≡ [] }
    requires full { (key : List ℕ) (queue : Queued) →
        map.find bytes_cmp key source.now.entries ≡ Some queue → queue.entries ≢ map.empty }
    ensures { OnOk result (queues.new.entries ≡ source.now.entries) }
{
    for (key, queue) in source {
        add(queues, alloc, key.as_slice(), queue.get().copy(alloc)?)?;
    }
    Ok(())
}

/// Whether both have the same keys with the same queues, wherever their members stand.
fn are_same(
    queues: &IndexMap<Name, BoxedQueue, Seeded>,
    others: &IndexMap<Name, BoxedQueue, Seeded>,
) -> bool
    ensures { IsTrue result
        ↔ ((q : List ℕ) → option_map without_places (map.find bytes_cmp q queues.now.entries)
        ≡ option_map without_places (map.find bytes_cmp q others.now.entries)) }
{
    are_within(queues, others) && are_within(others, queues)
}

/// Whether the others have each of these keys with the same queue, wherever its members stand.
fn are_within(
    queues: &IndexMap<Name, BoxedQueue, Seeded>,
    others: &IndexMap<Name, BoxedQueue, Seeded>,
) -> bool
    ensures { IsTrue result
        ↔ ((q : List ℕ) (queue : Queued) → map.find bytes_cmp q queues.now.entries ≡ Some queue →
        HasSame others.now.entries q queue) }
{
    for (key, queue) in queues {
        match others.get(key) {
            Some(other) if queue.get().same(other.get()) => {}
            _ => return false,
        }
    }
    true
}
