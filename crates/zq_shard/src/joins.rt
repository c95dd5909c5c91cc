//! The join of two sides' queues.
ghost use Rattle.std.specs.Prelude.{◌≡◌, [], IfOk, List, None, OnOk, Some, ℕ};
ghost use Rattle.std.specs.FinMap as map;
ghost use Rattle.zq_queue.specs.Entries.{bytes_cmp, joined_entries};
ghost use Rattle.zq_shard.specs.Queues.{AllListed, AreQueues, HasAt, and_then, entries_in, members_joined, queue_joined, unless_empty, without_places_in};
ghost use Rattle.zq_shard.specs.Sinking.{queue_with};

use crate::boxed_queue::BoxedQueue;
use crate::queues::{Queues, add};
use indexmap::IndexMap;
use std::alloc::{AllocError, Global};
use zq_dots::Vector;
use zq_posheap::{Guess, Name, NameRef, Seeded};
use zq_queue::Queue;

impl Queues {
    /// What two sides have together, each with the vector of what it has seen. Both stay as they
    /// are. Its keys and members have places of their own.
    pub fn merge(
        &self,
        alloc: Global,
        mine: &Vector,
        other: &Queues,
        theirs: &Vector,
    ) -> Result<Queues, AllocError>
        requires { other.now.rule ≡ self.now.rule }
        ensures rule { IfOk result (λ merged. merged.rule ≡ self.now.rule) }
        ensures joined { IfOk result
            (λ merged. merged.members
            ≡ members_joined mine.now theirs.now self.now.members other.now.members) }
    {
        let none = Queue::new(alloc, self.rule, *self.queues.hasher());
        let room = self.queues.len().max(other.queues.len());
        let mut merged = IndexMap::with_capacity_and_hasher(alloc, room, *self.queues.hasher())?;
        join_mine(
            alloc,
            &mut merged,
            &none,
            mine,
            &self.queues,
            theirs,
            &other.queues,
        )?;
        join_theirs(
            alloc,
            &mut merged,
            &none,
            mine,
            &self.queues,
            theirs,
            &other.queues,
        )?;
        Ok(Queues {
            rule: self.rule,
            queues: merged,
            guess: Guess::new(),
        })
    }
}

/// Adds the join at each key of this side.
fn join_mine(
    alloc: Global,
    merged: &mut IndexMap<Name, BoxedQueue, Seeded>,
    none: &Queue,
    mine: &Vector,
    my_queues: &IndexMap<Name, BoxedQueue, Seeded>,
    theirs: &Vector,
    their_queues: &IndexMap<Name, BoxedQueue, Seeded>,
) -> Result<(), AllocError>
    requires empty { merged.old.entries ≡ [] }
    requires nothing { none.now.entries ≡ map.empty }
    requires kept { AreQueues none.now.rule my_queues.now.entries }
    requires their_kept { AreQueues none.now.rule their_queues.now.entries }
    ensures joined { OnOk result ((q : List ℕ) →
        map.find bytes_cmp q (without_places_in merged.new.entries)
        ≡ and_then (λ queue. queue_joined none.now.rule mine.now theirs.now (Some queue)
        (map.find bytes_cmp q their_queues.now.entries))
        (map.find bytes_cmp q my_queues.now.entries)) }
    ensures listed { OnOk result (AllListed merged.new.entries) }
{
    for (key, queue) in my_queues {
        let other = queue_or(their_queues, key.as_slice(), none);
        join_at(
            merged,
            alloc,
            key.as_slice(),
            mine,
            queue.get(),
            theirs,
            other,
        )?;
    }
    Ok(())
}

/// Adds the join at each key that the other side alone has.
fn join_theirs(
    alloc: Global,
    merged: &mut IndexMap<Name, BoxedQueue, Seeded>,
    none: &Queue,
    mine: &Vector,
    my_queues: &IndexMap<Name, BoxedQueue, Seeded>,
    theirs: &Vector,
    their_queues: &IndexMap<Name, BoxedQueue, Seeded>,
) -> Result<(), AllocError>
    requires nothing { none.now.entries ≡ map.empty }
    requires their_kept { AreQueues none.now.rule their_queues.now.entries }
    requires begun { (q : List ℕ) →
        map.find bytes_cmp q (without_places_in merged.old.entries)
        ≡ and_then (λ queue. queue_joined none.now.rule mine.now theirs.now (Some queue)
        (map.find bytes_cmp q their_queues.now.entries))
        (map.find bytes_cmp q my_queues.now.entries) }
    requires begun_listed { AllListed merged.old.entries }
    ensures joined { OnOk result ((q : List ℕ) →
        map.find bytes_cmp q (without_places_in merged.new.entries)
        ≡ queue_joined none.now.rule mine.now theirs.now
        (map.find bytes_cmp q my_queues.now.entries)
        (map.find bytes_cmp q their_queues.now.entries)) }
    ensures listed { OnOk result (AllListed merged.new.entries) }
{
    for (key, queue) in their_queues {
        if !my_queues.contains_key(key) {
            join_at(
                merged,
                alloc,
                key.as_slice(),
                mine,
                none,
                theirs,
                queue.get(),
            )?;
        }
    }
    Ok(())
}

/// The queue of a key, and `none` where the key is not there.
fn queue_or<'a>(
    queues: &'a IndexMap<Name, BoxedQueue, Seeded>,
    key: &[u8],
    none: &'a Queue,
) -> &'a Queue
    requires nothing { none.now.entries ≡ map.empty }
    requires kept { AreQueues none.now.rule queues.now.entries }
    ensures rule { result.now.rule ≡ none.now.rule }
    ensures entries { result.now.entries ≡ entries_in queues.now.entries key.now }
{
    match queues.get(NameRef(key)) {
        Some(queue) => queue.get(),
        None => none,
    }
}

/// Adds a key that is not there with the join of two queues, unless that has no members.
fn join_at(
    merged: &mut IndexMap<Name, BoxedQueue, Seeded>,
    alloc: Global,
    key: &[u8],
    mine: &Vector,
    queue: &Queue,
    theirs: &Vector,
    other: &Queue,
) -> Result<(), AllocError>
    requires absent { map.find bytes_cmp key.now merged.old.entries ≡ None }
    requires rule { other.now.rule ≡ queue.now.rule }
    ensures joined { OnOk result
        (HasAt key.now (unless_empty (queue_with queue.now.rule
        (joined_entries mine.now theirs.now queue.now.entries other.now.entries) []))
        (without_places_in merged.old.entries) (without_places_in merged.new.entries)) }
    ensures listed { OnOk result
        (AllListed merged.old.entries → AllListed merged.new.entries) }
{
    let joined = queue.merge(alloc, mine, other, theirs)?;
    add(merged, alloc, key, joined)
}
