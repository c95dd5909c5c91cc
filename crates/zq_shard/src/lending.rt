//! The members of all keys in order.
ghost use Rattle.std.specs.Prelude.{◌≡◌, ◌++◌, IfOk, List, OnOk, ℕ, is_some, map, nat_eq};
ghost use Rattle.std.specs.FinMap as finite;
ghost use Rattle.std.specs.List.{IsDistinct, list_any};
ghost use Rattle.std.specs.Cmp.Lexicographic.{pointwise};
ghost use Rattle.std.specs.List.Sorted.{IsStrictlySortedBy};
ghost use Rattle.zq_model.specs.Rows.{row_of};
ghost use Rattle.std.specs.Ordering.{eq_by_cmp};
ghost use Rattle.zq_queue.specs.Entries.{bytes_cmp};
ghost use Rattle.zq_shard.specs.Listed.{block, lent_key, lent_row};
ghost use Rattle.zq_shard.specs.Queues.{entries_at};

use crate::boxed_queue::BoxedQueue;
use crate::queues::Queues;
use crate::row::RowRef;
use indexmap::IndexMap;
use std::alloc::{AllocError, Global};
use zq_posheap::{Name, Seeded};
use zq_queue::Queue;

impl Queues {
    /// The members with their entries, by key and then by member.
    pub fn rows(&self, alloc: Global) -> Result<Vec<RowRef<'_>>, AllocError>
        ensures { IfOk result (λ rows. map lent_row rows.items
            ≡ map row_of (finite.entries self.now.members)) }
    {
        let keys = keys_in_order(alloc, &self.queues)?;
        let mut rows = Vec::new(alloc);
        for key in &keys {
            self.push_rows(alloc, &mut rows, key)?;
        }
        Ok(rows)
    }

    /// Adds the members of a key.
    fn push_rows<'a>(
        &'a self,
        alloc: Global,
        rows: &mut Vec<RowRef<'a>>,
        key: &'a [u8],
    ) -> Result<(), AllocError>
        ensures { OnOk result (map lent_row rows.new.items
            ≡ map lent_row rows.old.items ++ map row_of
            (block key.now (entries_at self.now.members key.now))) }
    {
        match self.queue(key) {
            Some(queue) => push_members(alloc, rows, key, queue),
            None => Ok(()),
        }
    }
}

/// The keys, by their bytes.
fn keys_in_order<'a>(
    alloc: Global,
    queues: &'a IndexMap<Name, BoxedQueue, Seeded>,
) -> Result<Vec<&'a [u8]>, AllocError>
    ensures rising { IfOk result (λ keys. IsStrictlySortedBy bytes_cmp (map lent_key keys.items)) }
    ensures all { IfOk result (λ keys. (q : List ℕ) →
        list_any (eq_by_cmp bytes_cmp q) (map lent_key keys.items)
        ≡ is_some (finite.find bytes_cmp q queues.now.entries)) }
{
    let mut keys = keys_in_any_order(alloc, queues)?;
    keys.sort_unstable();
    Ok(keys)
}

/// The keys, in the map's order.
fn keys_in_any_order<'a>(
    alloc: Global,
    queues: &'a IndexMap<Name, BoxedQueue, Seeded>,
) -> Result<Vec<&'a [u8]>, AllocError>
    ensures keys { IfOk result (λ keys. map lent_key keys.items
        ≡ map (λ e. e.0) queues.now.entries) }
    ensures distinct { IfOk result
        (λ keys. IsDistinct (pointwise nat_eq) (map lent_key keys.items)) }
{
    let mut keys = Vec::with_capacity(alloc, queues.len())?;
    for (key, _) in queues {
        keys.push(key.as_slice())?;
    }
    Ok(keys)
}

/// Adds the members of a key's queue.
fn push_members<'a>(
    alloc: Global,
    rows: &mut Vec<RowRef<'a>>,
    key: &'a [u8],
    queue: &'a Queue,
) -> Result<(), AllocError>
    ensures { OnOk result (map lent_row rows.new.items ≡ map lent_row rows.old.items
        ++ map row_of (block key.now queue.now.entries)) }
{
    let members = queue.rows(alloc)?;
    rows.reserve(members.len())?;
    for (member, entry) in &members {
        rows.push(RowRef { key, member, entry })?;
    }
    Ok(())
}
