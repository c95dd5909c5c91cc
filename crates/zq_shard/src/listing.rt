//! A shard as rows, and the shard of rows.
ghost use Rattle.std.specs.Prelude.{◌≡◌, ◌<◌, ◌∷◌, ◌++◌, [], IfOk, List, None, OnErr, OnOk, false, length, map};
ghost use Rattle.std.specs.FinMap as finite;
ghost use Rattle.zq_dots.specs.Rule.{rule_of};
ghost use Rattle.zq_model.specs.Bounded.{IsBoundedRow};
ghost use Rattle.zq_model.specs.Image.{is_bare};
ghost use Rattle.zq_model.specs.Rows as model;
ghost use Rattle.zq_model.specs.Rows.{AreInOrder, AreRows, image_of_rows, row_of, rows_of};
ghost use Rattle.zq_model.specs.Sets.{IsCounters, IsHeaps, IsIn, SITES};
ghost use Rattle.zq_shard.specs.Listed.{given_row, lent_row};
ghost use Rattle.zq_shard.specs.Shard.{IsHeapImage, with_entry};

use crate::queues::Queues;
use crate::row::{Row, RowRef};
use crate::shard::Shard;
use std::alloc::{AllocError, Global};
use zq_dots::{Rule, Vector};
use zq_entry::Entry;
use zq_posheap::Seeded;

impl Shard {
    /// Its members with their entries, by key and then by member.
    pub fn rows(&self, alloc: Global) -> Result<Vec<RowRef<'_>>, AllocError>
        ensures rows { IfOk result (λ rows. map lent_row rows.items ≡ rows_of self.now.image) }
        ensures kept { IsHeapImage self.now }
    {
        self.queues.rows(alloc)
    }

    /// The heap of this vector, `heap` of `heaps`, in which no member stands: what
    /// [`Shard::push_row`] begins with.
    pub fn of_vector(
        alloc: Global,
        heap: u8,
        heaps: u8,
        rule: Rule,
        vector: &Vector,
        hasher: Seeded,
    ) -> Shard
        requires heaps { IsHeaps heaps }
        requires heap { heap < heaps }
        requires counters { IsCounters vector.now }
        ensures heap { result.heap ≡ heap }
        ensures heaps { result.heaps ≡ heaps }
        ensures rule { result.rule ≡ rule_of rule }
        ensures image { result.image ≡ image_of_rows vector.now [] }
    {
        Shard {
            heap,
            heaps,
            vector: *vector,
            queues: Queues::new(alloc, rule, hasher),
        }
    }

    /// Adds a member that does not stand, with its entry. The entry has an addition, and its
    /// additions keep the bounds. Where the shard has been made of rows, it is then that of these
    /// rows and this one, if its place is above theirs. Where memory is refused nothing changes. A
    /// walk that has begun before is no good any more.
    pub fn push_row(
        &mut self,
        alloc: Global,
        key: &[u8],
        member: &[u8],
        entry: Entry,
    ) -> Result<(), AllocError>
        requires wide { length entry ≡ SITES }
        requires full { is_bare entry ≡ false }
        requires bounded { IsBoundedRow self.old.heaps self.old.heap self.old.image.vector
            (row_of ((key.now, member.now), entry)) }
        ensures heap { self.new.heap ≡ self.old.heap }
        ensures heaps { self.new.heaps ≡ self.old.heaps }
        ensures rule { self.new.rule ≡ self.old.rule }
        ensures image { OnOk result
            (self.new.image ≡ with_entry (key.now, member.now) entry self.old.image) }
        ensures rows { OnOk result ((before : List model.Row) →
            self.old.image ≡ image_of_rows self.old.image.vector before →
            AreInOrder (before ++ row_of ((key.now, member.now), entry) ∷ []) →
            self.new.image ≡ image_of_rows self.old.image.vector
            (before ++ row_of ((key.now, member.now), entry) ∷ [])) }
        ensures refused { OnErr result (self.new ≡ self.old) }
    {
        self.queues.put_back(alloc, key, member, Some(entry))
    }

    /// The heap of this vector and copies of these rows, by key and then by member, which keep the
    /// bounds.
    pub fn of_rows(
        alloc: Global,
        heap: u8,
        heaps: u8,
        vector: &Vector,
        rows: &[Row],
        rule: Rule,
        hasher: Seeded,
    ) -> Result<Shard, AllocError>
        requires heaps { IsHeaps heaps }
        requires heap { heap < heaps }
        requires counters { IsCounters vector.now }
        requires rows { AreRows (map given_row rows.now) }
        requires bounded { (row : model.Row) → IsIn row (map given_row rows.now) →
            IsBoundedRow heaps heap vector.now row }
        ensures heap { IfOk result (λ shard. shard.heap ≡ heap) }
        ensures heaps { IfOk result (λ shard. shard.heaps ≡ heaps) }
        ensures rule { IfOk result (λ shard. shard.rule ≡ rule_of rule) }
        ensures image { IfOk result
            (λ shard. shard.image ≡ image_of_rows vector.now (map given_row rows.now)) }
    {
        let mut shard = Shard::of_vector(alloc, heap, heaps, rule, vector, hasher);
        for row in rows {
            let entry = Entry::of_additions(alloc, &row.additions)?;
            shard.push_row(alloc, &row.key, &row.member, entry)?;
        }
        Ok(shard)
    }
}
