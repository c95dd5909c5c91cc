//! How what a record keeps is taken by a heap.
ghost use Rattle.std.specs.Prelude.{◌≡◌, IfOk, OnErr, OnOk};
ghost use Rattle.std.specs.FinMap.{get};
ghost use Rattle.zq_journal.specs.Records.{IsRecordable, placed_in, whole};
ghost use Rattle.zq_model.specs.Image.{image_after, place_of};
ghost use Rattle.zq_model.specs.Sets.{New, taken_of};

use crate::records::Change;
use std::alloc::{AllocError, Global};
use zq_entry::Entry;
use zq_shard::Shard;

impl Change {
    /// Takes the operation, of this key and this member, in a heap to which it is new, and answers
    /// what its member had before. Where memory is short nothing changes.
    #[inline(always)]
    pub(crate) fn put_in(
        &self,
        alloc: Global,
        shard: &mut Shard,
        key: &[u8],
        member: &[u8],
    ) -> Result<Option<Entry>, AllocError>
        requires key { key.now
            ≡ (placed_in (whole shard.old.heap shard.old.heaps shard.old.image.vector
            self.now)).operation.key }
        requires member { member.now
            ≡ (placed_in (whole shard.old.heap shard.old.heaps shard.old.image.vector
            self.now)).operation.member }
        requires own { IsRecordable shard.old.heap shard.old.heaps
            (placed_in (whole shard.old.heap shard.old.heaps shard.old.image.vector self.now)) }
        requires new { taken_of shard.old.image.vector
            (placed_in (whole shard.old.heap shard.old.heaps shard.old.image.vector
            self.now)).operation ≡ New }
        ensures heap { shard.new.heap ≡ shard.old.heap }
        ensures heaps { shard.new.heaps ≡ shard.old.heaps }
        ensures rule { shard.new.rule ≡ shard.old.rule }
        ensures before { IfOk result (λ before. before ≡
            get shard.old.image.members
            (place_of (placed_in (whole shard.old.heap shard.old.heaps shard.old.image.vector
            self.now)).operation)) }
        ensures image { OnOk result (shard.new.image ≡
            image_after (placed_in
            (whole shard.old.heap shard.old.heaps shard.old.image.vector self.now)).operation
            shard.old.image) }
        ensures refused { OnErr result (shard.new ≡ shard.old) }
    {
        match self {
            Change::Made(own) => shard.put_next(alloc, own.dot, key, member, own.act),
            Change::Took(op) => shard.put_in(alloc, op),
        }
    }
}
