//! How a shard makes operations.
ghost use Rattle.std.specs.Prelude.{◌≡◌, ◌≢◌, ◌≤◌, ◌<◌, ◌+◌, ◌-◌, ◌*◌, ◌↔◌, ◌∷◌, IfOk, IsErrOf, List, OnErr, OnOk, length, slice_index, slice_set, true, ℕ};
ghost use Rattle.std.specs.FinMap as map;
ghost use Rattle.zq_dots.specs.Act.{act_of};
ghost use Rattle.zq_dots.specs.Placed.{IsRanged, LONGEST};
ghost use Rattle.zq_entry.specs.Within.{AreSumsWithin};
ghost use Rattle.zq_model.specs.Heaps as place;
ghost use Rattle.zq_model.specs.Image.{entry_after, entry_at, image_after, put_entry};
ghost use Rattle.zq_model.specs.Operation.{Act as ModelAct, IsAct, MOST, Operation, is_bump};
ghost use Rattle.zq_model.specs.Sets as sets;
ghost use Rattle.zq_model.specs.Sets.{LAST, taken_of};
ghost use Rattle.zq_shard.specs.Shard.{HoldsImage, IsOfHeap, next_operation};

use crate::faults::MakeFault;
use crate::queues::Queues;
use crate::shard::Shard;
use std::alloc::{AllocError, Global};
use zq_dots::{Act, Dot, Op, SiteNo, Vector, heap_of};
use zq_entry::Entry;
use zq_queue::Effect;

impl Shard {
    /// The dot of the next operation of a site on a member.
    ///
    /// `WrongHeap` where the member lies in another heap, else `Worn` where the site's counter is
    /// at its last value.
    pub fn next_dot(&self, site: SiteNo, key: &[u8], member: &[u8]) -> Result<Dot, MakeFault>
        requires key { length key.now ≤ LONGEST }
        requires member { length member.now ≤ LONGEST }
        ensures wrong_heap { IsErrOf result MakeFault.WrongHeap
            ↔ (place.heap_of key.now member.now self.now.heaps ≢ self.now.heap) }
        ensures worn { IsErrOf result MakeFault.Worn
            ↔ ((place.heap_of key.now member.now self.now.heaps ≡ self.now.heap)
            × (slice_index self.now.image.vector site ≡ LAST)) }
        ensures memory { IsErrOf result MakeFault.NoMemory → ⊥ }
        ensures placed { OnOk result
            (place.heap_of key.now member.now self.now.heaps ≡ self.now.heap) }
        ensures site { IfOk result (λ dot. dot.site ≡ site) }
        ensures next { IfOk result (λ dot. dot.n ≡ slice_index self.now.image.vector site + 1) }
        ensures bounded { IfOk result (λ dot. dot.n ≤ LAST) }
        ensures sound { OnOk result ((act : ModelAct) → IsAct act →
            IsRanged (next_operation self.now site key.now member.now act)) }
    {
        if heap_of(key, member, self.heaps) != self.heap {
            return Err(MakeFault::WrongHeap);
        }
        Ok(self.next_here(site)?)
    }

    /// The dot of the next operation of a site on whichever member of this heap. It hashes nothing.
    ///
    /// `Worn` where the site's counter is at its last value.
    pub fn next_here(&self, site: SiteNo) -> Result<Dot, MakeFault>
        ensures here { IsErrOf result MakeFault.WrongHeap → ⊥ }
        ensures memory { IsErrOf result MakeFault.NoMemory → ⊥ }
        ensures worn { IsErrOf result MakeFault.Worn
            ↔ (slice_index self.now.image.vector site ≡ LAST) }
        ensures site { IfOk result (λ dot. dot.site ≡ site) }
        ensures next { IfOk result (λ dot. dot.n ≡ slice_index self.now.image.vector site + 1) }
        ensures bounded { IfOk result (λ dot. dot.n ≤ LAST) }
        ensures sound { OnOk result ((key member : List ℕ) (act : ModelAct) → length key ≤ LONGEST →
            length member ≤ LONGEST → IsAct act →
            IsRanged (next_operation self.now site key member act)) }
    {
        Ok(self.vector.next(site)?)
    }

    /// The next operation of a site, which is not yet taken. Two drafts of a site with nothing
    /// taken in between have the same dot: at most one of them may be put in or sent.
    ///
    /// `WrongHeap` where the member lies in another heap, else `Worn` where the site's counter is
    /// at its last value, else `NoMemory` where a copy of the key or the member found no memory.
    pub fn draft(
        &self,
        alloc: Global,
        site: SiteNo,
        key: &[u8],
        member: &[u8],
        act: Act,
    ) -> Result<Op, MakeFault>
        requires key { length key.now ≤ LONGEST }
        requires member { length member.now ≤ LONGEST }
        ensures wrong_heap { IsErrOf result MakeFault.WrongHeap
            ↔ (place.heap_of key.now member.now self.now.heaps ≢ self.now.heap) }
        ensures worn { IsErrOf result MakeFault.Worn
            ↔ ((place.heap_of key.now member.now self.now.heaps ≡ self.now.heap)
            × (slice_index self.now.image.vector site ≡ LAST)) }
        ensures made { IfOk result
            (λ op. op ≡ next_operation self.now site key.now member.now (act_of act)) }
        ensures placed { IfOk result (λ op. IsOfHeap self.now op) }
        ensures new { IfOk result (λ op. taken_of self.now.image.vector op.operation ≡ sets.New) }
        ensures sound { IfOk result (λ op. IsRanged op) }
    {
        let dot = self.next_dot(site, key, member)?;
        let key = Vec::from_slice(alloc, key)?;
        let member = Vec::from_slice(alloc, member)?;
        Ok(Op::new(self.heap, self.heaps, dot, self.vector, key, member, act))
    }

    /// Makes the next operation of a site, whose dot this is, on a member of this heap, takes it,
    /// and answers what its member had before. It is the operation that [`Shard::draft`] makes, but
    /// none is kept. Where memory is short nothing changes.
    pub fn put_next(
        &mut self,
        alloc: Global,
        dot: Dot,
        key: &[u8],
        member: &[u8],
        act: Act,
    ) -> Result<Option<Entry>, AllocError>
        requires next { dot.n ≡ slice_index self.old.image.vector dot.site + 1 }
        requires placed { IsOfHeap self.old
            (next_operation self.old dot.site key.now member.now (act_of act)) }
        requires sound { IsRanged
            (next_operation self.old dot.site key.now member.now (act_of act)) }
        ensures heap { self.new.heap ≡ self.old.heap }
        ensures heaps { self.new.heaps ≡ self.old.heaps }
        ensures rule { self.new.rule ≡ self.old.rule }
        ensures before { IfOk result
            (λ before. before ≡ map.get self.old.image.members (key.now, member.now)) }
        ensures taken { OnOk result
            (self.new.image ≡ image_after
            (next_operation self.old dot.site key.now member.now (act_of act)).operation
            self.old.image) }
        ensures set { OnOk result ((S : List Operation) → HoldsImage self.old S →
            HoldsImage self.new ((next_operation self.old dot.site key.now member.now
            (act_of act)).operation ∷ S)) }
        ensures refused { OnErr result (self.new ≡ self.old) }
    {
        put(
            &mut self.queues,
            &mut self.vector,
            alloc,
            dot,
            key,
            member,
            act,
        )
    }

    /// Makes the next operation of a site and takes it. Faults are those of [`Shard::draft`], and
    /// `NoMemory` also where the image cannot grow; after each nothing has changed.
    pub fn make(
        &mut self,
        alloc: Global,
        site: SiteNo,
        key: &[u8],
        member: &[u8],
        act: Act,
    ) -> Result<Op, MakeFault>
        requires key { length key.now ≤ LONGEST }
        requires member { length member.now ≤ LONGEST }
        ensures wrong_heap { IsErrOf result MakeFault.WrongHeap
            ↔ (place.heap_of key.now member.now self.old.heaps ≢ self.old.heap) }
        ensures worn { IsErrOf result MakeFault.Worn
            ↔ ((place.heap_of key.now member.now self.old.heaps ≡ self.old.heap)
            × (slice_index self.old.image.vector site ≡ LAST)) }
        ensures made { IfOk result
            (λ op. op ≡ next_operation self.old site key.now member.now (act_of act)) }
        ensures placed { IfOk result (λ op. IsOfHeap self.old op) }
        ensures sound { IfOk result (λ op. IsRanged op) }
        ensures heap { self.new.heap ≡ self.old.heap }
        ensures heaps { self.new.heaps ≡ self.old.heaps }
        ensures rule { self.new.rule ≡ self.old.rule }
        ensures taken { IfOk result
            (λ op. self.new.image ≡ image_after op.operation self.old.image) }
        ensures set { IfOk result (λ op. (S : List Operation) → HoldsImage self.old S →
            HoldsImage self.new (op.operation ∷ S)) }
        ensures refused { OnErr result (self.new ≡ self.old) }
    {
        let op = self.draft(alloc, site, key, member, act)?;
        drop(self.put_in(alloc, &op)?);
        Ok(op)
    }
}

/// Takes the effect of an operation that has seen what the vector has, and answers what its member
/// had before. The vector comes to know it.
fn put(
    queues: &mut Queues,
    vector: &mut Vector,
    alloc: Global,
    dot: Dot,
    key: &[u8],
    member: &[u8],
    act: Act,
) -> Result<Option<Entry>, AllocError>
    requires counter { (1 ≤ dot.n) × (dot.n ≤ LAST) }
    requires room { is_bump (act_of act) ≡ true →
        AreSumsWithin dot.site (MOST * (dot.n - 1))
        (entry_at queues.old.members (key.now, member.now)) }
    ensures rule { queues.new.rule ≡ queues.old.rule }
    ensures before { IfOk result
        (λ before. before ≡ map.get queues.old.members (key.now, member.now)) }
    ensures members { OnOk result (queues.new.members ≡
        put_entry queues.old.members (key.now, member.now)
        (entry_after (act_of act) dot.site dot.n vector.old
        (entry_at queues.old.members (key.now, member.now)))) }
    ensures vector { OnOk result (vector.new ≡ slice_set vector.old dot.site dot.n) }
    ensures same_queues { OnErr result (queues.new ≡ queues.old) }
    ensures same_vector { OnErr result (vector.new ≡ vector.old) }
{
    let Dot { site, n } = dot;
    let effect = Effect {
        dot,
        act,
        seen: vector,
    };
    let before = queues.take(alloc, key, member, &effect)?;
    vector.set(site, n);
    Ok(before)
}
