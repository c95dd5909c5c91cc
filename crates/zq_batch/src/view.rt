//! An operation whose key and member lie elsewhere.

ghost use Rattle.std.specs.Prelude.{◌≡◌, ◌≤◌, ◌<◌, ◌+◌, length, slice_index};
ghost use Rattle.zq_batch.specs.Fields.{placed};
ghost use Rattle.zq_dots.specs.Act.{act_of};
ghost use Rattle.zq_dots.specs.Placed.{IsRanged, LONGEST};
ghost use Rattle.zq_model.specs.Operation.{IsAct};
ghost use Rattle.zq_model.specs.Sets.{IsCounters, IsHeaps, LAST};

use std::marker::Model;
use zq_dots::{Act, SiteNo, Vector};
use zq_fields::HeapNo;

/// An operation whose key and member lie elsewhere.
#[derive(Drop)]
pub struct View<'a> {
    heap: HeapNo,
    site: SiteNo,
    seen: Vector,
    act: Act,
    key: &'a [u8],
    member: &'a [u8],
}

impl<'a> Model for View<'a> {
    ghost use Rattle.zq_dots.specs.Placed.{Placed, IsRanged};
    ghost use Rattle.zq_batch.specs.ViewOf.{view_of};

    ghost Value = { Placed };

    ghost view = { view_of };

    ghost invariant = { λ v. IsRanged (view_of v) };
}

impl<'a> View<'a> {
    /// The operation of these parts.
    pub fn new(
        heap: HeapNo,
        site: SiteNo,
        seen: Vector,
        act: Act,
        key: &'a [u8],
        member: &'a [u8],
    ) -> View<'a>
        requires heaps { IsHeaps heap.heaps }
        requires heap { heap.heap < heap.heaps }
        requires bounded { slice_index seen site < LAST }
        requires key { length key.now ≤ LONGEST }
        requires member { length member.now ≤ LONGEST }
        ensures { result ≡ placed heap site seen (act_of act) key.now member.now }
    {
        View {
            heap,
            site,
            seen,
            act,
            key,
            member,
        }
    }

    /// The heap in which its member lies, and the number of heaps.
    pub fn heap(&self) -> HeapNo
        ensures heap { result.heap ≡ self.now.operation.heap }
        ensures heaps { result.heaps ≡ self.now.heaps }
        ensures range { IsHeaps result.heaps }
        ensures below { result.heap < result.heaps }
    {
        self.heap
    }

    /// Its site.
    pub fn site(&self) -> SiteNo
        ensures { result ≡ self.now.operation.site }
    {
        self.site
    }

    /// Its counter.
    #[tactic(auto, unfolding(zq_model::specs::Sets::LAST))]
    pub fn n(&self) -> u64
        ensures n { result ≡ self.now.operation.n }
        ensures next { result
            ≡ slice_index self.now.operation.seen self.now.operation.site + 1 }
        ensures bounded { result ≤ LAST }
    {
        self.seen.get(self.site) + 1
    }

    /// What its site knew of its heap before it.
    pub fn seen(&self) -> &Vector
        ensures same { result.now ≡ self.now.operation.seen }
        ensures counters { IsCounters result.now }
    {
        &self.seen
    }

    /// The key, of at most 1048576 bytes.
    pub fn key(&self) -> &'a [u8]
        ensures same { result.now ≡ self.now.operation.key }
        ensures short { length result.now ≤ LONGEST }
    {
        self.key
    }

    /// The member, of at most 1048576 bytes.
    pub fn member(&self) -> &'a [u8]
        ensures same { result.now ≡ self.now.operation.member }
        ensures short { length result.now ≤ LONGEST }
    {
        self.member
    }

    /// What it does to its member.
    pub fn act(&self) -> Act
        ensures same { act_of result ≡ self.now.operation.act }
        ensures range { IsAct (act_of result) }
    {
        self.act
    }
}
