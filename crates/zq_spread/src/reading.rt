//! What a site shows of a heap.
ghost use Rattle.std.specs.Prelude.{◌≡◌, ◌<◌, ◌⊎◌, ◌∷◌, [], IfOk, IsErrOf, OnErr};
ghost use Rattle.zq_model.specs.Sets.{IsHeaps};
ghost use Rattle.zq_spread.specs.Answers.{IsAsked, IsCopied, IsDrained, IsPortioned, IsShown, IsSince};
ghost use Rattle.zq_spread.specs.Calls.{HasSeenBook, IsCall, heaps_of};
ghost use Rattle.zq_spread.specs.Passes.{IsPassOf};
ghost use Rattle.zq_spread.specs.Worn.{IsWornIn};

use crate::faults::ReadFault;
use crate::pass::Pass;
use crate::site::Site;
use std::alloc::Global;
use std::sync::Wait;
use zq_dots::{Rule, SiteNo, Vector};
use zq_journal::Since;
use zq_posheap::Seeded;
use zq_shard::{Shard, Spot};
use zq_stage::{Portion, PortionLimits};
use zq_ticketlock::Worn;

impl Site {
    /// Its number.
    pub fn number(&self) -> SiteNo
        ensures { result ≡ self.now.number }
    {
        self.number
    }

    /// How many heaps it has, from 2 to 16.
    pub fn heaps(&self) -> u8
        ensures number { result ≡ heaps_of self.now }
        ensures bounds { IsHeaps result }
    {
        self.slots.len() as u8
    }

    /// Which of a member's values is its score.
    pub fn rule(&self) -> Rule
        ensures { result ≡ self.now.rule }
    {
        self.rule
    }

    /// Which operations of a heap the site has taken. `Worn` where the heap's lock or the stamp is
    /// at its last value, and then no image, book or stamp has changed.
    pub fn vector<R: Wait>(&self, rt: &R, pass: &mut Pass, heap: u8) -> Result<Vector, Worn>
        requires pass { IsPassOf self.now pass.old }
        requires heap { heap < heaps_of self.now }
        ensures pass { IsPassOf self.now pass.new }
        ensures called { IfOk result
            (λ vector. IsCall (IsShown vector) pass.old pass.new (heap ∷ [])) }
        ensures refused { OnErr result (IsWornIn (heap ∷ []) pass.old pass.new) }
    {
        let heap = usize::from(heap);
        let Ok((held, stamp)) = self.begin_in(rt, pass, heap) else {
            return Err(Worn);
        };
        let vector = *held.value().book.shard().vector();
        self.end_in(pass, heap, held, stamp);
        Ok(vector)
    }

    /// A copy of a heap, as it is at the call's stamp. `Worn` where the heap's lock or the stamp is
    /// at its last value, and then no image, book or stamp has changed. Else `NoMemory` where the
    /// copy was refused: then the call stands at its stamp, and has made no step.
    pub fn state<R: Wait>(
        &self,
        rt: &R,
        alloc: Global,
        pass: &mut Pass,
        heap: u8,
    ) -> Result<Shard, ReadFault>
        requires pass { IsPassOf self.now pass.old }
        requires heap { heap < heaps_of self.now }
        ensures pass { IsPassOf self.now pass.new }
        ensures called { IsCall (IsCopied result) pass.old pass.new (heap ∷ [])
            ⊎ (IsErrOf result ReadFault.Worn × IsWornIn (heap ∷ []) pass.old pass.new) }
    {
        let heap = usize::from(heap);
        let Ok((held, stamp)) = self.begin_in(rt, pass, heap) else {
            return Err(ReadFault::Worn);
        };
        let copy = held.value().copy(alloc);
        self.end_in(pass, heap, held, stamp);
        copy
    }

    /// A copy of the next members of a walk over a heap, with the heap's vector, as it is at the
    /// call's stamp. The heap is held for as long as it takes to copy as many as the limits allow.
    /// [`zq_shard::Shard::walk`] says what a walk promises while calls change the heap between its
    /// portions; after [`Site::merge`] or [`Site::take_over`] in the heap it begins anew. Keys and
    /// members of the copy are placed by the hasher.
    ///
    /// `Worn` where the heap's lock or the stamp is at its last value, and then no image, book or
    /// stamp has changed. Else `NoMemory` where the copy was refused: then the call stands at its
    /// stamp, and has made no step.
    pub fn portion<R: Wait>(
        &self,
        rt: &R,
        alloc: Global,
        pass: &mut Pass,
        heap: u8,
        spot: Spot,
        limits: PortionLimits,
        hasher: Seeded,
    ) -> Result<Portion, ReadFault>
        requires pass { IsPassOf self.now pass.old }
        requires heap { heap < heaps_of self.now }
        ensures pass { IsPassOf self.now pass.new }
        ensures called { IsCall (IsPortioned spot limits result) pass.old pass.new (heap ∷ [])
            ⊎ (IsErrOf result ReadFault.Worn × IsWornIn (heap ∷ []) pass.old pass.new) }
    {
        let heap = usize::from(heap);
        let Ok((held, stamp)) = self.begin_in(rt, pass, heap) else {
            return Err(ReadFault::Worn);
        };
        let portion = held.value().portion(alloc, spot, limits, hasher);
        self.end_in(pass, heap, held, stamp);
        portion
    }

    /// What a peer of this vector lacks of a heap, as its book says: `TooOld` exactly where the
    /// vector does not cover that of the book's base, else those operations of the records that the
    /// vector lacks, oldest first. The book is the one that the pass has then seen, after the cut
    /// with which a call begins.
    ///
    /// `Worn` where the heap's lock or the stamp is at its last value, and then no image, book or
    /// stamp has changed. Else `NoMemory` where a growth was refused: then the call stands at its
    /// stamp, and has made no step.
    pub fn since<R: Wait>(
        &self,
        rt: &R,
        alloc: Global,
        pass: &mut Pass,
        heap: u8,
        vector: &Vector,
    ) -> Result<Since, ReadFault>
        requires pass { IsPassOf self.now pass.old }
        requires heap { heap < heaps_of self.now }
        ensures pass { IsPassOf self.now pass.new }
        ensures called { IsCall (IsAsked result) pass.old pass.new (heap ∷ [])
            ⊎ (IsErrOf result ReadFault.Worn × IsWornIn (heap ∷ []) pass.old pass.new) }
        ensures answered { IfOk result
            (λ since. HasSeenBook pass.new heap (IsSince vector.now since)) }
    {
        let heap = usize::from(heap);
        let Ok((held, stamp)) = self.begin_in(rt, pass, heap) else {
            return Err(ReadFault::Worn);
        };
        let since = held.value().since(alloc, vector);
        self.end_in(pass, heap, held, stamp);
        since
    }

    /// Gives a log of this vector the oldest operations that it lacks of a heap, at most so many, and
    /// tells the heap's book that all before the oldest of them was handed on: a cut takes that alone.
    /// `TooOld` exactly where the vector does not cover that of the book's base: then the book is told
    /// nothing.
    ///
    /// `Worn` where the heap's lock or the stamp is at its last value, and then no image, book or
    /// stamp has changed. Else `NoMemory` where a growth was refused: then the call stands at its
    /// stamp, and has made no step.
    pub fn drain<R: Wait>(
        &self,
        rt: &R,
        alloc: Global,
        pass: &mut Pass,
        heap: u8,
        vector: &Vector,
        most: usize,
    ) -> Result<Since, ReadFault>
        requires pass { IsPassOf self.now pass.old }
        requires heap { heap < heaps_of self.now }
        ensures pass { IsPassOf self.now pass.new }
        ensures called { IsCall (IsDrained pass.new.stamp vector.now most result) pass.old pass.new
            (heap ∷ [])
            ⊎ (IsErrOf result ReadFault.Worn × IsWornIn (heap ∷ []) pass.old pass.new) }
    {
        let heap = usize::from(heap);
        let Ok((mut held, stamp)) = self.begin_in(rt, pass, heap) else {
            return Err(ReadFault::Worn);
        };
        let since = held.value_mut().drain(alloc, stamp, vector, most);
        self.end_in(pass, heap, held, stamp);
        since
    }
}
