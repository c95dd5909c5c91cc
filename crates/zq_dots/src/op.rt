//! An operation of a site, and its parts.

ghost use Rattle.std.specs.Prelude.{◌≡◌, ◌≤◌, ◌<◌, ◌+◌, IfOk, [], length, slice_index};
ghost use Rattle.zq_model.specs.Operation.{IsAct};
ghost use Rattle.zq_model.specs.Sets.{IsCounters, IsHeaps, LAST};
ghost use Rattle.zq_dots.specs.Act.{act_of};
ghost use Rattle.zq_dots.specs.Placed.{IsRanged, LONGEST, renamed};

use crate::act::Act;
use crate::dot::Dot;
use crate::vector::Vector;
use std::alloc::{AllocError, Global};
use std::marker::Model;
use std::mem::swap;

/// The most bytes of a key and of a member.
pub const LONGEST: usize = 1_048_576;

/// An operation of a site: what it does to one member of one key, its dot in its heap, and the
/// vector that its site had there before it, so that its counter is the next of its site.
#[derive(Debug, Drop)]
pub struct Op {
    heap: u8,
    heaps: u8,
    dot: Dot,
    seen: Vector,
    key: Vec<u8>,
    member: Vec<u8>,
    act: Act,
}

impl Model for Op {
    ghost use Rattle.zq_dots.specs.Placed.{Placed, IsRanged};

    ghost Value = { Placed };

    ghost use Rattle.zq_dots.specs.OpView.{placed_of};

    ghost view = { placed_of };

    ghost invariant = { λ o. IsRanged (placed_of o) };
}

impl Op {
    /// The operation of these parts, `heap` being the member's heap at a site of `heaps` heaps.
    pub fn new(
        heap: u8,
        heaps: u8,
        dot: Dot,
        seen: Vector,
        key: Vec<u8>,
        member: Vec<u8>,
        act: Act,
    ) -> Op
        requires heaps { IsHeaps heaps }
        requires heap { heap < heaps }
        requires next { dot.n ≡ slice_index seen dot.site + 1 }
        requires bounded { dot.n ≤ LAST }
        requires key { length key.items ≤ LONGEST }
        requires member { length member.items ≤ LONGEST }
        ensures heaps { result.heaps ≡ heaps }
        ensures operation { result.operation
            ≡ record { heap = heap; site = dot.site; n = dot.n; seen = seen; key = key.items; member = member.items; act = act_of act } }
        ensures sound { IsRanged result }
    {
        Op {
            heap,
            heaps,
            dot,
            seen,
            key,
            member,
            act,
        }
    }

    /// The heap in which its member lies.
    pub fn heap(&self) -> u8
        ensures same { result ≡ self.now.operation.heap }
        ensures below { result < self.now.heaps }
    {
        self.heap
    }

    /// The number of heaps of the site that made it, 1 to 16.
    pub fn heaps(&self) -> u8
        ensures same { result ≡ self.now.heaps }
        ensures range { IsHeaps result }
    {
        self.heaps
    }

    /// Its site and its counter.
    pub fn dot(&self) -> Dot
        ensures site { result.site ≡ self.now.operation.site }
        ensures n { result.n ≡ self.now.operation.n }
        ensures next { result.n ≡ slice_index self.now.operation.seen result.site + 1 }
        ensures bounded { result.n ≤ LAST }
    {
        self.dot
    }

    /// What its site knew of its heap before it.
    pub fn seen(&self) -> &Vector
        ensures same { result.now ≡ self.now.operation.seen }
        ensures counters { IsCounters result.now }
    {
        &self.seen
    }

    /// The key, of at most 1048576 bytes.
    pub fn key(&self) -> &[u8]
        ensures same { result.now ≡ self.now.operation.key }
        ensures short { length result.now ≤ LONGEST }
    {
        self.key.as_slice()
    }

    /// The member, of at most 1048576 bytes.
    pub fn member(&self) -> &[u8]
        ensures same { result.now ≡ self.now.operation.member }
        ensures short { length result.now ≤ LONGEST }
    {
        self.member.as_slice()
    }

    /// Its key and its member. It copies nothing.
    pub fn into_names(self) -> (Vec<u8>, Vec<u8>)
        ensures key { result.0.items ≡ self.operation.key }
        ensures member { result.1.items ≡ self.operation.member }
    {
        (self.key, self.member)
    }

    /// The same operation of an empty key and an empty member. It allocates nothing.
    pub fn bare(&self, alloc: Global) -> Op
        ensures { result ≡ renamed self.now [] [] }
    {
        Op {
            heap: self.heap,
            heaps: self.heaps,
            dot: self.dot,
            seen: self.seen,
            key: Vec::new(alloc),
            member: Vec::new(alloc),
            act: self.act,
        }
    }

    /// Gives this operation the key and the member of another one, and the other one this one's. It
    /// copies nothing.
    pub fn swap_names(&mut self, other: &mut Op)
        ensures own { self.new
            ≡ renamed self.old other.old.operation.key other.old.operation.member }
        ensures other { other.new
            ≡ renamed other.old self.old.operation.key self.old.operation.member }
    {
        swap(&mut self.key, &mut other.key);
        swap(&mut self.member, &mut other.member);
    }

    /// What it does to its member.
    pub fn act(&self) -> Act
        ensures same { act_of result ≡ self.now.operation.act }
        ensures range { IsAct (act_of result) }
    {
        self.act
    }

    /// An equal operation. Where memory is short nothing is made.
    pub fn copy(&self, alloc: Global) -> Result<Op, AllocError>
        ensures { IfOk result (λ o. o ≡ self.now) }
    {
        Ok(Op {
            heap: self.heap,
            heaps: self.heaps,
            dot: self.dot,
            seen: self.seen,
            key: Vec::from_slice(alloc, &self.key)?,
            member: Vec::from_slice(alloc, &self.member)?,
            act: self.act,
        })
    }
}
