//! One heap of a site: its type, and what it is made of.

ghost use Rattle.std.specs.Prelude.{◌≡◌, ◌<◌, ◌↔◌, IfOk, IsTrue, List, None, Option, Some, [], ℤ, option_map};
ghost use Rattle.std.specs.FinMap as map;
ghost use Rattle.zq_dots.specs.Rule.{rule_of};
ghost use Rattle.zq_model.specs.Heaps as place;
ghost use Rattle.zq_model.specs.Image.{empty_image, entry_at};
ghost use Rattle.zq_model.specs.Meaning.{IsLive, IsScore};
ghost use Rattle.zq_model.specs.Operation.{Operation};
ghost use Rattle.zq_model.specs.Rule.{Greatest};
ghost use Rattle.zq_model.specs.Score.{score_of};
ghost use Rattle.zq_model.specs.Sets.{IsHeaps};
ghost use Rattle.zq_shard.specs.Shard.{HoldsImage, IsHeapImage};

use crate::queues::Queues;
use std::alloc::{AllocError, Global};
use std::marker::Model;
use zq_dots::{Rule, Vector};
use zq_entry::Entry;
use zq_posheap::Seeded;

/// One heap of a site: its version vector, and its keys with the members that have live additions.
// Fields lie in this order: what every call reads is in few lines of a cache, and the vector behind
// it.
#[derive(Drop)]
pub struct Shard {
    pub(crate) heap: u8,
    pub(crate) heaps: u8,
    pub(crate) queues: Queues,
    pub(crate) vector: Vector,
}

impl Model for Shard {
    ghost use Rattle.zq_shard.specs.Shard.{HeapImage, IsHeapImage, heap_image_code};

    ghost Value = { HeapImage };

    ghost coded = { heap_image_code };

    ghost use Rattle.zq_shard.specs.ShardView.{heap_image_of};

    ghost view = { heap_image_of };

    ghost invariant = { λ s. IsHeapImage (heap_image_of s) };
}

impl Shard {
    /// The heap of a site that has taken nothing there, `heap` of `heaps`. A score is the greatest
    /// of the values. Keys and members are hashed from a fixed seed: where strangers choose them,
    /// take [`Shard::new_ruled`] and a seed that they do not know.
    pub fn new(alloc: Global, heap: u8, heaps: u8) -> Shard
        requires heaps { IsHeaps heaps }
        requires heap { heap < heaps }
        ensures heap { result.heap ≡ heap }
        ensures heaps { result.heaps ≡ heaps }
        ensures rule { result.rule ≡ Greatest }
        ensures image { result.image ≡ empty_image }
        ensures set { HoldsImage result [] }
    {
        Shard::new_ruled(alloc, heap, heaps, Rule::High, Seeded::new(0))
    }

    /// The heap of a site that has taken nothing there, `heap` of `heaps`, whose scores follow the
    /// rule. Keys and members are placed by the hasher.
    pub fn new_ruled(alloc: Global, heap: u8, heaps: u8, rule: Rule, hasher: Seeded) -> Shard
        requires heaps { IsHeaps heaps }
        requires heap { heap < heaps }
        ensures heap { result.heap ≡ heap }
        ensures heaps { result.heaps ≡ heaps }
        ensures rule { result.rule ≡ rule_of rule }
        ensures image { result.image ≡ empty_image }
        ensures set { HoldsImage result [] }
    {
        Shard {
            heap,
            heaps,
            vector: Vector::new(),
            queues: Queues::new(alloc, rule, hasher),
        }
    }

    /// Its number, below that of the heaps.
    pub fn heap(&self) -> u8
        ensures same { result ≡ self.now.heap }
        ensures below { result < self.now.heaps }
    {
        self.heap
    }

    /// The number of heaps of its site, 1 to 16.
    pub fn heaps(&self) -> u8
        ensures same { result ≡ self.now.heaps }
        ensures range { IsHeaps result }
    {
        self.heaps
    }

    /// Which of the values of a member's additions is its score.
    pub fn rule(&self) -> Rule
        ensures { rule_of result ≡ self.now.rule }
    {
        self.queues.rule()
    }

    /// Which operations of this heap it has taken.
    pub fn vector(&self) -> &Vector
        ensures same { result.now ≡ self.now.image.vector }
        ensures kept { IsHeapImage self.now }
    {
        &self.vector
    }

    /// What a member of a key has, and `None` where it has no live addition.
    pub fn entry(&self, key: &[u8], member: &[u8]) -> Option<&Entry>
        ensures { option_map (λ entry. entry.now) result
            ≡ map.get self.now.image.members (key.now, member.now) }
    {
        self.queues.entry(key, member)
    }

    /// The score of a member of a key: the preferred of the values of its live additions, and
    /// `None` where it has none, as each member of another heap.
    pub fn score(&self, key: &[u8], member: &[u8]) -> Option<i128>
        ensures image { result ≡ score_of self.now.rule
            (entry_at self.now.image.members (key.now, member.now)) }
        ensures meant { (S : List Operation) (x : ℤ) → HoldsImage self.now S →
            (result ≡ Some x) ↔ ((place.heap_of key.now member.now self.now.heaps ≡ self.now.heap)
            × IsScore self.now.rule S key.now member.now x) }
        ensures absent { (S : List Operation) → HoldsImage self.now S →
            (result ≡ None) ↔ (place.heap_of key.now member.now self.now.heaps ≡ self.now.heap →
            (p : Operation) → IsLive S key.now member.now p → ⊥) }
    {
        self.queues.score(key, member)
    }

    /// An equal shard. Where memory is short nothing is made.
    pub fn copy(&self, alloc: Global) -> Result<Shard, AllocError>
        ensures { IfOk result (λ copy. copy ≡ self.now) }
    {
        Ok(Shard {
            heap: self.heap,
            heaps: self.heaps,
            vector: self.vector,
            queues: self.queues.copy(alloc)?,
        })
    }

    /// Whether it is the same heap, of as many heaps, with the same rule, an equal vector and the
    /// same members with the same additions.
    pub fn same(&self, other: &Shard) -> bool
        ensures { IsTrue result ↔ (self.now ≡ other.now) }
    {
        self.vector == other.vector
            && self.heap == other.heap
            && self.heaps == other.heaps
            && self.queues.same(&other.queues)
    }
}
