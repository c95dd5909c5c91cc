//! The heap and the map under a `PosHeap`, which know each other.
ghost use Rattle.std.specs.Prelude.{IfNone, IfSome, length, slice_set, ◌+◌, ◌*◌, ◌<◌, ◌≤◌, ◌≡◌, ◌≢◌, swap};
ghost use Rattle.indexmap.specs.IndexMap.{index_map_len};
ghost use Rattle.std.specs.BinaryHeap.{IsHeap, lt_by_cmp};
ghost use Rattle.std.specs.BinaryHeap.Sift.{IsGreaterChild, IsHeapWithHole};
ghost use Rattle.std.specs.Slice.Heapsort.{IsNotBelowChildren};
ghost use Rattle.std.specs.FinMap.{empty};
ghost use Rattle.std.specs.Ordering.{is_lt};
ghost use Rattle.zq_posheap.specs.First.{IsFirst};
ghost use Rattle.zq_posheap.specs.Listing.{lent_pair};
ghost use Rattle.zq_posheap.specs.Members.{AreInRange, scores_of};
ghost use Rattle.zq_posheap.specs.Moves.{AreKnown, HasHole, IsKnown, IsLinkedHeap, KeepsMembers, OnlyMoves, pair_at, pairs_in, queue_of, queue_with};
ghost use Rattle.zq_posheap.specs.Order.{scored_at, scored_cmp, turned_cmp};
ghost use Rattle.zq_posheap.specs.Whole.{IsWhole, entries_map};

use crate::name::Name;
use crate::seeded::Seeded;
use indexmap::IndexMap;
use std::cmp::Ordering;

/// A position of the heap: the index in the map of a member, and the number of 64 bits that is
/// nearest to its score. Where two of these numbers differ, the scores do so in the same way, and
/// the map is not read to compare them.
#[derive(Clone, Copy, Drop)]
pub(crate) struct Slot {
    pub(crate) near: i64,
    pub(crate) index: usize,
}

// A sift reads the two children of a position: they are to lie in one line of a cache.
const _: () = prove!(size_of::<Slot>() == 16);

/// What the map keeps of a member: its score and its value.
#[derive(Drop)]
pub(crate) struct ScoredValue<V> {
    pub(crate) score: i128,
    pub(crate) value: V,
}

/// The heap beside the map, and the position in the heap of each member, by its index in the map.
/// The positions lie apart from the map, which a move in the heap does not touch.
#[derive(Drop)]
pub(crate) struct Heap<V> {
    pub(crate) slots: Vec<Slot>,
    pub(crate) positions: Vec<usize>,
    pub(crate) members: IndexMap<Name, ScoredValue<V>, Seeded>,
}

impl<V> Heap<V> {
    /// Puts a slot at a place, and notes that its member now stands there.
    fn put(&mut self, place: usize, slot: Slot)
        requires within { place < length self.old.slots.items }
        requires known { slot.index < length self.old.positions.items }
        ensures slots { self.new.slots.items ≡ slice_set self.old.slots.items place slot }
        ensures positions { self.new.positions.items
            ≡ slice_set self.old.positions.items slot.index place }
        ensures kept { KeepsMembers self.old self.new }
    {
        self.positions[slot.index] = place;
        self.slots[place] = slot;
    }

    /// Exchanges two places of the heap.
    pub(crate) fn swap(&mut self, a: usize, b: usize)
        requires linked { IsLinkedHeap self.old }
        requires a_within { a < length self.old.slots.items }
        requires b_within { b < length self.old.slots.items }
        requires apart { a ≢ b }
        ensures slots { self.new.slots.items ≡ swap self.old.slots.items a b }
        ensures queue { queue_of self.new ≡ swap (queue_of self.old) a b }
        ensures moves { OnlyMoves self.old self.new }
    {
        let (x, y) = (self.slots[a], self.slots[b]);
        self.put(a, y);
        self.put(b, x);
    }

    /// Where the score and the member at an index of the map stand to those at another.
    fn compare(&self, x: usize, y: usize) -> Ordering
        requires x_within { x < index_map_len self.now.members }
        requires y_within { y < index_map_len self.now.members }
        ensures { result ≡ scored_cmp (pair_at self.now x) (pair_at self.now y) }
    {
        let (x_member, x_held) = self.members.get_index(x).unwrap();
        let (y_member, y_held) = self.members.get_index(y).unwrap();
        match x_held.score.cmp(&y_held.score) {
            Ordering::Equal => x_member.as_slice().cmp(y_member.as_slice()),
            unlike => unlike,
        }
    }

    /// The first score and its member.
    pub(crate) fn first(&self) -> Option<(i128, &[u8])>
        requires whole { IsWhole self.now }
        requires in_range { AreInRange (entries_map self.now) }
        ensures none { IfNone result (entries_map self.now ≡ empty) }
        ensures first { IfSome result
            (λ pair. IsFirst (scores_of (entries_map self.now)) (lent_pair pair)) }
    {
        let slot = self.slots.first()?;
        let (member, held) = self.members.get_index(slot.index)?;
        Some((held.score, member.as_slice()))
    }

    /// Whether the member of a slot goes before that of another.
    fn is_before(&self, x: Slot, y: Slot) -> bool
        requires x_known { IsKnown self.now x }
        requires y_known { IsKnown self.now y }
        ensures { result ≡ is_lt
            (scored_cmp (scored_at (pairs_in self.now) x) (scored_at (pairs_in self.now) y)) }
    {
        if x.near != y.near {
            return x.near < y.near;
        }
        self.compare(x.index, y.index).is_lt()
    }

    /// The child of a place that goes before the other.
    fn first_child(&self, place: usize) -> usize
        requires known { AreKnown self.now }
        requires has_child { place * 2 + 1 < length self.now.slots.items }
        ensures from { place * 2 + 1 ≤ result }
        ensures to { result ≤ place * 2 + 2 }
        ensures within { result < length self.now.slots.items }
        ensures first { IsGreaterChild turned_cmp (queue_of self.now) place result
            (length self.now.slots.items) }
    {
        let left = place * 2 + 1;
        if left + 1 < self.slots.len() && !self.is_before(self.slots[left], self.slots[left + 1]) {
            left + 1
        } else {
            left
        }
    }

    /// Moves the hole that a slot left down while a child goes before the slot, and answers where
    /// it comes to.
    fn sink(&mut self, mut place: usize, slot: Slot) -> usize
        requires out { HasHole self.old place slot }
        requires hole { IsHeapWithHole (lt_by_cmp turned_cmp) (queue_with self.old place slot) place
            (length self.old.slots.items) }
        ensures out { HasHole self.new result slot }
        ensures kept { KeepsMembers self.old self.new }
        ensures hole_moved { IsHeapWithHole (lt_by_cmp turned_cmp)
            (queue_with self.new result slot) result (length self.new.slots.items) }
        ensures over_children { IsNotBelowChildren (lt_by_cmp turned_cmp)
            (queue_with self.new result slot) result result (length self.new.slots.items) }
    {
        while place < self.slots.len() / 2 {
            let child = self.first_child(place);
            let below = self.slots[child];
            if !self.is_before(below, slot) {
                return place;
            }
            self.put(place, below);
            place = child;
        }
        place
    }

    /// Moves the hole that a slot left up while the slot goes before its parent, and answers where
    /// it comes to.
    fn rise(&mut self, mut place: usize, slot: Slot) -> usize
        requires out { HasHole self.old place slot }
        requires hole { IsHeapWithHole (lt_by_cmp turned_cmp) (queue_with self.old place slot) place
            (length self.old.slots.items) }
        requires over_children { IsNotBelowChildren (lt_by_cmp turned_cmp)
            (queue_with self.old place slot) place place (length self.old.slots.items) }
        ensures out { HasHole self.new result slot }
        ensures kept { KeepsMembers self.old self.new }
        ensures heap { IsHeap turned_cmp (queue_with self.new result slot) }
    {
        while place > 0 {
            let parent = (place - 1) / 2;
            let above = self.slots[parent];
            if !self.is_before(slot, above) {
                return place;
            }
            self.put(place, above);
            place = parent;
        }
        place
    }

    /// Moves what is at a place, where all else is in order, to where it belongs. Past the last
    /// place there is nothing to move.
    pub(crate) fn settle(&mut self, place: usize)
        requires linked { IsLinkedHeap self.old }
        requires hole { IsHeapWithHole (lt_by_cmp turned_cmp) (queue_of self.old) place
            (length self.old.slots.items) }
        ensures moves { OnlyMoves self.old self.new }
        ensures heap { IsHeap turned_cmp (queue_of self.new) }
    {
        if place < self.slots.len() {
            let slot = self.slots[place];
            let place = self.sink(place, slot);
            let place = self.rise(place, slot);
            self.put(place, slot);
        }
    }
}
