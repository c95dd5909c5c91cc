//! What changes the members of a heap, their scores or their values.
ghost use Rattle.std.specs.Prelude.{IsSome, None, OnOk, OnErr, Some, [], length, option_map, slice_get, slice_index_or, swap_remove, ◌+◌, ◌++◌, ◌-◌, ◌<◌, ◌∷◌, ◌≡◌, ◌≢◌, ◌≤◌, ℕ};
ghost use Rattle.std.specs.FinMap.{get, insert, remove};
ghost use Rattle.indexmap.specs.IndexMap.{IsUnique, index_map_len, keys, values, with_value_at};
ghost use Rattle.zq_posheap.specs.Members.{AreInRange};
ghost use Rattle.zq_posheap.specs.Moves.{IsLinkedHeap, OnlyMoves, member_of, queue_of, room_of, shown};
ghost use Rattle.zq_posheap.specs.Order.{Scored, same_key};
ghost use Rattle.zq_posheap.specs.Whole.{IsWhole, entries_map};

use crate::heap::{Heap, ScoredValue, Slot};
use crate::name::Name;
use crate::near::near;
use crate::seeded::Seeded;
use indexmap::IndexMap;
use std::alloc::AllocError;
use std::mem::replace;

/// Room for so many members, or for fewer, stays when members go.
const SMALL: usize = 64;

/// Notes another score and value for the member at an index, and answers the value that it had.
fn exchange<V>(
    members: &mut IndexMap<Name, ScoredValue<V>, Seeded>,
    index: usize,
    score: i128,
    value: V,
) -> V
    requires { index < index_map_len members.old }
    ensures given { (w : ScoredValue V) → slice_get (values members.old) index ≡ Some w →
        result ≡ w.value }
    ensures noted { (w : ScoredValue V) → slice_get (values members.old) index ≡ Some w →
        members.new ≡ with_value_at members.old index (record { score = score; value = value }) }
    ensures unique { IsUnique same_key members.old }
{
    let (_, held) = members.pair_mut(index);
    held.score = score;
    replace(&mut held.value, value)
}

impl<V: Drop> Heap<V> {
    /// What is held of the member at an index.
    pub(crate) fn at(&self, index: usize) -> &ScoredValue<V>
        requires { index < index_map_len self.now.members }
        ensures there { slice_get (values self.now.members) index ≡ Some result.now }
        ensures held { get (entries_map self.now) (member_of self.now index)
            ≡ Some (shown result.now) }
    {
        let (_, held) = self.members.get_index(index).unwrap();
        held
    }

    /// Gives the member at an index another score and value, and answers the value that it had.
    pub(crate) fn replace(&mut self, index: usize, score: i128, value: V) -> V
        requires whole { IsWhole self.old }
        requires within { index < index_map_len self.old.members }
        ensures given { option_map (λ e. e.1)
            (get (entries_map self.old) (member_of self.old index)) ≡ Some result }
        ensures held { entries_map self.new
            ≡ insert (entries_map self.old) (member_of self.old index) (score, value) }
        ensures members { keys self.new.members ≡ keys self.old.members }
        ensures room { room_of self.new ≡ room_of self.old }
        ensures still_whole { IsWhole self.new }
    {
        let position = self.positions[index];
        let given = exchange(&mut self.members, index, score, value);
        self.slots[position] = Slot {
            near: near(score),
            index,
        };
        self.settle(position);
        given
    }

    /// Makes room for so many members more.
    pub(crate) fn reserve(&mut self, additional: usize) -> Result<(), AllocError>
        ensures slots { self.new.slots.items ≡ self.old.slots.items }
        ensures positions { self.new.positions.items ≡ self.old.positions.items }
        ensures members { self.new.members.entries ≡ self.old.members.entries }
        ensures more { room_of self.old ≤ room_of self.new }
        ensures room { OnOk result (additional ≤ room_of self.new) }
    {
        self.slots.reserve(additional)?;
        self.positions.reserve(additional)?;
        self.members.reserve(additional)
    }

    /// Gives half of the room back where three quarters of it are free and it is not small. A list
    /// for which the smaller memory is refused stays as large.
    pub(crate) fn shrink(&mut self)
        ensures slots { self.new.slots.items ≡ self.old.slots.items }
        ensures positions { self.new.positions.items ≡ self.old.positions.items }
        ensures members { self.new.members.entries ≡ self.old.members.entries }
    {
        let room = self.slots.capacity();
        if room > SMALL && self.slots.len() <= room / 4 {
            self.slots.shrink_to(room / 2);
            self.positions.shrink_to(room / 2);
            self.members.shrink_to(room / 2);
        }
    }

    /// Adds a member that is not there, in room that is there.
    pub(crate) fn add(&mut self, member: Name, score: i128, value: V)
        requires whole { IsWhole self.old }
        requires absent { get (entries_map self.old) member ≡ None }
        requires room { 0 < room_of self.old }
        ensures held { entries_map self.new ≡ insert (entries_map self.old) member (score, value) }
        ensures places { keys self.new.members ≡ keys self.old.members ++ member ∷ [] }
        ensures less_room { room_of self.old ≤ room_of self.new + 1 }
        ensures still_whole { IsWhole self.new }
    {
        let last = self.slots.len();
        let _ = self.members.insert(member, ScoredValue { score, value });
        self.positions.push_reserved(last);
        self.slots.push_reserved(Slot {
            near: near(score),
            index: last,
        });
        self.settle(last);
    }

    /// Takes the member at an index out, and answers what was held of it.
    pub(crate) fn take_out(&mut self, index: usize) -> ScoredValue<V>
        requires whole { IsWhole self.old }
        requires within { index < index_map_len self.old.members }
        ensures given { get (entries_map self.old) (member_of self.old index)
            ≡ Some (shown result) }
        ensures held { entries_map self.new
            ≡ remove (entries_map self.old) (member_of self.old index) }
        ensures places { keys self.new.members ≡ swap_remove (keys self.old.members) index [] }
        ensures more { room_of self.old ≤ room_of self.new }
        ensures still_whole { IsWhole self.new }
    {
        let position = self.positions[index];
        self.move_last(position);
        let given = self.drop_last().unwrap();
        self.settle(position);
        given
    }

    /// Exchanges a place with the last.
    fn move_last(&mut self, place: usize)
        requires linked { IsLinkedHeap self.old }
        requires within { place < length self.old.slots.items }
        ensures moves { OnlyMoves self.old self.new }
        ensures last { slice_get self.new.slots.items (length self.old.slots.items - 1)
            ≡ slice_get self.old.slots.items place }
        ensures others { (m : ℕ) → (d : Scored) → m ≢ place → m < length self.old.slots.items - 1 →
            slice_index_or (queue_of self.new) m d ≡ slice_index_or (queue_of self.old) m d }
    {
        let last = self.slots.len() - 1;
        if place != last {
            self.swap(place, last);
        }
    }

    /// Takes the last place out of the heap, and its member out of the map; answers what was held
    /// of it.
    fn drop_last(&mut self) -> Option<ScoredValue<V>>
        requires linked { IsLinkedHeap self.old }
        requires occupied { 0 < length self.old.slots.items }
        ensures still_linked { IsLinkedHeap self.new }
        ensures len { length self.new.slots.items + 1 ≡ length self.old.slots.items }
        ensures others { (m : ℕ) → (d : Scored) → m < length self.new.slots.items →
            slice_index_or (queue_of self.new) m d ≡ slice_index_or (queue_of self.old) m d }
        ensures there { IsSome result }
        ensures given { (s : Slot) →
            slice_get self.old.slots.items (length self.old.slots.items - 1) ≡ Some s →
            option_map shown result ≡ get (entries_map self.old) (member_of self.old s.index) }
        ensures held { (s : Slot) → slice_get self.old.slots.items (length self.old.slots.items - 1)
            ≡ Some s →
            entries_map self.new ≡ remove (entries_map self.old) (member_of self.old s.index) }
        ensures places { (s : Slot) →
            slice_get self.old.slots.items (length self.old.slots.items - 1) ≡ Some s →
            keys self.new.members ≡ swap_remove (keys self.old.members) s.index [] }
        ensures more { room_of self.old ≤ room_of self.new }
    {
        let last = self.members.len() - 1;
        let Slot { index, .. } = self.slots.pop()?;
        let (_, held) = self.members.swap_remove_index(index)?;
        self.positions.swap_remove(index);
        if index < last {
            let moved = self.positions[index];
            self.slots[moved].index = index;
        }
        Some(held)
    }
}
