//! `PosHeap`.
ghost use Rattle.std.specs.Prelude.{List, None, Some, IfErr, IfNone, IfOk, IfSome, IsNone, IsTrue, OnErr, OnOk, [], if◌then◌else◌, is_some, length, option_map, slice_get, swap_remove, ◌+◌, ◌++◌, ◌<◌, ◌≤◌, ◌^◌, ◌∷◌, ◌≡◌, ◌↔◌, ℕ};
ghost use Rattle.std.specs.FinMap.{contains_key, empty, get, insert, len as map_len, remove};
ghost use Rattle.zq_posheap.specs.First.{IsFirst};
ghost use Rattle.zq_posheap.specs.InOrder.{ListsInOrder};
ghost use Rattle.zq_posheap.specs.Listing.{lent_pair};
ghost use Rattle.zq_posheap.specs.Members.{AreListed, HasPlace, IsPlaceOf, IsTakenFrom, scores_of};
ghost use Rattle.zq_posheap.specs.Order.{Scored};

use crate::guess::Guess;
use crate::heap::Heap;
use crate::name::Name;
use crate::place::Place;
use crate::seeded::Seeded;
use indexmap::IndexMap;
use std::alloc::{AllocError, AllocFailed, Global};
use std::marker::Model;

/// Members with scores and values, of which the first is at hand: the one of the least score, and
/// among equal scores the one whose bytes come first.
#[derive(Drop)]
pub struct PosHeap<V> {
    pub(crate) heap: Heap<V>,
    guess: Guess,
}

impl<V> Model for PosHeap<V> {
    ghost use Rattle.zq_posheap.specs.Members.{Members, members_code};

    ghost Value = { Members V };

    ghost coded = { members_code V.code };

    ghost use Rattle.indexmap.specs.IndexMap.{keys};
    ghost use Rattle.zq_posheap.specs.Members.{AreInRange};
    ghost use Rattle.zq_posheap.specs.Moves.{room_of};
    ghost use Rattle.zq_posheap.specs.Whole.{IsWhole, entries_map};

    ghost view = { λ a. record { held = entries_map a.heap; places = keys a.heap.members; room = room_of a.heap } };

    ghost invariant = { λ a. IsWhole a.heap × AreInRange (entries_map a.heap) };
}

impl<V: Drop> PosHeap<V> {
    /// No members, hashed from a fixed seed. Where strangers choose the members, take `with_hasher`
    /// and a seed that they do not know.
    pub fn new(alloc: Global) -> Self
        ensures held { result.held ≡ empty }
        ensures places { result.places ≡ [] }
    {
        PosHeap::with_hasher(alloc, Seeded::new(0))
    }

    /// No members, which this hasher will place.
    pub fn with_hasher(alloc: Global, hasher: Seeded) -> Self
        ensures held { result.held ≡ empty }
        ensures places { result.places ≡ [] }
    {
        PosHeap {
            heap: Heap {
                slots: Vec::new(alloc),
                positions: Vec::new(alloc),
                members: IndexMap::with_hasher(alloc, hasher),
            },
            guess: Guess::new(),
        }
    }

    /// How many members there are.
    pub fn len(&self) -> usize
        ensures number { result ≡ map_len self.now.held }
        ensures places { result ≡ length self.now.places }
        ensures small { result < 2 ^ 63 }
        ensures listed { AreListed self.now }
    {
        self.heap.members.len()
    }

    /// Whether there are none.
    pub fn is_empty(&self) -> bool
        ensures { IsTrue result ↔ (map_len self.now.held ≡ 0) }
    {
        self.len() == 0
    }

    /// The score and the value of a member.
    pub fn get(&self, member: &[u8]) -> Option<(i128, &V)>
        ensures { option_map (λ e. (e.0, e.1.now)) result ≡ get self.now.held member.now }
    {
        let place = self.find(member)?;
        Some(self.at(place))
    }

    /// The score of a member.
    pub fn score(&self, member: &[u8]) -> Option<i128>
        ensures { result ≡ option_map (λ e. e.0) (get self.now.held member.now) }
    {
        let (score, _) = self.get(member)?;
        Some(score)
    }

    /// The first score and its member: the head of `in_order`, at hand with no sort.
    pub fn top(&self) -> Option<(i128, &[u8])>
        ensures none { IsNone result ↔ (self.now.held ≡ empty) }
        ensures first { IfSome result (λ pair. IsFirst (scores_of self.now.held) (lent_pair pair)) }
        ensures head { (pairs : List Scored) → ListsInOrder (scores_of self.now.held) pairs →
            slice_get pairs 0 ≡ option_map lent_pair result }
    {
        self.begin_at_first();
        self.heap.first()
    }

    /// Begins the next look-up at the first member: what is read at the head is often taken out.
    fn begin_at_first(&self) {
        if let Some(first) = self.heap.slots.first() {
            self.guess.note(first.index);
        }
    }

    /// Where a member is, for the calls that follow: the one look-up of a call that reads what is
    /// there and changes it.
    #[inline(always)]
    pub fn find(&self, member: &[u8]) -> Option<Place>
        ensures there { is_some result ≡ contains_key self.now.held member.now }
        ensures place { IfSome result (IsPlaceOf self.now member.now) }
        ensures has_place { IfSome result (HasPlace self.now) }
    {
        let index = self.guess.find(&self.heap.members, member)?;
        Some(Place { index })
    }

    /// The score and the value of the member at a place.
    pub fn at(&self, place: Place) -> (i128, &V)
        requires { HasPlace self.now place }
        ensures { (member : List ℕ) → IsPlaceOf self.now member place →
            get self.now.held member ≡ Some (result.0, result.1.now) }
    {
        let held = self.heap.at(place.index);
        (held.score, &held.value)
    }

    /// The member of this number among the places, which count from 0, with its value. A member is
    /// added behind all others, and where one is taken out the last one comes to its place: so a
    /// walk from the last place to the first misses none that stays.
    pub fn nth(&self, number: usize) -> Option<(&[u8], &V)>
        ensures member { option_map (λ row. row.0.now) result ≡ slice_get self.now.places number }
        ensures value { IfSome result (λ row. option_map (λ e. e.1)
            (get self.now.held row.0.now) ≡ Some row.1.now) }
    {
        let (member, held) = self.heap.members.get_index(number)?;
        Some((member.as_slice(), &held.value))
    }

    /// Gives the member at a place another score and value, and answers the value that it had.
    /// Places stay good.
    pub fn replace_at(&mut self, place: Place, score: i128, value: V) -> V
        requires { HasPlace self.old place }
        ensures given { (member : List ℕ) → IsPlaceOf self.old member place →
            option_map (λ e. e.1) (get self.old.held member) ≡ Some result }
        ensures held { (member : List ℕ) → IsPlaceOf self.old member place →
            self.new.held ≡ insert self.old.held member (score, value) }
        ensures places { self.new.places ≡ self.old.places }
        ensures room { self.new.room ≡ self.old.room }
    {
        self.heap.replace(place.index, score, value)
    }

    /// Takes the member at a place out, and answers its score and value. The last one comes to that
    /// place, so no place is good any more.
    pub fn remove_at(&mut self, place: Place) -> (i128, V)
        requires { HasPlace self.old place }
        ensures given { (member : List ℕ) → IsPlaceOf self.old member place →
            get self.old.held member ≡ Some result }
        ensures held { (member : List ℕ) → IsPlaceOf self.old member place →
            self.new.held ≡ remove self.old.held member }
        ensures places { self.new.places ≡ swap_remove self.old.places place.index [] }
        ensures room { self.old.room ≤ self.new.room }
    {
        let held = self.heap.take_out(place.index);
        (held.score, held.value)
    }

    /// Makes room for so many members more, so that as many can be added with no memory but their
    /// own bytes.
    pub fn reserve(&mut self, additional: usize) -> Result<(), AllocError>
        ensures held { self.new.held ≡ self.old.held }
        ensures places { self.new.places ≡ self.old.places }
        ensures more { self.old.room ≤ self.new.room }
        ensures room { OnOk result (additional ≤ self.new.room) }
    {
        self.heap.reserve(additional)
    }

    /// Gives memory back where most of the room is free. It is never refused.
    pub fn shrink(&mut self)
        ensures held { self.new.held ≡ self.old.held }
        ensures places { self.new.places ≡ self.old.places }
    {
        self.heap.shrink();
    }

    /// Adds a member that is not there behind all others, in room that was made. It is never
    /// refused.
    pub fn insert_reserved(&mut self, member: Vec<u8>, score: i128, value: V)
        requires absent { get self.old.held member.items ≡ None }
        requires room { 0 < self.old.room }
        ensures held { self.new.held ≡ insert self.old.held member.items (score, value) }
        ensures places { self.new.places ≡ self.old.places ++ member.items ∷ [] }
        ensures less_room { self.old.room ≤ self.new.room + 1 }
    {
        self.heap.add(Name::of(member), score, value);
    }

    /// Adds a member that is not there behind all others, with a copy of its bytes. Where memory is
    /// refused nothing changes, and the value comes back.
    pub fn insert(&mut self, member: &[u8], score: i128, value: V) -> Result<(), AllocFailed<V>>
        requires { get self.old.held member.now ≡ None }
        ensures done { OnOk result
            (self.new.held ≡ insert self.old.held member.now (score, value)) }
        ensures added { OnOk result (self.new.places ≡ self.old.places ++ member.now ∷ []) }
        ensures unchanged { OnErr result (self.new.held ≡ self.old.held) }
        ensures places { OnErr result (self.new.places ≡ self.old.places) }
        ensures value { IfErr result (λ refused. refused.value ≡ value) }
    {
        match self.copied(member) {
            Ok(member) => {
                self.heap.add(member, score, value);
                Ok(())
            }
            Err(_) => Err(AllocFailed { value }),
        }
    }

    /// A copy of a member's bytes, with room for one member more.
    fn copied(&mut self, member: &[u8]) -> Result<Name, AllocError>
        ensures held { self.new.held ≡ self.old.held }
        ensures places { self.new.places ≡ self.old.places }
        ensures room { OnOk result (0 < self.new.room) }
        ensures bytes { IfOk result (λ copy. copy ≡ member.now) }
    {
        self.heap.reserve(1)?;
        Name::copied(*self.heap.slots.allocator(), member)
    }

    /// Gives a member a score and a value, whether it was there or not, and answers the value that
    /// it had. Where memory is refused, which is only for a member that was not there, nothing
    /// changes, and the value comes back.
    pub fn set(&mut self, member: &[u8], score: i128, value: V) -> Result<Option<V>, AllocFailed<V>>
        ensures done { OnOk result
            (self.new.held ≡ insert self.old.held member.now (score, value)) }
        ensures given { IfOk result
            (λ given. given ≡ option_map (λ e. e.1) (get self.old.held member.now)) }
        ensures places { IfOk result
            (λ given. self.new.places ≡ if is_some given then self.old.places
            else self.old.places ++ member.now ∷ []) }
        ensures unchanged { OnErr result (self.new.held ≡ self.old.held) }
        ensures same_places { OnErr result (self.new.places ≡ self.old.places) }
        ensures absent { OnErr result (get self.old.held member.now ≡ None) }
        ensures value { IfErr result (λ refused. refused.value ≡ value) }
    {
        match self.find(member) {
            Some(place) => Ok(Some(self.replace_at(place, score, value))),
            None => {
                self.insert(member, score, value)?;
                Ok(None)
            }
        }
    }

    /// Takes a member out, and answers the score and the value that it had. The last one comes to
    /// its place.
    pub fn remove(&mut self, member: &[u8]) -> Option<(i128, V)>
        ensures given { result ≡ get self.old.held member.now }
        ensures rest { self.new.held ≡ remove self.old.held member.now }
        ensures places { IfSome result
            (λ _. IsTakenFrom self.old.places member.now self.new.places) }
        ensures same_places { IfNone result (self.new.places ≡ self.old.places) }
    {
        let place = self.find(member)?;
        Some(self.remove_at(place))
    }
}
