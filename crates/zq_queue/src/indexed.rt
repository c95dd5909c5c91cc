//! `Indexed`.

ghost use Rattle.std.specs.Prelude.{IfOk, IfSome, IsTrue, List, None, OnErr, OnOk, Some, [], is_some, length, map, option_map, slice_get, swap_remove, ◌++◌, ◌<◌, ◌^◌, ◌∷◌, ◌≡◌, ◌↔◌, ℕ};
ghost use Rattle.std.specs.FinMap.{contains_key, empty, get, insert, len as map_len, remove};
ghost use Rattle.zq_posheap.specs.Listing.{IsListing};
ghost use Rattle.zq_posheap.specs.Members.{AreInRange, AreListed, HasPlace, IsPlaceOf};

use crate::index::{index_of, with_pair, with_score, without_place};
use std::alloc::{AllocError, Global};
use std::marker::Model;
use zq_entry::Entry;
use zq_posheap::{Pairs, Place, PosHeap, Seeded};
use zq_ranked::Ranked;

/// Members with scores and entries, and an ordered index of them from the call on that makes it.
/// Changes keep the index. Where its growth is refused it goes, and readings in order look at all
/// members again.
#[derive(Drop)]
pub struct Indexed {
    pub(crate) members: PosHeap<Entry>,
    pub(crate) index: Option<Box<Ranked>>,
}

impl Model for Indexed {
    ghost use Rattle.zq_model.specs.Codes.{entry_code};
    ghost use Rattle.zq_model.specs.Image.{Entry as ModelEntry};
    ghost use Rattle.zq_posheap.specs.Members.{AreInRange, Members, members_code, scores_of};

    ghost Value = { Members ModelEntry };

    ghost coded = { members_code entry_code };

    ghost use Rattle.zq_queue.specs.Indexed.{IsIndexOf};

    ghost view = { λ a. a.members };

    ghost invariant = { λ a. IsIndexOf (scores_of a.members.held) a.index
        × AreInRange a.members.held };
}

impl Indexed {
    /// No members, which this hasher will place.
    pub fn with_hasher(alloc: Global, hasher: Seeded) -> Indexed
        ensures held { result.held ≡ empty }
        ensures places { result.places ≡ [] }
    {
        Indexed {
            members: PosHeap::with_hasher(alloc, hasher),
            index: None,
        }
    }

    /// Makes an index where there is none, unless memory is refused, and unless there are no more
    /// members than so many.
    pub fn index(&mut self, alloc: Global, most: usize)
        ensures { self.new ≡ self.old }
    {
        if self.index.is_none() && self.members.len() > most {
            self.index = index_of(alloc, &self.members);
        }
    }

    /// Whether there is an index.
    pub fn has_index(&self) -> bool {
        self.index.is_some()
    }

    /// How many members there are.
    pub fn len(&self) -> usize
        ensures number { result ≡ map_len self.now.held }
        ensures places { result ≡ length self.now.places }
        ensures small { result < 2 ^ 63 }
        ensures listed { AreListed self.now }
    {
        self.members.len()
    }

    /// All scores with their members and entries, by their places.
    pub fn iter(&self) -> Pairs<'_, Entry>
        ensures lists { IsListing self.now.held result }
        ensures places { map (λ row. row.1) result ≡ self.now.places }
        ensures in_range { AreInRange self.now.held }
    {
        self.members.iter()
    }

    /// The score and the entry of a member.
    pub fn get(&self, member: &[u8]) -> Option<(i128, &Entry)>
        ensures got { option_map (λ e. (e.0, e.1.now)) result ≡ get self.now.held member.now }
        ensures in_range { AreInRange self.now.held }
    {
        self.members.get(member)
    }

    /// Where a member is, for the calls that follow.
    pub fn find(&self, member: &[u8]) -> Option<Place>
        ensures there { is_some result ≡ contains_key self.now.held member.now }
        ensures place { IfSome result (IsPlaceOf self.now member.now) }
        ensures has_place { IfSome result (HasPlace self.now) }
    {
        self.members.find(member)
    }

    /// The score and the entry of the member at a place.
    pub fn at(&self, place: Place) -> (i128, &Entry)
        requires { HasPlace self.now place }
        ensures { (member : List ℕ) → IsPlaceOf self.now member place →
            get self.now.held member ≡ Some (result.0, result.1.now) }
    {
        self.members.at(place)
    }

    /// The member of this number among the places, with its entry.
    pub fn nth(&self, number: usize) -> Option<(&[u8], &Entry)>
        ensures member { option_map (λ row. row.0.now) result ≡ slice_get self.now.places number }
        ensures entry { IfSome result (λ row. option_map (λ e. e.1)
            (get self.now.held row.0.now) ≡ Some row.1.now) }
    {
        self.members.nth(number)
    }

    /// Makes room for so many members more.
    pub fn reserve(&mut self, additional: usize) -> Result<(), AllocError>
        ensures held { self.new.held ≡ self.old.held }
        ensures places { self.new.places ≡ self.old.places }
    {
        self.members.reserve(additional)
    }

    /// Gives memory back where most of the room for members is free.
    pub fn shrink(&mut self)
        ensures held { self.new.held ≡ self.old.held }
        ensures places { self.new.places ≡ self.old.places }
    {
        self.members.shrink();
    }

    /// Gives the member at its place another score and entry, and answers the entry that it had.
    #[inline(always)]
    pub fn replace_at(&mut self, member: &[u8], place: Place, score: i128, entry: Entry) -> Entry
        requires has { HasPlace self.old place }
        requires place { IsPlaceOf self.old member.now place }
        ensures given { option_map (λ e. e.1) (get self.old.held member.now) ≡ Some result }
        ensures held { self.new.held ≡ insert self.old.held member.now (score, entry) }
        ensures places { self.new.places ≡ self.old.places }
    {
        self.index = with_score(self.index.take(), &self.members, member, place, score);
        self.members.replace_at(place, score, entry)
    }

    /// Takes the member at its place out, and answers its entry. No place is good any more.
    pub fn remove_at(&mut self, member: &[u8], place: Place) -> Entry
        requires has { HasPlace self.old place }
        requires place { IsPlaceOf self.old member.now place }
        ensures given { option_map (λ e. e.1) (get self.old.held member.now) ≡ Some result }
        ensures held { self.new.held ≡ remove self.old.held member.now }
        ensures places { self.new.places ≡ swap_remove self.old.places place.index [] }
    {
        self.index = without_place(self.index.take(), &self.members, member, place);
        let (_, entry) = self.members.remove_at(place);
        entry
    }

    /// Adds a member that is not there. Where memory is refused nothing changes.
    pub fn insert(&mut self, member: &[u8], score: i128, entry: Entry) -> Result<(), AllocError>
        requires { get self.old.held member.now ≡ None }
        ensures done { OnOk result
            (self.new.held ≡ insert self.old.held member.now (score, entry)) }
        ensures places { OnOk result (self.new.places ≡ self.old.places ++ member.now ∷ []) }
        ensures unchanged { OnErr result (self.new.held ≡ self.old.held) }
        ensures same_places { OnErr result (self.new.places ≡ self.old.places) }
    {
        self.members.insert(member, score, entry)?;
        self.index = with_pair(self.index.take(), score, member);
        Ok(())
    }
}
