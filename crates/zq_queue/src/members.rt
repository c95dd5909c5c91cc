//! `Members`.

ghost use Rattle.std.specs.Prelude.{FitsSigned, IfOk, IfSome, IsTrue, List, None, OnErr, OnOk, Some, [], count_by, if◌then◌else◌, is_some, length, map, option_map, slice_get, swap_remove, take, ◌++◌, ◌<◌, ◌^◌, ◌∷◌, ◌≡◌, ◌↔◌, ℕ};
ghost use Rattle.std.specs.FinMap as finite;
ghost use Rattle.std.specs.Int.{w128};
ghost use Rattle.std.specs.Ordering.{int_cmp, is_le, is_lt};
ghost use Rattle.zq_dots.specs.Rule.{rule_of};
ghost use Rattle.zq_model.specs.Image.{is_bare};
ghost use Rattle.zq_model.specs.Meaning.{scored_cmp};
ghost use Rattle.zq_model.specs.Score.{score_of};
ghost use Rattle.zq_posheap.specs.Listing.{IsListing};
ghost use Rattle.zq_queue.specs.Entries.{NoneIsBare, entry_in, set_entry};
ghost use Rattle.zq_queue.specs.Kept.{AreSame, AreThere, IsAt, IsWithin};
ghost use Rattle.zq_queue.specs.Lent.{lent_pair};
ghost use Rattle.zq_queue.specs.Listed.{listed, part};
ghost use Rattle.zq_queue.specs.Place.{index_of};

use crate::each::{Each, Left};
use crate::few::{Member, find, nth, push};
use crate::forms::{large, small};
use crate::indexed::Indexed;
use crate::place::Place;
use crate::scanned;
use std::alloc::{AllocError, Global};
use std::marker::Model;
use std::mem::replace;
use zq_dots::Rule;
use zq_entry::Entry;
use zq_posheap::Seeded;

/// How many members of a key lie in a plain list.
pub(crate) const MOST_FEW: usize = 32;

/// To how many members the large form has to fall to become a list again.
const FEW_AGAIN: usize = MOST_FEW / 4;

/// How the members of a key lie in memory.
#[derive(Drop)]
pub(crate) enum Form {
    /// A list in the order in which they came. A removal moves the last one into the gap.
    Few(Vec<Member>),
    /// A table and a heap, in the same order.
    Many(Box<Indexed>),
}

/// Members with their entries, and their scores by one rule. Few lie in a list, and each look-up
/// scans it; of many there is a table and a heap. What is read does not tell the form.
#[derive(Drop)]
pub(crate) struct Members {
    rule: Rule,
    alloc: Global,
    hasher: Seeded,
    pub(crate) form: Form,
}

impl Model for Members {
    ghost use Rattle.zq_queue.specs.Kept.{Kept, kept_code};

    ghost Value = { Kept };

    ghost coded = { kept_code };

    ghost use Rattle.zq_dots.specs.Rule.{rule_of};
    ghost use Rattle.zq_queue.specs.Form.{IsFormOf, entries_in, is_many_in, places_in};

    ghost view = { λ m. record {
      rule = rule_of m.rule;
      entries = entries_in m.form;
      places = places_in m.form;
      many = is_many_in m.form;
    } };

    ghost invariant = { λ m. IsFormOf (rule_of m.rule) m.form };
}

impl Members {
    /// No members. This hasher will place them once they are many.
    pub(crate) fn new(alloc: Global, rule: Rule, hasher: Seeded) -> Members
        ensures rule { result.rule ≡ rule_of rule }
        ensures entries { result.entries ≡ finite.empty }
        ensures places { result.places ≡ [] }
    {
        Members {
            rule,
            alloc,
            hasher,
            form: Form::Few(Vec::new(alloc)),
        }
    }

    /// No members, with this one's rule and hasher.
    pub(crate) fn without_members(&self, alloc: Global) -> Members
        ensures rule { result.rule ≡ self.now.rule }
        ensures entries { result.entries ≡ finite.empty }
        ensures places { result.places ≡ [] }
    {
        Members::new(alloc, self.rule, self.hasher)
    }

    /// The rule of the scores.
    pub(crate) fn rule(&self) -> Rule
        ensures { rule_of result ≡ self.now.rule }
    {
        self.rule
    }

    /// How many members there are.
    pub(crate) fn len(&self) -> usize
        ensures number { result ≡ finite.len self.now.entries }
        ensures places { result ≡ length self.now.places }
        ensures small { result < 2 ^ 63 }
        ensures kept { NoneIsBare self.now.entries }
        ensures listed { AreThere self.now }
    {
        match &self.form {
            Form::Few(list) => list.len(),
            Form::Many(many) => many.len(),
        }
    }

    /// Whether there are none.
    pub(crate) fn is_empty(&self) -> bool
        ensures empty { IsTrue result ↔ (finite.len self.now.entries ≡ 0) }
        ensures listed { AreThere self.now }
    {
        self.len() == 0
    }

    /// All members with their entries, by their places.
    pub(crate) fn iter(&self) -> Each<'_>
        ensures lists { IsListing self.now.entries result }
        ensures places { map (λ row. row.1) result ≡ self.now.places }
    {
        match &self.form {
            Form::Few(list) => Each {
                left: Left::Few(list.as_slice()),
            },
            Form::Many(many) => Each {
                left: Left::Many(many.iter()),
            },
        }
    }

    /// Where a member is, for the calls that follow.
    #[inline(always)]
    pub(crate) fn find(&self, member: &[u8]) -> Option<Place>
        ensures there { is_some result ≡ finite.contains_key self.now.entries member.now }
        ensures place { IfSome result (IsAt self.now member.now) }
        ensures within { IfSome result (IsWithin self.now) }
        ensures kept { NoneIsBare self.now.entries }
    {
        match &self.form {
            Form::Few(list) => Some(Place::Few(find(list, member)?)),
            Form::Many(many) => Some(Place::Many(many.find(member)?)),
        }
    }

    /// The entry of the member at a place.
    pub(crate) fn at(&self, place: Place) -> &Entry
        requires { IsWithin self.now place }
        ensures { (member : List ℕ) → IsAt self.now member place →
            finite.get self.now.entries member ≡ Some result.now }
    {
        match &self.form {
            Form::Few(list) => &list[place.few()].entry,
            Form::Many(many) => many.at(place.many()).1,
        }
    }

    /// The member of this number among the places, with its entry.
    pub(crate) fn nth(&self, number: usize) -> Option<(&[u8], &Entry)>
        ensures member { option_map (λ row. row.0.now) result ≡ slice_get self.now.places number }
        ensures entry { IfSome result
            (λ row. finite.get self.now.entries row.0.now ≡ Some row.1.now) }
    {
        match &self.form {
            Form::Few(list) => nth(list, number),
            Form::Many(many) => many.nth(number),
        }
    }

    /// The score of a member.
    pub(crate) fn score(&self, member: &[u8]) -> Option<i128>
        ensures score { result ≡ score_of self.now.rule (entry_in self.now.entries member.now) }
        ensures fits { IfSome result (FitsSigned w128) }
        ensures kept { NoneIsBare self.now.entries }
    {
        match &self.form {
            Form::Few(list) => list[find(list, member)?].entry.score(self.rule),
            Form::Many(many) => Some(many.get(member)?.0),
        }
    }

    /// Makes room for so many members more.
    pub(crate) fn reserve(&mut self, additional: usize) -> Result<(), AllocError>
        ensures { AreSame self.old self.new }
    {
        match &mut self.form {
            Form::Few(list) => {
                if additional <= MOST_FEW - list.len() {
                    return list.reserve_exact(additional);
                }
                let many = large(self.alloc, list, self.rule, self.hasher, additional)?;
                self.form = Form::Many(many);
                Ok(())
            }
            Form::Many(many) => many.reserve(additional),
        }
    }

    /// Adds a member that is not there behind all others, unless its entry is bare. Where memory is
    /// refused nothing changes.
    pub(crate) fn add(&mut self, member: &[u8], entry: Entry) -> Result<(), AllocError>
        requires { finite.get self.old.entries member.now ≡ None }
        ensures rule { self.new.rule ≡ self.old.rule }
        ensures added { OnOk result
            (self.new.entries ≡ set_entry self.old.entries member.now entry) }
        ensures places { OnOk result (self.new.places
            ≡ if is_bare entry then self.old.places else self.old.places ++ member.now ∷ []) }
        ensures refused { OnErr result (self.new.entries ≡ self.old.entries) }
        ensures same_places { OnErr result (self.new.places ≡ self.old.places) }
    {
        let Some(score) = entry.score(self.rule) else {
            return Ok(());
        };
        match &mut self.form {
            Form::Few(list) => {
                if list.len() < MOST_FEW {
                    return push(self.alloc, list, member, entry);
                }
                let mut many = large(self.alloc, list, self.rule, self.hasher, 1)?;
                many.insert(member, score, entry)?;
                self.form = Form::Many(many);
                Ok(())
            }
            Form::Many(many) => many.insert(member, score, entry),
        }
    }

    /// Gives the member at a place another entry, or takes it out where that is bare, and answers
    /// the entry that it had. Where it is taken out, the last one comes to its place, and no place
    /// is good any more.
    #[inline(always)]
    pub(crate) fn exchange(&mut self, member: &[u8], place: Place, entry: Entry) -> Entry
        requires within { IsWithin self.old place }
        requires place { IsAt self.old member.now place }
        ensures rule { self.new.rule ≡ self.old.rule }
        ensures before { finite.get self.old.entries member.now ≡ Some result }
        ensures set { self.new.entries ≡ set_entry self.old.entries member.now entry }
        ensures places { self.new.places ≡ if is_bare entry then
            swap_remove self.old.places (index_of place) [] else self.old.places }
    {
        let Some(score) = entry.score(self.rule) else {
            return self.remove_at(member, place);
        };
        match &mut self.form {
            Form::Few(list) => replace(&mut list[place.few()].entry, entry),
            Form::Many(many) => many.replace_at(member, place.many(), score, entry),
        }
    }

    /// Takes the member at its place out, and answers its entry. The last one comes to its place, so
    /// no place is good any more.
    pub(crate) fn remove_at(&mut self, member: &[u8], place: Place) -> Entry
        requires within { IsWithin self.old place }
        requires place { IsAt self.old member.now place }
        ensures rule { self.new.rule ≡ self.old.rule }
        ensures before { finite.get self.old.entries member.now ≡ Some result }
        ensures rest { self.new.entries ≡ finite.remove self.old.entries member.now }
        ensures places { self.new.places ≡ swap_remove self.old.places (index_of place) [] }
    {
        match &mut self.form {
            Form::Few(list) => list.swap_remove(place.few()).entry,
            Form::Many(many) => {
                let entry = many.remove_at(member, place.many());
                many.shrink();
                self.settle();
                entry
            }
        }
    }

    /// Lays members that have become few into a list, unless memory is refused.
    pub(crate) fn settle(&mut self)
        ensures { AreSame self.old self.new }
    {
        if let Form::Many(many) = &self.form {
            if many.len() <= FEW_AGAIN {
                if let Ok(list) = small(self.alloc, many) {
                    self.form = Form::Few(list);
                }
            }
        }
    }

    /// Makes an index where there is none, unless memory is refused, and unless there are no more
    /// members than so many, or few.
    pub(crate) fn index(&mut self, alloc: Global, most: usize)
        ensures { AreSame self.old self.new }
    {
        if let Form::Many(many) = &mut self.form {
            many.index(alloc, most);
        }
    }

    /// Whether there is an index.
    pub(crate) fn has_index(&self) -> bool {
        match &self.form {
            Form::Few(_) => false,
            Form::Many(many) => many.has_index(),
        }
    }

    /// The first score and its member: the head of `in_order`.
    pub(crate) fn top(&self) -> Option<(i128, &[u8])>
        ensures { option_map lent_pair result
            ≡ slice_get (listed self.now.rule self.now.entries) 0 }
    {
        match &self.form {
            Form::Few(list) => scanned::top(list, self.rule),
            Form::Many(many) => many.top(),
        }
    }

    /// All scores with their members, by score and then by bytes.
    pub(crate) fn in_order(&self, alloc: Global) -> Result<Vec<(i128, &[u8])>, AllocError>
        ensures { IfOk result (λ pairs. map lent_pair pairs.items
            ≡ listed self.now.rule self.now.entries) }
    {
        match &self.form {
            Form::Few(list) => scanned::in_order(alloc, list, self.rule),
            Form::Many(many) => many.in_order(alloc),
        }
    }

    /// The first so many of `in_order`, or all where there are fewer.
    pub(crate) fn first(
        &self,
        alloc: Global,
        count: usize,
    ) -> Result<Vec<(i128, &[u8])>, AllocError>
        ensures { IfOk result (λ firsts. map lent_pair firsts.items
            ≡ take count (listed self.now.rule self.now.entries)) }
    {
        match &self.form {
            Form::Few(list) => scanned::first(alloc, list, self.rule, count),
            Form::Many(many) => many.first(alloc, count),
        }
    }

    /// What stands in `in_order` from the place `from` up to the place `to`, itself left out.
    pub(crate) fn slice(
        &self,
        alloc: Global,
        from: usize,
        to: usize,
    ) -> Result<Vec<(i128, &[u8])>, AllocError>
        ensures { IfOk result (λ slice. map lent_pair slice.items
            ≡ part from to (listed self.now.rule self.now.entries)) }
    {
        match &self.form {
            Form::Few(list) => scanned::slice(alloc, list, self.rule, from, to),
            Form::Many(many) => many.slice(alloc, from, to),
        }
    }

    /// How many pairs go before this score with these bytes.
    pub(crate) fn count_before(&self, score: i128, member: &[u8]) -> usize
        ensures { result ≡ count_by (λ pair. is_lt (scored_cmp pair (score, member.now)))
            (listed self.now.rule self.now.entries) }
    {
        match &self.form {
            Form::Few(list) => scanned::count_before(list, self.rule, score, member),
            Form::Many(many) => many.count_before(score, member),
        }
    }

    /// How many scores are below this one, or at it where `or_equal`.
    pub(crate) fn count_below(&self, score: i128, or_equal: bool) -> usize
        ensures { result ≡ count_by
            (λ pair. if or_equal then is_le (int_cmp pair.0 score) else is_lt
            (int_cmp pair.0 score)) (listed self.now.rule self.now.entries) }
    {
        match &self.form {
            Form::Few(list) => scanned::count_below(list, self.rule, score, or_equal),
            Form::Many(many) => many.count_below(score, or_equal),
        }
    }
}
