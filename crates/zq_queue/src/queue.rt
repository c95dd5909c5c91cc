//! `Queue`.

ghost use Rattle.std.specs.Prelude.{IfSome, IsTrue, Some, [], false, length, option_map, slice_get, ◌<◌, ◌^◌, ◌↔◌, ◌≡◌};
ghost use Rattle.std.specs.FinMap as map;
ghost use Rattle.zq_dots.specs.Rule.{rule_of};
ghost use Rattle.zq_model.specs.Image.{is_bare};
ghost use Rattle.zq_model.specs.Score.{score_of};
ghost use Rattle.zq_queue.specs.Entries.{NoneIsBare, entry_in};
ghost use Rattle.zq_queue.specs.Listed.{listed};
ghost use Rattle.zq_queue.specs.Sinks.{AreListed};

use crate::members::Members;
use std::alloc::Global;
use std::marker::Model;
use zq_dots::Rule;
use zq_entry::Entry;
use zq_posheap::Seeded;

/// The members of one key with their entries, and their scores by one rule. A member without
/// additions does not stand.
#[derive(Drop)]
pub struct Queue {
    pub(crate) members: Members,
}

// One of them stands for each key.
const _: () = prove!(size_of::<Queue>() == 48);

impl Model for Queue {
    ghost use Rattle.zq_queue.specs.Queued.{Queued, queued_code};

    ghost Value = { Queued };

    ghost coded = { queued_code };

    ghost view = { λ q. record {
      rule = q.members.rule;
      entries = q.members.entries;
      places = q.members.places;
    } };
}

impl Queue {
    /// No members, which this hasher will place.
    pub fn new(alloc: Global, rule: Rule, hasher: Seeded) -> Queue
        ensures rule { result.rule ≡ rule_of rule }
        ensures entries { result.entries ≡ map.empty }
        ensures places { result.places ≡ [] }
    {
        Queue {
            members: Members::new(alloc, rule, hasher),
        }
    }

    /// No members, with this queue's rule and hasher.
    pub(crate) fn without_members(&self, alloc: Global) -> Queue
        ensures rule { result.rule ≡ self.now.rule }
        ensures entries { result.entries ≡ map.empty }
        ensures places { result.places ≡ [] }
    {
        Queue {
            members: self.members.without_members(alloc),
        }
    }

    /// Which of the values of a member's additions is its score.
    pub fn rule(&self) -> Rule
        ensures { rule_of result ≡ self.now.rule }
    {
        self.members.rule()
    }

    /// The number of members.
    pub fn len(&self) -> usize
        ensures number { result ≡ map.len self.now.entries }
        ensures queue { result ≡ length (listed self.now.rule self.now.entries) }
        ensures places { result ≡ length self.now.places }
        ensures small { result < 2 ^ 63 }
        ensures kept { NoneIsBare self.now.entries }
        ensures listed { AreListed self.now }
    {
        self.members.len()
    }

    /// Whether it has no members.
    pub fn is_empty(&self) -> bool
        ensures empty { IsTrue result ↔ (self.now.entries ≡ map.empty) }
        ensures listed { AreListed self.now }
    {
        self.members.is_empty()
    }

    /// The member's entry, and `None` where it does not stand.
    pub fn entry(&self, member: &[u8]) -> Option<&Entry>
        ensures entry { option_map (λ e. e.now) result ≡ map.get self.now.entries member.now }
        ensures kept { IfSome result (λ e. is_bare e.now ≡ false) }
    {
        let place = self.members.find(member)?;
        Some(self.members.at(place))
    }

    /// The member of this number among the places, which count from 0, with its entry. A member is
    /// added behind all others, a change keeps its place, and where one is taken out the last one
    /// comes to its place: so a walk from the last place to the first misses none that stays. A
    /// merge makes other places.
    pub fn nth(&self, number: usize) -> Option<(&[u8], &Entry)>
        ensures member { option_map (λ row. row.0.now) result ≡ slice_get self.now.places number }
        ensures entry { IfSome result
            (λ row. map.get self.now.entries row.0.now ≡ Some row.1.now) }
    {
        self.members.nth(number)
    }

    /// The member's score, and `None` where it does not stand.
    pub fn score(&self, member: &[u8]) -> Option<i128>
        ensures { result ≡ score_of self.now.rule (entry_in self.now.entries member.now) }
    {
        self.members.score(member)
    }

    /// Takes the small form where few members are left in the large one.
    pub(crate) fn settle(&mut self)
        ensures { self.new ≡ self.old }
    {
        self.members.settle();
    }
}
