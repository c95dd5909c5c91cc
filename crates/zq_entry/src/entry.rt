//! The live additions of a member, and what a Put, a Bump, a Drop and a merge make of them.

ghost use Rattle.std.specs.Prelude.{◌≡◌, ◌+◌, ◌-◌, ◌*◌, ◌<◌, ◌≤◌, ◌++◌, ◌∷◌, ◌↔◌, [], ℕ, false, length, slice_index_or, IfOk, IfSome, IsTrue, OnErr, OnOk, is_none};
ghost use Rattle.zq_dots.specs.Rule.{rule_of};
ghost use Rattle.zq_model.specs.Image as model;
ghost use Rattle.zq_model.specs.Operation.{Bump, Drop as ActDrop, IsWithin, MOST, Put};
ghost use Rattle.zq_model.specs.Score.{preferred_if, score_of};
ghost use Rattle.zq_model.specs.Sets as sets;
ghost use Rattle.zq_entry.specs.Lent.{lent};
ghost use Rattle.zq_entry.specs.Placed.{dense_entry, placed_of};
ghost use Rattle.zq_model.specs.Rows.{OfSite};
ghost use Rattle.zq_model.specs.Sparse.{AreBySite};
ghost use Rattle.zq_entry.specs.Sums.{AreSums, MOST_SUM};
ghost use Rattle.zq_entry.specs.Within.{AreSumsWithin};

use crate::addition::Addition;
use crate::addition_ref::AdditionRef;
use crate::additions::Additions;
use crate::merge::merged;
use std::alloc::{AllocError, Global};
use std::marker::Model;
use zq_dots::{Dot, Rule, Score, Vector};

/// The live additions of a member, at most one for each site. An entry without additions takes no
/// memory of its own, and neither does one of a single addition that has no sum, or one sum that an
/// `i64` holds.
#[derive(Debug, Drop)]
pub struct Entry {
    additions: Additions,
}

impl Model for Entry {
    ghost use Rattle.std.specs.Prelude.{List, Option};
    ghost use Rattle.zq_model.specs.Entry.{Addition as ModelAddition};
    ghost use Rattle.zq_model.specs.Sets.{SITES};
    ghost use Rattle.zq_entry.specs.Placed.{dense_entry};
    ghost use Rattle.zq_model.specs.Sparse.{AreBySite};

    ghost Value = { List (Option ModelAddition) };

    ghost view = { λ entry. dense_entry entry.additions };

    ghost invariant = { λ entry. AreBySite 0 SITES entry.additions };
}

impl Entry {
    /// No additions.
    pub fn new() -> Entry
        ensures { result ≡ model.no_additions }
    {
        Entry {
            additions: Additions::new(),
        }
    }

    /// Whether there is no addition.
    pub fn is_bare(&self) -> bool
        ensures { result ≡ model.is_bare self.now }
    {
        self.additions.len() == 0
    }

    /// Takes a Put: its addition is the site's, and the others that it had seen go.
    ///
    /// A site's Put has seen the site's earlier ones, so the one that it replaces had been seen.
    /// Where no other addition stays, it takes no memory. Where there is no memory for the
    /// addition, nothing changes.
    pub fn put(
        &mut self,
        alloc: Global,
        dot: Dot,
        score: Score,
        seen: &Vector,
    ) -> Result<(), AllocError>
        ensures put { OnOk result
            (self.new ≡ model.entry_after (Put score) dot.site dot.n seen.now self.old) }
        ensures stands { OnOk result (model.is_bare self.new ≡ false) }
        ensures refused { OnErr result (self.new ≡ self.old) }
    {
        if self.additions.all_go(&dot, seen) {
            self.additions = Additions::of(dot, score);
            return Ok(());
        }
        self.additions.put(alloc, &dot, score, seen)
    }

    /// Takes a Bump: each addition that it had seen has the increment in its sum of the Bump's
    /// site. A sum that comes to 0 is not kept.
    ///
    /// The site has made no more Bumps than counters below this one, so the amount of its sums is
    /// at most the greatest increment times those. Where there is no memory, nothing changes.
    pub fn bump(
        &mut self,
        alloc: Global,
        dot: Dot,
        increment: Score,
        seen: &Vector,
    ) -> Result<(), AllocError>
        requires counter { (1 ≤ dot.n) × (dot.n ≤ sets.LAST) }
        requires sums { AreSumsWithin dot.site (MOST * (dot.n - 1)) self.old }
        ensures bumped { OnOk result
            (self.new ≡ model.entry_after (Bump increment) dot.site dot.n seen.now self.old) }
        ensures refused { OnErr result (self.new ≡ self.old) }
    {
        if self.additions.len() == 1 {
            return self.additions.bump_only(alloc, dot, increment, seen);
        }
        let mut bumped = Additions::new();
        for place in 0..self.additions.len() {
            let addition = self.additions.at(place);
            bumped.push(alloc, addition.bumped(alloc, dot, increment, seen)?)?;
        }
        self.additions = bumped;
        Ok(())
    }

    /// Takes a Drop: the additions that it had seen go, and no others. Its dot adds none.
    pub fn drop_seen(&mut self, _dot: Dot, seen: &Vector)
        ensures { (site n : ℕ) → self.new ≡ model.entry_after ActDrop site n seen.now self.old }
    {
        self.additions.drop_seen(seen);
    }

    /// What the two sides have together, each with the vector of what it has seen. An addition that
    /// both have stands, with each site's sum from the side that has seen more of the site; one
    /// that only one side has stands where the other has not seen it.
    pub fn merge(
        &self,
        alloc: Global,
        mine: &Vector,
        other: &Entry,
        theirs: &Vector,
    ) -> Result<Entry, AllocError>
        ensures { IfOk result
            (λ merged. merged ≡ model.join_entry mine.now theirs.now self.now other.now) }
    {
        Ok(Entry {
            additions: merged(alloc, mine, &self.additions, theirs, &other.additions)?,
        })
    }

    /// The preferred of the additions' values by the rule, and `None` where there is no addition. A
    /// value is the addition's score and all its sums.
    #[inline(always)]
    pub fn score(&self, rule: Rule) -> Option<i128>
        ensures preferred { result ≡ score_of (rule_of rule) self.now }
        ensures none { is_none result ≡ model.is_bare self.now }
        ensures within { IfSome result (IsWithin (MOST + sets.SITES * MOST_SUM)) }
    {
        let mut best = None;
        for place in 0..self.additions.len() {
            best = Some(preferred(rule, best, self.additions.value_at(place)));
        }
        best
    }

    /// Whether this is the same entry: the same additions at the same sites.
    pub fn same(&self, other: &Entry) -> bool
        ensures { IsTrue result ↔ (self.now ≡ other.now) }
    {
        if self.additions.len() != other.additions.len() {
            return false;
        }
        for place in 0..self.additions.len() {
            if !self.additions.at(place).same(&other.additions.at(place)) {
                return false;
            }
        }
        true
    }

    /// The same entry, or an error where there is no memory for it.
    pub fn copy(&self, alloc: Global) -> Result<Entry, AllocError>
        ensures { IfOk result (λ copy. copy ≡ self.now) }
    {
        let mut additions = Additions::new();
        for place in 0..self.additions.len() {
            additions.push(alloc, self.additions.at(place).copy(alloc)?)?;
        }
        Ok(Entry { additions })
    }

    /// The number of additions.
    pub fn len(&self) -> usize
        ensures { result ≡ length (placed_of self.now) }
    {
        self.additions.len()
    }

    /// The addition at this place, by rising site.
    pub fn at(&self, place: usize) -> AdditionRef<'_>
        requires { place < length (placed_of self.now) }
        ensures addition { (d : OfSite) →
            lent result ≡ slice_index_or (placed_of self.now) place d }
        ensures sums { AreSums result.sums }
    {
        self.additions.at(place)
    }

    /// Copies of the additions, by rising site.
    pub fn additions(&self, alloc: Global) -> Result<Vec<Addition>, AllocError>
        ensures { IfOk result (λ list. list.items ≡ placed_of self.now) }
    {
        let mut additions = Vec::with_capacity(alloc, self.additions.len())?;
        for place in 0..self.additions.len() {
            additions.push(self.additions.at(place).copy(alloc)?)?;
        }
        Ok(additions)
    }

    /// Moves an addition in, of a site above those of all that stand. The first, where it has no
    /// sum, or one that an `i64` holds, takes no memory. Where there is no memory for it, nothing
    /// changes.
    pub fn append(&mut self, alloc: Global, addition: Addition) -> Result<(), AllocError>
        requires { AreBySite 0 sets.SITES (placed_of self.old ++ addition ∷ []) }
        ensures appended { OnOk result (placed_of self.new ≡ placed_of self.old ++ addition ∷ []) }
        ensures refused { OnErr result (self.new ≡ self.old) }
    {
        self.additions.push(alloc, addition)
    }

    /// The entry of copies of these additions, by rising site, at most one for each.
    pub fn of_additions(alloc: Global, additions: &[Addition]) -> Result<Entry, AllocError>
        requires { AreBySite 0 sets.SITES additions.now }
        ensures { IfOk result (λ entry. entry ≡ dense_entry additions.now) }
    {
        let mut copies = Additions::new();
        for addition in additions {
            copies.push(alloc, addition.lend().copy(alloc)?)?;
        }
        Ok(Entry { additions: copies })
    }
}

/// The preferred of two values, where there are two.
fn preferred(rule: Rule, best: Option<i128>, value: i128) -> i128
    ensures { result ≡ preferred_if (rule_of rule) value best }
{
    match (rule, best) {
        (_, None) => value,
        (Rule::High, Some(best)) => value.max(best),
        (Rule::Low, Some(best)) => value.min(best),
    }
}
