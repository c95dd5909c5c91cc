//! Lists of additions by rising site, and the changes that an entry makes to them.

ghost use Rattle.std.specs.Prelude.{◌≡◌, ◌≤◌, ◌<◌, ◌+◌, ◌*◌, ◌-◌, ◌^◌, ◌++◌, ◌∷◌, [], IfSome, OnErr, OnOk, OnSome, drop, length, map, option_map, slice_index_or};
ghost use Rattle.std.specs.List.{filter, list_all};
ghost use Rattle.zq_entry.specs.Changes.{bumped_placed, goes, is_unseen, stays};
ghost use Rattle.zq_entry.specs.Lent.{lent};
ghost use Rattle.zq_entry.specs.Placed.{addition_of_put};
ghost use Rattle.zq_model.specs.Entry.{sum_at};
ghost use Rattle.zq_model.specs.Operation.{IsWithin, MOST};
ghost use Rattle.zq_model.specs.Rows.{OfSite};
ghost use Rattle.zq_model.specs.Score.{value_of};
ghost use Rattle.zq_model.specs.Sets as sets;
ghost use Rattle.zq_entry.specs.Sparse.{first_at, head_of, placed};
ghost use Rattle.zq_entry.specs.Sums.{AreSums, MOST_SUM};

use crate::addition::Addition;
use crate::addition_ref::AdditionRef;
use crate::lent_sums::LentSums;
use crate::storage::Storage;
use std::alloc::{AllocError, Global};
use std::marker::Model;
use zq_dots::{Dot, Score, SiteNo, Vector};

/// A list of additions.
#[derive(Debug, Drop)]
pub struct Additions {
    held: Storage,
}

impl Model for Additions {
    ghost use Rattle.std.specs.Prelude.{List};
    ghost use Rattle.zq_model.specs.Rows.{OfSite};

    ghost Value = { List OfSite };

    ghost use Rattle.zq_entry.specs.Storage.{listed};

    ghost view = { λ a. listed a.held };
}

impl Additions {
    /// None.
    pub fn new() -> Additions
        ensures { result ≡ [] }
    {
        Additions {
            held: Storage::Nothing,
        }
    }

    /// One, without sums. It takes no memory.
    pub fn of(dot: Dot, score: Score) -> Additions
        ensures { result ≡ (dot.site, addition_of_put dot.n score) ∷ [] }
    {
        Additions {
            held: Storage::One(dot, score),
        }
    }

    /// How many there are.
    pub fn len(&self) -> usize
        ensures { result ≡ length self.now }
    {
        match &self.held {
            Storage::Nothing => 0,
            Storage::One(..) | Storage::Summed { .. } => 1,
            Storage::Many(list) => list.len(),
        }
    }

    /// The one at this place.
    pub fn at(&self, place: usize) -> AdditionRef<'_>
        requires { place < length self.now }
        ensures addition { (d : OfSite) → lent result ≡ slice_index_or self.now place d }
        ensures sums { AreSums result.sums }
    {
        match &self.held {
            Storage::Nothing => unreachable!(),
            Storage::One(dot, score) => AdditionRef {
                dot: *dot,
                score: *score,
                sums: LentSums::of(&[]),
            },
            Storage::Summed {
                site,
                by,
                n,
                score,
                sum,
            } => AdditionRef {
                dot: Dot { site: *site, n: *n },
                score: *score,
                sums: LentSums::one(*by, *sum),
            },
            Storage::Many(list) => list[place].lend(),
        }
    }

    /// What the one at this place is worth: its score and all its sums.
    pub fn value_at(&self, place: usize) -> i128
        requires { place < length self.now }
        ensures value { (d : OfSite) → result ≡ value_of (slice_index_or self.now place d).1 }
        ensures within { IsWithin (MOST + sets.SITES * MOST_SUM) result }
    {
        match &self.held {
            Storage::One(_, score) => i128::from(score.value()),
            _ => self.at(place).value(),
        }
    }

    /// The site of the one at this place, if there is one.
    pub fn site_at(&self, place: usize) -> Option<SiteNo>
        ensures { result ≡ head_of (drop place self.now) }
    {
        if place < self.len() {
            Some(self.at(place).dot.site)
        } else {
            None
        }
    }

    /// The one at this place, where it is this site's.
    pub fn get(&self, place: usize, site: SiteNo) -> Option<AdditionRef<'_>>
        ensures first { option_map (λ a. (lent a).1) result ≡ first_at site (drop place self.now) }
        ensures site { IfSome result (λ a. a.dot.site ≡ site) }
        ensures sums { IfSome result (λ a. AreSums a.sums) }
        ensures inside { OnSome result ((place < length self.now) × (length self.now < 2 ^ 64)) }
    {
        if place < self.len() {
            let addition = self.at(place);
            if addition.dot.site == site {
                return Some(addition);
            }
        }
        None
    }

    /// Puts one at the end. The first, where it has no sum, or one that an `i64` holds, takes no
    /// memory.
    pub fn push(&mut self, alloc: Global, addition: Addition) -> Result<(), AllocError>
        ensures pushed { OnOk result (self.new ≡ self.old ++ addition ∷ []) }
        ensures refused { OnErr result (self.new ≡ self.old) }
    {
        if let (Storage::Nothing, Some(held)) = (&self.held, Storage::alone(&addition)) {
            self.held = held;
            return Ok(());
        }
        self.held.widen(alloc)?;
        self.held.push(addition)
    }

    /// Takes a Bump where there is one alone.
    pub fn bump_only(
        &mut self,
        alloc: Global,
        dot: Dot,
        increment: Score,
        seen: &Vector,
    ) -> Result<(), AllocError>
        requires only { length self.old ≡ 1 }
        requires counter { (1 ≤ dot.n) × (dot.n ≤ sets.LAST) }
        requires sums { (d : OfSite) →
            IsWithin (MOST * (dot.n - 1)) (sum_at (slice_index_or self.old 0 d).1 dot.site) }
        ensures bumped { OnOk result
            (self.new ≡ map (bumped_placed seen.now dot.site increment) self.old) }
        ensures refused { OnErr result (self.new ≡ self.old) }
    {
        let addition = self.at(0).bumped(alloc, dot, increment, seen)?;
        self.held.set_only(alloc, addition)
    }

    /// Whether a Put with this dot that has seen this vector takes all of them away.
    pub fn all_go(&self, dot: &Dot, seen: &Vector) -> bool
        ensures { result ≡ list_all (goes dot.now.site seen.now) self.now }
    {
        self.held.all_go(dot, seen)
    }

    /// Takes a Put: its addition is the site's, and the others that it had seen go.
    pub fn put(
        &mut self,
        alloc: Global,
        dot: &Dot,
        score: Score,
        seen: &Vector,
    ) -> Result<(), AllocError>
        ensures put { OnOk result
            (self.new ≡ filter (stays dot.now.site seen.now)
            (placed dot.now.site (addition_of_put dot.now.n score) self.old)) }
        ensures refused { OnErr result (self.new ≡ self.old) }
    {
        self.held.widen(alloc)?;
        self.held.place(Addition::of(*dot, score, Vec::new(alloc)))?;
        self.held.retain_beside(dot, seen);
        Ok(())
    }

    /// Leaves those that the vector has not seen.
    pub fn drop_seen(&mut self, seen: &Vector)
        ensures { self.new ≡ filter (is_unseen seen.now) self.old }
    {
        self.held.retain_unseen(seen);
    }
}
