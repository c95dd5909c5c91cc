//! Where the additions of an entry lie in memory.

ghost use Rattle.std.specs.Prelude.{◌≡◌, ◌++◌, ◌∷◌, [], IfOk, IfSome, OnErr, OnOk, length};
ghost use Rattle.std.specs.List.{filter, list_all};
ghost use Rattle.zq_entry.specs.Changes.{goes, is_unseen, stays};
ghost use Rattle.zq_entry.specs.Storage.{IsMany, listed};
ghost use Rattle.zq_entry.specs.Sparse.{placed};

use crate::addition::Addition;
use crate::places;
use std::alloc::{AllocError, Global};
use std::num::NonZeroI64;
use zq_dots::{Dot, Score, SiteNo, Vector};

/// Additions. A single one that has no sum, or one sum that an `i64` holds, takes no memory of its
/// own. Nearly all members have such a one.
#[derive(Debug, Drop)]
pub enum Storage {
    /// No addition.
    Nothing,
    /// One addition, whose sums are all 0.
    One(Dot, Score),
    /// One addition, of the dot of `site` and `n`, whose sums are all 0 but that of the site `by`.
    /// The parts of the dot stand apart, so that the sites take the room beside the variant's tag.
    Summed {
        site: SiteNo,
        by: SiteNo,
        n: u64,
        score: Score,
        sum: NonZeroI64,
    },
    /// Any additions.
    Many(Vec<Addition>),
}

// Each member's entry is one of these: a variant for a single addition is not to make it larger.
const _: () = prove!(size_of::<Storage>() == 32);

impl Storage {
    /// This addition by itself, where it takes no memory of its own.
    pub fn alone(addition: &Addition) -> Option<Storage>
        ensures { IfSome result (λ held. listed held ≡ addition.now ∷ []) }
    {
        if let Some((dot, score)) = addition.bare() {
            return Some(Storage::One(dot, score));
        }
        let (Dot { site, n }, score, by, sum) = addition.summed()?;
        Some(Storage::Summed {
            site,
            by,
            n,
            score,
            sum,
        })
    }

    /// This addition in memory of its own, with room for one beside it.
    fn wide(alloc: Global, addition: Addition) -> Result<Storage, AllocError>
        ensures many { IfOk result IsMany }
        ensures listed { IfOk result (λ held. listed held ≡ addition ∷ []) }
    {
        let mut list = Vec::with_capacity(alloc, 2)?;
        list.push(addition)?;
        Ok(Storage::Many(list))
    }

    /// Moves the additions to memory of their own, where another one may go beside them.
    pub fn widen(&mut self, alloc: Global) -> Result<(), AllocError>
        ensures many { OnOk result (IsMany self.new) }
        ensures listed { listed self.new ≡ listed self.old }
    {
        match self {
            Storage::Nothing => *self = Storage::Many(Vec::with_capacity(alloc, 1)?),
            Storage::One(dot, score) => {
                *self = Storage::wide(alloc, Addition::of(*dot, *score, Vec::new(alloc)))?;
            }
            Storage::Summed {
                site,
                by,
                n,
                score,
                sum,
            } => {
                let dot = Dot { site: *site, n: *n };
                *self = Storage::wide(alloc, Addition::with_sum(dot, *score, *by, *sum))?;
            }
            Storage::Many(_) => {}
        }
        Ok(())
    }

    /// Puts an addition at the end.
    pub fn push(&mut self, addition: Addition) -> Result<(), AllocError>
        requires { IsMany self.old }
        ensures pushed { OnOk result (listed self.new ≡ listed self.old ++ addition ∷ []) }
        ensures refused { OnErr result (listed self.new ≡ listed self.old) }
    {
        match self {
            Storage::Many(list) => Ok(list.push(addition)?),
            _ => unreachable!(),
        }
    }

    /// Puts this in the place of the only one. It takes memory where that took none and this has
    /// more than one sum, or one that an `i64` does not hold.
    pub fn set_only(&mut self, alloc: Global, addition: Addition) -> Result<(), AllocError>
        requires { length (listed self.old) ≡ 1 }
        ensures set { OnOk result (listed self.new ≡ addition ∷ []) }
        ensures refused { OnErr result (listed self.new ≡ listed self.old) }
    {
        if let Some(held) = Storage::alone(&addition) {
            *self = held;
            return Ok(());
        }
        match self {
            Storage::Many(list) => list[0] = addition,
            _ => {
                let mut list = Vec::with_capacity(alloc, 1)?;
                list.push_reserved(addition);
                *self = Storage::Many(list);
            }
        }
        Ok(())
    }

    /// Makes this the addition of its site.
    pub fn place(&mut self, addition: Addition) -> Result<(), AllocError>
        requires { IsMany self.old }
        ensures many { OnOk result (IsMany self.new) }
        ensures placed { OnOk result
            (listed self.new ≡ placed addition.0 addition.1 (listed self.old)) }
        ensures refused { OnErr result (listed self.new ≡ listed self.old) }
    {
        match self {
            Storage::Many(list) => places::place(list, addition),
            _ => unreachable!(),
        }
    }

    /// Whether a Put with this dot that has seen this vector takes all of them away.
    pub fn all_go(&self, dot: &Dot, seen: &Vector) -> bool
        ensures { result ≡ list_all (goes dot.now.site seen.now) (listed self.now) }
    {
        match self {
            Storage::Nothing => true,
            Storage::One(live, _) => live.site == dot.site || seen.has(*live),
            Storage::Summed { site, n, .. } => {
                *site == dot.site || seen.has(Dot { site: *site, n: *n })
            }
            Storage::Many(list) => list
                .iter()
                .all(|live| live.dot().site == dot.site || seen.has(live.dot())),
        }
    }

    /// Leaves the additions that the vector has not seen.
    pub fn retain_unseen(&mut self, seen: &Vector)
        ensures { listed self.new ≡ filter (is_unseen seen.now) (listed self.old) }
    {
        match self {
            Storage::Nothing => {}
            Storage::One(dot, _) => {
                if seen.has(*dot) {
                    *self = Storage::Nothing;
                }
            }
            Storage::Summed { site, n, .. } => {
                if seen.has(Dot { site: *site, n: *n }) {
                    *self = Storage::Nothing;
                }
            }
            Storage::Many(list) => list.retain(|addition| !seen.has(addition.dot())),
        }
    }

    /// Leaves the addition of this dot's site and those that the vector has not seen.
    pub fn retain_beside(&mut self, dot: &Dot, seen: &Vector)
        requires { IsMany self.old }
        ensures { listed self.new ≡ filter (stays dot.now.site seen.now) (listed self.old) }
    {
        match self {
            Storage::Many(list) => {
                list.retain(|live| live.dot().site == dot.site || !seen.has(live.dot()));
            }
            _ => unreachable!(),
        }
    }
}
