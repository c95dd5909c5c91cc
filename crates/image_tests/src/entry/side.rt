//! A member at one side, as the tests play it.

ghost use Rattle.std.specs.Prelude.{◌≡◌, ◌≤◌, ◌+◌, IfSome, slice_index};
ghost use Rattle.zq_model.specs.Sets as sets;

use crate::deed::Deed;
use std::alloc::Global;
use std::marker::Model;
use zq_dots::{Dot, Score, SiteNo, Vector};
use zq_entry::Entry;

/// A member at one side, with the vector of what the side has seen.
#[derive(Drop)]
pub struct Side {
    entry: Entry,
    seen: Vector,
}

impl Model for Side {
    ghost use Rattle.std.specs.Prelude.{List, Option, ℕ, length, ◌≡◌};
    ghost use Rattle.zq_model.specs.Entry.{Addition as ModelAddition};
    ghost use Rattle.zq_model.specs.Sets.{SITES};
    ghost use Rattle.zq_entry.specs.Within.{IsEntryWithin};

    ghost Value = { List (Option ModelAddition) × List ℕ };

    ghost view = { λ side. (side.entry, side.seen) };

    ghost invariant = { λ side. (length side.seen ≡ SITES) × IsEntryWithin side.seen side.entry };
}

/// The site's next dot.
fn next(seen: &Vector, site: SiteNo) -> Option<Dot>
    ensures dot { IfSome result (λ d. (d.site ≡ site) × (d.n ≡ slice_index seen.now site + 1)
        × (d.n ≤ sets.LAST)) }
{
    seen.next(site).ok()
}

impl Side {
    pub fn new() -> Side {
        Side {
            entry: Entry::new(),
            seen: Vector::new(),
        }
    }

    pub fn entry(&self) -> &Entry {
        &self.entry
    }

    /// Whether an operation of the site could be made.
    pub fn does(&mut self, alloc: Global, site: SiteNo, deed: Deed) -> bool {
        match deed {
            Deed::Put(value) => match Score::new(value) {
                Some(score) => self.put(alloc, site, score).is_some(),
                None => false,
            },
            Deed::Bump(value) => match Score::new(value) {
                Some(increment) => self.bump(alloc, site, increment).is_some(),
                None => false,
            },
            Deed::Drop => self.drop_seen(site).is_some(),
        }
    }

    fn put(&mut self, alloc: Global, site: SiteNo, score: Score) -> Option<()> {
        let dot = next(&self.seen, site)?;
        let n = dot.n;
        let Ok(()) = self.entry.put(alloc, dot, score, &self.seen) else {
            return None;
        };
        self.seen.set(site, n);
        Some(())
    }

    fn bump(&mut self, alloc: Global, site: SiteNo, increment: Score) -> Option<()> {
        let dot = next(&self.seen, site)?;
        let n = dot.n;
        let Ok(()) = self.entry.bump(alloc, dot, increment, &self.seen) else {
            return None;
        };
        self.seen.set(site, n);
        Some(())
    }

    fn drop_seen(&mut self, site: SiteNo) -> Option<()> {
        let dot = next(&self.seen, site)?;
        let n = dot.n;
        self.entry.drop_seen(dot, &self.seen);
        self.seen.set(site, n);
        Some(())
    }

    /// The side that has what both have, and `None` where memory is short.
    pub fn merge(&self, alloc: Global, other: &Side) -> Option<Side> {
        let (mine, theirs) = (&self.entry, &other.entry);
        let Ok(entry) = mine.merge(alloc, &self.seen, theirs, &other.seen) else {
            return None;
        };
        let mut seen = self.seen;
        seen.join_with(&other.seen);
        Some(Side { entry, seen })
    }
}
