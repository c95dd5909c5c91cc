//! Version vectors.

ghost use Rattle.std.specs.Prelude.{◌≡◌, ◌≤◌, ◌+◌, ◌↔◌, ℕ, IsTrue, IfOk, IsErr, slice_index, slice_set};
ghost use Rattle.zq_model.specs.Operation.{has};
ghost use Rattle.zq_model.specs.Sets.{LAST, by_site, covers};
ghost use Rattle.zq_model.specs.Image.{join_vector};

use crate::dot::Dot;
use crate::site_no::{SITES, SiteNo};
use std::marker::Model;

/// The last counter: 2 to the 48th, less 1.
pub const LAST_COUNTER: u64 = 281_474_976_710_655;

/// The site has no further counter in this heap.
#[derive(Clone, Copy, Debug, PartialEq, Eq)]
pub struct Worn;

/// A version vector: for each site, how many of its operations in a heap are known. A dot is in it
/// where its counter is at least 1 and at most the site's.
#[derive(Clone, Copy, Debug, PartialEq, Eq)]
pub struct Vector {
    counters: [u64; SITES],
}

impl Model for Vector {
    ghost use Rattle.std.specs.Prelude.{List, ℕ};
    ghost use Rattle.zq_model.specs.Sets.{IsCounters};

    ghost Value = { List ℕ };

    ghost view = { λ v. v.counters };

    ghost invariant = { λ v. IsCounters v.counters };

    ghost inverse = { λ counters. record { counters = counters } };
}

impl Vector {
    /// Knows no operation.
    pub fn new() -> Vector
        ensures { result ≡ by_site (λ _. 0) }
    {
        Vector {
            counters: [0; SITES],
        }
    }

    /// How many of the site's operations it knows, at most the last counter.
    pub fn get(&self, site: SiteNo) -> u64
        ensures counter { result ≡ slice_index self.now site }
        ensures bounded { result ≤ LAST }
    {
        self.counters[site.value() as usize]
    }

    /// Sets the counter of one site.
    pub fn set(&mut self, site: SiteNo, n: u64)
        requires { n ≤ LAST }
        ensures { self.new ≡ slice_set self.old site n }
    {
        self.counters[site.value() as usize] = n;
    }

    /// Comes to know all that the other knows.
    pub fn join_with(&mut self, other: &Vector)
        ensures { self.new ≡ join_vector self.old other.now }
    {
        for site in 0..SITES {
            self.counters[site] = self.counters[site].max(other.counters[site]);
        }
    }

    /// Whether it knows all that the other knows.
    pub fn covers(&self, other: &Vector) -> bool
        ensures value { result ≡ covers self.now other.now }
        ensures each { IsTrue result
            ↔ ((t : ℕ) → slice_index other.now t ≤ slice_index self.now t) }
    {
        for site in 0..SITES {
            if self.counters[site] < other.counters[site] {
                return false;
            }
        }
        true
    }

    /// Whether it knows the operation of this dot.
    pub fn has(&self, dot: Dot) -> bool
        ensures { result ≡ has self.now dot.site dot.n }
    {
        0 < dot.n && dot.n <= self.get(dot.site)
    }

    /// The site's next dot, and `Worn` exactly where it knows the last.
    #[tactic(auto, unfolding(zq_model::specs::Sets::LAST))]
    pub fn next(&self, site: SiteNo) -> Result<Dot, Worn>
        ensures dot { IfOk result (λ d. (d.site ≡ site) × (d.n ≡ slice_index self.now site + 1)) }
        ensures bounded { IfOk result (λ d. d.n ≤ LAST) }
        ensures worn { IsErr result ↔ (slice_index self.now site ≡ LAST) }
    {
        let n = self.get(site);
        if n < LAST_COUNTER {
            Ok(Dot { site, n: n + 1 })
        } else {
            Err(Worn)
        }
    }
}
