//! Sets of sites.

ghost use Rattle.std.specs.Int.{bit_at};
ghost use Rattle.std.specs.Prelude.{Bool, IsTrue, List, ℕ, false, length, ◌<◌, ◌↔◌, ◌≡◌};
ghost use Rattle.zq_follow.specs.SiteSet.{bit_of, has_site, lacks, no_sites, sites_of_bits, union, with_site, without_site};
ghost use Rattle.zq_model.specs.Sets as sets;

use std::marker::Model;
use zq_dots::{SITES, SiteNo};

/// A set of sites.
#[derive(Clone, Copy, Debug, PartialEq, Eq)]
pub struct SiteSet {
    held: [bool; SITES],
}

impl Model for SiteSet {
    ghost use Rattle.std.specs.Prelude.{Bool, List, length, ◌≡◌};
    ghost use Rattle.zq_model.specs.Sets.{SITES};

    ghost Value = { List Bool };

    ghost view = { λ s. s.held };

    ghost invariant = { λ s. length s.held ≡ SITES };

    ghost inverse = { λ held. record { held = held } };
}

impl SiteSet {
    /// No site.
    #[tactic(auto, unfolding(zq_model::specs::Sets::SITES))]
    pub fn empty() -> SiteSet
        ensures { result ≡ no_sites }
    {
        SiteSet {
            held: [false; SITES],
        }
    }

    /// The sites at whose numbers this holds.
    pub fn from_array(held: [bool; SITES]) -> SiteSet
        ensures { result ≡ held }
    {
        SiteSet { held }
    }

    /// The sites whose bits are set: bit 0 is the lowest.
    #[tactic(auto, unfolding(zq_model::specs::Sets::SITES))]
    pub fn from_bits(bits: u64) -> SiteSet
        ensures { result ≡ sites_of_bits bits }
    {
        let mut held = [false; SITES];
        for site in 0..SITES {
            held[site] = (bits >> site) & 1 == 1;
        }
        SiteSet { held }
    }

    /// A bit for each site, and that of the site 0 is the lowest: set where it is in the set.
    #[tactic(auto, unfolding(zq_model::specs::Sets::SITES))]
    pub fn bits(&self) -> u64
        ensures each { (o : ℕ) → o < sets.SITES → bit_at result o ≡ bit_of (has_site self.now o) }
        ensures back { sites_of_bits result ≡ self.now }
    {
        let mut bits = 0u64;
        for site in 0..SITES {
            if self.held[site] {
                bits |= 1 << site;
            }
        }
        bits
    }

    /// For each site whether it is in the set.
    pub fn as_array(&self) -> &[bool; SITES]
        ensures { result.now ≡ self.now }
    {
        &self.held
    }

    /// The set and this site.
    #[must_use]
    pub fn with(self, site: SiteNo) -> SiteSet
        ensures { result ≡ with_site site self }
    {
        let mut held = self.held;
        held[site.value() as usize] = true;
        SiteSet { held }
    }

    /// The set but for this site.
    #[must_use]
    pub fn without(self, site: SiteNo) -> SiteSet
        ensures { result ≡ without_site site self }
    {
        let mut held = self.held;
        held[site.value() as usize] = false;
        SiteSet { held }
    }

    /// Whether the site is in the set.
    pub fn has(&self, site: SiteNo) -> bool
        ensures { result ≡ has_site self.now site }
    {
        self.held[site.value() as usize]
    }

    /// The sites that are in either set.
    #[must_use]
    #[tactic(auto, unfolding(zq_model::specs::Sets::SITES))]
    pub fn union(&self, other: &SiteSet) -> SiteSet
        ensures { result ≡ union self.now other.now }
    {
        let mut held = [false; SITES];
        for site in 0..SITES {
            held[site] = self.held[site] || other.held[site];
        }
        SiteSet { held }
    }

    /// Whether the other has a site that this one has not.
    #[tactic(auto, unfolding(zq_model::specs::Sets::SITES))]
    pub fn lacks(&self, other: &SiteSet) -> bool
        ensures value { result ≡ lacks self.now other.now }
        ensures each { IsTrue result
            ↔ ((o : ℕ) × IsTrue (has_site other.now o) × (has_site self.now o ≡ false)) }
    {
        for site in 0..SITES {
            if other.held[site] && !self.held[site] {
                return true;
            }
        }
        false
    }

    /// Whether it has no site.
    #[tactic(auto, unfolding(zq_model::specs::Sets::SITES))]
    pub fn is_empty(&self) -> bool
        ensures { IsTrue result ↔ (self.now ≡ no_sites) }
    {
        for site in 0..SITES {
            if self.held[site] {
                return false;
            }
        }
        true
    }
}
