//! The numbers of sites.

ghost use Rattle.std.specs.Prelude.{◌≡◌, ◌<◌, SomeIff};
ghost use Rattle.zq_model.specs.Sets as sets;

use std::marker::Model;

/// The number of sites.
pub const SITES: usize = 64;

/// The number of a site, from 0 up to below [`SITES`].
#[derive(Clone, Copy, Debug, PartialEq, Eq)]
pub struct SiteNo {
    number: u8,
}

impl Model for SiteNo {
    ghost use Rattle.std.specs.Prelude.{ℕ, ◌<◌};
    ghost use Rattle.zq_model.specs.Sets.{SITES};

    ghost Value = { ℕ };

    ghost view = { λ s. s.number };

    ghost invariant = { λ s. s.number < SITES };

    ghost inverse = { λ n. record { number = n } };
}

impl SiteNo {
    /// The site of this number, and `None` where it is not below [`SITES`].
    #[tactic(auto, unfolding(zq_model::specs::Sets::SITES))]
    pub fn new(number: u8) -> Option<SiteNo>
        ensures { SomeIff result (number < sets.SITES) number }
    {
        if (number as usize) < SITES {
            Some(SiteNo { number })
        } else {
            None
        }
    }

    /// Its number, below [`SITES`].
    pub fn value(self) -> u8
        ensures same { result ≡ self }
        ensures below { result < sets.SITES }
    {
        self.number
    }
}
