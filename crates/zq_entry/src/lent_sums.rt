//! Sums that are lent.

ghost use Rattle.std.specs.Int.NonZero.{non_zero_i64_get};
ghost use Rattle.std.specs.Prelude.{◌≡◌, ◌∷◌, []};
ghost use Rattle.zq_entry.specs.Sums.{AreSums};

use std::marker::Model;
use std::num::NonZeroI64;
use zq_dots::SiteNo;

/// Where sums that are lent lie.
#[derive(Drop)]
enum Source<'a> {
    /// In memory that is lent.
    Lent(&'a [(SiteNo, i128)]),
    /// One alone, here.
    Own([(SiteNo, i128); 1]),
}

/// The sums of an addition that is lent.
#[derive(Drop)]
pub struct LentSums<'a> {
    source: Source<'a>,
}

impl<'a> Model for LentSums<'a> {
    ghost use Rattle.std.specs.Prelude.{List, ℕ, ℤ};
    ghost use Rattle.zq_entry.specs.LentSums.{source_sums};

    ghost Value = { List (ℕ × ℤ) };

    ghost view = { λ sums. source_sums sums.source };
}

impl<'a> LentSums<'a> {
    /// These sums.
    pub(crate) fn of(sums: &'a [(SiteNo, i128)]) -> LentSums<'a>
        ensures { result ≡ sums.now }
    {
        LentSums {
            source: Source::Lent(sums),
        }
    }

    /// This sum of a site alone.
    pub(crate) fn one(site: SiteNo, sum: NonZeroI64) -> LentSums<'a>
        ensures same { result ≡ (site, non_zero_i64_get sum) ∷ [] }
        ensures sums { AreSums result }
    {
        LentSums {
            source: Source::Own([(site, i128::from(sum.get()))]),
        }
    }

    /// The sums that are not 0, by rising site.
    pub fn as_slice(&self) -> &[(SiteNo, i128)]
        ensures { result.now ≡ self.now }
    {
        match &self.source {
            Source::Lent(sums) => sums,
            Source::Own(sums) => sums,
        }
    }
}
