//! One live addition of a member.

ghost use Rattle.std.specs.Int.NonZero.{non_zero_i64_get};
ghost use Rattle.std.specs.Prelude.{◌≡◌, ◌<◌, ◌∷◌, [], IfSome};
ghost use Rattle.zq_model.specs.Sets as sets;
ghost use Rattle.zq_entry.specs.Lent.{lent};
ghost use Rattle.zq_entry.specs.Placed.{addition_of_put, placed_from};
ghost use Rattle.zq_entry.specs.Sums.{AreSums};

use crate::addition_ref::AdditionRef;
use crate::lent_sums::LentSums;
use crate::sums::Sums;
use std::marker::Model;
use std::num::NonZeroI64;
use zq_dots::{Dot, Score, SiteNo};

/// A live Put of a member: its dot, its score, and for each site the sum of the increments of that
/// site's Bumps that have seen it.
#[derive(Debug, Drop)]
pub struct Addition {
    dot: Dot,
    score: Score,
    sums: Sums,
}

// The site, and what the model keeps in the site's place.
impl Model for Addition {
    ghost use Rattle.zq_entry.specs.Lent.{lent};
    ghost use Rattle.zq_model.specs.Rows.{OfSite};

    ghost Value = { OfSite };

    ghost view = { λ a. (a.dot.site, record { n = a.dot.n; score = a.score; sums = a.sums }) };
}

impl Addition {
    /// The addition of these parts. The sums are by rising site, none is 0, and the amount of each
    /// is at most 9007199254740992 times 281474976710655.
    pub fn of(dot: Dot, score: Score, sums: Vec<(SiteNo, i128)>) -> Addition
        requires { AreSums sums.items }
        ensures parts { result ≡ placed_from dot.site dot.n score sums.items }
        ensures site { result.0 < sets.SITES }
    {
        Addition::with_sums(dot, score, Sums::of(sums))
    }

    /// The addition of these parts.
    pub(crate) fn with_sums(dot: Dot, score: Score, sums: Sums) -> Addition
        ensures { result ≡ (dot.site, record { n = dot.n; score = score; sums = sums }) }
    {
        Addition { dot, score, sums }
    }

    /// The addition of this dot and this score, with this sum of a site.
    pub(crate) fn with_sum(dot: Dot, score: Score, site: SiteNo, sum: NonZeroI64) -> Addition
        ensures { result ≡ placed_from dot.site dot.n score ((site, non_zero_i64_get sum) ∷ []) }
    {
        Addition::with_sums(dot, score, Sums::one(site, sum))
    }

    /// The dot of the Put.
    pub fn dot(&self) -> Dot
        ensures site { result.site ≡ self.now.0 }
        ensures counter { result.n ≡ self.now.1.n }
    {
        self.dot
    }

    /// Its dot and its score, where all its sums are 0.
    pub(crate) fn bare(&self) -> Option<(Dot, Score)>
        ensures { IfSome result
            (λ parts. self.now ≡ (parts.0.site, addition_of_put parts.0.n parts.1)) }
    {
        if self.sums.as_slice().is_empty() {
            Some((self.dot, self.score))
        } else {
            None
        }
    }

    /// Its dot, its score and its sum with the sum's site, where it has one sum and an `i64` holds
    /// that.
    pub(crate) fn summed(&self) -> Option<(Dot, Score, SiteNo, NonZeroI64)>
        ensures { IfSome result
            (λ parts. self.now ≡ placed_from parts.0.site parts.0.n parts.1
            ((parts.2, non_zero_i64_get parts.3) ∷ [])) }
    {
        let (site, sum) = self.sums.only()?;
        Some((self.dot, self.score, site, sum))
    }

    /// Lends its parts.
    pub fn lend(&self) -> AdditionRef<'_>
        ensures same { lent result ≡ self.now }
        ensures sums { AreSums result.sums }
    {
        AdditionRef {
            dot: self.dot,
            score: self.score,
            sums: LentSums::of(self.sums.as_slice()),
        }
    }
}
