//! An addition that is lent, and what it is worth.

ghost use Rattle.std.specs.Prelude.{◌≡◌, ◌+◌, ◌*◌, ◌≤◌, ◌-◌, ◌↔◌, IfOk, IsTrue};
ghost use Rattle.zq_model.specs.Entry.{joined, sum_at};
ghost use Rattle.zq_model.specs.Operation.{IsWithin, MOST};
ghost use Rattle.zq_model.specs.Score.{value_of};
ghost use Rattle.zq_model.specs.Sets as sets;
ghost use Rattle.zq_entry.specs.Changes.{bumped_placed};
ghost use Rattle.zq_entry.specs.Lent.{lent};
ghost use Rattle.zq_entry.specs.Sums.{AreSums, MOST_SUM};

use crate::addition::Addition;
use crate::lent_sums::LentSums;
use crate::sums::{Sums, bumped_sums, joined_sums, total};
use std::alloc::{AllocError, Global};
use zq_dots::{Dot, Score, Vector};

/// An addition that an entry lends.
#[derive(Drop)]
pub struct AdditionRef<'a> {
    /// The dot of the Put.
    pub dot: Dot,
    /// The score of the Put.
    pub score: Score,
    /// The sums that are not 0, by rising site. The amount of each is at most 9007199254740992
    /// times 281474976710655.
    pub sums: LentSums<'a>,
}

impl<'a> AdditionRef<'a> {
    /// The score and all the sums.
    pub(crate) fn value(&self) -> i128
        requires { AreSums self.now.sums }
        ensures value { result ≡ value_of (lent self.now).1 }
        ensures within { IsWithin (MOST + sets.SITES * MOST_SUM) result }
    {
        i128::from(self.score.value()) + total(self.sums.as_slice())
    }

    /// Whether this is the same addition.
    pub(crate) fn same(&self, other: &AdditionRef<'_>) -> bool
        requires mine { AreSums self.now.sums }
        requires theirs { AreSums other.now.sums }
        ensures { IsTrue result ↔ (lent self.now ≡ lent other.now) }
    {
        self.dot == other.dot
            && self.score == other.score
            && self.sums.as_slice() == other.sums.as_slice()
    }

    /// The same addition.
    pub(crate) fn copy(&self, alloc: Global) -> Result<Addition, AllocError>
        requires { AreSums self.now.sums }
        ensures { IfOk result (λ copy. copy ≡ lent self.now) }
    {
        let sums = Sums::from_slice(alloc, self.sums.as_slice())?;
        Ok(Addition::with_sums(self.dot, self.score, sums))
    }

    /// This addition after a Bump of its sums by this site, which has seen the vector.
    pub(crate) fn bumped(
        &self,
        alloc: Global,
        dot: Dot,
        increment: Score,
        seen: &Vector,
    ) -> Result<Addition, AllocError>
        requires kept { AreSums self.now.sums }
        requires counter { (1 ≤ dot.n) × (dot.n ≤ sets.LAST) }
        requires sums { IsWithin (MOST * (dot.n - 1)) (sum_at (lent self.now).1 dot.site) }
        ensures { IfOk result
            (λ new. new ≡ bumped_placed seen.now dot.site increment (lent self.now)) }
    {
        if !seen.has(self.dot) {
            return self.copy(alloc);
        }
        let sums = bumped_sums(alloc, self.sums.as_slice(), dot, increment)?;
        Ok(Addition::with_sums(self.dot, self.score, sums))
    }

    /// The addition that both sides have, with each site's sum from the side that knows more of the
    /// site.
    pub(crate) fn joined(
        &self,
        alloc: Global,
        mine: &Vector,
        other: &AdditionRef<'_>,
        theirs: &Vector,
    ) -> Result<Addition, AllocError>
        requires mine { AreSums self.now.sums }
        requires theirs { AreSums other.now.sums }
        ensures site { IfOk result (λ new. new.0 ≡ self.now.dot.site) }
        ensures addition { IfOk result
            (λ new. new.1 ≡ joined mine.now theirs.now (lent self.now).1 (lent other.now).1) }
    {
        let sums = joined_sums(
            alloc,
            mine,
            self.sums.as_slice(),
            theirs,
            other.sums.as_slice(),
        )?;
        Ok(Addition::with_sums(self.dot, self.score, sums))
    }
}
