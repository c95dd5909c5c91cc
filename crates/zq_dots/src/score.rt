//! Scores and increments, with their range.

ghost use Rattle.std.specs.Prelude.{◌≡◌, SomeIff};
ghost use Rattle.zq_model.specs.Operation.{MOST, IsWithin};

use std::marker::Model;

/// The greatest amount of a score and of an increment: 2 to the 53rd.
pub const GREATEST: i64 = 9_007_199_254_740_992;

/// A score or an increment: a whole number of an amount of at most 9007199254740992.
#[derive(Clone, Copy, Debug, PartialEq, Eq)]
pub struct Score {
    number: i64,
}

impl Model for Score {
    ghost use Rattle.std.specs.Prelude.{ℤ};
    ghost use Rattle.zq_model.specs.Operation.{MOST, IsWithin};

    ghost Value = { ℤ };

    ghost view = { λ s. s.number };

    ghost invariant = { λ s. IsWithin MOST s.number };

    ghost inverse = { λ x. record { number = x } };
}

impl Score {
    /// The score of this value, and `None` where it is out of range.
    pub fn new(number: i64) -> Option<Score>
        ensures { SomeIff result (IsWithin MOST number) number }
    {
        if -GREATEST <= number && number <= GREATEST {
            Some(Score { number })
        } else {
            None
        }
    }

    /// Its value, in range.
    pub fn value(self) -> i64
        ensures same { result ≡ self }
        ensures within { IsWithin MOST result }
    {
        self.number
    }
}
