//! Whole numbers between two bounds.

ghost use Rattle.std.specs.Prelude.{◌≡◌, ◌≤◌};
ghost use Rattle.zq_settings.specs.Numbers.{within};

use std::marker::Model;

/// A whole number from `LEAST` to `MOST`, both included.
#[derive(Clone, Copy, Debug, PartialEq, Eq)]
pub struct Within<const LEAST: u64, const MOST: u64> {
    number: u64,
}

impl<const LEAST: u64, const MOST: u64> Model for Within<LEAST, MOST> {
    ghost use Rattle.std.specs.Prelude.{ℕ, ◌≤◌};

    ghost Value = { ℕ };

    ghost view = { λ w. w.number };

    ghost invariant = { λ w. (LEAST ≤ w.number) × (w.number ≤ MOST) };

    ghost inverse = { λ n. record { number = n } };
}

impl<const LEAST: u64, const MOST: u64> Within<LEAST, MOST> {
    /// This number, which is between the bounds.
    pub(crate) fn of(number: u64) -> Self
        requires { (LEAST ≤ number) × (number ≤ MOST) }
        ensures { result ≡ number }
    {
        Within { number }
    }

    /// The number, and `None` where it is not between the bounds.
    pub fn new(number: i64) -> Option<Self>
        ensures { result ≡ within LEAST MOST number }
    {
        match u64::try_from(number) {
            Ok(number) if LEAST <= number && number <= MOST => Some(Within { number }),
            _ => None,
        }
    }

    /// Its value, between the bounds.
    pub fn value(self) -> u64
        ensures same { result ≡ self.entry }
        ensures within { (LEAST ≤ result) × (result ≤ MOST) }
    {
        self.number
    }
}
