//! What a caller draws.

ghost use Rattle.rand_core.specs.Pcg32Seed.{pcg32_seed};
ghost use Rattle.rand_pcg.specs.Pcg.{pcg32_of_seed};
ghost use Rattle.std.specs.Prelude.{◌≡◌};
ghost use Rattle.zq_drill.specs.Draws.{IsDrawn, draws_after};

use rand_core::SeedableRng;
use rand_core::utils::NextWord;
use rand_pcg::Pcg32;
use std::marker::Model;

/// The five words of a round, in the order in which they are drawn.
#[derive(Clone, Copy, Debug, PartialEq, Eq)]
pub struct Draw {
    /// Which command it is.
    pub verb: u32,
    /// Its score or increment.
    pub amount: u32,
    /// Its member.
    pub member: u32,
    /// What ZPOPNEAR chooses its first heap by.
    pub first: u32,
    /// What it chooses the second one by.
    pub second: u32,
}

/// The words of a caller's rounds (O'Neill 2014, "PCG").
#[derive(Drop)]
pub struct Draws {
    generator: Pcg32,
}

impl Model for Draws {
    ghost use Rattle.rand_pcg.specs.Lcg.{Lcg};

    ghost Value = { Lcg };

    ghost view = { λ draws. draws.generator };

    ghost inverse = { λ generator. record { generator = generator } };
}

impl Draws {
    /// The draws of a seed, from a `Pcg32` that is seeded with it.
    pub fn new(seed: u64) -> Draws
        ensures { result ≡ pcg32_of_seed (pcg32_seed 16 seed) }
    {
        Draws {
            generator: Pcg32::seed_from_u64(seed),
        }
    }

    /// The generator's next five words.
    pub fn next(&mut self) -> Draw
        ensures words { IsDrawn self.old result }
        ensures goes_on { self.new ≡ draws_after self.old }
    {
        let verb = self.generator.next_word();
        let amount = self.generator.next_word();
        let member = self.generator.next_word();
        let first = self.generator.next_word();
        let second = self.generator.next_word();
        Draw {
            verb,
            amount,
            member,
            first,
            second,
        }
    }
}
