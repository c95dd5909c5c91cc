//! What calls draw.
ghost use Rattle.std.specs.Prelude.{◌≡◌};
ghost use Rattle.rand_core.specs.Pcg32Seed.{pcg32_seed};
ghost use Rattle.rand_pcg.specs.Pcg.{pcg64, pcg64_of_seed};

use rand_core::SeedableRng;
use rand_core::utils::NextWord;
use rand_pcg::Pcg64;
use std::marker::Model;

/// Pairs of words by which ZPOPNEAR chooses its heaps (O'Neill 2014, "PCG"). They are no secret.
#[derive(Drop)]
pub struct Draws {
    generator: Pcg64,
}

impl Model for Draws {
    ghost use Rattle.rand_pcg.specs.Lcg.{Lcg};

    ghost Value = { Lcg };

    ghost view = { λ draws. draws.generator };

    ghost inverse = { λ generator. record { generator = generator } };
}

impl Draws {
    /// The draws of a seed, from a `Pcg64` that is seeded with it.
    pub fn new(seed: u64) -> Draws
        ensures { result ≡ pcg64_of_seed (pcg32_seed 32 seed) }
    {
        Draws {
            generator: Pcg64::seed_from_u64(seed),
        }
    }

    /// The generator's next two words, in the order in which it gives them.
    pub fn next(&mut self) -> (u64, u64)
        ensures words { result ≡ ((pcg64 self.old).0, (pcg64 (pcg64 self.old).1).0) }
        ensures goes_on { self.new ≡ (pcg64 (pcg64 self.old).1).1 }
    {
        let first = self.generator.next_word();
        let second = self.generator.next_word();
        (first, second)
    }
}
