//! What is drawn from a seed.
ghost use Rattle.std.specs.Prelude.{◌<◌};

use rand_core::SeedableRng;
use rand_core::utils::NextWord;
use rand_pcg::Pcg32;

/// The words of a world, in the order in which they are drawn (O'Neill 2014, "PCG").
#[derive(Drop)]
pub struct Draws {
    words: Pcg32,
}

impl Draws {
    /// The draws of a seed.
    pub fn new(seed: u64) -> Draws {
        Draws {
            words: Pcg32::seed_from_u64(seed),
        }
    }

    /// A number below the bound; 0 where that is 0.
    pub fn below(&mut self, bound: usize) -> usize
        ensures { 0 < bound → result < bound }
    {
        let word = self.words.next_word() as usize;
        if bound == 0 {
            return 0;
        }
        word % bound
    }

    /// Whether a draw hits that does so once in so many times.
    pub fn hits(&mut self, times: usize) -> bool {
        self.below(times) == 0
    }

    /// One of these numbers; the first of them where there are none is 0.
    pub fn one_of(&mut self, numbers: &[u64]) -> u64 {
        let at = self.below(numbers.len());
        numbers.get(at).copied().unwrap_or(0)
    }
}
