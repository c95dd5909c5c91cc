//! Numbers that are drawn, each by one word of a generator.
ghost use Rattle.std.specs.Prelude.{pos, ◌≡◌};
ghost use Rattle.rand_core.specs.Stream.{next_u32};

use rand_core::Rng;

/// A score or a delay, which is one word.
pub fn draw_score<R: Rng>(draws: &mut R) -> i128
    ensures value { result ≡ pos (next_u32 (R.stream draws.old)).0 }
    ensures rest { R.stream draws.new ≡ (next_u32 (R.stream draws.old)).1 }
{
    i128::from(draws.next_u32())
}

/// A number below another, or zero below zero, by one word.
pub fn draw_below<R: Rng>(draws: &mut R, limit: u32) -> u32
    ensures rest { R.stream draws.new ≡ (next_u32 (R.stream draws.old)).1 }
{
    draws.next_u32() % limit.max(1)
}
