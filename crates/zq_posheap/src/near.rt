//! What of a score fits in 64 bits.
ghost use Rattle.std.specs.Prelude.{◌≡◌};
ghost use Rattle.zq_posheap.specs.Order as order;

/// The number of 64 bits that is nearest to a score. It does not fall where the score rises.
pub(crate) fn near(score: i128) -> i64
    ensures { result ≡ order.near score }
{
    score.clamp(i128::from(i64::MIN), i128::from(i64::MAX)) as i64
}
