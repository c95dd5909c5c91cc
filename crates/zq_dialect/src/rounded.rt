//! Numbers that are rounded to whole ones.

ghost use Rattle.std.specs.Prelude.{◌≡◌};
ghost use Rattle.zq_dialect.specs.Rounded.{score_of};

use zq_dots::GREATEST;

/// A number, rounded towards 0.
#[derive(Clone, Copy, Debug)]
pub struct Rounded {
    pub is_negative: bool,
    pub amount: u64,
    /// Whether the number is whole, so that nothing was rounded off.
    pub is_whole: bool,
}

/// The number, if it is a score.
pub fn score(is_negative: bool, amount: u64) -> Option<i64>
    ensures { result ≡ score_of is_negative amount }
{
    match i64::try_from(amount) {
        Ok(number) if number <= GREATEST => Some(if is_negative { -number } else { number }),
        _ => None,
    }
}
