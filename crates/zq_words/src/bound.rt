//! Bounds of scores.

ghost use Rattle.std.specs.Prelude.{◌≡◌};
ghost use Rattle.zq_words.specs.Bounds.{bound_of, limit_of};

use crate::number::parse_score;
use crate::word::is_word;

/// Where a bound lies. A score's amount is at most 9007199254740992 in what
/// [`crate::Command::read`] gives.
#[derive(Clone, Copy, Debug, PartialEq, Eq)]
pub enum Limit {
    /// Below each score.
    Lowest,
    At(i64),
    /// Above each score.
    Highest,
}

/// An end of a range of scores.
#[derive(Clone, Copy, Debug, PartialEq, Eq)]
pub struct Bound {
    /// Whether the limit itself is left out.
    pub is_out: bool,
    pub limit: Limit,
}

/// The bound that a text writes: a parenthesis, which leaves the limit itself out, or none, and
/// then a score's text, `-inf`, `+inf` or `inf` in any ASCII case. `None` for another text.
pub fn parse_bound(text: &[u8]) -> Option<Bound>
    ensures { result ≡ bound_of text.now }
{
    match text {
        [b'(', limit @ ..] => Some(Bound {
            is_out: true,
            limit: parse_limit(limit)?,
        }),
        _ => Some(Bound {
            is_out: false,
            limit: parse_limit(text)?,
        }),
    }
}

fn parse_limit(text: &[u8]) -> Option<Limit>
    ensures { result ≡ limit_of text.now }
{
    if is_word(text, b"-inf") {
        Some(Limit::Lowest)
    } else if is_word(text, b"+inf") || is_word(text, b"inf") {
        Some(Limit::Highest)
    } else {
        Some(Limit::At(parse_score(text)?))
    }
}
