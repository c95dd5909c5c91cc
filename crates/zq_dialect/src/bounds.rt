//! Bounds of scores.

ghost use Rattle.std.specs.Prelude.{◌≡◌, ◌-◌, ◌^◌, codes, min};
ghost use Rattle.zq_dialect.specs.Rounded.{capped, inward};
ghost use Rattle.zq_dialect.specs.Spelled.{limit_in, new_bound, without_paren};
ghost use Rattle.zq_words.specs.Words.{begins};

use crate::digits::is_plain_number;
use crate::number::parse_number;
use crate::rounded::{Rounded, score};

/// A bound that stands for another text.
#[derive(Clone, Copy, Debug)]
pub struct NewBound {
    /// Whether the limit itself is left out.
    pub is_out: bool,
    pub limit: i64,
}

/// The bound that stands for this text at the least or the greatest end of a range, and `None`
/// where the text stays: it has the form of a bound already, or is no number, or its number is out
/// of range. A bound that is no whole number becomes the next whole one inside the range.
pub fn find_bound(is_least: bool, text: &[u8]) -> Option<NewBound>
    ensures { result ≡ new_bound is_least text.now }
{
    let is_out = is_open(text);
    let number = limit_of(is_out, text);
    if is_plain_number(number) {
        return None;
    }
    match parse_number(number) {
        Some(number) => round_inward(is_out, is_least, number),
        None => None,
    }
}

/// Whether a parenthesis stands first.
fn is_open(text: &[u8]) -> bool
    ensures { result ≡ begins text.now (codes "(") }
{
    text.first() == Some(&b'(')
}

/// The text behind the parenthesis.
fn limit_of(is_out: bool, text: &[u8]) -> &[u8]
    requires { is_out ≡ begins text.now (codes "(") }
    ensures { result.now ≡ without_paren text.now }
{
    if is_out { &text[1..] } else { text }
}

/// The bound of a number that was rounded towards 0.
fn round_inward(is_out: bool, is_least: bool, number: Rounded) -> Option<NewBound>
    ensures { result ≡ limit_in is_out is_least number }
{
    let limit = score(number.is_negative, amount_inward(is_least, number))?;
    let is_out = is_out && number.is_whole;
    Some(NewBound { is_out, limit })
}

/// The amount of the next whole number inside the range. It is one more where that lies farther
/// from 0.
fn amount_inward(is_least: bool, number: Rounded) -> u64
    ensures { result ≡ min (inward is_least number) (2 ^ 64 - 1) }
{
    if number.is_whole || is_least == number.is_negative {
        number.amount
    } else {
        number.amount.saturating_add(1)
    }
}
