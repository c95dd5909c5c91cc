//! Scores and increments.

ghost use Rattle.std.specs.Prelude.{◌≡◌};
ghost use Rattle.zq_dialect.specs.Spelled.{has_new, new_score, whole_score};
ghost use Rattle.zq_words.specs.Words.{views};

use crate::digits::is_plain_number;
use crate::number::parse_number;
use crate::rounded::{Rounded, score};

/// The score that stands for this text, and `None` where the text stays: it has the form of a score
/// already, or is no number, or one that is not whole or out of range.
pub fn find_score(text: &[u8]) -> Option<i64>
    ensures { result ≡ new_score text.now }
{
    if is_plain_number(text) {
        return None;
    }
    match parse_number(text) {
        Some(number) => find_whole(number),
        None => None,
    }
}

/// The score of a number that is whole and in range.
fn find_whole(number: Rounded) -> Option<i64>
    ensures { result ≡ whole_score number }
{
    if number.is_whole {
        score(number.is_negative, number.amount)
    } else {
        None
    }
}

/// Whether one of the scores among these pairs is rewritten. A score stands before each member.
pub fn has_new_score(pairs: &[Vec<u8>]) -> bool
    ensures { result ≡ has_new (views pairs.now) }
{
    let mut rest = pairs;
    while let [score, _, others @ ..] = rest {
        if find_score(score).is_some() {
            return true;
        }
        rest = others;
    }
    false
}
