//! Words that are copied and rewritten one after the other.

ghost use Rattle.std.specs.Fmt.{signed_decimal};
ghost use Rattle.std.specs.Prelude.{◌≡◌, ◌++◌, ◌∷◌, [], IfOk};
ghost use Rattle.std.specs.Result.{OnOk};
ghost use Rattle.zq_dialect.specs.Said.{own_options, plain_end};
ghost use Rattle.zq_dialect.specs.Spelled.{bound_text, plain_bound, plain_pairs, plain_score};
ghost use Rattle.zq_words.specs.Words.{views};

use crate::bounds::{NewBound, find_bound};
use crate::ends::Ends;
use crate::scores::find_score;
use itoa::Buffer;
use std::alloc::{AllocError, Global};

/// Words that grow at their end. Where memory is refused, the last of those that were asked for may
/// be lacking.
pub type Words = Vec<Vec<u8>>;

/// A copy of the word.
pub fn push_word(words: &mut Words, alloc: Global, text: &[u8]) -> Result<(), AllocError>
    ensures { OnOk result (views words.new.items ≡ views words.old.items ++ text.now ∷ []) }
{
    words.push(Vec::from_slice(alloc, text)?)?;
    Ok(())
}

/// Copies of the words.
#[tactic(auto, using(crate::proofs::Copies::one_copied))]
pub fn push_words(words: &mut Words, alloc: Global, others: &[Vec<u8>]) -> Result<(), AllocError>
    ensures { OnOk result (views words.new.items ≡ views words.old.items ++ views others.now) }
{
    for word in others {
        push_word(words, alloc, word)?;
    }
    Ok(())
}

/// A score, or the text where it stays.
pub fn push_score(words: &mut Words, alloc: Global, text: &[u8]) -> Result<(), AllocError>
    ensures { OnOk result
        (views words.new.items ≡ views words.old.items ++ plain_score text.now ∷ []) }
{
    match find_score(text) {
        Some(score) => push_word(words, alloc, Buffer::new().format(score).as_bytes()),
        None => push_word(words, alloc, text),
    }
}

/// Scores, each with the member behind it, and what is left.
#[tactic(auto, using(crate::proofs::Copies::two_copied, crate::proofs::Copies::pairs_short))]
pub fn push_pairs(words: &mut Words, alloc: Global, pairs: &[Vec<u8>]) -> Result<(), AllocError>
    ensures { OnOk result
        (views words.new.items ≡ views words.old.items ++ plain_pairs (views pairs.now)) }
{
    let mut rest = pairs;
    while let [score, member, others @ ..] = rest {
        push_score(words, alloc, score)?;
        push_word(words, alloc, member)?;
        rest = others;
    }
    push_words(words, alloc, rest)
}

/// An end of a range.
pub fn push_end(
    words: &mut Words,
    alloc: Global,
    by_score: bool,
    is_least: bool,
    text: &[u8],
) -> Result<(), AllocError>
    ensures { OnOk result
        (views words.new.items ≡ views words.old.items
        ++ plain_end by_score is_least text.now ∷ []) }
{
    if by_score {
        push_bound(words, alloc, is_least, text)
    } else {
        push_word(words, alloc, text)
    }
}

fn push_bound(
    words: &mut Words,
    alloc: Global,
    is_least: bool,
    text: &[u8],
) -> Result<(), AllocError>
    ensures { OnOk result
        (views words.new.items ≡ views words.old.items ++ plain_bound is_least text.now ∷ []) }
{
    match find_bound(is_least, text) {
        Some(bound) => {
            words.push(spelled(alloc, bound)?)?;
            Ok(())
        }
        None => push_word(words, alloc, text),
    }
}

/// The text of a bound.
fn spelled(alloc: Global, bound: NewBound) -> Result<Vec<u8>, AllocError>
    ensures { IfOk result (λ text. text.items ≡ bound_text bound) }
{
    let mut text = Vec::new(alloc);
    if bound.is_out {
        text.push(b'(')?;
    }
    text.extend_from_slice(Buffer::new().format(bound.limit).as_bytes())?;
    Ok(text)
}

/// The options of ZRANGE that an older name stands for.
pub fn push_options(words: &mut Words, alloc: Global, ends: Ends) -> Result<(), AllocError>
    ensures { OnOk result
        (views words.new.items ≡ views words.old.items ++ own_options ends) }
{
    if ends.by_score {
        push_word(words, alloc, b"BYSCORE")?;
    }
    if ends.is_turned {
        push_word(words, alloc, b"REV")?;
    }
    Ok(())
}
