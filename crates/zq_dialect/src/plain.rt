//! Commands whose numbers are rewritten.

ghost use Rattle.std.specs.Prelude.{◌≡◌, ◌∷◌, ◌++◌, ◌||◌, IfOk, Ok, drop, false, not, true};
ghost use Rattle.zq_dialect.specs.Names.{ends_of};
ghost use Rattle.zq_dialect.specs.Rewrites.{Gives};
ghost use Rattle.zq_dialect.specs.Said.{asked_ends, is_new_end, plain_end, plain_ends, plain_zadd, plain_zincrby};
ghost use Rattle.zq_dialect.specs.Spelled.{plain_pairs, plain_score};
ghost use Rattle.zq_words.specs.Words.{views};

use crate::bounds::find_bound;
use crate::building::{Words, push_end, push_pairs, push_score, push_word, push_words};
use crate::ends::Ends;
use crate::flags::count_before_scores;
use crate::scores::{find_score, has_new_score};
use std::alloc::{AllocError, Global};
use zq_words::Refused;

/// The words of ZADD, where a score is rewritten.
pub fn rewrite_zadd(alloc: Global, name: &[u8], words: &[Vec<u8>]) -> Result<Option<Words>, Refused>
    ensures { Gives result (name.now ∷ views words.now)
        (Ok (name.now ∷ plain_zadd (views words.now))) }
{
    let (before, pairs) = words.split_at(count_before_scores(words));
    if has_new_score(pairs) {
        Ok(Some(make_pairs(alloc, name, before, pairs)?))
    } else {
        Ok(None)
    }
}

fn make_pairs(
    alloc: Global,
    name: &[u8],
    before: &[Vec<u8>],
    pairs: &[Vec<u8>],
) -> Result<Words, AllocError>
    ensures { IfOk result (λ made. views made.items
        ≡ name.now ∷ views before.now ++ plain_pairs (views pairs.now)) }
{
    let mut made = Vec::with_capacity(alloc, before.len() + pairs.len() + 1)?;
    push_word(&mut made, alloc, name)?;
    push_words(&mut made, alloc, before)?;
    push_pairs(&mut made, alloc, pairs)?;
    Ok(made)
}

/// The words of ZINCRBY, where the increment is rewritten.
pub fn rewrite_zincrby(
    alloc: Global,
    name: &[u8],
    words: &[Vec<u8>],
) -> Result<Option<Words>, Refused>
    ensures { Gives result (name.now ∷ views words.now)
        (Ok (name.now ∷ plain_zincrby (views words.now))) }
{
    match words {
        [key, increment, others @ ..] => rewrite_increment(alloc, name, key, increment, others),
        _ => Ok(None),
    }
}

fn rewrite_increment(
    alloc: Global,
    name: &[u8],
    key: &[u8],
    increment: &[u8],
    others: &[Vec<u8>],
) -> Result<Option<Words>, Refused>
    ensures { Gives result (name.now ∷ key.now ∷ increment.now ∷ views others.now)
        (Ok (name.now ∷ key.now ∷ plain_score increment.now ∷ views others.now)) }
{
    if find_score(increment).is_some() {
        Ok(Some(make_increment(alloc, name, key, increment, others)?))
    } else {
        Ok(None)
    }
}

fn make_increment(
    alloc: Global,
    name: &[u8],
    key: &[u8],
    increment: &[u8],
    others: &[Vec<u8>],
) -> Result<Words, AllocError>
    ensures { IfOk result (λ made. views made.items
        ≡ name.now ∷ key.now ∷ plain_score increment.now ∷ views others.now) }
{
    let mut made = Vec::with_capacity(alloc, others.len() + 3)?;
    push_word(&mut made, alloc, name)?;
    push_word(&mut made, alloc, key)?;
    push_score(&mut made, alloc, increment)?;
    push_words(&mut made, alloc, others)?;
    Ok(made)
}

/// The words of a command with a key and two ends of a range, where one of them is rewritten.
pub fn rewrite_ends(
    alloc: Global,
    name: &[u8],
    words: &[Vec<u8>],
    ends: Ends,
) -> Result<Option<Words>, Refused>
    ensures { Gives result (name.now ∷ views words.now)
        (Ok (name.now ∷ plain_ends ends (views words.now))) }
{
    match words {
        [key, first, second, others @ ..] => {
            rewrite_range(alloc, name, key, first, second, ends, others)
        }
        _ => Ok(None),
    }
}

fn rewrite_range(
    alloc: Global,
    name: &[u8],
    key: &[u8],
    first: &[u8],
    second: &[u8],
    ends: Ends,
    others: &[Vec<u8>],
) -> Result<Option<Words>, Refused>
    ensures { Gives result (name.now ∷ key.now ∷ first.now ∷ second.now ∷ views others.now)
        (Ok (name.now ∷ key.now ∷ plain_end ends.by_score (not ends.is_turned) first.now
        ∷ plain_end ends.by_score ends.is_turned second.now ∷ views others.now)) }
{
    if has_new_end(first, second, ends) {
        Ok(Some(make_range(alloc, name, key, first, second, ends, others)?))
    } else {
        Ok(None)
    }
}

fn make_range(
    alloc: Global,
    name: &[u8],
    key: &[u8],
    first: &[u8],
    second: &[u8],
    ends: Ends,
    others: &[Vec<u8>],
) -> Result<Words, AllocError>
    ensures { IfOk result (λ made. views made.items
        ≡ name.now ∷ key.now ∷ plain_end ends.by_score (not ends.is_turned) first.now
        ∷ plain_end ends.by_score ends.is_turned second.now ∷ views others.now) }
{
    let mut made = Vec::with_capacity(alloc, others.len() + 4)?;
    push_word(&mut made, alloc, name)?;
    push_word(&mut made, alloc, key)?;
    push_end(&mut made, alloc, ends.by_score, !ends.is_turned, first)?;
    push_end(&mut made, alloc, ends.by_score, ends.is_turned, second)?;
    push_words(&mut made, alloc, others)?;
    Ok(made)
}

/// Whether one of the two ends of a range is rewritten.
fn has_new_end(first: &[u8], second: &[u8], ends: Ends) -> bool
    ensures { result ≡ (is_new_end ends.by_score (not ends.is_turned) first.now
        || is_new_end ends.by_score ends.is_turned second.now) }
{
    is_rewritten(ends.by_score, !ends.is_turned, first)
        || is_rewritten(ends.by_score, ends.is_turned, second)
}

/// Whether the end of a range is rewritten.
fn is_rewritten(by_score: bool, is_least: bool, text: &[u8]) -> bool
    ensures { result ≡ is_new_end by_score is_least text.now }
{
    by_score && find_bound(is_least, text).is_some()
}

/// The ends of ZCOUNT and ZREMRANGEBYSCORE.
pub fn counted_ends() -> Ends
    ensures { result ≡ ends_of true false }
{
    Ends {
        by_score: true,
        is_turned: false,
    }
}

/// The ends of ZRANGE, as its options say.
pub fn ranged_ends(words: &[Vec<u8>]) -> Ends
    ensures { result ≡ asked_ends (drop 3 (views words.now)) }
{
    match words {
        [_, _, _, options @ ..] => Ends::asked(options),
        _ => Ends::asked(&[]),
    }
}
