//! Older names of commands.

ghost use Rattle.std.specs.Prelude.{◌≡◌, ◌∷◌, ◌≤◌, ◌++◌, IfOk, IsTrue, codes, length, not};
ghost use Rattle.zq_dialect.specs.Rewrites.{Spells};
ghost use Rattle.zq_dialect.specs.Said.{asks_again, is_own, older, older_range, own_options, plain_end, plain_ends};
ghost use Rattle.zq_words.specs.OptionsRead.{is_limit};
ghost use Rattle.zq_words.specs.Words.{views};

use crate::building::{Words, push_end, push_options, push_word, push_words};
use crate::ends::Ends;
use std::alloc::{AllocError, Global};
use zq_words::{Refused, is_word};

/// Behind an older name stand at most so many options: with what it stands for they make a request
/// of at most 65,536 words.
const MOST_OPTIONS: usize = 65_530;

/// The words of ZRANGE for those behind an older name of it. Where these are too few the name alone
/// is another, so that their number is what is refused.
pub fn rewrite_older(alloc: Global, words: &[Vec<u8>], ends: Ends) -> Result<Words, Refused>
    ensures { Spells result (older ends (plain_ends ends (views words.now))) }
{
    match words {
        [key, first, second, options @ ..] => {
            rewrite_range(alloc, key, first, second, options, ends)
        }
        _ => Ok(rename(alloc, b"ZRANGE", words)?),
    }
}

/// The words behind another name.
pub fn rename(alloc: Global, name: &[u8], words: &[Vec<u8>]) -> Result<Words, AllocError>
    ensures { IfOk result (λ made. views made.items ≡ name.now ∷ views words.now) }
{
    let mut made = Vec::with_capacity(alloc, words.len() + 1)?;
    push_word(&mut made, alloc, name)?;
    push_words(&mut made, alloc, words)?;
    Ok(made)
}

fn rewrite_range(
    alloc: Global,
    key: &[u8],
    first: &[u8],
    second: &[u8],
    options: &[Vec<u8>],
    ends: Ends,
) -> Result<Words, Refused>
    ensures { Spells result
        (older_range ends key.now (plain_end ends.by_score (not ends.is_turned) first.now)
        (plain_end ends.by_score ends.is_turned second.now) (views options.now)) }
{
    if says_again(options) {
        return Err(Refused::Syntax);
    }
    if options.len() > MOST_OPTIONS {
        return Err(Refused::Words);
    }
    Ok(make_range(alloc, key, first, second, options, ends)?)
}

fn make_range(
    alloc: Global,
    key: &[u8],
    first: &[u8],
    second: &[u8],
    options: &[Vec<u8>],
    ends: Ends,
) -> Result<Words, AllocError>
    ensures { IfOk result (λ made. views made.items
        ≡ codes "ZRANGE" ∷ key.now ∷ plain_end ends.by_score (not ends.is_turned) first.now
        ∷ plain_end ends.by_score ends.is_turned second.now ∷ own_options ends
        ++ views options.now) }
{
    let mut made = Vec::with_capacity(alloc, options.len() + 6)?;
    push_word(&mut made, alloc, b"ZRANGE")?;
    push_word(&mut made, alloc, key)?;
    push_end(&mut made, alloc, ends.by_score, !ends.is_turned, first)?;
    push_end(&mut made, alloc, ends.by_score, ends.is_turned, second)?;
    push_options(&mut made, alloc, ends)?;
    push_words(&mut made, alloc, options)?;
    Ok(made)
}

/// Whether an option is BYSCORE or REV, which an older name says by itself. The two words behind a
/// LIMIT are no options.
fn says_again(options: &[Vec<u8>]) -> bool
    ensures { result ≡ asks_again (views options.now) }
{
    let mut rest = options;
    while let [first, others @ ..] = rest {
        if begins_with_limit(rest) {
            rest = &rest[3..];
        } else if says(first) {
            return true;
        } else {
            rest = others;
        }
    }
    false
}

fn says(option: &[u8]) -> bool
    ensures { result ≡ is_own option.now }
{
    is_word(option, b"BYSCORE") || is_word(option, b"REV")
}

/// Whether a LIMIT and two words stand first.
fn begins_with_limit(words: &[Vec<u8>]) -> bool
    ensures value { result ≡ is_limit (views words.now) }
    ensures three { IsTrue result → 3 ≤ length words.now }
{
    match words {
        [first, _, _, ..] => is_word(first, b"LIMIT"),
        _ => false,
    }
}
