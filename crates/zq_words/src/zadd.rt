//! The words of ZADD.

ghost use Rattle.std.specs.Prelude.{◌≡◌};
ghost use Rattle.zq_words.specs.declared.name.Name.TheVariants as name;
ghost use Rattle.zq_words.specs.Command.{command, zadd, zadd_incr, zadd_words};
ghost use Rattle.zq_words.specs.Shown.{Reads};
ghost use Rattle.zq_words.specs.Words.{views};

use crate::flags::{Flags, count_flags};
use crate::kind::Kind;
use crate::number::parse_score;
use crate::pair::Pair;
use crate::pairs::read_pairs;
use crate::refused::Refused;
use crate::word::has_word;
use std::alloc::Global;

/// The words behind ZADD: a key, flags, and then pairs.
#[tactic(auto, using(crate::proofs::ZaddWords::few_words, crate::proofs::ZaddWords::key_first))]
pub fn read_zadd<'a>(alloc: Global, words: &'a [Vec<u8>]) -> Result<Kind<'a>, Refused>
    ensures { Reads result (command name.Zadd (views words.now)) }
{
    if words.len() < 3 {
        return Err(Refused::Words);
    }
    read_parts(alloc, &words[0], &words[1..])
}

/// The words behind the key: flags up to the first word that is none.
fn read_parts<'a>(alloc: Global, key: &'a [u8], words: &'a [Vec<u8>]) -> Result<Kind<'a>, Refused>
    ensures { Reads result (zadd_words key.now (views words.now)) }
{
    let (flags, pairs) = words.split_at(count_flags(words));
    read_flagged(alloc, key, flags, pairs)
}

fn read_flagged<'a>(
    alloc: Global,
    key: &'a [u8],
    words: &[Vec<u8>],
    pairs: &'a [Vec<u8>],
) -> Result<Kind<'a>, Refused>
    ensures { Reads result (zadd key.now (views words.now) (views pairs.now)) }
{
    if pairs.is_empty() || pairs.len() % 2 != 0 {
        return Err(Refused::Syntax);
    }
    let flags = Flags::read(words);
    if flags.exclude_each_other() {
        return Err(Refused::Flags);
    }
    if has_word(words, b"INCR") {
        return read_increment(key, flags, pairs);
    }
    match read_pairs(alloc, pairs)? {
        Some(pairs) => Ok(Kind::Zadd { key, pairs, flags }),
        None => Err(Refused::Score),
    }
}

/// The one pair of ZADD with INCR.
fn read_increment<'a>(
    key: &'a [u8],
    flags: Flags,
    pairs: &'a [Vec<u8>],
) -> Result<Kind<'a>, Refused>
    ensures { Reads result (zadd_incr key.now flags (views pairs.now)) }
{
    match pairs {
        [increment, member] => {
            let score = parse_score(increment).ok_or(Refused::Score)?;
            let pair = Pair { score, member };
            Ok(Kind::ZaddIncr { key, pair, flags })
        }
        _ => Err(Refused::OnePair),
    }
}
