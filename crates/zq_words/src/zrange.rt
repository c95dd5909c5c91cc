//! The words of ZRANGE.

ghost use Rattle.std.specs.Prelude.{◌≡◌};
ghost use Rattle.zq_words.specs.declared.name.Name.TheVariants as name;
ghost use Rattle.zq_words.specs.Command.{by_place, by_score, command, or_else, zrange};
ghost use Rattle.zq_words.specs.declared.refused.Refused.TheVariants as refused;
ghost use Rattle.zq_words.specs.Options.{options_of};
ghost use Rattle.zq_words.specs.OptionsRead.{ranged};
ghost use Rattle.zq_words.specs.Shown.{Reads};
ghost use Rattle.zq_words.specs.Words.{views};

use crate::bound::parse_bound;
use crate::kind::Kind;
use crate::number::parse_whole;
use crate::options::{Options, read_options};
use crate::range::Range;
use crate::refused::Refused;

/// The words behind ZRANGE: a key, two ends, and options.
pub fn read_zrange(words: &[Vec<u8>]) -> Result<Kind<'_>, Refused>
    ensures { Reads result (command name.Zrange (views words.now)) }
{
    match words {
        [key, first, second, others @ ..] => read_parts(key, first, second, others),
        _ => Err(Refused::Words),
    }
}

/// Two ends, and options of which each is known before a number is judged.
fn read_parts<'a>(
    key: &'a [u8],
    first: &[u8],
    second: &[u8],
    words: &[Vec<u8>],
) -> Result<Kind<'a>, Refused>
    ensures { Reads result
        (or_else refused.Syntax (options_of (views words.now))
        (zrange key.now first.now second.now)) }
{
    match read_options(words) {
        Some(options) => read_ranged(key, first, second, &options),
        None => Err(Refused::Syntax),
    }
}

fn read_ranged<'a>(
    key: &'a [u8],
    first: &[u8],
    second: &[u8],
    options: &Options,
) -> Result<Kind<'a>, Refused>
    ensures { Reads result (ranged key.now first.now second.now options.now) }
{
    if options.by_score {
        read_by_score(key, first, second, options)
    } else if options.has_limit {
        Err(Refused::Syntax)
    } else {
        read_by_place(key, first, second, options)
    }
}

fn read_by_place<'a>(
    key: &'a [u8],
    start: &[u8],
    stop: &[u8],
    options: &Options,
) -> Result<Kind<'a>, Refused>
    ensures { Reads result
        (by_place key.now start.now stop.now options.now.is_turned options.now.with_scores) }
{
    let start = parse_whole(start).ok_or(Refused::Whole)?;
    let stop = parse_whole(stop).ok_or(Refused::Whole)?;
    Ok(Kind::Zrange {
        key,
        range: Range::ByPlace { start, stop },
        is_turned: options.is_turned,
        with_scores: options.with_scores,
    })
}

/// The two words are min and max, and with REV max and min.
fn read_by_score<'a>(
    key: &'a [u8],
    first: &[u8],
    second: &[u8],
    options: &Options,
) -> Result<Kind<'a>, Refused>
    ensures { Reads result
        (by_score key.now first.now second.now options.now.window options.now.is_turned
        options.now.with_scores) }
{
    let first = parse_bound(first).ok_or(Refused::Bound)?;
    let second = parse_bound(second).ok_or(Refused::Bound)?;
    let window = options.window.ok_or(Refused::Whole)?;
    let (min, max) = if options.is_turned {
        (second, first)
    } else {
        (first, second)
    };
    Ok(Kind::Zrange {
        key,
        range: Range::ByScore { min, max, window },
        is_turned: options.is_turned,
        with_scores: options.with_scores,
    })
}
