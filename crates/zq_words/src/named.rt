//! The words of each command.

ghost use Rattle.std.specs.Prelude.{◌≡◌};
ghost use Rattle.zq_words.specs.declared.name.Name.TheVariants as name;
ghost use Rattle.zq_words.specs.Command.{command, command_of};
ghost use Rattle.zq_words.specs.Shown.{Reads};
ghost use Rattle.zq_words.specs.Words.{views};

use crate::bound::parse_bound;
use crate::kind::Kind;
use crate::name::{Name, find_name};
use crate::number::{parse_score, parse_whole};
use crate::pair::Pair;
use crate::refused::Refused;
use crate::zadd::read_zadd;
use crate::zrange::read_zrange;
use std::alloc::Global;

/// The command that the words are, or the first reason for which they are none.
pub fn read_words<'a>(alloc: Global, words: &'a [Vec<u8>]) -> Result<Kind<'a>, Refused>
    ensures { Reads result (command_of (views words.now)) }
{
    match words {
        [] => Err(Refused::Unknown),
        [name, others @ ..] => match find_name(name) {
            None => Err(Refused::Unknown),
            Some(name) => read_named(alloc, name, others),
        },
    }
}

fn read_named<'a>(alloc: Global, name: Name, words: &'a [Vec<u8>]) -> Result<Kind<'a>, Refused>
    ensures { Reads result (command name (views words.now)) }
{
    match name {
        Name::Ping => read_ping(words),
        Name::Zadd => read_zadd(alloc, words),
        Name::Zincrby => read_zincrby(words),
        Name::Zrem => read_zrem(words),
        Name::Zscore => read_zscore(words),
        Name::Zcard => read_zcard(words),
        Name::Zcount => read_zcount(words),
        Name::Zrank => read_zrank(words),
        Name::Zrevrank => read_zrevrank(words),
        Name::Zrange => read_zrange(words),
        Name::Zpopmin => read_zpopmin(words),
        Name::Zpopnear => read_zpopnear(words),
        Name::Del => read_del(words),
    }
}

fn read_ping(words: &[Vec<u8>]) -> Result<Kind<'_>, Refused>
    ensures { Reads result (command name.Ping (views words.now)) }
{
    match words {
        [] => Ok(Kind::Ping(None)),
        [message] => Ok(Kind::Ping(Some(message))),
        _ => Err(Refused::Words),
    }
}

fn read_zincrby(words: &[Vec<u8>]) -> Result<Kind<'_>, Refused>
    ensures { Reads result (command name.Zincrby (views words.now)) }
{
    match words {
        [key, increment, member] => {
            let score = parse_score(increment).ok_or(Refused::Score)?;
            let pair = Pair { score, member };
            Ok(Kind::Zincrby { key, pair })
        }
        _ => Err(Refused::Words),
    }
}

fn read_zrem(words: &[Vec<u8>]) -> Result<Kind<'_>, Refused>
    ensures { Reads result (command name.Zrem (views words.now)) }
{
    match words {
        [key, members @ ..] if !members.is_empty() => Ok(Kind::Zrem { key, members }),
        _ => Err(Refused::Words),
    }
}

fn read_zscore(words: &[Vec<u8>]) -> Result<Kind<'_>, Refused>
    ensures { Reads result (command name.Zscore (views words.now)) }
{
    match words {
        [key, member] => Ok(Kind::Zscore { key, member }),
        _ => Err(Refused::Words),
    }
}

fn read_zcard(words: &[Vec<u8>]) -> Result<Kind<'_>, Refused>
    ensures { Reads result (command name.Zcard (views words.now)) }
{
    match words {
        [key] => Ok(Kind::Zcard { key }),
        _ => Err(Refused::Words),
    }
}

fn read_zcount(words: &[Vec<u8>]) -> Result<Kind<'_>, Refused>
    ensures { Reads result (command name.Zcount (views words.now)) }
{
    match words {
        [key, min, max] => {
            let min = parse_bound(min).ok_or(Refused::Bound)?;
            let max = parse_bound(max).ok_or(Refused::Bound)?;
            Ok(Kind::Zcount { key, min, max })
        }
        _ => Err(Refused::Words),
    }
}

fn read_zrank(words: &[Vec<u8>]) -> Result<Kind<'_>, Refused>
    ensures { Reads result (command name.Zrank (views words.now)) }
{
    match words {
        [key, member] => Ok(Kind::Zrank { key, member }),
        _ => Err(Refused::Words),
    }
}

fn read_zrevrank(words: &[Vec<u8>]) -> Result<Kind<'_>, Refused>
    ensures { Reads result (command name.Zrevrank (views words.now)) }
{
    match words {
        [key, member] => Ok(Kind::Zrevrank { key, member }),
        _ => Err(Refused::Words),
    }
}

fn read_zpopmin(words: &[Vec<u8>]) -> Result<Kind<'_>, Refused>
    ensures { Reads result (command name.Zpopmin (views words.now)) }
{
    match words {
        [key] => Ok(Kind::Zpopmin { key, count: 1 }),
        [key, count] => {
            let count = parse_whole(count).ok_or(Refused::Whole)?;
            if count < 0 {
                return Err(Refused::Negative);
            }
            Ok(Kind::Zpopmin { key, count })
        }
        _ => Err(Refused::Words),
    }
}

fn read_zpopnear(words: &[Vec<u8>]) -> Result<Kind<'_>, Refused>
    ensures { Reads result (command name.Zpopnear (views words.now)) }
{
    match words {
        [key] => Ok(Kind::Zpopnear { key }),
        _ => Err(Refused::Words),
    }
}

fn read_del(keys: &[Vec<u8>]) -> Result<Kind<'_>, Refused>
    ensures { Reads result (command name.Del (views keys.now)) }
{
    if keys.is_empty() {
        return Err(Refused::Words);
    }
    Ok(Kind::Del { keys })
}
