//! The names of requests whose words may be rewritten.

ghost use Rattle.std.specs.Prelude.{◌≡◌};
ghost use Rattle.zq_dialect.specs.Names.{name_of};

use crate::ends::Ends;
use zq_words::is_word;

#[derive(Clone, Copy, Debug)]
pub enum Name {
    Zadd,
    Zincrby,
    Zcount,
    Zrange,
    /// An older name of ZRANGE: ZREVRANGE, ZRANGEBYSCORE or ZREVRANGEBYSCORE.
    Older(Ends),
    Unlink,
    Zremrangebyscore,
}

/// The request of this name, in any ASCII case, and `None` for other names.
pub fn find_name(word: &[u8]) -> Option<Name>
    ensures { result ≡ name_of word.now }
{
    if is_word(word, b"ZADD") {
        Some(Name::Zadd)
    } else if is_word(word, b"ZINCRBY") {
        Some(Name::Zincrby)
    } else if is_word(word, b"ZCOUNT") {
        Some(Name::Zcount)
    } else if is_word(word, b"ZRANGE") {
        Some(Name::Zrange)
    } else if is_word(word, b"ZREVRANGE") {
        Some(older(false, true))
    } else if is_word(word, b"ZRANGEBYSCORE") {
        Some(older(true, false))
    } else if is_word(word, b"ZREVRANGEBYSCORE") {
        Some(older(true, true))
    } else if is_word(word, b"UNLINK") {
        Some(Name::Unlink)
    } else if is_word(word, b"ZREMRANGEBYSCORE") {
        Some(Name::Zremrangebyscore)
    } else {
        None
    }
}

fn older(by_score: bool, is_turned: bool) -> Name
    ensures { result ≡ Name.Older (record { by_score = by_score; is_turned = is_turned }) }
{
    Name::Older(Ends {
        by_score,
        is_turned,
    })
}
