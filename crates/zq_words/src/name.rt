//! The names of the commands.

ghost use Rattle.std.specs.Prelude.{◌≡◌};
ghost use Rattle.zq_words.specs.Command.{name_of};

use crate::word::is_word;

#[derive(Clone, Copy, Debug)]
pub enum Name {
    Ping,
    Zadd,
    Zincrby,
    Zrem,
    Zscore,
    Zcard,
    Zcount,
    Zrank,
    Zrevrank,
    Zrange,
    Zpopmin,
    Zpopnear,
    Del,
}

/// The command of this name, in any ASCII case.
pub fn find_name(word: &[u8]) -> Option<Name>
    ensures { result ≡ name_of word.now }
{
    if is_word(word, b"PING") {
        Some(Name::Ping)
    } else if is_word(word, b"ZADD") {
        Some(Name::Zadd)
    } else if is_word(word, b"ZINCRBY") {
        Some(Name::Zincrby)
    } else if is_word(word, b"ZREM") {
        Some(Name::Zrem)
    } else if is_word(word, b"ZSCORE") {
        Some(Name::Zscore)
    } else if is_word(word, b"ZCARD") {
        Some(Name::Zcard)
    } else if is_word(word, b"ZCOUNT") {
        Some(Name::Zcount)
    } else if is_word(word, b"ZRANK") {
        Some(Name::Zrank)
    } else if is_word(word, b"ZREVRANK") {
        Some(Name::Zrevrank)
    } else if is_word(word, b"ZRANGE") {
        Some(Name::Zrange)
    } else if is_word(word, b"ZPOPMIN") {
        Some(Name::Zpopmin)
    } else if is_word(word, b"ZPOPNEAR") {
        Some(Name::Zpopnear)
    } else if is_word(word, b"DEL") {
        Some(Name::Del)
    } else {
        None
    }
}
