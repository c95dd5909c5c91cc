//! Requests that only read.

ghost use Rattle.std.specs.Prelude.{map, ◌≡◌};
ghost use Rattle.zq_semantics.specs.Reading as reading;
ghost use Rattle.zq_words.specs.Command.{name_of};
ghost use Rattle.zq_words.specs.Words as words;

/// Whether the first word names one of the six commands that only read.
pub(crate) fn is_question(words: &[Vec<u8>]) -> bool
    ensures { result ≡ reading.is_question (map (λ w. w.items) words.now) }
{
    match words {
        [name, ..] => is_reading(name),
        [] => false,
    }
}

/// Whether a command of this name only reads. Names are looked for in the order of their table.
fn is_reading(word: &[u8]) -> bool
    ensures { result ≡ reading.reads_if (name_of word.now) }
{
    if is(word, b"PING") || is(word, b"ZADD") || is(word, b"ZINCRBY") || is(word, b"ZREM") {
        return false;
    }
    is(word, b"ZSCORE")
        || is(word, b"ZCARD")
        || is(word, b"ZCOUNT")
        || is(word, b"ZRANK")
        || is(word, b"ZREVRANK")
        || is(word, b"ZRANGE")
}

/// Whether a word is this name, in any ASCII case.
fn is(word: &[u8], name: &[u8]) -> bool
    ensures { result ≡ words.is word.now name.now }
{
    word.eq_ignore_ascii_case(name)
}
