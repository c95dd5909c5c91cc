//! The flags of ZADD.

ghost use Rattle.std.specs.Prelude.{◌≡◌, ◌≤◌, length};
ghost use Rattle.std.specs.List.{prefix_len};
ghost use Rattle.zq_dialect.specs.Said.{before_scores};
ghost use Rattle.zq_words.specs.Command.{is_flag};
ghost use Rattle.zq_words.specs.Words.{views};

use zq_words::is_word;

/// How many words stand before ZADD's first score: the key, and flags.
pub fn count_before_scores(words: &[Vec<u8>]) -> usize
    ensures count { result ≡ before_scores (views words.now) }
    ensures inside { result ≤ length words.now }
{
    match words {
        [] => 0,
        [_, others @ ..] => 1 + count_flags(others),
    }
}

/// How many words from the front on are flags.
fn count_flags(words: &[Vec<u8>]) -> usize
    ensures count { result ≡ prefix_len is_flag (views words.now) }
    ensures inside { result ≤ length words.now }
{
    let mut count = 0;
    let mut rest = words;
    while let [first, others @ ..] = rest {
        if !is_zadd_flag(first) {
            break;
        }
        count += 1;
        rest = others;
    }
    count
}

fn is_zadd_flag(word: &[u8]) -> bool
    ensures { result ≡ is_flag word.now }
{
    is_word(word, b"NX")
        || is_word(word, b"XX")
        || is_word(word, b"GT")
        || is_word(word, b"LT")
        || is_word(word, b"CH")
        || is_word(word, b"INCR")
}
