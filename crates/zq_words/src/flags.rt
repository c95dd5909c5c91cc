//! The flags of ZADD.

ghost use Rattle.std.specs.Prelude.{◌≡◌, ◌≤◌, length};
ghost use Rattle.std.specs.List.{prefix_len};
ghost use Rattle.zq_words.specs.Command.{exclude, flags_of, is_flag};
ghost use Rattle.zq_words.specs.Words.{views};

use crate::word::{has_word, is_word};

/// Which pairs ZADD takes, and what it answers.
#[derive(Clone, Copy, Debug, PartialEq, Eq)]
pub struct Flags {
    /// Only members that are not there.
    pub nx: bool,
    /// Only members that are there.
    pub xx: bool,
    /// A member that is there only where the new score is greater.
    pub gt: bool,
    /// A member that is there only where the new score is less.
    pub lt: bool,
    /// Changed scores are counted too.
    pub ch: bool,
}

impl Flags {
    /// The flags among these words.
    pub(crate) fn read(words: &[Vec<u8>]) -> Flags
        ensures { result ≡ flags_of (views words.now) }
    {
        Flags {
            nx: has_word(words, b"NX"),
            xx: has_word(words, b"XX"),
            gt: has_word(words, b"GT"),
            lt: has_word(words, b"LT"),
            ch: has_word(words, b"CH"),
        }
    }

    /// NX excludes XX, GT and LT; GT excludes LT.
    pub(crate) fn exclude_each_other(self) -> bool
        ensures { result ≡ exclude self }
    {
        self.nx && (self.xx || self.gt || self.lt) || self.gt && self.lt
    }
}

/// How many words from the front on are flags.
pub fn count_flags(words: &[Vec<u8>]) -> usize
    ensures count { result ≡ prefix_len is_flag (views words.now) }
    ensures inside { result ≤ length words.now }
{
    let mut count = 0;
    let mut rest = words;
    while let [first, others @ ..] = rest {
        if !is_zadd_flag(first) {
            break;
        }
        count += 1;
        rest = others;
    }
    count
}

fn is_zadd_flag(word: &[u8]) -> bool
    ensures { result ≡ is_flag word.now }
{
    is_word(word, b"NX")
        || is_word(word, b"XX")
        || is_word(word, b"GT")
        || is_word(word, b"LT")
        || is_word(word, b"CH")
        || is_word(word, b"INCR")
}
