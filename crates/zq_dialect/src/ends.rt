//! The ends of a range.

ghost use Rattle.std.specs.Prelude.{◌≡◌};
ghost use Rattle.zq_dialect.specs.Said.{asked_ends};
ghost use Rattle.zq_words.specs.Words.{views};

use zq_words::has_word;

/// What the two ends of a range are.
#[derive(Clone, Copy, Debug)]
pub struct Ends {
    /// Bounds of scores, and else places.
    pub by_score: bool,
    /// The greater end stands first.
    pub is_turned: bool,
}

impl Ends {
    /// What these options of ZRANGE make of them.
    pub fn asked(options: &[Vec<u8>]) -> Ends
        ensures { result ≡ asked_ends (views options.now) }
    {
        Ends {
            by_score: has_word(options, b"BYSCORE"),
            is_turned: has_word(options, b"REV"),
        }
    }
}
