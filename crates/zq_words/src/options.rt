//! The options of ZRANGE.

ghost use Rattle.std.specs.Prelude.{◌≡◌, ◌≤◌, IsTrue, None, Some, length};
ghost use Rattle.std.specs.Option.{option_map};
ghost use Rattle.zq_words.specs.Options.{option_of, options_of, window_of};
ghost use Rattle.zq_words.specs.OptionsRead.{is_limit, no_options, read, with_limit, with_option};
ghost use Rattle.zq_words.specs.Words.{views};

use crate::number::parse_whole;
use crate::range::Window;
use crate::word::is_word;

/// What the options read so far ask for.
#[derive(Clone, Copy, Debug)]
pub struct Options {
    pub by_score: bool,
    pub is_turned: bool,
    pub with_scores: bool,
    /// Whether there is a LIMIT.
    pub has_limit: bool,
    /// The last LIMIT, if there is one, and `None` where a word of one is no whole number.
    pub window: Option<Option<Window>>,
}

impl Options {
    fn new() -> Options
        ensures { result ≡ no_options }
    {
        Options {
            by_score: false,
            is_turned: false,
            with_scores: false,
            has_limit: false,
            window: Some(None),
        }
    }

    /// With the option of one word, and `None` where the word is none.
    fn with_word(self, word: &[u8]) -> Option<Options>
        ensures { result ≡ option_map (with_option self) (option_of word.now) }
    {
        let mut options = self;
        if is_word(word, b"BYSCORE") {
            options.by_score = true;
        } else if is_word(word, b"REV") {
            options.is_turned = true;
        } else if is_word(word, b"WITHSCORES") {
            options.with_scores = true;
        } else {
            return None;
        }
        Some(options)
    }

    /// With a LIMIT of these two words.
    fn with_limit(self, offset: &[u8], count: &[u8]) -> Options
        ensures { result ≡ with_limit self offset.now count.now }
    {
        let mut options = self;
        options.has_limit = true;
        if options.window.is_some() {
            options.window = parse_window(offset, count).map(Some);
        }
        options
    }
}

/// The options that the words are, and `None` where a word is none, or a LIMIT has no two words
/// behind it.
pub fn read_options(words: &[Vec<u8>]) -> Option<Options>
    ensures { result ≡ option_map (read no_options) (options_of (views words.now)) }
{
    let mut options = Options::new();
    let mut rest = words;
    while let [first, others @ ..] = rest {
        if begins_with_limit(rest) {
            options = options.with_limit(&rest[1], &rest[2]);
            rest = &rest[3..];
        } else {
            options = options.with_word(first)?;
            rest = others;
        }
    }
    Some(options)
}

/// Whether a LIMIT and two words stand first.
fn begins_with_limit(words: &[Vec<u8>]) -> bool
    ensures value { result ≡ is_limit (views words.now) }
    ensures three { IsTrue result → 3 ≤ length words.now }
{
    match words {
        [first, _, _, ..] => is_word(first, b"LIMIT"),
        _ => false,
    }
}

fn parse_window(offset: &[u8], count: &[u8]) -> Option<Window>
    ensures { result ≡ window_of offset.now count.now }
{
    let offset = parse_whole(offset)?;
    let count = parse_whole(count)?;
    Some(Window { offset, count })
}
