//! The options of HELLO.

ghost use Rattle.std.specs.Prelude.{IfSome, IsTrue, MatchOption, None, length, ◌<◌, ◌≡◌, ◌≤◌};
ghost use Rattle.std.specs.Option.{option_map};
ghost use Rattle.zq_client.specs.Options as wanted;
ghost use Rattle.zq_client.specs.OptionsRead.{shown};
ghost use Rattle.zq_words.specs.Words.{views};

use crate::name::is_word;

/// What the options of HELLO ask for: the last AUTH and the last SETNAME count.
#[derive(Clone, Copy, Debug)]
pub struct Options<'a> {
    /// A user and a password.
    pub entry: Option<(&'a [u8], &'a [u8])>,
    /// A name for the connection.
    pub name: Option<&'a [u8]>,
}

/// The options that the words are, and `None` where a word is none, or lacks words behind it.
pub fn read_options(words: &[Vec<u8>]) -> Option<Options<'_>>
    ensures { option_map shown result ≡ wanted.options_of (views words.now) }
{
    let mut options = Options {
        entry: None,
        name: None,
    };
    let mut rest = words;
    while !rest.is_empty() {
        match read_option(options, rest) {
            None => return None,
            Some((next, behind)) => {
                options = next;
                rest = behind;
            }
        }
    }
    Some(options)
}

/// The options with the one that stands first, and the words behind it; `None` where none stands
/// there.
fn read_option<'a>(
    options: Options<'a>,
    words: &'a [Vec<u8>],
) -> Option<(Options<'a>, &'a [Vec<u8>])>
    requires { 1 ≤ length words.now }
    ensures step { MatchOption result
        (wanted.options_from (shown options.entry) (views words.now) ≡ None)
        (λ next. wanted.options_from (shown options.entry) (views words.now)
        ≡ wanted.options_from (shown next.0) (views next.1.now)) }
    ensures shorter { IfSome result (λ next. length next.1.now < length words.now) }
{
    if begins_with_auth(words) {
        let next = Options {
            entry: Some((&words[1], &words[2])),
            name: options.name,
        };
        Some((next, &words[3..]))
    } else if begins_with_name(words) {
        let next = Options {
            entry: options.entry,
            name: Some(&words[1]),
        };
        Some((next, &words[2..]))
    } else {
        None
    }
}

/// Whether AUTH and two words stand first.
fn begins_with_auth(words: &[Vec<u8>]) -> bool
    ensures value { result ≡ wanted.is_auth (views words.now) }
    ensures three { IsTrue result → 3 ≤ length words.now }
{
    match words {
        [first, _, _, ..] => is_word(first, b"AUTH"),
        _ => false,
    }
}

/// Whether SETNAME and a word stand first.
fn begins_with_name(words: &[Vec<u8>]) -> bool
    ensures value { result ≡ wanted.is_setname (views words.now) }
    ensures two { IsTrue result → 2 ≤ length words.now }
{
    match words {
        [first, _, ..] => is_word(first, b"SETNAME"),
        _ => false,
    }
}
