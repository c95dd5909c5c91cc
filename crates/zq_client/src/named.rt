//! What a request is to the connection that it came by.

ghost use Rattle.std.specs.Prelude.{IsTrue, ◌↔◌, ◌≡◌};
ghost use Rattle.zq_client.specs.Names as names;
ghost use Rattle.zq_words.specs.Words.{views};

use crate::name::{Name, find_name};

/// The request that the first word names, where a connection answers it itself.
pub fn named(words: &[Vec<u8>]) -> Option<Name>
    ensures { result ≡ names.named (views words.now) }
{
    match words {
        [] => None,
        [name, ..] => find_name(name),
    }
}

/// Whether a connection that is known answers a request of these words itself.
pub fn is_own(words: &[Vec<u8>]) -> bool
    ensures { result ≡ names.is_own (views words.now) }
{
    named(words).is_some()
}

/// Whether the answer to a request of these words tells of the moment: TIME and INFO do.
pub fn asks_for_moment(words: &[Vec<u8>]) -> bool
    ensures { result ≡ names.asks_for_moment (views words.now) }
{
    matches!(named(words), Some(Name::Time | Name::Info))
}

/// Whether who is not known may ask for it.
pub fn is_open(name: Option<Name>) -> bool
    ensures { result ≡ names.is_open name }
{
    matches!(
        name,
        Some(Name::Auth | Name::Hello | Name::Quit | Name::Reset)
    )
}
