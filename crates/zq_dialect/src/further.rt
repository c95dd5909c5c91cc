//! The names of further requests on keys.

ghost use Rattle.std.specs.Prelude.{◌≡◌};
ghost use Rattle.zq_dialect.specs.Further.{further_of};

use zq_words::is_word;

#[derive(Clone, Copy, Debug)]
pub enum Further {
    Zmscore,
    Exists,
    TypeOf,
    Zpopmax,
    Zremrangebyscore,
    Zremrangebyrank,
}

/// The further request of this name, in any ASCII case, and `None` for other names.
pub fn find_further(word: &[u8]) -> Option<Further>
    ensures { result ≡ further_of word.now }
{
    if is_word(word, b"ZMSCORE") {
        Some(Further::Zmscore)
    } else if is_word(word, b"EXISTS") {
        Some(Further::Exists)
    } else if is_word(word, b"TYPE") {
        Some(Further::TypeOf)
    } else if is_word(word, b"ZPOPMAX") {
        Some(Further::Zpopmax)
    } else if is_word(word, b"ZREMRANGEBYSCORE") {
        Some(Further::Zremrangebyscore)
    } else if is_word(word, b"ZREMRANGEBYRANK") {
        Some(Further::Zremrangebyrank)
    } else {
        None
    }
}
