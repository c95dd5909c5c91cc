//! Words without regard to ASCII case.

ghost use Rattle.std.specs.Prelude.{IsTrue, ◌≡◌};
ghost use Rattle.zq_words.specs.Words.{has, is, views};

/// Whether a word is this one, without regard to ASCII case. Most clients write names as they are
/// written here, which a comparison of bytes sees first.
#[inline(always)]
pub fn is_word(word: &[u8], name: &[u8]) -> bool
    ensures { result ≡ is word.now name.now }
{
    is_spelled(word, name) || word.eq_ignore_ascii_case(name)
}

/// Whether a word is this one, byte by byte.
#[inline(always)]
fn is_spelled(word: &[u8], name: &[u8]) -> bool
    ensures { IsTrue result → word.now ≡ name.now }
{
    if word.len() != name.len() {
        return false;
    }
    for place in 0..name.len() {
        if word[place] != name[place] {
            return false;
        }
    }
    true
}

/// Whether one of the words is this one.
pub fn has_word(words: &[Vec<u8>], name: &[u8]) -> bool
    ensures { result ≡ has name.now (views words.now) }
{
    let mut rest = words;
    while let [first, others @ ..] = rest {
        if is_word(first, name) {
            return true;
        }
        rest = others;
    }
    false
}
