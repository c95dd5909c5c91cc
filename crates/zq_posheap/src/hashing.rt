//! How bytes are fed to a hasher.
ghost use Rattle.std.specs.Prelude.{◌≡◌};
ghost use Rattle.std.specs.List.{fold};
ghost use Rattle.zq_posheap.specs.Hashing.{words_of};

use std::hash::Hasher;

/// Feeds bytes by words of eight, the last of which may have fewer. Each word is a write of its
/// own: it meets what the hasher has, which comes from a seed that strangers do not know. Of longer
/// writes the hasher multiplies parts by numbers that everybody knows, so that there are endings
/// which make any bytes collide.
#[tactic(auto, using(crate::proofs::ByWords::word_first, crate::proofs::ByWords::word_last))]
pub(crate) fn write_words<H: Hasher>(bytes: &[u8], state: &mut H)
    ensures { state.new ≡ fold H.write state.old (words_of bytes.now) }
{
    let mut rest = bytes;
    while rest.len() > 8 {
        let (word, others) = rest.split_at(8);
        state.write(word);
        rest = others;
    }
    state.write(rest);
}
