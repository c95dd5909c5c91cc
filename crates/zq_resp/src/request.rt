//! A request, and which ones are kept for their memory.

ghost use Rattle.std.specs.Prelude.{◌≡◌, map};
ghost use Rattle.zq_resp.specs.Request.{IsRequest};

use std::marker::Model;

/// The words of a request: 1 to 65,536 words, each of at most 1,048,576 bytes.
#[derive(Debug, Drop)]
pub struct Request {
    words: Vec<Vec<u8>>,
}

impl Model for Request {
    ghost use Rattle.std.specs.Prelude.{List, ℕ, map};

    ghost Value = { List (List ℕ) };

    ghost use Rattle.zq_resp.specs.Request.{IsRequest};

    ghost view = { λ r. map (λ w. w.items) r.words.items };

    ghost invariant = { λ r. IsRequest (map (λ w. w.items) r.words.items) };
}

/// A small request has so many words at most.
const FEW_WORDS: usize = 9;

/// The list of a small request's words has at most so many places.
const FEW_PLACES: usize = 16;

/// Each word of a small request has at most so many bytes of memory.
const SHORT_WORD: usize = 128;

impl Request {
    /// A request of these words.
    pub fn new(words: Vec<Vec<u8>>) -> Self
        requires { IsRequest (map (λ w. w.items) words.items) }
        ensures { result ≡ map (λ w. w.items) words.items }
    {
        Request { words }
    }

    /// The words, the command's name first.
    pub fn words(&self) -> &[Vec<u8>]
        ensures words { map (λ w. w.items) result.now ≡ self.now }
        ensures limits { IsRequest self.now }
    {
        &self.words
    }

    /// The words, the command's name first. It copies nothing.
    pub fn into_words(self) -> Vec<Vec<u8>>
        ensures words { map (λ w. w.items) result.items ≡ self }
        ensures limits { IsRequest self }
    {
        self.words
    }

    /// Whether it takes little memory: it has at most nine words, in a list of at most 16 places,
    /// and each word has at most 128 bytes of memory.
    pub(crate) fn is_small(&self) -> bool {
        self.words.len() <= FEW_WORDS
            && self.words.capacity() <= FEW_PLACES
            && self.words.iter().all(|word| word.capacity() <= SHORT_WORD)
    }
}
