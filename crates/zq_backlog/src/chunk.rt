//! Chunks of texts.
ghost use Rattle.std.specs.Prelude.{◌≡◌, ◌+◌, ◌<◌, ◌^◌, length};

use crate::run::Run;

/// A run of texts, with the number of its first one.
#[derive(Drop)]
pub(crate) struct Chunk {
    /// How many texts ever came before these.
    pub(crate) first: u64,
    pub(crate) texts: Run,
}

impl Chunk {
    /// The number of the text behind these.
    pub(crate) fn end(&self) -> u64
        requires { self.now.first + length self.now.texts < 2 ^ 64 }
        ensures { result ≡ self.now.first + length self.now.texts }
    {
        self.first + self.texts.len() as u64
    }
}
