//! What is watched, its type.
ghost use Rattle.std.specs.Prelude.{◌≡◌};
ghost use Rattle.zq_journal.specs.Untouched.{keys_of};

use std::marker::Model;
use zq_dots::Vector;

/// Keys of which is asked later whether they were changed, with the vector that each heap of a site
/// had since when they are to stay as they are, by the number of the heap.
#[derive(Debug, Drop)]
pub struct Watched {
    pub(crate) vectors: Vec<Vector>,
    pub(crate) keys: Vec<Vec<u8>>,
}

impl Model for Watched {
    ghost use Rattle.zq_journal.specs.Untouched.{keys_of};
    ghost use Rattle.zq_spread.specs.Watches.{Watch};

    ghost Value = { Watch };

    ghost view = { λ w. record { vectors = w.vectors.items; keys = keys_of w.keys.items } };
}

impl Watched {
    /// The keys.
    pub fn keys(&self) -> &[Vec<u8>]
        ensures { keys_of result.now ≡ self.now.keys }
    {
        &self.keys
    }

    /// The keys, which are watched no more.
    pub fn into_keys(self) -> Vec<Vec<u8>>
        ensures { keys_of result.items ≡ self.keys }
    {
        let Watched { vectors: _, keys } = self;
        keys
    }
}
