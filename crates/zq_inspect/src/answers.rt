//! A list of what reads of a file answered, which only clauses read.
ghost use Rattle.std.specs.Prelude.{◌≡◌, List, [], ◌∷◌};
ghost use Rattle.std.specs.Borrow.{ftrue};
ghost use Rattle.zq_inspect.specs.Bytes.{Answer, answer_of};

use std::marker::{Model, PhantomData};

/// What the reads of a file answered, the newest first.
#[derive(Drop)]
pub struct Answers {
    marker: PhantomData<u8>,
    pub ghost events: { List Answer },
}

impl Model for Answers {
    ghost also_owns = { λ _. ftrue };
}

impl Answers {
    /// Nothing was read.
    pub(crate) fn new() -> Answers
        ensures { result.events ≡ [] }
    {
        Answers {
            marker: PhantomData,
        }
    }

    /// A read gave these bytes, where the first number is 1, and else failed; the second number is
    /// how much room there was.
    pub(crate) fn note(&mut self, _numbers: &[u64], _bytes: &[u8])
        ensures { self.new.events ≡ answer_of _numbers.now _bytes.now ∷ self.old.events }
    {}
}
