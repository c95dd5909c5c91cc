//! What a site does to a member, as the tests tell it.

use zq_dots::{Act, Score};

/// What a site does to a member.
#[derive(Clone, Copy)]
pub enum Deed {
    /// Puts it at this score.
    Put(i64),
    /// Adds this much to it.
    Bump(i64),
    /// Drops it.
    Drop,
}

impl Deed {
    /// The act that it is, and `None` where its number is no score.
    pub fn act(self) -> Option<Act> {
        match self {
            Deed::Put(score) => Some(Act::Put(Score::new(score)?)),
            Deed::Bump(increment) => Some(Act::Bump(Score::new(increment)?)),
            Deed::Drop => Some(Act::Drop),
        }
    }
}
