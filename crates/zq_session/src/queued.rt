//! Requests that are answered together, later.

use zq_resp::{Reply, Request};
use zq_words::Refused;

/// A request that waits to be answered with others, as it was read.
#[derive(Debug, Drop)]
pub enum Queued {
    /// It asks the site for what its words say.
    Asked(Request),
    /// It is refused for this reason, at its place.
    Refused(Refused),
    /// The connection answers it itself, once the others are answered.
    Own(Request),
}

/// What came of requests that were to be answered together.
#[derive(Debug, Drop)]
pub enum Transacted {
    /// They are answered, each at its place. What the connection answers itself has the null array
    /// there.
    Ran(Vec<Reply>),
    /// Nothing was done: what is watched was changed.
    Touched,
    /// Nothing was done, for this reason.
    TurnedAway(Reply),
}
