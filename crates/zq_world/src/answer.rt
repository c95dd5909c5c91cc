//! What events are answered.

use zq_shard::Taken;

/// What an event is answered.
#[derive(Debug, Drop)]
pub(crate) enum Answer {
    /// A request, by the bytes of its reply.
    Replied(Vec<u8>),
    /// An operation that was handed over. There is nothing where a number that the site needs is at
    /// its last value.
    Handed(Option<Taken>),
    /// A merge, which answers nothing.
    Merged,
}
