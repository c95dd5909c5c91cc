//! In which state a log is.

use zq_recovery::Refusal;

/// In which state a log is.
#[derive(Clone, Copy, Debug, PartialEq, Eq)]
pub enum State {
    /// All of its bytes are records that fit, but for zeros that were written ahead.
    Whole,
    /// The same, and then bytes that are no whole record: what a crash leaves, or a site that is
    /// writing. A start cuts them off.
    Torn,
    /// There is no record. A start takes it for a new log.
    Empty,
    /// There is damage that no crash leaves. No site takes it.
    Damaged,
    /// A record does not fit those before it, for this reason. No site takes it.
    Refused(Refusal),
}
