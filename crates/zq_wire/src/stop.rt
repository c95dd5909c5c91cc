//! Why reading stops.

use crate::refusal::Refusal;

/// Why a part of what a peer says is not read.
#[derive(Clone, Copy, Debug, PartialEq, Eq)]
pub(crate) enum Stop {
    /// Bytes of it have not come yet.
    Short,
    /// It does not agree.
    Refused(Refusal),
}
