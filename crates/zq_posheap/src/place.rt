//! `Place`.

/// Where a member is among those of a heap: what a look-up found, for the calls that follow it. It
/// is good until a member is removed.
#[derive(Clone, Copy, Debug)]
pub struct Place {
    pub(crate) index: usize,
}
