//! What is to be written to the two files.

use crate::next::Next;
use crate::outline::Outline;
use zq_entries::Start;

/// What is to be written to the log: an entry, and what the log says after it of the site and of
/// each heap.
#[derive(Drop)]
pub(crate) struct Turn {
    pub(crate) entry: Vec<u8>,
    pub(crate) start: Start,
    pub(crate) heaps: Vec<Outline>,
}

/// What is to be written to the next file: an entry, and that file with it.
#[derive(Drop)]
pub(crate) struct Share {
    pub(crate) entry: Vec<u8>,
    pub(crate) next: Next,
}
