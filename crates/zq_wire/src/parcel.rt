//! A frame that waits.
use crate::topic::Topic;

/// A frame that waits, and what it is about.
#[derive(Debug, Drop)]
pub struct Parcel {
    /// What it is about.
    pub topic: Topic,
    /// Its bytes.
    pub frame: Vec<u8>,
}
