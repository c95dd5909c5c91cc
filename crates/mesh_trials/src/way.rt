//! A link in one direction.

use crate::news::News;
use crate::watch::Watch;
use std::alloc::{AllocError, Global};
use std::collections::VecDeque;
use zq_dots::SiteNo;

/// A frame that is under way.
#[derive(Drop)]
pub struct Sent {
    /// Its bytes.
    pub bytes: Vec<u8>,
    /// What they say.
    pub news: News,
}

impl Sent {
    /// A copy of the frame.
    pub fn copy(&self, alloc: Global) -> Result<Sent, AllocError> {
        Ok(Sent {
            bytes: self.bytes.clone()?,
            news: self.news.copy(alloc)?,
        })
    }
}

/// A link in one direction.
#[derive(Drop)]
pub struct Way {
    /// The place of the sender.
    pub from: usize,
    /// The place of the receiver, and its number.
    pub to: usize,
    pub peer: SiteNo,
    /// The number of the link, where it is up.
    pub link: Option<u64>,
    /// Whether it will not come up again, as a site has died.
    pub is_gone: bool,
    /// What is under way, in the order in which it was sent.
    pub frames: VecDeque<Sent>,
    /// What went since the link came up.
    pub watch: Watch,
}

/// The way back, of the way of this number: the ways of a link lie side by side.
pub fn back_of(way: usize) -> usize {
    way ^ 1
}
