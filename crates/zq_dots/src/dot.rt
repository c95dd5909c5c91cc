//! The names of operations in a heap.

use crate::site_no::SiteNo;

/// The name of an operation in its heap: the site that made it, and its place, from 1, among those
/// that the site made there.
#[derive(Clone, Copy, Debug, PartialEq, Eq)]
pub struct Dot {
    pub site: SiteNo,
    pub n: u64,
}
