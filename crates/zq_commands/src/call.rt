//! What the moves of a command share.

use std::alloc::Global;
use zq_dots::SiteNo;

/// What the moves of a command share: where their memory is from, the site that makes them, and the
/// stamp of its call.
#[derive(Clone, Copy)]
pub struct Call {
    pub alloc: Global,
    pub site: SiteNo,
    pub stamp: u64,
}
