//! What a site is to be.

use zq_dots::SiteNo;

/// How many heaps each site has.
pub const HEAPS: u8 = 2;

/// A site that is to be.
#[derive(Clone, Copy, Debug)]
pub struct SitePlan {
    /// Its number.
    pub number: SiteNo,
    /// How many operations of a heap may be under way to it.
    pub window: u64,
    /// How many bytes each of its logs keeps.
    pub log: u64,
    /// How many members of a heap it gives a peer at once. `None` where it knows only whole heaps.
    pub piece: Option<usize>,
}
