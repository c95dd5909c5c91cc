//! A frame, its type.
use zq_dots::{Op, Rule, SiteNo, Vector};
use zq_shard::Shard;

/// What a site has of one of its heaps.
#[derive(Clone, Copy, Debug)]
pub struct Have {
    /// The site.
    pub from: SiteNo,
    /// The heap, below the number of heaps.
    pub heap: u8,
    /// The site's number of heaps, 1 to 16.
    pub heaps: u8,
    /// The rule of its scores.
    pub rule: Rule,
    /// The operations that it has taken there.
    pub vector: Vector,
}

/// What one site sends to another.
#[derive(Drop)]
pub enum Frame {
    /// The sender has this.
    Have(Have),
    /// Operations that the receiver may lack, at most 4294967295.
    Ops(Vec<Op>),
    /// The state of a heap of the sender's.
    State(Shard),
}
