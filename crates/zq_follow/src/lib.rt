//! What a site pushes to its peers: what it knows of each of them, and who sends what to whom. All
//! here is a value; nothing waits, and nothing is sent.
//!
//! **Pushing.** A site keeps a `Follow` for each heap of each peer. Its vector `sent` is what the
//! peer has, or will have once it has heard what is on its way to it, so each operation goes once.
//! The peer's Ats, which tell its vector, raise `sent`. What was lost on the way shows so: an At
//! that was sent in a calm carries a probe, which is its number, and `sent` at that moment. Once
//! the peer has answered it by an At of its own, what it lacks of the probe's `sent` was lost.
//! `sent` is then lowered, and the log is read from its beginning again.
//!
//! **Windows.** A peer grants in each At how many operations of a heap may be on their way to it.
//!
//! **Routes.** A site pushes its own operations, and those that its peer asks it to relay. Each
//! site tells its peers to whom it has links, and asks of each site to which it has none the peer
//! that comes next after it in a ring, of those that have a link to it. A site that no peer has a
//! link to is far. Its operations are relayed by each peer that did not have them from a neighbour
//! of the peer to whom they go.
//!
//! Counters of turns, grants and sums of them stay at their greatest value, 2^64 - 1, once they are
//! there.
#![tactic(auto)]

mod at;
mod class;
mod counts;
mod fence;
pub mod fence_laws;
mod follow;
pub mod follow_laws;
mod heard;
mod missing;
mod relays;
pub mod route_laws;
mod settling;
mod site_set;
mod sites;
#[cfg(test)]
mod tests;

pub use at::{AtHead, HeardAt, PROBE_TURNS, Probe};
pub use class::class_of;
pub use counts::beyond as count_beyond;
pub use fence::{began_with_fewer, is_used_by_others};
pub use follow::Follow;
pub use heard::{has_heard_all, has_heard_one, unheard_of};
pub use missing::overdue;
pub use relays::asks;
pub use site_set::SiteSet;
