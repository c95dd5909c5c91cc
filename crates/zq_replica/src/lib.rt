//! What a site knows of its peers, and pushes to them.
//!
//! Operations are pushed, each once: after calls a site sends each peer the operations that it made
//! and, where the peer asks for it, those of sites that the peer has no link to. It keeps, for each
//! peer and heap, a vector of what the peer has, or will have once it has heard what is under way.
//! Peers tell each other what they have as a link begins, as an acknowledgement, and from time to
//! time, so that what was lost is sent again.
//!
//! Between the heaps and the links stand logs of written operations. `drain` takes what a heap has
//! made since into its log. A peer that lacks what a log has no more is told so, and fetches the
//! heap, from one peer at a time. The heap comes in pieces, with operations between them, which are
//! gathered beside the site's own heap; once it is whole it takes the place of that. A peer that
//! knows no pieces is sent it at once.
#![tactic(auto)]

mod calming;
mod catching;
mod controlling;
mod end;
mod exchanging;
mod fence;
mod gathering;
mod hearing;
mod joining;
mod lagging;
mod lives;
mod logs;
mod parcels;
mod passing;
mod piecing;
mod protocol;
mod pushing;
mod raising;
mod replica;
mod routing;
mod serving;
mod spelling;
mod telling;
mod told;
mod unwritten;

pub use fence::Fenced;
pub use lives::{PORTION, Portioning};
pub use logs::{Drained, LogSize, Logs};
pub use parcels::Parcels;
pub use protocol::Protocol;
pub use replica::{LEAST_WINDOW, Replica, window_for};
