//! A loop that serves the connections of a port by a few threads: one that accepts them, and
//! workers, each of which serves thousands by turns. A worker reads once of each connection that
//! has brought something, answers what came, and when it has done so for all, writes once to each.
//! So a connection that is silent, slow or stuck holds up no other. What each connection is
//! answered, `zq_session` says. A connection may have something of its own, which what answers is
//! lent for its turn. One that has yet to show who it is, where that is asked, is closed after ten
//! seconds or 65,536 bytes.
#![tactic(auto)]

mod accepting;
mod along;
mod attending;
mod client;
mod closing;
mod counts;
mod ending;
mod inbox;
mod limits;
mod noting;
mod places;
mod poller;
mod port;
mod socket;
mod standing;
mod taking_in;
#[cfg(test)]
mod tests;
mod turns;
mod watch;
mod worker;

pub use accepting::Acceptor;
pub use along::{keeping_at_sockets, keeping_through_lives};
pub use attending::{Alike, Attended, Attends};
pub use client::Client;
pub use counts::PortFigures;
pub use limits::Limits;
pub use poller::Poller;
pub use port::Port;
pub use socket::{Moved, Socket};
pub use watch::{PortFault, Watch};
