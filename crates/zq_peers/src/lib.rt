//! The link threads of sites: each takes what comes to its site, has the site's node hear it, and
//! carries what comes of it to the other sites.
#![tactic(auto)]

mod attending;
mod carry;
mod inbox;
mod link;
mod lossy;
mod mailbox;
mod sending;
mod sites;
mod straight;
mod tray;
mod unheard;
mod witness;

pub use attending::Link;
pub use carry::Carry;
pub use inbox::{Inbox, Incoming};
pub use lossy::Lossy;
pub use mailbox::{Handed, Mailbox};
pub use sites::others;
pub use straight::Straight;
pub use tray::{Fate, Slip, Taken};
pub use unheard::Unheard;
pub use witness::{Silent, Witness};

#[cfg(test)]
mod tests;
