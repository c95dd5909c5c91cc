//! The admin port of a site: what may be asked of it over HTTP, what is answered, and who asks.
//!
//! A [`Desk`] is what an admin port stands before: it says how ready its site is, gives the texts of
//! its pages, and is told that the site is to end. [`AdminPort`] serves a few connections at once, by
//! one thread, so that one that is slow or silent holds up no other. [`ask`] is the other side.
//!
//! The texts of pages are made here of what a site gives: [`PAGE`] is the page for people,
//! [`peers_page`] and [`keys_page`] are in JSON.
#![tactic(auto)]

mod asked;
mod asking;
mod clerk;
mod count;
mod desk;
mod filling;
mod host;
mod json;
mod keys_text;
mod largest;
mod page;
mod page_text;
mod peers_text;
mod port;
mod readiness;
mod reply;
mod sender;
#[cfg(test)]
mod tests;
mod token;
mod visit;

pub use asked::{Asked, Denial, asked_by};
pub use asking::{Answer, ask};
pub use clerk::Clerk;
pub use count::{MOST_KEYS, USUAL_KEYS};
pub use desk::Desk;
pub use host::is_literal;
pub use json::{push, push_text};
pub use keys_text::{Found, keys_page};
pub use largest::{KeyCount, Largest, summed};
pub use page::Page;
pub use page_text::PAGE;
pub use peers_text::{PeerShown, peers_page};
pub use port::AdminPort;
pub use readiness::Readiness;
pub use sender::Sender;
