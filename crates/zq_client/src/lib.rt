//! What a connection of a site answers itself (Redis command reference: connection management and
//! server): who it is, what it is called, whether it has shown the password, and what tools ask of
//! a server. No request of these touches a key, and none is a call of the site.
//!
//! A connection that has to show a password reaches nothing before it has: all but AUTH, HELLO,
//! QUIT and RESET is answered by one error, and what it is answered depends on nothing but the
//! connection and the password. After ten wrong passwords it ends.
#![tactic(auto)]

mod asked;
mod auth;
mod client;
mod client_state;
mod config;
mod hello;
mod info;
pub mod laws;
mod moment;
mod name;
mod named;
mod number;
mod options;
mod password;
mod profile;
mod server;
mod texts;
mod why;

pub use client_state::ClientState;
pub use moment::Moment;
pub use named::{asks_for_moment, is_own};
pub use password::Password;
pub use profile::Profile;
