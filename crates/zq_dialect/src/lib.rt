//! Requests as other clients of Redis send them, rewritten word by word into requests that
//! `zq_words` reads: older names of commands, and numbers in other spellings. And further requests
//! on keys, which are no commands.
//!
//! The definitions are in `specs/`. The functions that do nothing stand for laws of them.
#![tactic(auto)]

mod asking;
mod bounds;
mod building;
mod digits;
mod ends;
mod flags;
mod further;
mod laws;
mod name;
mod number;
mod older;
mod plain;
mod rewriting;
mod rounded;
mod scores;

pub use asking::read_call;
pub use laws::{bounds_take_the_same, further_requests, older_names, other_names, values_stay};
pub use rewriting::rewritten;
