//! What the calls of several sites come to, some of which crash and begin again with what their
//! logs have.
//!
//! The definitions are in `specs/`. Each law of them is the contract of a public function with an
//! empty body.
#![tactic(auto)]

mod examples;
mod runs;
mod starts;

pub use examples::what_nobody_has_may_be_lost;
pub use runs::{restarting, unbroken};
pub use starts::{beginning, regaining};
