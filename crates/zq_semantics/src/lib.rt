//! What commands and worlds mean. What each command makes of the queues of a site, and what it
//! answers. Runs of a world: sites that are asked, that are handed each other's operations and that
//! merge each other's images, in any order; what they gather, and what they answer.
//!
//! The definitions are in `specs/`. Each law of them is the contract of a public function with an
//! empty body.
#![tactic(auto)]

mod answers;
mod books;
mod examples;
mod heaps;
mod joins;
mod keys;
mod procedures;
mod sets;

pub use answers::{asking, converging, counting, reading};
pub use books::{doing, drawing, holding, recording};
pub use examples::{answering, planning, slicing};
pub use heaps::narrowing;
pub use joins::meeting;
pub use keys::{one_key, watching};
pub use procedures::{answering_each, calling, reading_each, removing};
pub use sets::{gathering, telling};
