//! The model of the replicated queue: sets of operations, what a set means, the images that
//! replicas keep with their rows and their bounds, and the join of images. The history of a book of
//! operations: what records and merges make of its base, what undoing them gives back, and when one
//! book is reached from another. The queues of a site over the books of its heaps: what moves make
//! of them, how they are read, and what they mean.
//!
//! The definitions are in `specs/`. Each law of them is the contract of a public function with an
//! empty body.
#![tactic(auto)]

mod books;
pub mod bounded;
pub mod examples;
pub mod hashing;
pub mod images;
pub mod joins;
mod meanings;
pub mod merges;
mod moves;
pub mod queues;
mod reach;
mod readings;
pub mod rows;
pub mod scores;
mod stamps;
pub mod steps;
pub mod tails;
mod undo;

pub use books::{keeping, taking_over, telling};
pub use meanings::naming;
pub use moves::moving;
pub use reach::{cutting, growing, reaching, working};
pub use readings::{counting, heading, ranking, scoring};
pub use stamps::dating;
pub use undo::undoing;
