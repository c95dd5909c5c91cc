//! The members of one key with their entries, by which the key's queue is read: its members with
//! their scores, by score and then by the members' bytes.
//!
//! Most keys have few members. These lie in one list, which each call scans. Of many, a member's
//! score and its entry lie in one slot of a positioned heap, so that a call looks its member up
//! once. An ordered index beside the heap, once a call made it, answers readings in order in
//! logarithmic time.
#![tactic(auto)]

mod changes;
mod copies;
mod each;
mod effect;
mod few;
mod forms;
mod index;
mod indexed;
pub mod laws;
mod members;
mod merges;
mod orders;
mod place;
mod queue;
mod readings;
mod rows;
mod scanned;

pub use effect::Effect;
pub use queue::Queue;
