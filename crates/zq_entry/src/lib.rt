//! The live additions of one member of a replicated queue: an observed-remove set in which a Put
//! adds, and a Put or Drop takes away what its site had seen (Shapiro, Preguiça, Baquero and
//! Zawirski, "Conflict-free Replicated Data Types", 2011).
#![tactic(auto)]

mod addition;
mod addition_ref;
mod additions;
mod entry;
mod lent_sums;
mod lower;
mod merge;
mod places;
mod storage;
mod sums;

pub use addition::Addition;
pub use addition_ref::AdditionRef;
pub use entry::Entry;
pub use lent_sums::LentSums;
