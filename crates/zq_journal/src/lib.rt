//! The journal of one heap: its state, with the records that lead there from an older state, so
//! that a peer can be given the operations that it lacks in place of the whole.
#![tactic(auto)]

mod audit;
mod book;
mod cutting;
mod faults;
mod handing;
mod limits;
mod names;
mod own;
mod putting;
mod recording;
mod records;
mod replacing;
mod since;
mod start;
mod trimming;
mod untouched;

pub use book::{Book, LAST_COUNT};
pub use faults::{Advanced, MergeFault, TakeFault, TakeOverFault};
pub use handing::FirstSince;
pub use limits::TailLimits;
pub use since::Since;
