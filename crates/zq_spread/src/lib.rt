//! A site of several heaps that threads share: each heap under a lock of its own, each thread with
//! a pass of its own.
#![tactic(auto)]

mod answering;
mod building;
mod calling;
mod calling_all;
mod dispatching;
mod drawing;
mod draws;
mod each;
mod empty_slot;
mod faults;
mod heap_slot;
mod holding;
mod holdings;
mod lending;
mod lending_all;
mod lock_scan;
mod locked_heap;
mod locked_heaps;
mod locking;
mod makers;
mod many_heaps;
mod meeting;
mod merging;
mod one_heap;
mod pass;
mod reading;
mod replacing;
mod seating;
mod site;
mod site_builder;
mod stacking;
mod taken_all;
mod taking;
mod tallying;
mod trying_all;
mod watched;
mod watching;
mod working;

pub use draws::Draws;
pub use faults::{Busy, EachFault, HoldFault, ReadFault, SiteFault, WatchFault};
pub use holdings::Holding;
pub use pass::Pass;
pub use site::Site;
pub use taken_all::{TakeEnd, TakenAll};
pub use watched::Watched;
