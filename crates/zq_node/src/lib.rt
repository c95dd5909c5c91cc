//! A site's node: it hears frames, keeps operations that came early until what they follow has
//! come, and answers what a peer lacks. Beside it, workers: threads that make calls of the site.
#![tactic(auto)]

mod batching;
mod duty;
mod faults;
mod gate;
mod hearing;
mod home;
mod job;
mod node;
mod parked;
mod replacing;
mod settling;
mod showing;
mod taking;
mod telling;
mod work_fault;
mod worker;
mod working;

pub use faults::NodeFault;
pub use gate::Gate;
pub use job::Job;
pub use node::Node;
pub use parked::{MOST_PARKED, Parked};
pub use work_fault::WorkFault;
pub use working::work;

#[cfg(test)]
mod tests;
#[cfg(test)]
mod work_tests;
