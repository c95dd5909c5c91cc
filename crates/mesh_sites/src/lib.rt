//! Sites that push to each other in one process: what drawn worlds (`mesh_trials`) and tests
//! (`replica_tests`) are made of.
//!
//! A [`Station`] is a site with all that it takes to push. It hands out frames and hears them;
//! nothing else goes between sites. So whoever holds the stations says which frames come, when, and
//! in which order, and how time goes by. A [`Saying`] is a frame of a peer that is made by hand.
#![tactic(auto)]

mod asking;
mod fault;
mod opened;
mod plan;
mod saying;
mod station;

pub use fault::StationFault;
pub use opened::{Opened, open_all};
pub use plan::{HEAPS, SitePlan};
pub use saying::Saying;
pub use station::{Station, seat_all};
