//! A drill of three sites whose links lose frames, double them and change their order: what each
//! caller does, how the sites come to have the same, and what is written of them at the end.
#![tactic(auto)]

mod calling;
mod draws;
mod drill_site;
mod drilling;
mod exchange;
mod fault;
mod handling;
pub mod laws;
mod linking;
mod listing;
mod opening;
mod report;
mod request;
mod running;
mod site_handle;

pub use draws::{Draw, Draws};
pub use drilling::drill;
pub use fault::DrillFault;
