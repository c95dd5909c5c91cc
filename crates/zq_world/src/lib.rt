//! Worlds: sites that are asked requests, are handed each other's operations and merge each other's
//! images, in any order.
//!
//! A world has up to 64 sites of 2 to 16 heaps each. Operations and images pass from one site to
//! another as the bytes of their frames. What the sites have after every list of events is the run
//! of these events in `zq_semantics`: so two sites that have taken the same operations, in whatever
//! order, answer every reading request by the same bytes.
#![tactic(auto)]

mod answer;
mod asking;
mod event;
mod faults;
mod frames;
mod holder;
mod keeping;
mod merging;
mod near;
mod opening;
mod outcome;
mod player;
mod playing;
mod question;
mod running;
mod stamps;
mod taking;
mod wanted;
mod world;

pub use event::Event;
pub use faults::{AnswerFault, PlayFault};
pub use frames::carrying;
pub use playing::{play, play_ruled};
pub use world::World;
