//! One heap of a site: the image of the operations that the site has taken there, kept by making
//! operations, by taking those of others and by merging what others have.
#![tactic(auto)]

mod boxed_queue;
mod faults;
mod joins;
pub mod laws;
mod lending;
mod listing;
mod making;
mod merging;
mod queues;
mod readings;
mod row;
mod shard;
mod spot;
mod steps;
mod taken;
mod walking;

pub use faults::{MakeFault, MergeFault, TakeFault};
pub use row::{Row, RowRef};
pub use shard::Shard;
pub use spot::Spot;
pub use taken::Taken;
pub use walking::Piece;
