//! Cases of hostile use that need no node: calls of which a growth is refused, and streams that are
//! cut or fail anywhere.
//!
//! The program `zq_hostile` runs them beside its own, which need nodes, links and worlds.
#![tactic(auto)]

mod books;
mod careless;
mod cases;
mod commands;
mod devices;
mod ended;
mod feeding;
mod indexes;
mod lines;
mod making;
mod merging;
mod shards;
mod sites;
mod streams;
mod transacting;
mod visits;
mod worn;

pub use cases::case;
pub use commands::REFUSED;
pub use ended::{Ended, Tried, judge};
pub use merging::is_at_site;
pub use shards::{THEIRS, is_written, operations, taken, written};
pub use sites::{answer, last_pass, made, opened_with, request};
