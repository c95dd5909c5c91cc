//! What the one writer of a site's log does: which entries it writes, in which order, and what it
//! tells as durable.
//!
//! | call | writes | after it |
//! |---|---|---|
//! | `begin` | a Start with the next number | the site is started |
//! | `round` | one Round of batches, committed | what is in it is durable |
//! | `round_next` | one Round of batches, in the next file alone | it is durable once that is published |
//! | `rest` | one Rest, committed, where something came since the last one | damage of all before it is told |
//! | `begin_switch` | a Start in a next file | a switch is going on |
//! | `piece`, `seal` | one piece of a heap, or that all of them are there, in the next file | one step of the switch is done |
//! | `room` | nothing | there is room for what follows, or the disk is full and the keeper as it was |
//! | `flush` | nothing | what is written of the next file is on the disk |
//! | `publish` | nothing | the next file is the log |
//!
//! A keeper holds an outline of each heap, as the log has it: what is said of it but for its
//! members. Each entry is judged by the outlines before it is written, with the rules by which it is
//! taken when the log is read again. So nothing is written that would be refused then.
//!
//! From the first piece of a heap on, what a round has of this heap goes into both files. A first
//! piece has at least the operations that the log has of its heap. Where it has more, the heap is
//! ahead of the log, as after a merge: what follows goes by `round_next` into the next file alone,
//! and nothing of it is told until that is published.
//!
//! | after a fault | the keeper |
//! |---|---|
//! | `NoMemory`, `Refused` | is as it was: nothing was written |
//! | `Failed` | has stopped: nothing more is written, and nothing more is told |
#![tactic(auto)]

mod beginning;
mod entries;
mod fault;
mod keeper;
mod laws;
mod next;
mod operations;
mod outline;
mod pieces;
mod publishing;
mod reader;
mod resting;
mod room;
mod rounds;
mod size;
mod switching;
mod turn;
mod writing;

pub use fault::KeeperFault;
pub use keeper::Keeper;
pub use laws::{kept_is_read, told_is_regained};
pub use next::{Next, Part};
pub use outline::Outline;
pub use reader::Reader;
pub use size::Size;
