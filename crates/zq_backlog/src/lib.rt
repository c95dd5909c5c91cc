//! The log of written operations of one heap, which stands between the heap's book and the links.
//!
//! What a heap takes is drained into its log once, in the order of its records. Each operation is
//! written there once, in the newest version, and batches for any peer are copied out of it: the
//! heap is not locked for a peer, and a merge of the heap takes nothing out of the log. The log is
//! bounded by bytes: where it has too many the oldest operations go.
//!
//! | word | means |
//! |---|---|
//! | base | of each site the operations from the next counter on are in the log |
//! | last | of each site the last counter that came, in the log or skipped |
//! | place | the number of an operation among all that ever came, from 0 on; it keeps it |
#![tactic(auto)]

mod backlog;
mod backlog_laws;
mod batch;
mod choice;
mod chunk;
mod frame;
mod run;
#[cfg(test)]
mod tests;
mod texts;

pub use backlog::Backlog;
pub use backlog_laws::{batches_follow, batches_push, logs_keep};
pub use batch::{Batch, MOST_BATCH, MOST_LOOKED};
