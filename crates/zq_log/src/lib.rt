//! A log that never waits: lines with a time, a queue of so many lines before a thread that writes
//! them, and a limit on lines that repeat.
//!
//! What logs puts its line into the queue of a [`LogQueue`], under a lock that nobody holds while a
//! device is written to. A line that finds no room is dropped and counted. The thread that runs
//! [`write_lines`] alone waits for the device.
#![tactic(auto)]

mod backlog;
mod intake;
mod kinds;
pub mod laws;
mod limiter;
mod line;
mod pairs;
mod pen;
mod queue;
mod queue_log;
mod stamp;
#[cfg(test)]
mod tests;
mod writing;

pub use backlog::{Backlog, Entry, MOST_LINES};
pub use intake::{Intake, Moment};
pub use kinds::{Kinds, kind_of};
pub use limiter::Limiter;
pub use line::line_of;
pub use pairs::{is_plain, push_pair};
pub use pen::Pen;
pub use queue::LogQueue;
pub use queue_log::QueueLog;
pub use stamp::{Stamp, stamp_of};
pub use writing::write_lines;
