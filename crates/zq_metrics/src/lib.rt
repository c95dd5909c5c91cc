//! What a site shows of itself: counters that workers write and an admin port reads, and the
//! figures of a site in the text format of Prometheus.
//!
//! Each worker counts in words of its own, so that none waits for another. Who asks reads these one
//! after the other, and adds up what all workers counted. Labels are numbers and words of the
//! program's own, so that none has to be escaped.
#![tactic(auto)]

mod closing;
mod command;
mod counters;
mod counts;
mod figures;
mod lines;
mod metric;
mod page;
#[cfg(test)]
mod tests;
mod timing;

pub use closing::{CLOSINGS, Closing};
pub use command::{COMMANDS, Command, command_of};
pub use counters::{Counters, WorkerCounters};
pub use counts::Counts;
pub use figures::{
    ClientFigures, DiskFigures, Figures, HeapFigures, PeerFigures, SiteFigures, WalkFigures,
};
pub use metric::{Metric, Sort};
pub use page::write_page;
pub use timing::{BOUNDS, BUCKETS, Durations, bucket_of};
