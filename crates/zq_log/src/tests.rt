//! Lines, limits and queues.

mod ends;
mod limits;
mod lines;
