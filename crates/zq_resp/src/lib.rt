//! RESP2, the protocol of Redis clients (Redis serialization protocol specification): requests,
//! read from a stream of bytes that comes in any pieces, and the bytes of replies.
//!
//! A request is `*`, the count of its words on a line, and the words; a word is `$`, its length on
//! a line, its bytes, CR LF. A line is a decimal number without leading zeros, and CR LF. `*0` and
//! `*-1` are requests of no words: they are skipped. Inline commands are refused.
#![tactic(auto)]

mod fault;
pub mod laws;
mod reader;
mod reply;
mod request;

pub use fault::{FeedError, FeedFault};
pub use reader::Reader;
pub use reply::{Reply, Text, write_reply};
pub use request::Request;
