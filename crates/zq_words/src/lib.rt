//! Commands of a priority queue, read from the words of a request (Redis command reference: sorted
//! sets, with PING and DEL): what each asks for, or the first reason for which the words are no
//! command, and the heaps that it works in.
#![tactic(auto)]

mod bound;
mod command;
mod flags;
mod heaps;
mod kind;
mod name;
mod named;
mod number;
mod options;
mod pair;
mod pairs;
mod range;
mod refused;
mod site_call;
mod word;
mod zadd;
mod zrange;

pub use bound::{Bound, Limit, parse_bound};
pub use command::Command;
pub use flags::Flags;
pub use heaps::Heaps;
pub use kind::Kind;
pub use number::parse_whole;
pub use pair::Pair;
pub use pairs::Pairs;
pub use range::{Range, Window};
pub use refused::Refused;
pub use site_call::SiteCall;
pub use word::{has_word, is_word};
