//! The words of replication: site numbers, scores, the rule of scores, dots, version vectors, acts
//! and operations, and the hash that says in which heap a member lies.
#![tactic(auto)]

mod act;
mod dot;
mod heaps;
mod op;
mod rule;
mod score;
mod site_no;
mod vector;

pub use act::Act;
pub use dot::Dot;
pub use heaps::{fnv1a64, heap_of};
pub use op::{LONGEST, Op};
pub use rule::Rule;
pub use score::{GREATEST, Score};
pub use site_no::{SITES, SiteNo};
pub use vector::{LAST_COUNTER, Vector, Worn};
