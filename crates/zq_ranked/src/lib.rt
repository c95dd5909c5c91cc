//! An ordered list of distinct pairs of a score and a member, with ranks.
//!
//! The pairs lie in blocks of up to 16, which are the leaves of a tree, all equally deep (Bayer and
//! McCreight 1972). A fork keeps of each child how many pairs it has and the score of the first, so
//! a descent reads pairs only where scores are equal, and pairs, places and ranks are found in
//! logarithmic time, and a change takes no more. A full node is split in two halves; an empty one
//! goes, and nodes are not joined before that (Johnson and Shasha 1993 say why that serves
//! B-trees), so nothing but a growth asks for memory. An iterator keeps its path down the tree and
//! looks nothing up.
#![tactic(auto)]

mod block;
mod child;
mod fork;
mod halves;
mod node;
mod pair;
mod pairs;
mod path;
mod ranked;

pub use pairs::{Backward, Forward};
pub use ranked::Ranked;
