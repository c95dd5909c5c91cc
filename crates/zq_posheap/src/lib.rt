//! A priority queue whose members can be found, moved and removed: a map from member to score and
//! value, with a least element.
//!
//! A binary heap lies in a vector, an index map has the members, and a second vector says where in
//! the heap each of these is. Changing, adding and removing a member take logarithmic time, the
//! least one is read at once, and none of them hashes more than the member it is given. Equal
//! scores go by the members' bytes.
#![tactic(auto)]

mod changes;
mod guess;
mod hashing;
mod heap;
pub mod laws;
mod name;
mod near;
mod pairs;
mod place;
mod pos_heap;
mod readings;
mod same;
mod seeded;

pub use guess::Guess;
pub use name::{Name, NameRef};
pub use pairs::Pairs;
pub use place::Place;
pub use pos_heap::PosHeap;
pub use same::overwrite;
pub use seeded::Seeded;
