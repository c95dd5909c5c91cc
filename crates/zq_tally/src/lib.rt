//! A table that counts the steps of several passes, and the total of them all.
//!
//! Each pass has a [`Count`], a token that keeps how many steps the pass has made. One [`Total`]
//! keeps the sum. They are seats of one [`Tally`], a table that has one word, which never changes.
//! What a seat knows of the table is its view: the steps of the passes that are joined in it, the
//! parts of the table that it keeps beside them, and a total, where it has one. Between any two
//! steps
//!
//! - the parts of all views add up to [`PARTS`], and each pass is one part, so a view without a
//!   part has no steps;
//! - one view keeps a total, and it is the sum of the steps of all views.
//!
//! So whoever has all parts together knows that the total is the sum. The table changes in three
//! kinds of step alone, each a load of its word: a *join* puts two views together, a *split* takes
//! one out again, and a *look* learns what the rule says of a view.
#![tactic(auto)]

mod calls;
mod count;
mod errors;
mod rule;
mod steps;
mod tally;
mod total;
mod view;

pub use calls::LAST_TOTAL;
pub use count::Count;
pub use errors::NoMemory;
pub use tally::Tally;
pub use total::Total;
pub use view::PARTS;

#[cfg(test)]
mod tests;
