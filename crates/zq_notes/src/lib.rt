//! The history of a site's calls: notes of them, in an order in which each found what those before
//! it left, are one thread's; what they come to at several sites.
//!
//! The definitions are in `specs/`. Each law of them is the contract of a public function with an
//! empty body.
#![tactic(auto)]

mod calls;
mod examples;
mod history;
mod runs;
mod sets;
mod sites;

pub use calls::noting;
pub use examples::{
    a_repeat_changes_nothing, what_is_not_of_one_kind_is_refused, what_was_put_is_read,
};
pub use history::{calling, one_history};
pub use runs::playing;
pub use sets::{gathering_notes, reading_notes, watching_notes};
pub use sites::linking;
