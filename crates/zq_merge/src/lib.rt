//! States of heaps as bytes, for sites that catch up with one another at once.
//!
//! A frame has, with the highest byte of a number first:
//!
//! | field | fault |
//! |---|---|
//! | version, 1 to 3 | Version |
//! | number of heaps, 1 to 16 | Field |
//! | heap, below it | Field |
//! | rule, 0 High or 1 Low; version 3 alone | Field |
//! | vector, each counter at most 281474976710655 | Field |
//! | number of keys, eight bytes | |
//! | for each key four bytes of length, at most 1048576, and its bytes, above the key before | Length, Order |
//! | number of its members, eight bytes, at least 1 | Field |
//! | for each member four bytes of length, at most 1048576, and its bytes, above the member before; its hash gives the heap | Length, Order, WrongHeap |
//! | number of its additions, at least 1 | Field |
//! | for each addition its site, above the site before | Field, Order |
//! | counter, eight bytes, 1 to the vector's counter of the site | Dot |
//! | score, eight bytes, an amount of at most 9007199254740992 | Score |
//! | sums, sixteen bytes each, an amount of at most 9007199254740992 times the vector's counter of the sum's site | Total |
//! | nothing follows | Rest |
//!
//! | version | rule | sites | vector | sums |
//! |---|---|---|---|---|
//! | 1 | High | 0 to 7 | eight bytes for each site | one for each site |
//! | 2 | High | 0 to 63 | how many are not 0, and for each of those the site, in rising order, and eight bytes | how many are not 0, and for each of those the site, in rising order, and the sum |
//! | 3 | in the frame | 0 to 63 | as 2 | as 2 |
//!
//! All versions are read; what is written has version 3. The first fault from the left is the
//! answer. Where a field has more than one, they are looked for in the order of the table; bytes
//! that are missing are Short.
#![tactic(auto)]

mod addition;
mod fault;
mod frame;
mod key;
mod keys;
mod laws;
mod member;
mod part;
mod read;
mod state;
mod sum;
mod sums;
mod text;
mod version;
mod write;

pub use fault::StateFault;
pub use laws::{merged_again, one_spelling};
pub use read::read_state;
pub use state::write_state;
pub use version::Version;
