//! Operations as bytes, for sites that exchange them one by one.
//!
//! A frame has, with the highest byte of a number first: the version; the number of heaps, 1 to 16;
//! the heap, below it; the site; for each site the counter that the operation has seen, at most
//! 281474976710655, and less than that for its own site; the act, 0 a Put, 1 a Bump, 2 a Drop; for
//! a Put or a Bump its score in eight bytes, an amount of at most 9007199254740992; the key and the
//! member, each as four bytes of length, at most 1048576, and its bytes. The operation's own
//! counter is the next after the one seen, and is not written.
//!
//! | version | sites | counters |
//! |---|---|---|
//! | 1 | 0 to 7 | eight bytes for each site |
//! | 2 | 0 to 63 | how many are not 0, at most 64; for each of those the site, in rising order, and eight bytes |
//!
//! Both versions are read; what is written has version 2. Whether the key's and the member's hash
//! gives the heap is not judged here.
#![tactic(auto)]

mod act;
mod fault;
mod head;
mod laws;
mod parts;
mod read;
mod vector;
mod version;
mod write;

pub use fault::OpFault;
pub use laws::one_spelling;
pub use read::read_op;
pub use version::Version;
pub use write::{append_op, write_op};
