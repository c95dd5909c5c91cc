//! Operations of one heap as bytes, by differences.
//!
//! A number without a width is a varint: seven bits a byte, the lowest first, 128 added to each but
//! the last; at most eight bytes, and as few as can be. A batch has: the kind, a byte 11; the number
//! of heaps, 1 to 16; the heap, below it; the number of operations, 1 to 4096; and each operation:
//!
//! | field | is |
//! |---|---|
//! | head | a byte. Bits 0 and 1: the act, 0 a Put, 1 a Bump, 2 a Drop. Bit 2: the key is that of the operation before, and has at most 127 bytes. Bit 3: the site is that of the operation before. Bits 4 to 7: how many changes it has, or 15 |
//! | site | a byte, 0 to 63; not where bit 3 is set |
//! | number of changes | a byte, 15 to 64; only where the head says 15 |
//! | changes | each a byte, the site, in rising order, and by how much its counter has risen, 1 or more |
//! | score | of a Put or a Bump: 2 times the amount, and for one below 0 that less 1 |
//! | key | its length, at most 1048576, and its bytes; not where bit 2 is set |
//! | member | its length, at most 1048576, and its bytes |
//!
//! The changes are those of the vector that the operation's site had seen: from the vector that the
//! operation before of this site in the batch had seen, with that operation itself, or else from
//! nothing. So the own site has a change at most in the first operation of a site, and counters of a
//! site follow one another. Counters are at most 281474976710655, and less than that for the
//! operation's own site.
//!
//! Bits 2 and 3 are set exactly where they can be: operations have one spelling together. Whether
//! the key's and the member's hash gives the heap is not judged here.
#![tactic(auto)]

mod act;
mod before;
mod changes;
mod fault;
mod head;
mod laws;
mod names;
mod op;
mod ops;
mod read;
mod score;
mod spelled;
mod varint;
mod view;
mod views;
mod write;

pub use fault::BatchFault;
pub use laws::{no_gaps, one_spelling};
pub use read::{KIND, read_batch};
pub use spelled::append_recoded;
pub use write::write_batch;
