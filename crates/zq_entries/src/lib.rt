//! The entries of a site's log on disk: what is written to it, as bytes, and read again after a
//! crash.
//!
//! An entry is the body of one record of the log, as `zq_wal` has them. Its first byte names the
//! kind. Numbers have their highest byte first.
//!
//! | kind | entry | then |
//! |---|---|---|
//! | 1 | Start | the format, a byte 1; the site, 0 to 63; its number of heaps, 1 to 16; its rule, 0 High or 1 Low; 16 bytes that name the folder; the number of this start, eight bytes, 1 or more |
//! | 2 | Round | the number of batches, 1 to 64; each batch: its length, eight bytes, and its bytes, as `zq_batch` writes operations of one heap by differences |
//! | 3 | Sealed | the number of heaps, 1 to 16; a heap, below it; the vector of the heap's pieces, by its entries |
//! | 4 | Rest | nothing |
//! | 10 | Piece | a frame of kind 10 of `zq_links`, of which this is the first byte: life, number, where the next piece begins, and a state of version 3 |
//!
//! Nothing follows an entry. Each entry has one spelling: what is read is what was written, and
//! what was read is written as the same bytes. The first fault from the left is the answer.
//!
//! What the entries of a log mean together, and in which order they may come, is judged by who
//! replays them.
#![tactic(auto)]

mod batch;
mod entry;
mod fault;
mod kind;
mod laws;
mod read;
mod round;
mod sealed;
mod start;
mod write;

pub use batch::Batch;
pub use entry::Entry;
pub use fault::EntryFault;
pub use laws::entry_has_one_spelling;
pub use read::read_entry;
pub use round::write_round;
pub use sealed::Sealed;
pub use start::{FOLDER, Start};
pub use write::write_entry;
