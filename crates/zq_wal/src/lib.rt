//! A log of records in a file, which a crash at any moment leaves whole.
//!
//! What is committed is on the disk before `commit` answers `Ok`, and is read again after a kill or
//! a loss of power at any later moment. A crash never leaves part of a record, nor a record without
//! those before it. Damage that no crash leaves is told, and nothing is changed then.
//!
//! **A record** is `escape(sum payload) FF`:
//!
//! | part | is |
//! |---|---|
//! | payload | floor and body |
//! | floor | 8 bytes, highest first: the number of records of this file that were synced before |
//! | sum | 8 bytes, highest first: FNV-1a 64 of the payload |
//! | escape | 00 as FE 01, FE as FE 02, FF as FE 03, any other byte as itself |
//!
//! So no byte of a record is 0, and FF stands at its end alone. A write that power cuts short
//! leaves each of its bytes as written or 0, and maybe not all of them: a record that is torn has a
//! 0 or no end. What stands before an FF, behind the one before, is a chunk.
//!
//! | found | is |
//! |---|---|
//! | whole records, then bytes without an FF | the records; the rest is cut off |
//! | then a chunk that is no record and has a 0 | a torn end, which is cut off with all behind it |
//! | a chunk that is no record and has no 0 | damage (`Corrupt`) |
//! | anywhere a record whose floor is above the number of records before the torn end | damage |
//!
//! Damage by zeros, or of an end mark, is not told from a torn end in the records behind the last
//! one whose floor vouches for them.
//!
//! **A start** reads the file in pieces and has each record taken again as soon as it is whole
//! (`read_records`, `Source`, `Replay`), then cuts off the torn end (`reopen`). It holds a piece of
//! 64 KiB and one record, however long the file is; a chunk that cannot be a record is not held. No
//! record is too long: who writes keeps them short.
//!
//! **A switch** puts another file in the log's place, as one of states that is shorter:
//! `begin_next`, `add_next` as often as wanted with `add` and `commit` between, and `publish_next`,
//! which renames it. A crash at any moment leaves the old file's records that were synced, or all
//! of the new file's.
//!
//! **Room** is asked for ahead (`room`), so that a disk that is full is told before anything is
//! written: then the log is as it was and goes on once there is room. No clause says that what is
//! written afterwards has room.
//!
//! The contracts are said over the trait `Disk`: what its calls do to the files, and what a crash
//! at any moment of them may leave.
//!
//! | call | is proved to |
//! |---|---|
//! | `read_records` | take exactly the `recovered` records, in order, or answer `Corrupt` |
//! | `reopen` | leave these records, all synced; at any moment what is left is read alike |
//! | `add` | make one record more; at any moment the synced records are kept, and no part of one |
//! | `commit`, `commit_bytes` | do the same, and after `Ok` all records are synced |
//! | `sync` | leave all records synced |
//! | `room` | leave the log and the next file, and what a crash leaves of both, whatever it says |
//! | `begin_next`, `add_next` | leave the log; the next file is whole records |
//! | `sync_next` | leave the log and the next file; after `Ok` a crash leaves all of the next file |
//! | `publish_next` | leave the next file's records, all synced; at any moment old or new, whole |
//!
//! `MemoryDisk`, for tests, is proved to be a `Disk`. Over files the proofs hold as far as these
//! keep the clauses of `Disk`. How much memory a start takes is neither proved nor tested.
#![tactic(auto)]

mod chunk;
mod committed;
mod disk;
mod error;
mod image;
mod laws;
mod memory_disk;
mod memory_source;
mod record;
mod recovery;
mod replay;
mod source;
mod wal;
mod walk;

pub use committed::Committed;
pub use disk::{Behind, Disk};
pub use error::{Stopped, WalError};
pub use image::Image;
pub use laws::{records_again, synced_stays};
pub use memory_disk::MemoryDisk;
pub use memory_source::MemorySource;
pub use record::{body, floor};
pub use recovery::{Found, read_records, reopen};
pub use replay::Replay;
pub use source::Source;
pub use wal::Wal;
