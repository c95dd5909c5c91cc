//! The files of a log: the log, the next file, and the folder that they are in.
//!
//! | name | is |
//! |---|---|
//! | `log` | the records, and behind them zeros that were written and synced ahead |
//! | `log.next` | the next log while it is written, or zeros that it is to be written over; one that is there at a start is removed |
//!
//! A start opens the folder ([`open`]), which other processes are then kept out of, reads the log
//! to its end ([`FoundLog`]), and goes on with the disk that has what was read ([`FileDisk`]). What
//! it reads is what the disk has: the log is synced, and its pages are dropped, before.
//!
//! After a call that failed no other call is made: a sync that is tried again may succeed though
//! bytes are lost, since Linux then takes the pages for written. [`FileDisk::fault`] says what
//! failed. A start reads again what the disk has.
//!
//! Where the disk is full while zeros are written ahead, nothing has failed: what is written is
//! synced before, so that zeros alone may be lost, and these are written again when they are asked
//! for again. `room` then says so. A write of records for which no room was asked, and which finds
//! the disk full, is a call that failed. A file system that takes new room for bytes that are
//! written over others (as one that copies on write) may find the disk full there.
//!
//! `FileDisk` is proved to be a `Disk` over a record of its calls, which clauses alone have. So a
//! reader has to see, and no proof shows, that
//!
//! 1. each method makes the call that it notes, and notes it with its answer;
//! 2. nothing else writes to the files. `open` locks the folder for that (not over NFS), and a log
//!    that is gone from its name is an error;
//! 3. a loss of power leaves of bytes that were written over synced zeros each one as written or 0,
//!    and leaves those before them;
//! 4. zeros that are ahead, of which the clauses do not speak, change nothing of what is read: no 0
//!    ends a record.
#![tactic(auto)]

mod disk;
mod fault;
mod files;
mod folder;
mod grown;
mod past;
mod record;

pub use disk::{FileDisk, FoundLog, open};
pub use fault::{FileFault, OpenFault};
