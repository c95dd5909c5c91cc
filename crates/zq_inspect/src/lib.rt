//! Looking at the log of a site's folder, which is read and not changed.
//!
//! | call | does |
//! |---|---|
//! | [`open_log`] | opens the log of a folder for reading; none is made, and no lock is taken |
//! | [`inspect`] | reads it from its first byte to its last, and makes the heaps of its records |
//! | [`report`] | says in lines what was found |
//! | [`members_of`] | gives the members of a key over all heaps, by score and then by bytes |
//! | [`member_lines`] | writes each of them on a line |
//!
//! A site that runs on the folder may write meanwhile: then the last bytes that are read may be
//! the first ones of a record, as a crash leaves them too; and where more than one record comes
//! while the end is read, a later one may be whole behind one in part, which is told as damage. So
//! who tells damage reads once more.
//!
//! It is proved over the bytes that were read that the heaps are those that a site takes from the
//! records (`HasRead` of `zq_keeper`), that nothing but zeros follows where the log is told `Whole`,
//! and which bytes are written of what was found. That the bytes are the file's, at which byte
//! damage is told, and what is said of the records before it, is tested alone.
#![tactic(auto)]

mod answers;
mod folder;
mod inspection;
mod keys;
mod lines;
mod log_file;
mod members;
mod quoting;
mod recall;
mod reporting;
mod state;
mod words;

pub use folder::{NotOpened, open_log};
pub use inspection::{Inspection, inspect};
pub use log_file::LogFile;
pub use members::members_of;
pub use quoting::member_lines;
pub use reporting::report;
pub use state::State;
pub use words::fault_words;
