//! Adopting the log of a site: a new folder of another site, which has all that the log has.
//!
//! An old copy of a site's folder must not be started under the site's number, which may have made
//! more since. Under a number that nobody has used it may: as a site that has taken those
//! operations of others, and has made none itself.
//!
//! | call | does |
//! |---|---|
//! | [`judge`] | says whether a site of this number may adopt the heaps of a log that was read |
//! | [`adopt`] | makes the new folder, and writes the heaps into a log there |
//!
//! The log that is adopted was read before, and is not touched. The heaps are written as
//! the log of a site that runs is rewritten: each in pieces, by a keeper, into a next file that then
//! takes the log's place.
//!
//! While that goes on `log` in the new folder is itself a folder, in which the two files lie, so that
//! no site takes what is there. Once the log is whole and on the disk it comes out of it, and takes
//! its place:
//!
//! | a crash leaves | a site |
//! |---|---|
//! | no new folder, or an empty one | has nothing, as before |
//! | a folder named `log`, also an empty one with `log.made` beside it | refuses it: the log is no regular file |
//! | `log.made` alone | has nothing: it was stopped between two steps |
//! | `log` | has all of it |
//!
//! It is proved that the log which is made is read again by each reader of the new site, with just
//! the operations that the adopted heaps have and none of the site's own, and that each piece is of
//! members as their heap has them. That all members are in a piece, that the files are made as it
//! says above, and that nothing else is written, is tested alone.
#![tactic(auto)]

mod adopted;
mod adopting;
mod copying;
mod fault;
mod judging;
mod laws;
mod new_folder;
#[cfg(test)]
mod tests;

pub use adopted::{Adopted, adopted_line};
pub use adopting::{Heir, adopt};
pub use copying::write_log;
pub use fault::{AdoptFault, WriteFault};
pub use judging::{Unfit, judge};
pub use laws::adopted_is_read;
