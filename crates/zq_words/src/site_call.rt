//! What a site can be asked.

use crate::command::Command;
use crate::range::Range;

/// What a site can be asked: a command, or one of some further requests on keys, over the words of
/// its request.
///
/// Whoever makes one keeps the limits of a command: keys and members have at most 1,048,576 bytes,
/// the scores of bounds an amount of at most 9,007,199,254,740,992, and there are at most 65,536
/// keys or members.
#[derive(Debug, Drop)]
pub enum SiteCall<'a> {
    Command(Command<'a>),
    /// The score of each member, in their order.
    Scores {
        key: &'a [u8],
        members: &'a [Vec<u8>],
    },
    /// How many of the keys have members. A key counts as often as it is named.
    Exist {
        keys: &'a [Vec<u8>],
    },
    /// Whether the key has members.
    TypeOf {
        key: &'a [u8],
    },
    /// The last pairs of a key are popped, the last one first. The count is not negative.
    PopLast {
        key: &'a [u8],
        count: i64,
    },
    /// The pairs of a range are removed.
    RemoveRange {
        key: &'a [u8],
        range: Range,
    },
    /// One pair of the first of the keys that has members is popped: its first pair, or its last
    /// one where it is turned.
    PopLeftmost {
        keys: &'a [Vec<u8>],
        is_turned: bool,
    },
}
