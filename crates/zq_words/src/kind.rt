//! The kinds of command.

use crate::bound::Bound;
use crate::flags::Flags;
use crate::pair::Pair;
use crate::pairs::Pairs;
use crate::range::Range;

/// What a command asks for, over the words of its request.
#[derive(Debug, Drop)]
pub enum Kind<'a> {
    /// The message, if there is one.
    Ping(Option<&'a [u8]>),
    /// One pair or more.
    Zadd {
        key: &'a [u8],
        pairs: Pairs<'a>,
        flags: Flags,
    },
    /// ZADD with INCR: the pair's score is added to the member's.
    ZaddIncr {
        key: &'a [u8],
        pair: Pair<'a>,
        flags: Flags,
    },
    /// The pair's score is added to the member's.
    Zincrby {
        key: &'a [u8],
        pair: Pair<'a>,
    },
    /// One member or more.
    Zrem {
        key: &'a [u8],
        members: &'a [Vec<u8>],
    },
    Zscore {
        key: &'a [u8],
        member: &'a [u8],
    },
    Zcard {
        key: &'a [u8],
    },
    Zcount {
        key: &'a [u8],
        min: Bound,
        max: Bound,
    },
    Zrank {
        key: &'a [u8],
        member: &'a [u8],
    },
    Zrevrank {
        key: &'a [u8],
        member: &'a [u8],
    },
    /// Places and order count from the greatest where it is turned.
    Zrange {
        key: &'a [u8],
        range: Range,
        is_turned: bool,
        with_scores: bool,
    },
    /// The count is not negative.
    Zpopmin {
        key: &'a [u8],
        count: i64,
    },
    Zpopnear {
        key: &'a [u8],
    },
    /// One key or more.
    Del {
        keys: &'a [Vec<u8>],
    },
}
