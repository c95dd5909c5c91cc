//! What ZRANGE takes.

use crate::bound::Bound;

/// The places from `start` to `stop`, both included, or the scores from `min` to `max` and, of
/// those, a window. A negative place counts from the end.
#[derive(Clone, Copy, Debug, PartialEq, Eq)]
pub enum Range {
    ByPlace {
        start: i64,
        stop: i64,
    },
    ByScore {
        min: Bound,
        max: Bound,
        window: Option<Window>,
    },
}

/// How many are left out first, and then how many are given. A negative count gives all, and a
/// negative offset none.
#[derive(Clone, Copy, Debug, PartialEq, Eq)]
pub struct Window {
    pub offset: i64,
    pub count: i64,
}
