//! The part of a queue that a range takes: of the pairs within two bounds, those from one place of
//! theirs on and before another.

ghost use Rattle.std.specs.Prelude.{filter, length, pos, slice_range, ◌+ℤ◌, ◌<◌, ◌^◌, ◌≡◌, ◌≤◌};
ghost use Rattle.zq_model.specs.Moves.{Queue};
ghost use Rattle.zq_semantics.specs.Ranges as ranges;

use zq_words::{Bound, Limit, Range, Window};

/// Below each score, and above each.
pub const LOWEST: Bound = Bound {
    is_out: false,
    limit: Limit::Lowest,
};

pub const HIGHEST: Bound = Bound {
    is_out: false,
    limit: Limit::Highest,
};

/// Places count from 0, among the pairs within the bounds.
#[derive(Clone, Copy, Debug)]
pub struct Section {
    pub min: Bound,
    pub max: Bound,
    pub from: usize,
    pub to: usize,
}

/// All pairs. First pairs are read within its bounds, and its places count for nothing there.
pub const WHOLE: Section = Section {
    min: LOWEST,
    max: HIGHEST,
    from: 0,
    to: 0,
};

impl Section {
    /// What a range takes of a queue of this size.
    pub fn of_range(range: &Range, size: u64) -> Section
        requires { size < 2 ^ 63 }
        ensures { (queue : Queue) → length queue ≡ size →
            ranges.ranged range.now queue
            ≡ slice_range (filter (ranges.is_within result.min result.max) queue) result.from
            result.to }
    {
        match *range {
            Range::ByPlace { start, stop } => Section {
                min: LOWEST,
                max: HIGHEST,
                from: from_zero(placed(start, size)),
                to: past(placed(stop, size)),
            },
            Range::ByScore { min, max, window } => {
                let (from, to) = ends_of(window, size as usize);
                Section { min, max, from, to }
            }
        }
    }
}

/// The places of a list of at most this size that a window takes.
fn ends_of(window: Option<Window>, size: usize) -> (usize, usize)
    ensures { (queue : Queue) → length queue ≤ size →
        ranges.limited window queue ≡ slice_range queue result.0 result.1 }
{
    let Some(window) = window else {
        return (0, size);
    };
    if window.offset < 0 {
        return (0, 0);
    }
    let offset = from_zero(window.offset);
    if window.count < 0 {
        return (offset, size);
    }
    (offset, offset + from_zero(window.count))
}

/// A negative place has the size added.
fn placed(place: i64, size: u64) -> i64
    requires { size < 2 ^ 63 }
    ensures { result ≡ ranges.placed size place }
{
    if place < 0 {
        place + size as i64
    } else {
        place
    }
}

/// A number below 0 is 0.
pub fn from_zero(number: i64) -> usize
    ensures value { result ≡ ranges.from_zero number }
    ensures bounded { result < 2 ^ 63 }
{
    if number < 0 { 0 } else { number as usize }
}

/// One more than the number, and 0 where that is below 0.
fn past(number: i64) -> usize
    ensures { result ≡ ranges.from_zero (number +ℤ pos 1) }
{
    if number < 0 { 0 } else { number as usize + 1 }
}
