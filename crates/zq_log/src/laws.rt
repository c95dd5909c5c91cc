//! Laws of the limit and of pairs.

ghost use Rattle.zq_log.specs.LimitLaws.{AtMostTen};
ghost use Rattle.zq_log.specs.Pairs.{EndsAtItsQuote};

/// Of a kind at most ten lines pass in any ten seconds: of the lines that pass each one comes ten
/// seconds after the tenth before it, or later, whenever lines come.
pub fn at_most_ten()
    ensures { AtMostTen }
{}

/// A value between quotes ends at the first quote that stands behind no backslash, and no byte of it
/// ends the line.
pub fn ends_at_its_quote()
    ensures { EndsAtItsQuote }
{}
