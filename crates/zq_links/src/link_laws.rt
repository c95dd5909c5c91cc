//! Laws of what a faulty link passes on.

ghost use Rattle.zq_links.specs.Runs.{NoneIsInvented, NoneIsRepeated};

/// Each frame that a link passes on was handed in, and it is passed on no more often than it was
/// handed in and doubled.
pub fn no_frame_is_invented()
    ensures invented { NoneIsInvented }
    ensures repeated { NoneIsRepeated }
{}
