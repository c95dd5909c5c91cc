//! How a site is to be made.

ghost use Rattle.std.specs.Prelude.{◌+◌};
ghost use Rattle.zq_spread.specs.Makers.{IsInBounds};

use zq_dots::{Rule, SiteNo};
use zq_journal::TailLimits;

/// How a site is to be made.
#[derive(Clone, Copy, Debug)]
pub struct SitePlan {
    /// Its number.
    pub number: SiteNo,
    /// Its number of heaps: 2 to 16.
    pub heaps: u8,
    /// Which of a member's values is its score.
    pub rule: Rule,
    /// How many servers answer there: 0 to 126. It has a pass for each of them, and two to spare.
    pub servers: usize,
    /// The limits of its heaps' tails.
    pub tails: TailLimits,
    pub ghost in_bounds: { IsInBounds heaps (servers + 2) },
}
