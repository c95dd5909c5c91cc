//! A site of a drill.

ghost use Rattle.std.specs.Prelude.{◌≡◌};
ghost use Rattle.zq_dots.specs.declared.rule.Rule.TheVariants.{High};
ghost use Rattle.zq_drill.specs.Limits.{heap_count};
ghost use Rattle.zq_spread.specs.Calls.{heaps_of};

use zq_dots::SiteNo;
use zq_spread::Site;

/// How many sites there are.
pub const SITES: u8 = 3;

/// How many heaps a site has.
pub const HEAPS: u8 = 4;

/// A site of a drill, with its number. It has 4 heaps, and a score is the greatest of the values.
#[derive(Drop)]
pub struct DrillSite {
    pub(crate) number: SiteNo,
    pub(crate) site: Site,
    ghost number_is: { number ≡ site.number },
    ghost heaps_are: { heaps_of site ≡ heap_count },
    ghost rule_is: { site.rule ≡ High },
}
