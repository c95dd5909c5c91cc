//! The sites by their numbers.

ghost use Rattle.std.specs.Prelude.{◌≡◌, ◌<◌};
ghost use Rattle.zq_model.specs.Sets as sets;

use zq_dots::{SITES, SiteNo};

/// The number of sites.
pub(crate) const PAST: u8 = SITES as u8;

/// The site of a number that is one.
pub(crate) fn site_of(number: u8) -> SiteNo
    requires { number < sets.SITES }
    ensures { result ≡ number }
{
    SiteNo::new(number).unwrap()
}
