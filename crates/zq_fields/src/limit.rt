//! The greatest counter that a vector may have for a site.

ghost use Rattle.std.specs.Prelude.{◌≡◌};
ghost use Rattle.zq_fields.specs.Vectors as vectors;

use zq_dots::{LAST_COUNTER, SiteNo};

/// The greatest counter of a site in a vector: in what an operation of the site own has seen, or in
/// any.
#[tactic(auto, unfolding(zq_model::specs::Sets::LAST))]
pub(crate) fn limit(own: &Option<SiteNo>, site: SiteNo) -> u64
    ensures { result ≡ vectors.limit_of own.now site }
{
    if *own == Some(site) {
        LAST_COUNTER - 1
    } else {
        LAST_COUNTER
    }
}
