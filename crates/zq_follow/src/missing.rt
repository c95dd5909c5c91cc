//! What should have come, and did not.

ghost use Rattle.std.specs.Prelude.{◌≡◌};
ghost use Rattle.zq_follow.specs.Routes as routes;

use crate::site_set::SiteSet;
use crate::sites::{PAST, site_of};
use zq_dots::{SITES, SiteNo, Vector};

/// The sites of which a peer had operations, as an earlier At of it says, that this site, `own`, of
/// this vector lacks still: neither this site, nor the peer, nor what the peer is asked to relay.
#[tactic(auto, unfolding(zq_model::specs::Sets::SITES))]
pub fn overdue(
    own: SiteNo,
    peer: SiteNo,
    earlier: &Vector,
    vector: &Vector,
    asked: &SiteSet,
) -> SiteSet
    ensures { result ≡ routes.overdue own peer earlier.now vector.now asked.now }
{
    let mut held = [false; SITES];
    for number in 0..PAST {
        let site = site_of(number);
        held[number as usize] = site != own
            && site != peer
            && !asked.has(site)
            && vector.get(site) < earlier.get(site);
    }
    SiteSet::from_array(held)
}
