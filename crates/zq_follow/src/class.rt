//! Whose operations are pushed to a peer.

ghost use Rattle.std.specs.Prelude.{◌≡◌};
ghost use Rattle.zq_follow.specs.Routes as routes;

use crate::site_set::SiteSet;
use crate::sites::{PAST, site_of};
use zq_dots::{SITES, SiteNo};

/// The sites whose operations this site, `own`, pushes to a peer: itself, those that the peer asks
/// it to relay, and of those that are far to the peer each whose last new operation came here from
/// a peer that this one neither is nor has a link to, or was made here or came with a state. Never
/// the peer itself. `reach` has the sites to which the peer has links, and `sources` for each site
/// the peer from which its last new operation came here.
#[tactic(auto, unfolding(zq_model::specs::Sets::SITES))]
pub fn class_of(
    own: SiteNo,
    peer: SiteNo,
    asked: &SiteSet,
    far: &SiteSet,
    reach: &SiteSet,
    sources: &[Option<SiteNo>; SITES],
) -> SiteSet
    ensures { result ≡ routes.class_of own peer asked.now far.now reach.now sources.now }
{
    let mut held = [false; SITES];
    for number in 0..PAST {
        let site = site_of(number);
        let is_relayed = is_relayed(peer, asked, far, reach, site, sources[number as usize]);
        held[number as usize] = site != peer && (site == own || is_relayed);
    }
    SiteSet::from_array(held)
}

/// Whether the peer asked for the site's operations, or they are left to this site.
fn is_relayed(
    peer: SiteNo,
    asked: &SiteSet,
    far: &SiteSet,
    reach: &SiteSet,
    site: SiteNo,
    source: Option<SiteNo>,
) -> bool
    ensures { result ≡ routes.is_relayed peer asked.now far.now reach.now site source }
{
    asked.has(site) || far.has(site) && is_apart(peer, reach, source)
}

/// Whether an operation came here from elsewhere than the peer and those to whom it has links.
fn is_apart(peer: SiteNo, reach: &SiteSet, source: Option<SiteNo>) -> bool
    ensures { result ≡ routes.is_apart peer reach.now source }
{
    match source {
        Some(source) => source != peer && !reach.has(source),
        None => true,
    }
}
