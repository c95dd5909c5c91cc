//! What peers are asked to relay.

ghost use Rattle.std.specs.Prelude.{IfOk, ◌<◌, ◌≡◌};
ghost use Rattle.zq_follow.specs.Routes as routes;
ghost use Rattle.zq_model.specs.Sets as sets;

use crate::site_set::SiteSet;
use crate::sites::{PAST, site_of};
use std::alloc::{AllocError, Global};
use zq_dots::{SITES, SiteNo};

/// What each peer is asked to relay to this site, `own`, and which sites are far. `linked` has the
/// sites to which this one has links, and `reaches` the peers, each with the sites to which it has
/// links. Of a site without a link here the next peer after it is asked, in a ring of all sites, of
/// those that have a link to it; where there is none it is far. The answer has a set for each peer,
/// in the order of `reaches`. Where memory is short nothing is made.
pub fn asks(
    own: SiteNo,
    linked: &SiteSet,
    reaches: &[(SiteNo, SiteSet)],
    alloc: Global,
) -> Result<(Vec<(SiteNo, SiteSet)>, SiteSet), AllocError>
    ensures asked { IfOk result (λ r. r.0.items ≡ routes.asks_of own linked.now reaches.now) }
    ensures far { IfOk result (λ r. r.1 ≡ routes.far_of own linked.now reaches.now) }
{
    let chosen = choose(reaches);
    let mut asked = Vec::with_capacity(alloc, reaches.len())?;
    for (peer, _) in reaches {
        asked.push((*peer, asked_of(own, linked, &chosen, *peer)))?;
    }
    Ok((asked, far_of(own, linked, &chosen)))
}

/// For each site the next of the peers that have a link to it.
#[tactic(auto, unfolding(zq_model::specs::Sets::SITES))]
fn choose(reaches: &[(SiteNo, SiteSet)]) -> [Option<SiteNo>; SITES]
    ensures { result ≡ routes.chosen reaches.now }
{
    let mut chosen = [None; SITES];
    for number in 0..PAST {
        chosen[number as usize] = nearest(site_of(number), reaches);
    }
    chosen
}

/// The next peer after the site, of those that have a link to it.
fn nearest(site: SiteNo, reaches: &[(SiteNo, SiteSet)]) -> Option<SiteNo>
    ensures { result ≡ routes.nearest site reaches.now }
{
    let mut best = None;
    for (peer, reach) in reaches {
        best = nearer(site, best, *peer, reach);
    }
    best
}

/// The peer, where it has a link to the site and comes before the best so far, and else that.
fn nearer(site: SiteNo, best: Option<SiteNo>, peer: SiteNo, reach: &SiteSet) -> Option<SiteNo>
    ensures { result ≡ routes.nearer site best (peer, reach.now) }
{
    if reach.has(site) && is_nearer(site, peer, &best) {
        Some(peer)
    } else {
        best
    }
}

/// Whether the peer comes before the best so far, in the ring from the site on.
fn is_nearer(site: SiteNo, peer: SiteNo, best: &Option<SiteNo>) -> bool
    ensures { result ≡ routes.is_nearer site peer best.now }
{
    match best {
        Some(best) => distance(site, peer) < distance(site, *best),
        None => true,
    }
}

/// How many sites the peer comes after the site, in a ring of all sites.
#[tactic(auto, unfolding(zq_model::specs::Sets::SITES))]
fn distance(site: SiteNo, peer: SiteNo) -> u8
    ensures { result ≡ routes.distance site peer }
{
    (peer.value() + PAST - site.value()) % PAST
}

/// Whether a site has no link here.
fn is_remote(own: SiteNo, linked: &SiteSet, site: SiteNo) -> bool
    ensures { result ≡ routes.is_remote own linked.now site }
{
    site != own && !linked.has(site)
}

/// What one peer is asked to relay, where for each site one is chosen.
#[tactic(auto, unfolding(zq_model::specs::Sets::SITES))]
fn asked_of(
    own: SiteNo,
    linked: &SiteSet,
    chosen: &[Option<SiteNo>; SITES],
    peer: SiteNo,
) -> SiteSet
    ensures { result ≡ routes.asked_by own linked.now chosen.now peer }
{
    let mut held = [false; SITES];
    for number in 0..PAST {
        let is_chosen = chosen[number as usize] == Some(peer);
        held[number as usize] = is_chosen && is_remote(own, linked, site_of(number));
    }
    SiteSet::from_array(held)
}

/// The sites of which nobody can be asked, where for each site one is chosen if one can be.
#[tactic(auto, unfolding(zq_model::specs::Sets::SITES))]
fn far_of(own: SiteNo, linked: &SiteSet, chosen: &[Option<SiteNo>; SITES]) -> SiteSet
    ensures { result ≡ routes.far_by own linked.now chosen.now }
{
    let mut held = [false; SITES];
    for number in 0..PAST {
        let is_chosen = chosen[number as usize].is_some();
        held[number as usize] = !is_chosen && is_remote(own, linked, site_of(number));
    }
    SiteSet::from_array(held)
}
