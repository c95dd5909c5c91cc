//! Whether a site that begins has heard its peers.

ghost use Rattle.std.specs.List.{list_all};
ghost use Rattle.std.specs.Prelude.{◌≡◌};
ghost use Rattle.zq_follow.specs.Heard.{has_heard_all, has_heard_one, unheard_of};
ghost use Rattle.zq_follow.specs.SiteSet.{has_site};

use crate::site_set::SiteSet;
use crate::sites::{PAST, site_of};
use zq_dots::{SITES, SiteNo};

/// Whether all of these peers are among those that were heard of each heap.
pub fn has_heard_all(peers: &SiteSet, heard: &[SiteSet]) -> bool
    ensures { result ≡ has_heard_all peers.now heard.now }
{
    heard.iter().all(|of_heap| !of_heap.lacks(peers))
}

/// Whether one peer is among those that were heard of each heap.
#[tactic(auto, unfolding(zq_model::specs::Sets::SITES))]
pub fn has_heard_one(heard: &[SiteSet]) -> bool
    ensures { result ≡ has_heard_one heard.now }
{
    for number in 0..PAST {
        if is_heard(site_of(number), heard) {
            return true;
        }
    }
    false
}

/// Whether this peer is among those that were heard of each heap.
fn is_heard(peer: SiteNo, heard: &[SiteSet]) -> bool
    ensures { result ≡ list_all (λ of_heap. has_site of_heap peer) heard.now }
{
    heard.iter().all(|of_heap| of_heap.has(peer))
}

/// Those of these peers that are not among those that were heard of each heap.
#[tactic(auto, unfolding(zq_model::specs::Sets::SITES))]
pub fn unheard_of(peers: &SiteSet, heard: &[SiteSet]) -> SiteSet
    ensures { result ≡ unheard_of peers.now heard.now }
{
    let mut held = [false; SITES];
    for number in 0..PAST {
        let peer = site_of(number);
        held[number as usize] = peers.has(peer) && !is_heard(peer, heard);
    }
    SiteSet::from_array(held)
}
