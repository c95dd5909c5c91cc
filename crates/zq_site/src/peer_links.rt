//! The links to all peers.

ghost use Rattle.std.specs.List.{find};
ghost use Rattle.std.specs.Prelude.{IfOk, IsTrue, map, nat_lt, option_copied, ◌<◌, ◌==◌, ◌≡◌, ◌↔◌};
ghost use Rattle.zq_site.specs.PeerLinks.{dialers, is_listed, may_meet, partners, partners_among};

use crate::peer_link::PeerLink;
use std::alloc::{AllocError, Global};
use std::sync::Wait;
use zq_dots::{SITES, SiteNo};
use zq_peers::others;
use zq_settings::{Accept, Peer, SiteSettings};

/// A link for each of these sites, none of which is up, at a site of so many heaps.
pub fn open_peer_links(
    alloc: Global,
    sites: &[SiteNo],
    heaps: u8,
) -> Result<Vec<PeerLink>, AllocError>
    ensures { IfOk result (λ peer_links. map (λ peer_link. peer_link.site) peer_links.items
        ≡ sites.now) }
{
    let mut peer_links = Vec::new(alloc);
    for site in sites {
        peer_links.push(PeerLink::new(alloc, *site, heaps)?)?;
    }
    Ok(peer_links)
}

/// The link to this peer, where it may have one.
pub fn peer_link_of(peer_links: &[PeerLink], peer: SiteNo) -> Option<&PeerLink>
    ensures { option_copied result
        ≡ find (λ peer_link. peer_link.site == peer) peer_links.now }
{
    peer_links.iter().find(|peer_link| peer_link.site == peer)
}

/// How many of these links are up.
pub fn links_up<R: Wait>(rt: &R, peer_links: &[PeerLink]) -> usize {
    let mut links = 0usize;
    for peer_link in peer_links {
        if peer_link.is_up(rt) {
            links = links.saturating_add(1);
        }
    }
    links
}

/// The sites that may have a link to this one: its peers, and where it accepts any those of greater
/// numbers, by rising numbers.
#[tactic(auto, unfolding(zq_model::specs::Sets::SITES))]
pub fn others_of(alloc: Global, settings: &SiteSettings) -> Result<Vec<SiteNo>, AllocError>
    ensures { IfOk result (λ sites. sites.items
        ≡ partners settings.now.site settings.now.accept settings.now.peers) }
{
    let all = others(alloc, settings.site, SITES as u8)?;
    partners_among(alloc, settings, &all)
}

/// Those of these sites that may have a link to the one of the settings.
fn partners_among(
    alloc: Global,
    settings: &SiteSettings,
    sites: &[SiteNo],
) -> Result<Vec<SiteNo>, AllocError>
    ensures { IfOk result (λ partners. partners.items ≡ partners_among settings.now.site
        settings.now.accept settings.now.peers sites.now) }
{
    let mut partners = Vec::new(alloc);
    for site in sites {
        if may_meet(settings, *site) {
            partners.push(*site)?;
        }
    }
    Ok(partners)
}

/// Whether this site may have a link to the one of the settings.
fn may_meet(settings: &SiteSettings, site: SiteNo) -> bool
    ensures { result ≡ may_meet settings.now.site settings.now.accept
        settings.now.peers site }
{
    is_listed(settings.peers.as_slice(), site)
        || settings.accept == Accept::Any && dials(site, settings.site)
}

/// Whether one of the peers has this number.
fn is_listed(peers: &[Peer], site: SiteNo) -> bool
    ensures { result ≡ is_listed peers.now site }
{
    peers.iter().any(|peer| peer.site == site)
}

/// Those of the sites that dial this one: those of a greater number.
pub fn dialers_of(alloc: Global, own: SiteNo, sites: &[SiteNo]) -> Result<Vec<SiteNo>, AllocError>
    ensures { IfOk result (λ greater. greater.items ≡ dialers own sites.now) }
{
    let mut greater = Vec::new(alloc);
    for site in sites {
        if dials(*site, own) {
            greater.push(*site)?;
        }
    }
    Ok(greater)
}

/// Whether this site dials the peer.
pub fn is_dialled(settings: &SiteSettings, peer: &Peer) -> bool
    ensures { IsTrue result ↔ (peer.now.site < settings.now.site) }
{
    dials(settings.site, peer.site)
}

/// Whether the first of two sites dials the other: the one of the greater number does.
fn dials(site: SiteNo, other: SiteNo) -> bool
    ensures { result ≡ nat_lt other site }
{
    other.value() < site.value()
}
