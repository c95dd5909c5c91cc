//! What a site shows of its peers.

use crate::peer_link::PeerLink;
use crate::peer_links::is_dialled;
use crate::shared::Shared;
use std::alloc::AllocError;
use std::sync::Wait;
use zq_admin::PeerShown;
use zq_dots::SiteNo;
use zq_settings::{Peer, SiteSettings};

/// The peers of the settings, and all others to which a link is up.
pub fn peers_shown<R: Wait>(rt: &R, shared: Shared<'_>) -> Result<Vec<PeerShown>, AllocError> {
    let mut shown = Vec::new(shared.alloc);
    for peer_link in shared.peer_links {
        let listed = listed_of(shared.settings, peer_link.site);
        let is_up = peer_link.is_up(rt);
        if is_up || listed.is_some() {
            let peer = peer_shown(shared, peer_link, listed, is_up)?;
            shown.push(peer).map_err(AllocError::from)?;
        }
    }
    Ok(shown)
}

/// A peer, which the settings may list.
fn peer_shown(
    shared: Shared<'_>,
    peer_link: &PeerLink,
    listed: Option<&Peer>,
    is_up: bool,
) -> Result<PeerShown, AllocError> {
    let (address, dials) = match listed {
        Some(peer) => {
            let address = &peer.address;
            let text = format!(in shared.alloc; "{address}")?;
            (Some(text), is_dialled(shared.settings, peer))
        }
        None => (None, false),
    };
    Ok(PeerShown {
        site: peer_link.site.value(),
        address,
        dials,
        up: is_up,
    })
}

/// The peer of this number in the settings.
pub fn listed_of(settings: &SiteSettings, site: SiteNo) -> Option<&Peer> {
    settings
        .peers
        .as_slice()
        .iter()
        .find(|peer| peer.site == site)
}
