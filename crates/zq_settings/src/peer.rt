//! Peers of a site.

use crate::peer_address::PeerAddress;
use zq_dots::SiteNo;

/// Another site, with which a site links.
#[derive(Debug, Drop)]
pub struct Peer {
    /// Its number.
    pub site: SiteNo,
    /// Where it listens for its peers.
    pub address: PeerAddress,
}
