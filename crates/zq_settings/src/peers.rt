//! The peers of a site.

ghost use Rattle.std.specs.Prelude.{◌≡◌, ◌==◌};
ghost use Rattle.std.specs.List.{list_any};
ghost use Rattle.zq_settings.specs.Peers.{ArePeers, sites_of};
ghost use Rattle.zq_settings.specs.Ports.{first_twice};

use crate::peer::Peer;
use std::marker::Model;
use zq_dots::SiteNo;

/// The most peers that a site has.
pub const MOST_PEERS: usize = 63;

/// The peers of a site: at most 63, no two of which have the same number.
#[derive(Debug, Drop)]
pub struct Peers {
    peers: Vec<Peer>,
}

impl Model for Peers {
    ghost use Rattle.std.specs.Prelude.{List};
    ghost use Rattle.zq_settings.specs.declared.peer.Peer.{Peer};
    ghost use Rattle.zq_settings.specs.Peers.{ArePeers};

    ghost Value = { List Peer };

    ghost view = { λ p. p.peers.items };

    ghost invariant = { λ p. ArePeers p.peers.items };
}

impl Peers {
    /// These peers, which are at most 63 and of which no two have the same number.
    pub(crate) fn new(peers: Vec<Peer>) -> Self
        requires { ArePeers peers.items }
        ensures { result ≡ peers.items }
    {
        Peers { peers }
    }

    /// The peers in the order of the settings.
    pub fn as_slice(&self) -> &[Peer]
        ensures peers { result.now ≡ self.now }
        ensures limits { ArePeers self.now }
    {
        &self.peers
    }
}

/// The first number of a peer that stands again behind its place.
pub(crate) fn find_site_twice(peers: &[Peer]) -> Option<SiteNo>
    ensures { result ≡ first_twice (sites_of peers.now) }
{
    let mut rest = peers;
    while let Some((first, others)) = rest.split_first() {
        if has_site(others, first.site) {
            return Some(first.site);
        }
        rest = others;
    }
    None
}

/// Whether one of the peers has this number.
#[tactic(auto, using(crate::proofs::Seen::sites_drop))]
fn has_site(peers: &[Peer], site: SiteNo) -> bool
    ensures { result ≡ list_any (λ other. other == site) (sites_of peers.now) }
{
    for peer in peers {
        if peer.site == site {
            return true;
        }
    }
    false
}
