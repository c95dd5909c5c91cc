//! Where a peer is.

use crate::host_name::HostName;
use crate::ports::Port;
use std::fmt;
use std::net::SocketAddr;

/// Where a peer listens.
#[derive(Debug, Drop)]
pub enum PeerAddress {
    /// At an IP address, with a port that is not 0.
    Ip(SocketAddr),
    /// At the host of this name, which is looked up each time that the peer is dialled.
    Named(HostName, Port),
}

impl fmt::Display for PeerAddress {
    ghost use Rattle.std.specs.Prelude.{Some};
    ghost use Rattle.zq_settings.specs.PeerAddresses.{peer_address_text};

    ghost output = { λ address. Some (peer_address_text address) };

    /// The address as settings write it.
    fn fmt<W: fmt::Write>(&self, f: &mut fmt::Formatter<W>) -> fmt::Result {
        match self {
            PeerAddress::Ip(address) => write!(f, "{address}"),
            PeerAddress::Named(name, port) => {
                let name = name.as_str();
                let port = port.value();
                write!(f, "{name}:{port}")
            }
        }
    }
}
