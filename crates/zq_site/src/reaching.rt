//! Connections to peers.

use crate::shared::Shared;
use crate::times::connecting;
use crate::unreached::{Unreached, may_dial, why_of};
use std::net::{Net, SocketAddr, TcpListener, TcpStream, ToSocketAddrs};
use std::sync::Wait;
use zq_settings::{HostName, PeerAddress, Port};

/// Connects to a peer at this address of the settings, and says at which address it accepted. A
/// name is looked up, and its addresses are dialled in turn until somebody accepts, or the site
/// ends.
pub fn reach<N, R>(
    net: &N,
    rt: &R,
    shared: Shared<'_>,
    address: &PeerAddress,
) -> Result<(TcpStream, SocketAddr), Unreached>
where
    N: Net<Listener = TcpListener, Stream = TcpStream>,
    R: Wait,
{
    match address {
        PeerAddress::Ip(address) => match connect(net, address) {
            Some(stream) => Ok((stream, *address)),
            None => Err(Unreached::Silent),
        },
        PeerAddress::Named(name, port) => reach_named(net, rt, shared, name, *port),
    }
}

/// Connects to the host of this name, at this port.
fn reach_named<N, R>(
    net: &N,
    rt: &R,
    shared: Shared<'_>,
    name: &HostName,
    port: Port,
) -> Result<(TcpStream, SocketAddr), Unreached>
where
    N: Net<Listener = TcpListener, Stream = TcpStream>,
    R: Wait,
{
    let Ok(addresses) = (name.as_str(), port.value() as u16).to_socket_addrs(net) else {
        return Err(Unreached::Unknown);
    };
    let is_secured = shared.settings.secret.is_some();
    let mut is_found = false;
    let mut was_dialled = false;
    for address in addresses {
        is_found = true;
        if may_dial(is_secured, &address) {
            was_dialled = true;
            if !shared.halt.is_over(rt)
                && let Some(stream) = connect(net, &address)
            {
                return Ok((stream, address));
            }
        }
    }
    Err(why_of(is_found, was_dialled))
}

/// Connects to this address, where somebody accepts within the time that is given for it.
fn connect<N>(net: &N, address: &SocketAddr) -> Option<TcpStream>
where
    N: Net<Listener = TcpListener, Stream = TcpStream>,
{
    TcpStream::connect_timeout(net, address, connecting()).ok()
}
