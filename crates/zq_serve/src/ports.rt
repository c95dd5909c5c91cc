//! Opening the ports of sites.

ghost use Rattle.std.specs.Net.Socket.{socket_ip, socket_port};
ghost use Rattle.std.specs.Prelude.{All, IfOk, length, ◌≡◌};
ghost use Rattle.zq_serve.specs.Ports.{IsOpen};

use crate::fault::{ServeFault, fault_of};
use std::alloc::{AllocError, Global};
use std::net::{IpAddr, Ipv4Addr, Net, SocketAddr, TcpListener, TcpStream};
use zq_loop::{Acceptor, Limits, Poller, Port as ClientPort};
use zq_settings::{Port, WorkerCount};

/// A port that is listened on, with what works there: what accepts, and what its workers wait with.
#[derive(Drop)]
pub struct OpenPort {
    /// The port.
    pub port: ClientPort,
    /// What accepts its connections.
    pub acceptor: Acceptor,
    /// What each of its workers waits with.
    pub pollers: Vec<Poller>,
}

/// Listens on an address for a site's clients, whom so many workers serve.
///
/// `Device` where the address could not be listened on, and `NoMemory`.
pub fn open_port<R: Net<Listener = TcpListener, Stream = TcpStream>>(
    net: &R,
    alloc: Global,
    address: SocketAddr,
    workers: WorkerCount,
    limits: Limits,
) -> Result<OpenPort, ServeFault>
    ensures { IfOk result (IsOpen workers) }
{
    let count = workers.value() as usize;
    match ClientPort::open(net, alloc, address, count, limits) {
        Ok((port, acceptor, pollers)) => Ok(OpenPort {
            port,
            acceptor,
            pollers,
        }),
        Err(error) => Err(fault_of(address, error.kind())),
    }
}

/// The address of a port.
pub fn address_of(ip: IpAddr, port: Port) -> SocketAddr
    ensures ip { socket_ip result ≡ ip }
    ensures port { socket_port result ≡ port }
{
    SocketAddr::new(ip, port.value() as u16)
}

/// Listens on each of the ports, on loopback alone, for clients whom so many workers serve, as
/// [`open_port`] says.
pub fn open_ports<R: Net<Listener = TcpListener, Stream = TcpStream>>(
    net: &R,
    alloc: Global,
    ports: &[Port],
    workers: WorkerCount,
    limits: Limits,
) -> Result<Vec<OpenPort>, ServeFault>
    ensures number { IfOk result (λ opened. length opened.items ≡ length ports.now) }
    ensures each { IfOk result (λ opened. All (IsOpen workers) opened.items) }
{
    let mut opened = Vec::new(alloc);
    for port in ports {
        let address = address_of(IpAddr::V4(Ipv4Addr::LOCALHOST), *port);
        let one = open_port(net, alloc, address, workers, limits)?;
        opened.push(one).map_err(AllocError::from)?;
    }
    Ok(opened)
}

/// Listens on an address.
///
/// `Device` where that failed, and `NoMemory`.
pub fn listen<R: Net<Listener = TcpListener, Stream = TcpStream>>(
    net: &R,
    address: SocketAddr,
) -> Result<TcpListener, ServeFault> {
    match TcpListener::bind(net, address) {
        Ok(listener) => Ok(listener),
        Err(error) => Err(fault_of(address, error.kind())),
    }
}
