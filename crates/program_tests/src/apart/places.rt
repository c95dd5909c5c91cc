//! Where the sites of the tests are.

use crate::patience::{LOOKS, nap};
use crate::ports::free_ports;
use std::alloc::Global;
use std::net::{IpAddr, Ipv4Addr, Net, SocketAddr, TcpListener, TcpStream};
use std::process::Process;
use std::test::Fail;
use std::time::Clock;
use zq_settings::{SiteSettings, site_settings};

const LOOPBACK: IpAddr = IpAddr::V4(Ipv4Addr::LOCALHOST);

/// Where a site of the tests is: its number, and the ports of its clients and of its peers.
#[derive(Clone, Copy)]
pub struct Place {
    pub site: u8,
    pub clients: u16,
    pub peers: u16,
}

impl Place {
    pub fn door(self) -> SocketAddr {
        SocketAddr::from((LOOPBACK, self.peers))
    }
}

/// Places of this many sites, four at most, on ports on which nobody listens.
pub fn free_places<R: Net<Listener = TcpListener, Stream = TcpStream>>(
    rt: &R,
    alloc: Global,
    process: Process,
    sites: u8,
) -> Result<Vec<Place>, Fail> {
    let ports = free_ports(rt, process)?;
    let mut places = Vec::new(alloc);
    for site in 0..sites {
        places.push(place_of(site, &ports).ok_or("no port is left")?)?;
    }
    Ok(places)
}

/// The place of a site, which has the next two of the ports.
fn place_of(site: u8, ports: &[u16]) -> Option<Place> {
    let at = 2 * usize::from(site);
    Some(Place {
        site,
        clients: *ports.get(at)?,
        peers: *ports.get(at + 1)?,
    })
}

/// The settings of a site that is alone, and whose clients connect at an address of their own.
pub fn settings_at(alloc: Global, own: Place, bind: &str) -> Result<SiteSettings, Fail> {
    let Place {
        site,
        clients,
        peers,
    } = own;
    let text = format!(in alloc;
        "site = {site}\nport = {clients}\nbind = \"{bind}\"\nlisten = \"127.0.0.1:{peers}\"\nconnections = 1\nalone = 0\n"
    )?;
    Ok(site_settings(alloc, text.as_str())?)
}

/// The settings of one of the sites, of two heaps, which accepts one connection. The other places
/// are its peers, and no others are accepted. It waits for nobody.
pub fn settings_of(
    alloc: Global,
    own: Place,
    places: &[Place],
    secret: Option<&str>,
) -> Result<SiteSettings, Fail> {
    let more = "alone = 0\naccept = \"listed\"\n";
    settings_with(alloc, own, places, secret, more)
}

/// The same with these lines in place of whom it accepts and waits for.
pub fn settings_with(
    alloc: Global,
    own: Place,
    places: &[Place],
    secret: Option<&str>,
    more: &str,
) -> Result<SiteSettings, Fail> {
    let Place {
        site,
        clients,
        peers,
    } = own;
    let mut text = format!(in alloc;
        "site = {site}\nport = {clients}\nlisten = \"127.0.0.1:{peers}\"\n"
    )?;
    text.push_str("heaps = 2\nworkers = 1\nconnections = 1\n")?;
    text.push_str(more)?;
    if let Some(secret) = secret {
        text.push_str(format!(in alloc; "secret = \"{secret}\"\n")?.as_str())?;
    }
    for place in places {
        if place.site != site {
            text.push_str(peer_table(alloc, *place)?.as_str())?;
        }
    }
    Ok(site_settings(alloc, text.as_str())?)
}

/// The table of a peer at this place.
fn peer_table(alloc: Global, place: Place) -> Result<String, Fail> {
    let Place { site, peers, .. } = place;
    Ok(format!(in alloc; "[[peers]]\nsite = {site}\naddress = \"127.0.0.1:{peers}\"\n")?)
}

/// A stream to the port, once somebody listens there.
pub fn connect<N: Net<Listener = TcpListener, Stream = TcpStream>, R: Clock>(
    net: &N,
    rt: &R,
    port: u16,
) -> Result<TcpStream, Fail> {
    Ok(reach(net, rt, SocketAddr::from((LOOPBACK, port))).ok_or("nobody listens")?)
}

/// A stream to the address, once somebody listens there.
fn reach<N: Net<Listener = TcpListener, Stream = TcpStream>, R: Clock>(
    net: &N,
    rt: &R,
    address: SocketAddr,
) -> Option<TcpStream> {
    for _look in 0..LOOKS {
        match TcpStream::connect(net, address) {
            Ok(stream) => return Some(stream),
            Err(_) => nap(rt),
        }
    }
    None
}
