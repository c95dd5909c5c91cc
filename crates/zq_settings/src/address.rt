//! Addresses from texts.

ghost use Rattle.std.specs.Prelude.{◌≡◌, IfOk};
ghost use Rattle.toml.specs.View.{table_view};
ghost use Rattle.zq_settings.specs.Addresses.{address_of as address_in, ip_of as ip_in, is_local as is_local_in, is_loopback, socket_of as socket_in};
ghost use Rattle.zq_settings.specs.PeerAddresses.{is_local_peer as is_local_peer_in, peer_address_of as peer_address_in};
ghost use Rattle.zq_settings.specs.Site.{bind_of as bind_at, address_at, peer_address_at};
ghost use Rattle.zq_settings.specs.Tables.{value_at as value_in};
ghost use Rattle.zq_settings.specs.Texts.{Reads};

use crate::fault::SettingsFault;
use crate::host_name::HostName;
use crate::key::Key;
use crate::lookup::value_at;
use crate::naming::{is_localhost, named_of};
use crate::peer_address::PeerAddress;
use crate::why::Why;
use std::alloc::{AllocError, Global};
use std::net::{IpAddr, Ipv4Addr, SocketAddr};
use toml::Table;

/// The address at the key, which has to be there. Where there is no secret it has to be a loopback
/// address.
pub fn read_address(table: &Table, key: Key, secured: bool) -> Result<SocketAddr, Why>
    ensures { result ≡ address_at secured key (value_in key (table_view table.now)) }
{
    let Some(value) = value_at(table, key) else {
        return Err(Why::Missing(key));
    };
    let Some(text) = value.as_str() else {
        return Err(Why::Kind(key));
    };
    match address_of(text) {
        Some(address) if secured || is_local(&address) => Ok(address),
        Some(_) => Err(Why::Exposed(key)),
        None => Err(Why::Range(key)),
    }
}

/// Where a peer listens, which has to be there. Where there is no secret it has to be at a loopback
/// address or at `localhost`.
pub fn read_peer_address(
    alloc: Global,
    table: &Table,
    secured: bool,
) -> Result<PeerAddress, SettingsFault>
    ensures { Reads result
        (peer_address_at secured (value_in Key.PeerAddress (table_view table.now))) }
{
    let Some(value) = value_at(table, Key::PeerAddress) else {
        return Err(Why::Missing(Key::PeerAddress).into());
    };
    let Some(text) = value.as_str() else {
        return Err(Why::Kind(Key::PeerAddress).into());
    };
    match peer_address_of(alloc, text)? {
        Some(address) if secured || is_local_peer(&address) => Ok(address),
        Some(_) => Err(Why::Exposed(Key::PeerAddress).into()),
        None => Err(Why::Range(Key::PeerAddress).into()),
    }
}

/// The address at which the port of clients is, and 127.0.0.1 where the table does not have the
/// key.
pub fn read_bind(table: &Table) -> Result<IpAddr, Why>
    ensures { result ≡ bind_at (value_in Key.Bind (table_view table.now)) }
{
    let Some(value) = value_at(table, Key::Bind) else {
        return Ok(IpAddr::V4(Ipv4Addr::LOCALHOST));
    };
    match value.as_str() {
        Some(text) => ip_of(text).ok_or(Why::Range(Key::Bind)),
        None => Err(Why::Kind(Key::Bind)),
    }
}

/// The address that the text writes, with a port that is not 0.
fn address_of(text: &str) -> Option<SocketAddr>
    ensures { result ≡ address_in text.now }
{
    let address = socket_of(text)?;
    if address.port() == 0 {
        return None;
    }
    Some(address)
}

/// Where a peer listens by the text: an IP address with a port that is not 0, or a name and a port.
fn peer_address_of(alloc: Global, text: &str) -> Result<Option<PeerAddress>, AllocError>
    ensures { IfOk result (λ address. address ≡ peer_address_in text.now) }
{
    if let Some(address) = address_of(text) {
        return Ok(Some(PeerAddress::Ip(address)));
    }
    match named_of(text) {
        Some((name, port)) => {
            let name = HostName::copy(alloc, name)?;
            Ok(Some(PeerAddress::Named(name, port)))
        }
        None => Ok(None),
    }
}

/// The address with a port that the text writes.
#[tactic(auto, using(crate::proofs::Spelled::socket_parsed))]
fn socket_of(text: &str) -> Option<SocketAddr>
    ensures { result ≡ socket_in text.now }
{
    text.parse::<SocketAddr>().ok()
}

/// The IP address that the text writes.
#[tactic(auto, using(crate::proofs::Spelled::ip_parsed))]
pub fn ip_of(text: &str) -> Option<IpAddr>
    ensures { result ≡ ip_in text.now }
{
    text.parse::<IpAddr>().ok()
}

/// Whether it is a loopback address, or `localhost`.
fn is_local_peer(address: &PeerAddress) -> bool
    ensures { result ≡ is_local_peer_in address.now }
{
    match address {
        PeerAddress::Ip(address) => is_local(address),
        PeerAddress::Named(name, _) => is_localhost(name.as_str()),
    }
}

/// Whether it is a loopback address.
fn is_local(address: &SocketAddr) -> bool
    ensures { result ≡ is_local_in address.now }
{
    address.ip().is_loopback()
}

/// The same of an address with no port.
pub fn is_local_ip(ip: &IpAddr) -> bool
    ensures { result ≡ is_loopback ip.now }
{
    ip.is_loopback()
}
