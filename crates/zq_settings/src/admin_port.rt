//! Where the admin port of a site is heard, and where it is asked.

ghost use Rattle.std.specs.Net.Socket.{socket_ip, socket_port};
ghost use Rattle.std.specs.Prelude.{IfSome, None, is_some, ◌≡◌};

use crate::values::AdminSettings;
use std::net::{IpAddr, Ipv4Addr, Ipv6Addr, SocketAddr};

impl AdminSettings {
    /// Where the port is heard: at the address of `admin_bind`, where there is one.
    pub fn heard_at(&self) -> Option<SocketAddr>
        ensures some { is_some result ≡ is_some self.now.address }
        ensures own { self.now.bind ≡ None → result ≡ self.now.address }
        ensures ip { IfSome self.now.bind (λ ip. IfSome result (λ at. socket_ip at ≡ ip)) }
        ensures port { IfSome self.now.address
            (λ own. IfSome result (λ at. socket_port at ≡ socket_port own)) }
    {
        let address = self.address?;
        match self.bind {
            Some(ip) => Some(SocketAddr::new(ip, address.port())),
            None => Some(address),
        }
    }

    /// Where the port is asked from this machine: where it is heard, or, where that is each address
    /// of the machine, at a loopback address.
    pub fn asked_at(&self) -> Option<SocketAddr>
        ensures some { is_some result ≡ is_some self.now.address }
        ensures own { self.now.bind ≡ None → result ≡ self.now.address }
        ensures port { IfSome self.now.address
            (λ own. IfSome result (λ at. socket_port at ≡ socket_port own)) }
    {
        let address = self.address?;
        match self.bind {
            Some(ip) => Some(SocketAddr::new(reached_by(ip), address.port())),
            None => Some(address),
        }
    }
}

/// By what address this machine reaches a port that is heard at this one.
fn reached_by(ip: IpAddr) -> IpAddr {
    match ip {
        IpAddr::V4(own) if own.is_unspecified() => IpAddr::V4(Ipv4Addr::LOCALHOST),
        IpAddr::V6(own) if own.is_unspecified() => IpAddr::V6(Ipv6Addr::LOCALHOST),
        ip => ip,
    }
}
