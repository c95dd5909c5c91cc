//! What a request says of the host that it was sent to.

use std::net::{IpAddr, SocketAddr};

/// Whether a host is an IP address or `localhost`, each with a port or without one. An IPv6 address
/// with a port stands in brackets, and one without a port in none. Another name may be one that a
/// stranger gave this machine's address.
pub fn is_literal(host: &str) -> bool {
    is_localhost(name_in(host))
        || host.parse::<SocketAddr>().is_ok()
        || host.parse::<IpAddr>().is_ok()
}

/// The name before the first colon.
fn name_in(host: &str) -> &str {
    match host.split_once(':') {
        Some((name, _)) => name,
        None => host,
    }
}

/// Whether it is the name `localhost`, whatever the case of its letters.
fn is_localhost(name: &str) -> bool {
    name.eq_ignore_ascii_case("localhost")
}
