//! The values of texts of one site, at the bounds of each key and where keys are missing.

use super::has_limits;
use std::net::{IpAddr, Ipv6Addr, SocketAddr};
use std::test::Fail;
use zq_dots::Rule;
use zq_settings::{
    Accept, AdminSettings, LogLevel, Peer, PeerAddress, Protection, SiteSettings, site_settings,
};

/// An address of four numbers, and its port.
type Place = ([u8; 4], u16);

/// Where a peer is.
enum Where {
    /// At an address.
    At(Place),
    /// At a name, and a port.
    Named(&'static str, u64),
}

struct Row {
    text: &'static str,
    site: u8,
    port: u64,
    bind: [u8; 4],
    listen: Place,
    peers: &'static [(u8, Where)],
    heaps: u64,
    link_backlog: u64,
    alone: u64,
    accept: Accept,
    admin: Option<Place>,
    admin_token: Option<&'static str>,
    admin_bind: Option<[u8; 4]>,
    password_file: Option<&'static str>,
    unprotected: bool,
    drain: u64,
    log_level: LogLevel,
    max_memory: u64,
    seed: u64,
    secret: Option<&'static str>,
}

const LOOPBACK: [u8; 4] = [127, 0, 0, 1];

/// What `link_backlog` is where the key is missing.
const BACKLOG: u64 = 67_108_864;

const ROWS: [Row; 7] = [
    // The keys that have to be there, at their least.
    Row {
        text: "site = 0\nport = 1\nlisten = \"127.0.0.1:1\"",
        site: 0,
        port: 1,
        bind: LOOPBACK,
        listen: (LOOPBACK, 1),
        peers: &[],
        heaps: 4,
        link_backlog: BACKLOG,
        alone: 10,
        accept: Accept::Any,
        admin: None,
        admin_token: None,
        admin_bind: None,
        password_file: None,
        unprotected: false,
        drain: 10,
        log_level: LogLevel::Info,
        max_memory: 0,
        seed: 1,
        secret: None,
    },
    // At their greatest, with a secret of 16 bytes, and so at other addresses.
    Row {
        text: "secret = \"0123456789abcdef\"\nlisten = \"0.0.0.0:65535\"\nport = 65535\nsite = 63\nlink_backlog = 1099511627776\nalone = 1000000\naccept = \"listed\"\ndrain = 1000000\nmax_memory = 1099511627776\nlog_level = \"debug\"\nadmin = \"127.255.255.254:65535\"\nadmin_bind = \"0.0.0.0\"\nadmin_token = \"!~0123456789abcd\"\nheaps = 16\nbind = \"10.1.2.3\"\npassword_file = \"p\"\npeers = [{ site = 0, address = \"10.1.2.4:7101\" }]",
        site: 63,
        port: 65535,
        bind: [10, 1, 2, 3],
        listen: ([0, 0, 0, 0], 65535),
        peers: &[(0, Where::At(([10, 1, 2, 4], 7101)))],
        heaps: 16,
        link_backlog: 1_099_511_627_776,
        alone: 1_000_000,
        accept: Accept::Listed,
        admin: Some(([127, 255, 255, 254], 65535)),
        admin_token: Some("!~0123456789abcd"),
        admin_bind: Some([0, 0, 0, 0]),
        password_file: Some("p"),
        unprotected: false,
        drain: 1_000_000,
        log_level: LogLevel::Debug,
        max_memory: 1_099_511_627_776,
        seed: 64,
        secret: Some("0123456789abcdef"),
    },
    // Tables of an array, in the other way to write them; a secret of 16 bytes in fewer letters.
    Row {
        text: "site = 1\nport = 7002\nlisten = '127.0.0.1:7102'\nsecret = 'éééééééé'\nalone = 0\naccept = 'any'\nlog_level = 'warn'\nmax_memory = 1\nadmin = '127.0.0.1:7180'\nadmin_token = 'tttttttttttttttttttttttttttttttttttttttttttttttttttttttttttttttttttttttttttttttttttttttttttttttttttttttttttttttttttttttttttttttttttttttttttttttttttttttttttttttttttttttttttttttttttttttttttttttttttttttttttttttttttttttttttttttttttttttttttttttttttttttttttttttt'\n[[peers]]\naddress = '127.0.0.1:7101'\nsite = 0\n[[peers]]\nsite = 2\naddress = '127.9.9.9:7103'\n",
        site: 1,
        port: 7002,
        bind: LOOPBACK,
        listen: (LOOPBACK, 7102),
        peers: &[
            (0, Where::At((LOOPBACK, 7101))),
            (2, Where::At(([127, 9, 9, 9], 7103))),
        ],
        heaps: 4,
        link_backlog: BACKLOG,
        alone: 0,
        accept: Accept::Any,
        admin: Some((LOOPBACK, 7180)),
        admin_token: Some(
            "tttttttttttttttttttttttttttttttttttttttttttttttttttttttttttttttttttttttttttttttttttttttttttttttttttttttttttttttttttttttttttttttttttttttttttttttttttttttttttttttttttttttttttttttttttttttttttttttttttttttttttttttttttttttttttttttttttttttttttttttttttttttttttttttt",
        ),
        admin_bind: None,
        password_file: None,
        unprotected: false,
        drain: 10,
        log_level: LogLevel::Warn,
        max_memory: 1,
        seed: 2,
        secret: Some("éééééééé"),
    },
    // No peers, and no secret: the port of clients may be at any address, as is said. The least of
    // `link_backlog`, of the port of `admin`, of `drain` and of `max_memory`.
    Row {
        text: "site = 5\nport = 7001\nlisten = \"127.255.0.1:7101\"\npeers = []\nadmin = \"127.0.0.1:1\"\nadmin_bind = \"127.0.0.2\"\ndrain = 0\nmax_memory = 0\nlink_backlog = 1048576\nbind = \"0.0.0.0\"\nunprotected = true",
        site: 5,
        port: 7001,
        bind: [0, 0, 0, 0],
        listen: ([127, 255, 0, 1], 7101),
        peers: &[],
        heaps: 4,
        link_backlog: 1_048_576,
        alone: 10,
        accept: Accept::Any,
        admin: Some((LOOPBACK, 1)),
        admin_token: None,
        admin_bind: Some([127, 0, 0, 2]),
        password_file: None,
        unprotected: true,
        drain: 0,
        log_level: LogLevel::Info,
        max_memory: 0,
        seed: 6,
        secret: None,
    },
    // Two peers at one address.
    Row {
        text: "site = 2\nseed = 9223372036854775807\nadmin_token = \"0123456789abcdef\"\nadmin_bind = \"10.1.2.3\"\naccept = \"listed\"\nlog_level = \"info\"\nmax_memory = 0x4000_0000\nport = 7001\nlisten = \"127.0.0.1:7101\"\npeers = [{ site = 63, address = \"127.0.0.1:7102\" }, { address = \"127.0.0.1:7102\", site = 3 }]",
        site: 2,
        port: 7001,
        bind: LOOPBACK,
        listen: (LOOPBACK, 7101),
        peers: &[
            (63, Where::At((LOOPBACK, 7102))),
            (3, Where::At((LOOPBACK, 7102))),
        ],
        heaps: 4,
        link_backlog: BACKLOG,
        alone: 10,
        accept: Accept::Listed,
        admin: None,
        admin_token: Some("0123456789abcdef"),
        admin_bind: Some([10, 1, 2, 3]),
        password_file: None,
        unprotected: false,
        drain: 10,
        log_level: LogLevel::Info,
        max_memory: 1_073_741_824,
        seed: 9_223_372_036_854_775_807,
        secret: None,
    },
    // Names of hosts, which a site with a secret may have: the longest, a port with zeros before it.
    Row {
        text: "site = 9\nport = 7001\nlisten = \"127.0.0.1:7101\"\nsecret = \"0123456789abcdef\"\npeers = [{ site = 0, address = \"queue-0.example:7101\" }, { site = 1, address = \"Q_0.7.x-9:1\" }, { site = 2, address = \"aaaaaaaaaaaaaaaaaaaaaaaaaaaaaaaaaaaaaaaaaaaaaaaaaaaaaaaaaaaaaaa.aaaaaaaaaaaaaaaaaaaaaaaaaaaaaaaaaaaaaaaaaaaaaaaaaaaaaaaaaaaaaaa.aaaaaaaaaaaaaaaaaaaaaaaaaaaaaaaaaaaaaaaaaaaaaaaaaaaaaaaaaaaaaaa.aaaaaaaaaaaaaaaaaaaaaaaaaaaaaaaaaaaaaaaaaaaaaaaaaaaaaaaaaaaaa:65535\" }, { site = 3, address = \"a:00080\" }, { site = 4, address = \"7a:7101\" }, { site = 5, address = \"localhost:7101\" }]",
        site: 9,
        port: 7001,
        bind: LOOPBACK,
        listen: (LOOPBACK, 7101),
        peers: &[
            (0, Where::Named("queue-0.example", 7101)),
            (1, Where::Named("Q_0.7.x-9", 1)),
            (
                2,
                Where::Named(
                    "aaaaaaaaaaaaaaaaaaaaaaaaaaaaaaaaaaaaaaaaaaaaaaaaaaaaaaaaaaaaaaa.aaaaaaaaaaaaaaaaaaaaaaaaaaaaaaaaaaaaaaaaaaaaaaaaaaaaaaaaaaaaaaa.aaaaaaaaaaaaaaaaaaaaaaaaaaaaaaaaaaaaaaaaaaaaaaaaaaaaaaaaaaaaaaa.aaaaaaaaaaaaaaaaaaaaaaaaaaaaaaaaaaaaaaaaaaaaaaaaaaaaaaaaaaaaa",
                    65535,
                ),
            ),
            (3, Where::Named("a", 80)),
            (4, Where::Named("7a", 7101)),
            (5, Where::Named("localhost", 7101)),
        ],
        heaps: 4,
        link_backlog: BACKLOG,
        alone: 10,
        accept: Accept::Any,
        admin: None,
        admin_token: None,
        admin_bind: None,
        password_file: None,
        unprotected: false,
        drain: 10,
        log_level: LogLevel::Info,
        max_memory: 0,
        seed: 10,
        secret: Some("0123456789abcdef"),
    },
    // And the names that it may have without one.
    Row {
        text: "site = 9\nport = 7001\nlisten = \"127.0.0.1:7101\"\npeers = [{ site = 0, address = \"localhost:7102\" }, { site = 1, address = \"LocalHost:7103\" }]",
        site: 9,
        port: 7001,
        bind: LOOPBACK,
        listen: (LOOPBACK, 7101),
        peers: &[
            (0, Where::Named("localhost", 7102)),
            (1, Where::Named("LocalHost", 7103)),
        ],
        heaps: 4,
        link_backlog: BACKLOG,
        alone: 10,
        accept: Accept::Any,
        admin: None,
        admin_token: None,
        admin_bind: None,
        password_file: None,
        unprotected: false,
        drain: 10,
        log_level: LogLevel::Info,
        max_memory: 0,
        seed: 10,
        secret: None,
    },
];

fn ip_of(octets: [u8; 4]) -> IpAddr {
    IpAddr::from(octets)
}

fn address_of(place: Place) -> SocketAddr {
    let (octets, port) = place;
    SocketAddr::new(IpAddr::from(octets), port)
}

fn is_at(address: &PeerAddress, row: &Where) -> bool {
    match (address, row) {
        (PeerAddress::Ip(address), Where::At(place)) => *address == address_of(*place),
        (PeerAddress::Named(name, port), Where::Named(text, number)) => {
            name.as_str() == *text && port.value() == *number
        }
        _ => false,
    }
}

fn is_peer(peer: &Peer, row: &(u8, Where)) -> bool {
    peer.site.value() == row.0 && is_at(&peer.address, &row.1)
}

fn are_peers(peers: &[Peer], rows: &[(u8, Where)]) -> bool {
    peers.len() == rows.len() && peers.iter().zip(rows).all(|(peer, row)| is_peer(peer, row))
}

fn has_secret(settings: &SiteSettings, secret: Option<&'static str>) -> bool {
    match (&settings.secret, secret) {
        (Some(given), Some(text)) => given.as_bytes() == text.as_bytes(),
        (None, None) => true,
        _ => false,
    }
}

fn has_admin(given: &AdminSettings, row: &Row) -> bool {
    let token = match &given.token {
        Some(token) => row.admin_token == Some(token.as_str()),
        None => row.admin_token.is_none(),
    };
    token && given.address == row.admin.map(address_of) && given.bind == row.admin_bind.map(ip_of)
}

fn has_protection(given: &Protection, row: &Row) -> bool {
    let file = match &given.password_file {
        Some(file) => row.password_file == Some(file.as_str()),
        None => row.password_file.is_none(),
    };
    file && given.unprotected == row.unprotected
}

fn is_row(settings: &SiteSettings, row: &Row) -> bool {
    let bind = row.bind;
    settings.site.value() == row.site
        && settings.port.value() == row.port
        && settings.bind == IpAddr::from(bind)
        && settings.listen == address_of(row.listen)
        && are_peers(settings.peers.as_slice(), row.peers)
        && settings.heaps.value() == row.heaps
        && settings.link_backlog.value() == row.link_backlog
        && settings.alone.value() == row.alone
        && settings.accept == row.accept
        && has_admin(&settings.admin, row)
        && has_protection(&settings.protection, row)
        && settings.drain.value() == row.drain
        && settings.log_level == row.log_level
        && settings.max_memory.value() == row.max_memory
        && settings.seed.value() == row.seed
        && has_secret(settings, row.secret)
}

#[test]
fn each_text_has_its_site(rt: HostRuntime) -> Result<(), Fail> {
    for row in ROWS.iter() {
        let given = site_settings(rt.alloc(), row.text)?;
        assert!(rt; is_row(&given, row), "of {}", row.text);
    }
    Ok(())
}

#[test]
fn a_site_may_have_the_keys_of_several(rt: HostRuntime) -> Result<(), Fail> {
    let text =
        "site = 7\nport = 7001\nlisten = \"[::1]:7101\"\nbind = \"::\"\npassword_file = \"/etc/zqueue/site.password\"\nunprotected = false\nworkers = 64\nconnections = 1\nclients = 7\ntimeout = 8\nwrite_timeout = 9\noutput = 2000000\nseed = 0\nrule = \"LOW\"";
    let given = site_settings(rt.alloc(), text)?;
    assert_eq!(rt; given.listen.port(), 7101);
    assert!(rt; given.listen.ip() == IpAddr::V6(Ipv6Addr::LOCALHOST));
    assert!(rt; given.bind == IpAddr::V6(Ipv6Addr::UNSPECIFIED));
    assert!(rt; matches!(given.workers, Some(workers) if workers.value() == 64));
    assert_eq!(rt; given.connections.map(|count| count.value()), Some(1));
    assert!(rt; has_limits(&given.limits, (7, 8, 9, 2_000_000)));
    assert_eq!(rt; given.seed.value(), 0);
    assert_eq!(rt; given.rule, Rule::Low);
    Ok(())
}

#[test]
fn an_admin_port_may_be_at_the_other_loopback_address(rt: HostRuntime) -> Result<(), Fail> {
    let text =
        "site = 7\nport = 7001\nlisten = \"127.0.0.1:7101\"\nadmin = \"[::1]:7180\"\nadmin_bind = \"::1\"";
    let given = site_settings(rt.alloc(), text)?;
    let place = SocketAddr::new(IpAddr::V6(Ipv6Addr::LOCALHOST), 7180);
    assert!(rt; given.admin.address == Some(place));
    Ok(())
}
