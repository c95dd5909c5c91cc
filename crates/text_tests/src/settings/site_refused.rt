//! Texts of one site that are refused, and the words that say why.

use std::alloc::Global;
use std::test::Fail;
use zq_settings::{SettingsFault, site_settings};

const UNKNOWN: &str =
    "is not a key of a site's settings, which are site, port, bind, secret, listen, peers, heaps, workers, connections, clients, timeout, write_timeout, output, link_backlog, alone, accept, admin, admin_token, admin_bind, password_file, unprotected, drain, data, sync, log_level, max_memory, seed and rule";

const LISTEN: &str = "it takes an IP address with a port from 1 to 65535, as \"127.0.0.1:7101\"";

const EXPOSED: &str = "is no loopback address: without a secret of at least 16 bytes it takes one";

/// What a peer's address takes.
pub const PEER: &str =
    "it takes an IP address or the name of a host, with a port from 1 to 65535, as \"127.0.0.1:7101\" or \"queue-0.example:7101\"";

/// What is said of a peer's address that is open to others.
pub const EXPOSED_PEER: &str =
    "is neither a loopback address nor localhost: without a secret of at least 16 bytes it takes one of these";

const PEERS: &str = "it takes an array of at most 63 tables of other sites";

/// What stands before the text of a row.
const SITE: &str = "site = 3\nport = 7001\n";

/// Settings of a site with no peers.
pub const HEARD: &str = "site = 3\nport = 7001\nlisten = \"127.0.0.1:7101\"\n";

/// The text in two parts, and the words in two parts.
type Row = (&'static str, &'static str, &'static str, &'static str);

const REFUSALS: [Row; 64] = [
    // Other keys.
    ("", "heap = 4", "\"heap\" ", UNKNOWN),
    ("", "ports = [7001]", "\"ports\" ", UNKNOWN),
    (
        HEARD,
        "address = \"127.0.0.1:7101\"",
        "\"address\" ",
        UNKNOWN,
    ),
    // The site, its port, and where it is.
    (
        "",
        "",
        "site is missing: ",
        "it takes a whole number from 0 to 63",
    ),
    (
        "",
        "site = 64",
        "site has a value out of range: ",
        "it takes a whole number from 0 to 63",
    ),
    (
        "",
        "site = -1",
        "site has a value out of range: ",
        "it takes a whole number from 0 to 63",
    ),
    (
        "",
        "site = \"3\"",
        "site has a value of another kind: ",
        "it takes a whole number from 0 to 63",
    ),
    (
        "",
        "site = 3",
        "port is missing: ",
        "it takes a whole number from 1 to 65535",
    ),
    (
        "site = 3\n",
        "port = 0",
        "port has a value out of range: ",
        "it takes a whole number from 1 to 65535",
    ),
    (
        "site = 3\n",
        "port = 65536",
        "port has a value out of range: ",
        "it takes a whole number from 1 to 65535",
    ),
    (
        "site = 3\n",
        "port = [7001]",
        "port has a value of another kind: ",
        "it takes a whole number from 1 to 65535",
    ),
    (
        SITE,
        "bind = \"localhost\"",
        "bind has a value out of range: ",
        "it takes an IP address, as \"127.0.0.1\"",
    ),
    (
        SITE,
        "bind = \"127.0.0.1:7001\"",
        "bind has a value out of range: ",
        "it takes an IP address, as \"127.0.0.1\"",
    ),
    (
        SITE,
        "bind = 127",
        "bind has a value of another kind: ",
        "it takes an IP address, as \"127.0.0.1\"",
    ),
    // The secret.
    (
        SITE,
        "secret = \"0123456789abcde\"",
        "secret has a value out of range: ",
        "it takes a text of at least 16 bytes",
    ),
    (
        SITE,
        "secret = \"\"",
        "secret has a value out of range: ",
        "it takes a text of at least 16 bytes",
    ),
    (
        SITE,
        "secret = 1234567890123456",
        "secret has a value of another kind: ",
        "it takes a text of at least 16 bytes",
    ),
    // Where it listens.
    (SITE, "", "listen is missing: ", LISTEN),
    (
        SITE,
        "listen = 7101",
        "listen has a value of another kind: ",
        LISTEN,
    ),
    (
        SITE,
        "listen = \"127.0.0.1\"",
        "listen has a value out of range: ",
        LISTEN,
    ),
    (
        SITE,
        "listen = \"127.0.0.1:0\"",
        "listen has a value out of range: ",
        LISTEN,
    ),
    (
        SITE,
        "listen = \"127.0.0.1:65536\"",
        "listen has a value out of range: ",
        LISTEN,
    ),
    (
        SITE,
        "listen = \"localhost:7101\"",
        "listen has a value out of range: ",
        LISTEN,
    ),
    (
        SITE,
        "listen = \" 127.0.0.1:7101\"",
        "listen has a value out of range: ",
        LISTEN,
    ),
    (SITE, "listen = \"0.0.0.0:7101\"", "listen ", EXPOSED),
    (SITE, "listen = \"128.0.0.1:7101\"", "listen ", EXPOSED),
    (SITE, "listen = \"[::2]:7101\"", "listen ", EXPOSED),
    // Peers.
    (
        HEARD,
        "peers = 2",
        "peers has a value of another kind: ",
        PEERS,
    ),
    (
        HEARD,
        "peers = { site = 2, address = \"127.0.0.1:7102\" }",
        "peers has a value of another kind: ",
        PEERS,
    ),
    (
        HEARD,
        "peers = [2]",
        "peers has a value of another kind: ",
        PEERS,
    ),
    (
        HEARD,
        "peers = [{ site = 2, address = \"127.0.0.1:7102\" }, \"b\"]",
        "peers has a value of another kind: ",
        PEERS,
    ),
    (
        HEARD,
        "peers = [{}]",
        "a peer's site is missing: ",
        "it takes a whole number from 0 to 63",
    ),
    (
        HEARD,
        "peers = [{ site = 64 }]",
        "a peer's site has a value out of range: ",
        "it takes a whole number from 0 to 63",
    ),
    (
        HEARD,
        "peers = [{ site = 2.0 }]",
        "a peer's site has a value of another kind: ",
        "it takes a whole number from 0 to 63",
    ),
    (
        HEARD,
        "peers = [{ site = 3 }]",
        "peers has the site's own number 3: ",
        PEERS,
    ),
    (
        HEARD,
        "peers = [{ site = 2 }]",
        "a peer's address is missing: ",
        PEER,
    ),
    (
        HEARD,
        "peers = [{ site = 2, address = 7102 }]",
        "a peer's address has a value of another kind: ",
        PEER,
    ),
    (
        HEARD,
        "peers = [{ site = 2, address = \"127.0.0.1:0\" }]",
        "a peer's address has a value out of range: ",
        PEER,
    ),
    (
        HEARD,
        "peers = [{ site = 2, address = \"10.0.0.2:7102\" }]",
        "a peer's address ",
        EXPOSED_PEER,
    ),
    (
        HEARD,
        "peers = [{ site = 2, address = \"127.0.0.1:7102\", name = \"b\" }]",
        "\"name\" ",
        "is not a key of a peer, which are site and address",
    ),
    (
        HEARD,
        "peers = [{ site = 2, address = \"127.0.0.1:7102\" }, { site = 2, address = \"127.0.0.1:7103\" }]",
        "peers has site 2 twice: ",
        PEERS,
    ),
    // What it keeps for its peers.
    (
        HEARD,
        "link_backlog = 1048575",
        "link_backlog has a value out of range: ",
        "it takes a whole number from 1048576 to 1099511627776",
    ),
    (
        HEARD,
        "link_backlog = 1099511627777",
        "link_backlog has a value out of range: ",
        "it takes a whole number from 1048576 to 1099511627776",
    ),
    (
        HEARD,
        "link_backlog = \"67108864\"",
        "link_backlog has a value of another kind: ",
        "it takes a whole number from 1048576 to 1099511627776",
    ),
    // The keys of several sites.
    (
        HEARD,
        "heaps = 1",
        "heaps has a value out of range: ",
        "it takes a whole number from 2 to 16",
    ),
    (
        HEARD,
        "workers = 65",
        "workers has a value out of range: ",
        "it takes a whole number from 1 to 64",
    ),
    (
        HEARD,
        "connections = -1",
        "connections has a value out of range: ",
        "it takes a whole number from 0 to 1000000",
    ),
    (
        HEARD,
        "clients = 0",
        "clients has a value out of range: ",
        "it takes a whole number from 1 to 1000000",
    ),
    (
        HEARD,
        "timeout = \"60\"",
        "timeout has a value of another kind: ",
        "it takes a whole number from 0 to 1000000",
    ),
    (
        HEARD,
        "write_timeout = 1000001",
        "write_timeout has a value out of range: ",
        "it takes a whole number from 0 to 1000000",
    ),
    (
        HEARD,
        "output = 1048575",
        "output has a value out of range: ",
        "it takes a whole number from 1048576 to 1099511627776",
    ),
    (
        HEARD,
        "alone = 1000001",
        "alone has a value out of range: ",
        "it takes a whole number from 0 to 1000000",
    ),
    (
        HEARD,
        "alone = \"10\"",
        "alone has a value of another kind: ",
        "it takes a whole number from 0 to 1000000",
    ),
    (
        HEARD,
        "accept = \"all\"",
        "accept has a value out of range: ",
        "it takes \"any\" or \"listed\"",
    ),
    (
        HEARD,
        "accept = true",
        "accept has a value of another kind: ",
        "it takes \"any\" or \"listed\"",
    ),
    (
        HEARD,
        "seed = 1.5",
        "seed has a value of another kind: ",
        "it takes a whole number from 0 to 9223372036854775807",
    ),
    (
        HEARD,
        "rule = \"high\"",
        "rule has a value out of range: ",
        "it takes \"HIGH\" or \"LOW\"",
    ),
    // Where a text breaks more than one rule, the first of them; and no TOML.
    (
        "rule = 1\n",
        "site = -1",
        "site has a value out of range: ",
        "it takes a whole number from 0 to 63",
    ),
    (
        SITE,
        "listen = \"10.0.0.1:7101\"\nsecret = \"short\"",
        "secret has a value out of range: ",
        "it takes a text of at least 16 bytes",
    ),
    (
        HEARD,
        "heaps = 1\npeers = [{ site = 2, address = \"127.0.0.1:7102\" }, { site = 2 }]",
        "a peer's address is missing: ",
        PEER,
    ),
    (
        HEARD,
        "link_backlog = 0\nseed = -1",
        "link_backlog has a value out of range: ",
        "it takes a whole number from 1048576 to 1099511627776",
    ),
    (
        HEARD,
        "accept = 1\nalone = -1",
        "alone has a value out of range: ",
        "it takes a whole number from 0 to 1000000",
    ),
    (
        HEARD,
        "link_backlog = 0\noutput = 0",
        "output has a value out of range: ",
        "it takes a whole number from 1048576 to 1099511627776",
    ),
    (HEARD, "site = 4", "line 4 is not TOML: ", "duplicate key"),
];

/// Why the text is refused, in words.
pub fn refusal(alloc: Global, text: &str) -> Result<String, Fail> {
    match site_settings(alloc, text) {
        Ok(_) => Err("not refused".into()),
        Err(SettingsFault::NoMemory) => Err("no memory".into()),
        Err(SettingsFault::Refused(why)) => Ok(format!(in alloc; "{why}")?),
    }
}

#[test]
fn each_text_of_a_site_is_refused_in_words(rt: HostRuntime) -> Result<(), Fail> {
    for (front, rest, what, takes) in REFUSALS.iter() {
        let text = format!(in rt.alloc(); "{front}{rest}")?;
        let told = refusal(rt.alloc(), text.as_str())?;
        let words = format!(in rt.alloc(); "{what}{takes}")?;
        assert_eq!(rt; told.as_str(), words.as_str(), "of {text}");
    }
    Ok(())
}

/// Settings with so many peers, by rising numbers from 0.
fn text_of(alloc: Global, own: u8, peers: u8) -> Result<String, Fail> {
    let mut text = format!(in alloc; "site = {own}\nport = 7001\nlisten = \"127.0.0.1:7101\"\n")?;
    for peer in 0..peers {
        let site = peer % 64;
        let entry = format!(in alloc; "[[peers]]\nsite = {site}\naddress = \"127.0.0.1:7102\"\n")?;
        text.push_str(entry.as_str())?;
    }
    Ok(text)
}

#[test]
fn a_site_has_63_peers_at_most(rt: HostRuntime) -> Result<(), Fail> {
    let most = text_of(rt.alloc(), 63, 63)?;
    assert_eq!(rt;
        site_settings(rt.alloc(), most.as_str())?
            .peers
            .as_slice()
            .len(),
        63
    );
    let more = text_of(rt.alloc(), 63, 64)?;
    let told = refusal(rt.alloc(), more.as_str())?;
    let words = format!(in rt.alloc(); "peers has 64 entries: {PEERS}")?;
    assert_eq!(rt; told.as_str(), words.as_str());
    Ok(())
}
