//! Settings of a site that are refused for where its admin port is, or for how long it waits as it
//! ends.

use super::refused::refusal as refusal_of_several;
use super::site_refused::{HEARD, refusal};
use std::test::Fail;

const ADMIN: &str =
    "it takes a loopback address with a port from 1 to 65535, as \"127.0.0.1:7180\"";

const EXPOSED: &str = "is no loopback address: it takes one, and admin_bind another";

const SECONDS: &str = "it takes a whole number from 0 to 1000000";

const ACCEPT: &str = "it takes \"any\" or \"listed\"";

const NO_PEER_KEY: &str = "is not a key of a peer, which are site and address";

/// The text behind that of a site with no peers, and the words in two parts.
type Row = (&'static str, &'static str, &'static str);

const REFUSALS: [Row; 36] = [
    // No text.
    ("admin = 7180", "admin has a value of another kind: ", ADMIN),
    (
        "admin = [\"127.0.0.1:7180\"]",
        "admin has a value of another kind: ",
        ADMIN,
    ),
    // Texts that write no address with a port, or port 0.
    ("admin = \"\"", "admin has a value out of range: ", ADMIN),
    (
        "admin = \"127.0.0.1\"",
        "admin has a value out of range: ",
        ADMIN,
    ),
    (
        "admin = \"7180\"",
        "admin has a value out of range: ",
        ADMIN,
    ),
    (
        "admin = \"127.0.0.1:\"",
        "admin has a value out of range: ",
        ADMIN,
    ),
    (
        "admin = \"127.0.0.1:0\"",
        "admin has a value out of range: ",
        ADMIN,
    ),
    (
        "admin = \"127.0.0.1:65536\"",
        "admin has a value out of range: ",
        ADMIN,
    ),
    (
        "admin = \"[::1]:0\"",
        "admin has a value out of range: ",
        ADMIN,
    ),
    (
        "admin = \"::1:7180\"",
        "admin has a value out of range: ",
        ADMIN,
    ),
    (
        "admin = \"localhost:7180\"",
        "admin has a value out of range: ",
        ADMIN,
    ),
    (
        "admin = \" 127.0.0.1:7180\"",
        "admin has a value out of range: ",
        ADMIN,
    ),
    (
        "admin = \"0.0.0.0:0\"",
        "admin has a value out of range: ",
        ADMIN,
    ),
    (
        "secret = \"0123456789abcdef\"\nadmin = \"10.0.0.1:0\"",
        "admin has a value out of range: ",
        ADMIN,
    ),
    // Addresses that are open to others, without a secret and with one.
    ("admin = \"0.0.0.0:7180\"", "admin ", EXPOSED),
    ("admin = \"128.0.0.1:7180\"", "admin ", EXPOSED),
    ("admin = \"10.0.0.1:7180\"", "admin ", EXPOSED),
    ("admin = \"[::]:7180\"", "admin ", EXPOSED),
    ("admin = \"[::2]:7180\"", "admin ", EXPOSED),
    ("admin = \"[::ffff:127.0.0.1]:7180\"", "admin ", EXPOSED),
    (
        "secret = \"0123456789abcdef\"\nadmin = \"0.0.0.0:7180\"",
        "admin ",
        EXPOSED,
    ),
    (
        "secret = \"0123456789abcdef\"\nadmin = \"126.255.255.255:7180\"",
        "admin ",
        EXPOSED,
    ),
    (
        "secret = \"0123456789abcdef\"\nadmin = \"[::2]:7180\"",
        "admin ",
        EXPOSED,
    ),
    // How long a site waits as it ends.
    ("drain = -1", "drain has a value out of range: ", SECONDS),
    (
        "drain = 1000001",
        "drain has a value out of range: ",
        SECONDS,
    ),
    (
        "drain = \"10\"",
        "drain has a value of another kind: ",
        SECONDS,
    ),
    (
        "drain = 1.5",
        "drain has a value of another kind: ",
        SECONDS,
    ),
    // Where a text breaks more than one rule, the first of them.
    (
        "admin = 7180\naccept = 1",
        "accept has a value of another kind: ",
        ACCEPT,
    ),
    (
        "drain = -1\nalone = -1",
        "alone has a value out of range: ",
        SECONDS,
    ),
    (
        "drain = -1\nadmin = 7180",
        "admin has a value of another kind: ",
        ADMIN,
    ),
    ("drain = true\nadmin = \"0.0.0.0:7180\"", "admin ", EXPOSED),
    (
        "seed = -1\nadmin = \"127.0.0.1\"",
        "admin has a value out of range: ",
        ADMIN,
    ),
    (
        "seed = -1\ndrain = -1",
        "drain has a value out of range: ",
        SECONDS,
    ),
    (
        "rule = 1\ndrain = false",
        "drain has a value of another kind: ",
        SECONDS,
    ),
    // A peer has neither key.
    (
        "peers = [{ site = 2, address = \"127.0.0.1:7102\", admin = \"127.0.0.1:7180\" }]",
        "\"admin\" ",
        NO_PEER_KEY,
    ),
    (
        "peers = [{ site = 2, address = \"127.0.0.1:7102\", drain = 10 }]",
        "\"drain\" ",
        NO_PEER_KEY,
    ),
];

/// The same keys in settings of several sites, and their names.
const OF_SEVERAL: [(&str, &str); 2] = [
    ("admin = \"127.0.0.1:7180\"", "admin"),
    ("drain = 10", "drain"),
];

const NO_KEY: &str =
    "is not a key of settings, which are ports, heaps, workers, connections, clients, timeout, write_timeout, output, log_level, seed and rule";

#[test]
fn each_admin_port_and_each_wait_is_refused_in_words(rt: HostRuntime) -> Result<(), Fail> {
    for (rest, what, takes) in REFUSALS.iter() {
        let text = format!(in rt.alloc(); "{HEARD}{rest}")?;
        let told = refusal(rt.alloc(), text.as_str())?;
        let words = format!(in rt.alloc(); "{what}{takes}")?;
        assert_eq!(rt; told.as_str(), words.as_str(), "of {text}");
    }
    Ok(())
}

#[test]
fn several_sites_have_neither_key(rt: HostRuntime) -> Result<(), Fail> {
    for (rest, name) in OF_SEVERAL.iter() {
        let text = format!(in rt.alloc(); "ports = [7001]\n{rest}")?;
        let told = refusal_of_several(rt.alloc(), text.as_str())?;
        let words = format!(in rt.alloc(); "\"{name}\" {NO_KEY}")?;
        assert_eq!(rt; told.as_str(), words.as_str(), "of {text}");
    }
    Ok(())
}
