//! Settings of a site that are refused for who may ask at its admin port, and from where.

use super::refused::refusal as refusal_of_several;
use super::site_refused::{HEARD, refusal};
use std::test::Fail;

const TOKEN: &str =
    "it takes a text of 16 to 256 letters, digits and marks of ASCII, with no blank";

const BIND: &str = "it takes an IP address, as \"127.0.0.1\"";

const EXPOSED: &str = "is no loopback address: without an admin_token it takes one";

const SHORT: &str = "admin_token has a value out of range: ";

const NO_IP: &str = "admin_bind has a value out of range: ";

/// The text behind that of a site with no peers, and the words in two parts.
type Row = (&'static str, &'static str, &'static str);

const REFUSALS: [Row; 19] = [
    // No text.
    (
        "admin_token = 1234567890123456",
        "admin_token has a value of another kind: ",
        TOKEN,
    ),
    (
        "admin_bind = true",
        "admin_bind has a value of another kind: ",
        BIND,
    ),
    // Too short, and with what no header takes as it is.
    ("admin_token = \"\"", SHORT, TOKEN),
    ("admin_token = \"0123456789abcde\"", SHORT, TOKEN),
    ("admin_token = \"0123456789 abcdef\"", SHORT, TOKEN),
    ("admin_token = \"0123456789abcdef\\n\"", SHORT, TOKEN),
    ("admin_token = \"0123456789abcdef\\u007f\"", SHORT, TOKEN),
    ("admin_token = \"éééééééééé\"", SHORT, TOKEN),
    // Texts that write no address.
    ("admin_bind = \"\"", NO_IP, BIND),
    ("admin_bind = \"10.0.0.1:7180\"", NO_IP, BIND),
    ("admin_bind = \"localhost\"", NO_IP, BIND),
    (
        "admin_token = \"0123456789abcdef\"\nadmin_bind = \"*\"",
        NO_IP,
        BIND,
    ),
    // Addresses that are open to others, with no token; a secret is none.
    ("admin_bind = \"0.0.0.0\"", "admin_bind ", EXPOSED),
    ("admin_bind = \"10.0.0.1\"", "admin_bind ", EXPOSED),
    ("admin_bind = \"::\"", "admin_bind ", EXPOSED),
    (
        "secret = \"0123456789abcdef\"\nadmin_bind = \"0.0.0.0\"",
        "admin_bind ",
        EXPOSED,
    ),
    // Where a text breaks more than one rule, the first of them.
    (
        "admin_bind = 1\nadmin_token = 1",
        "admin_token has a value of another kind: ",
        TOKEN,
    ),
    (
        "drain = -1\nadmin_bind = \"0.0.0.0\"",
        "admin_bind ",
        EXPOSED,
    ),
    (
        "admin_bind = \"0.0.0.0\"\nadmin_token = \"0123456789abcde\"",
        SHORT,
        TOKEN,
    ),
];

/// The same keys in settings of several sites, and their names.
const OF_SEVERAL: [(&str, &str); 2] = [
    ("admin_token = \"0123456789abcdef\"", "admin_token"),
    ("admin_bind = \"127.0.0.1\"", "admin_bind"),
];

const NO_KEY: &str =
    "is not a key of settings, which are ports, heaps, workers, connections, clients, timeout, write_timeout, output, log_level, seed and rule";

#[test]
fn each_token_and_each_address_is_refused_in_words(rt: HostRuntime) -> Result<(), Fail> {
    for (rest, what, takes) in REFUSALS.iter() {
        let text = format!(in rt.alloc(); "{HEARD}{rest}")?;
        let told = refusal(rt.alloc(), text.as_str())?;
        let words = format!(in rt.alloc(); "{what}{takes}")?;
        assert_eq!(rt; told.as_str(), words.as_str(), "of {text}");
    }
    Ok(())
}

#[test]
fn several_sites_are_guarded_by_neither_key(rt: HostRuntime) -> Result<(), Fail> {
    for (rest, name) in OF_SEVERAL.iter() {
        let text = format!(in rt.alloc(); "ports = [7001]\n{rest}")?;
        let told = refusal_of_several(rt.alloc(), text.as_str())?;
        let words = format!(in rt.alloc(); "\"{name}\" {NO_KEY}")?;
        assert_eq!(rt; told.as_str(), words.as_str(), "of {text}");
    }
    Ok(())
}

#[test]
fn a_token_is_not_shown(rt: HostRuntime) -> Result<(), Fail> {
    let text = format!(in rt.alloc(); "{HEARD}admin_token = \"0123456789abcdef\"")?;
    let given = zq_settings::site_settings(rt.alloc(), text.as_str())?;
    let shown = format!(in rt.alloc(); "{given:?}")?;
    assert!(rt; shown.contains("AdminToken"));
    assert!(rt; !shown.contains("0123456789"));
    Ok(())
}
