//! Settings of a site that are refused for who may reach its clients' port.

use super::refused::refusal as refusal_of_several;
use super::site_refused::{HEARD, refusal};
use std::test::Fail;

const FILE: &str = "it takes the name of a file, a text of 1 to 4096 bytes";

const WHETHER: &str = "it takes true or false";

const REACHED: &str =
    "is no loopback address: without a password_file or unprotected = true it takes one";

/// The text behind that of a site with no peers, and the words in two parts.
type Row = (&'static str, &'static str, &'static str);

const REFUSALS: [Row; 12] = [
    // No text, and no name of a file.
    (
        "password_file = 1",
        "password_file has a value of another kind: ",
        FILE,
    ),
    (
        "password_file = \"\"",
        "password_file has a value out of range: ",
        FILE,
    ),
    // Neither true nor false.
    (
        "unprotected = \"yes\"",
        "unprotected has a value of another kind: ",
        WHETHER,
    ),
    (
        "unprotected = 1",
        "unprotected has a value of another kind: ",
        WHETHER,
    ),
    // Addresses that others reach, with no password; neither a secret nor a token is one.
    ("bind = \"0.0.0.0\"", "bind ", REACHED),
    ("bind = \"10.0.0.1\"", "bind ", REACHED),
    ("bind = \"::\"", "bind ", REACHED),
    ("bind = \"::ffff:127.0.0.1\"", "bind ", REACHED),
    ("bind = \"0.0.0.0\"\nunprotected = false", "bind ", REACHED),
    (
        "secret = \"0123456789abcdef\"\nadmin_token = \"0123456789abcdef\"\nbind = \"0.0.0.0\"",
        "bind ",
        REACHED,
    ),
    // Where a text breaks more than one rule, the first of them.
    (
        "unprotected = 1\npassword_file = \"\"",
        "password_file has a value out of range: ",
        FILE,
    ),
    ("drain = -1\nbind = \"0.0.0.0\"", "bind ", REACHED),
];

/// The same keys in settings of several sites, and their names.
const OF_SEVERAL: [(&str, &str); 2] = [
    ("password_file = \"site.password\"", "password_file"),
    ("unprotected = true", "unprotected"),
];

const NO_KEY: &str =
    "is not a key of settings, which are ports, heaps, workers, connections, clients, timeout, write_timeout, output, log_level, seed and rule";

#[test]
fn an_address_that_others_reach_is_refused_in_words(rt: HostRuntime) -> Result<(), Fail> {
    for (rest, what, takes) in REFUSALS.iter() {
        let text = format!(in rt.alloc(); "{HEARD}{rest}")?;
        let told = refusal(rt.alloc(), text.as_str())?;
        let words = format!(in rt.alloc(); "{what}{takes}")?;
        assert_eq!(rt; told.as_str(), words.as_str(), "of {text}");
    }
    Ok(())
}

#[test]
fn several_sites_have_no_password(rt: HostRuntime) -> Result<(), Fail> {
    for (rest, name) in OF_SEVERAL.iter() {
        let text = format!(in rt.alloc(); "ports = [7001]\n{rest}")?;
        let told = refusal_of_several(rt.alloc(), text.as_str())?;
        let words = format!(in rt.alloc(); "\"{name}\" {NO_KEY}")?;
        assert_eq!(rt; told.as_str(), words.as_str(), "of {text}");
    }
    Ok(())
}
