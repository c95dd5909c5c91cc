//! Settings that are refused for what the log says, and those of a site for how much memory its
//! process may have.

use super::refused::refusal as refusal_of_several;
use super::site_refused::{HEARD, refusal};
use std::test::Fail;

const LEVELS: &str = "it takes \"warn\", \"info\" or \"debug\"";

const BYTES: &str = "it takes a whole number from 0 to 1099511627776";

const SECONDS: &str = "it takes a whole number from 0 to 1000000";

const SIZE: &str = "it takes a whole number from 1048576 to 1099511627776";

const SEED: &str = "it takes a whole number from 0 to 9223372036854775807";

const NO_PEER_KEY: &str = "is not a key of a peer, which are site and address";

/// The text behind the keys that have to be there, and the words in two parts.
type Row = (&'static str, &'static str, &'static str);

/// What the log says is refused alike in the settings of several sites and in those of one.
const OF_BOTH: [Row; 15] = [
    // No text.
    (
        "log_level = 1",
        "log_level has a value of another kind: ",
        LEVELS,
    ),
    (
        "log_level = true",
        "log_level has a value of another kind: ",
        LEVELS,
    ),
    (
        "log_level = [\"info\"]",
        "log_level has a value of another kind: ",
        LEVELS,
    ),
    (
        "log_level = { info = 1 }",
        "log_level has a value of another kind: ",
        LEVELS,
    ),
    // Other words, and these in other letters.
    (
        "log_level = \"\"",
        "log_level has a value out of range: ",
        LEVELS,
    ),
    (
        "log_level = \"error\"",
        "log_level has a value out of range: ",
        LEVELS,
    ),
    (
        "log_level = \"trace\"",
        "log_level has a value out of range: ",
        LEVELS,
    ),
    (
        "log_level = \"off\"",
        "log_level has a value out of range: ",
        LEVELS,
    ),
    (
        "log_level = \"Info\"",
        "log_level has a value out of range: ",
        LEVELS,
    ),
    (
        "log_level = \"DEBUG\"",
        "log_level has a value out of range: ",
        LEVELS,
    ),
    (
        "log_level = \"warning\"",
        "log_level has a value out of range: ",
        LEVELS,
    ),
    (
        "log_level = \" info\"",
        "log_level has a value out of range: ",
        LEVELS,
    ),
    // Where a text breaks more than one rule, the first of them.
    (
        "log_level = 1\noutput = 0",
        "output has a value out of range: ",
        SIZE,
    ),
    (
        "seed = -1\nlog_level = 1",
        "log_level has a value of another kind: ",
        LEVELS,
    ),
    (
        "rule = 1\nlog_level = \"all\"",
        "log_level has a value out of range: ",
        LEVELS,
    ),
];

const OF_SITE: [Row; 16] = [
    // How much memory there may be.
    (
        "max_memory = -1",
        "max_memory has a value out of range: ",
        BYTES,
    ),
    (
        "max_memory = 1099511627777",
        "max_memory has a value out of range: ",
        BYTES,
    ),
    (
        "max_memory = -9223372036854775808",
        "max_memory has a value out of range: ",
        BYTES,
    ),
    (
        "max_memory = 9223372036854775807",
        "max_memory has a value out of range: ",
        BYTES,
    ),
    (
        "max_memory = \"1gb\"",
        "max_memory has a value of another kind: ",
        BYTES,
    ),
    (
        "max_memory = 1.5",
        "max_memory has a value of another kind: ",
        BYTES,
    ),
    (
        "max_memory = true",
        "max_memory has a value of another kind: ",
        BYTES,
    ),
    (
        "max_memory = [1]",
        "max_memory has a value of another kind: ",
        BYTES,
    ),
    // Where a text breaks more than one rule, the first of them.
    (
        "log_level = 1\ndrain = -1",
        "drain has a value out of range: ",
        SECONDS,
    ),
    (
        "max_memory = -1\ndrain = -1",
        "drain has a value out of range: ",
        SECONDS,
    ),
    (
        "max_memory = -1\nlog_level = 1",
        "log_level has a value of another kind: ",
        LEVELS,
    ),
    (
        "seed = -1\nmax_memory = -1",
        "max_memory has a value out of range: ",
        BYTES,
    ),
    (
        "rule = 1\nmax_memory = true",
        "max_memory has a value of another kind: ",
        BYTES,
    ),
    (
        "rule = 1\nseed = -1",
        "seed has a value out of range: ",
        SEED,
    ),
    // A peer has neither key.
    (
        "peers = [{ site = 2, address = \"127.0.0.1:7102\", max_memory = 0 }]",
        "\"max_memory\" ",
        NO_PEER_KEY,
    ),
    (
        "peers = [{ site = 2, address = \"127.0.0.1:7102\", log_level = \"info\" }]",
        "\"log_level\" ",
        NO_PEER_KEY,
    ),
];

const NO_KEY: &str =
    "\"max_memory\" is not a key of settings, which are ports, heaps, workers, connections, clients, timeout, write_timeout, output, log_level, seed and rule";

#[test]
fn each_level_is_refused_in_words(rt: HostRuntime) -> Result<(), Fail> {
    for (rest, what, takes) in OF_BOTH.iter() {
        let words = format!(in rt.alloc(); "{what}{takes}")?;
        let text = format!(in rt.alloc(); "{HEARD}{rest}")?;
        let told = refusal(rt.alloc(), text.as_str())?;
        assert_eq!(rt; told.as_str(), words.as_str(), "of {text}");
        let text = format!(in rt.alloc(); "ports = [7001]\n{rest}")?;
        let told = refusal_of_several(rt.alloc(), text.as_str())?;
        assert_eq!(rt; told.as_str(), words.as_str(), "of {text}");
    }
    Ok(())
}

#[test]
fn each_bound_of_memory_is_refused_in_words(rt: HostRuntime) -> Result<(), Fail> {
    for (rest, what, takes) in OF_SITE.iter() {
        let text = format!(in rt.alloc(); "{HEARD}{rest}")?;
        let told = refusal(rt.alloc(), text.as_str())?;
        let words = format!(in rt.alloc(); "{what}{takes}")?;
        assert_eq!(rt; told.as_str(), words.as_str(), "of {text}");
    }
    Ok(())
}

#[test]
fn several_sites_have_no_bound_of_memory(rt: HostRuntime) -> Result<(), Fail> {
    let told = refusal_of_several(rt.alloc(), "ports = [7001]\nmax_memory = 0")?;
    assert_eq!(rt; told.as_str(), NO_KEY);
    Ok(())
}
