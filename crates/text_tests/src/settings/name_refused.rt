//! Addresses of peers that are refused, since they write none or are open to others.

use super::site_refused::{EXPOSED_PEER, HEARD, PEER, refusal};
use std::alloc::Global;
use std::test::Fail;

/// Each kind of text that is neither an address nor a name and a port.
const NONE: [&str; 25] = [
    "queue-0.example",
    "queue-0.example:",
    "queue-0.example:0",
    "queue-0.example:65536",
    "queue-0.example:+80",
    "queue-0.example:80 ",
    "queue-0.example:80:90",
    ":7102",
    "queue-0..example:7102",
    "queue-0.example.:7102",
    ".example:7102",
    "-queue.example:7102",
    "queue-.example:7102",
    "queue.-:7102",
    "queue 0.example:7102",
    "quéue.example:7102",
    "queue.example/:7102",
    "127.1:7102",
    "queue.7:7102",
    "7102:7102",
    "1.2.3.4.5:7102",
    "1.2.3.256:7102",
    "[queue-0.example]:7102",
    "aaaaaaaaaaaaaaaaaaaaaaaaaaaaaaaaaaaaaaaaaaaaaaaaaaaaaaaaaaaaaaaa.example:7102",
    "aaaaaaaaaaaaaaaaaaaaaaaaaaaaaaaaaaaaaaaaaaaaaaaaaaaaaaaaaaaaaaa.aaaaaaaaaaaaaaaaaaaaaaaaaaaaaaaaaaaaaaaaaaaaaaaaaaaaaaaaaaaaaaa.aaaaaaaaaaaaaaaaaaaaaaaaaaaaaaaaaaaaaaaaaaaaaaaaaaaaaaaaaaaaaaa.aaaaaaaaaaaaaaaaaaaaaaaaaaaaaaaaaaaaaaaaaaaaaaaaaaaaaaaaaaaaaa:7102",
];

/// Names that are not `localhost`.
const FAR: [&str; 4] = [
    "queue-0.example:7102",
    "localhost.example:7102",
    "localhos:7102",
    "local_host:7102",
];

/// Why settings are refused whose peer is at this address, in words.
fn refusal_of(alloc: Global, address: &str) -> Result<String, Fail> {
    let text = format!(in alloc; "{HEARD}peers = [{{ site = 2, address = \"{address}\" }}]")?;
    refusal(alloc, text.as_str())
}

#[test]
fn what_writes_no_address_is_refused_in_words(rt: HostRuntime) -> Result<(), Fail> {
    let words = format!(in rt.alloc(); "a peer's address has a value out of range: {PEER}")?;
    for address in NONE {
        let told = refusal_of(rt.alloc(), address)?;
        assert_eq!(rt; told.as_str(), words.as_str(), "of {address}");
    }
    Ok(())
}

#[test]
fn a_name_is_refused_where_there_is_no_secret(rt: HostRuntime) -> Result<(), Fail> {
    let words = format!(in rt.alloc(); "a peer's address {EXPOSED_PEER}")?;
    for address in FAR {
        let told = refusal_of(rt.alloc(), address)?;
        assert_eq!(rt; told.as_str(), words.as_str(), "of {address}");
    }
    Ok(())
}
