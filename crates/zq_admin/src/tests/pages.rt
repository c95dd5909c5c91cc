//! The texts of pages.

use crate::json::push_text;
use crate::keys_text::{Found, keys_page};
use crate::largest::{KeyCount, Largest, summed};
use crate::peers_text::{PeerShown, peers_page};
use std::test::Fail;

#[test]
fn bytes_are_strings_of_json(rt: HostRuntime) -> Result<(), Fail> {
    let rows: [(&[u8], &str); 7] = [
        (b"", "\"\""),
        (b"a b~", "\"a b~\""),
        (b"\"\\", "\"\\\"\\\\\""),
        (b"\n\x00\x7f", "\"\\u000a\\u0000\\u007f\""),
        ("caf\u{e9}".as_bytes(), "\"caf\u{e9}\""),
        (b"\xff", "\"\\\\xff\""),
        (b"\xc3\xa9\x80", "\"\\\\xc3\\\\xa9\\\\x80\""),
    ];
    for (bytes, wanted) in rows {
        let mut out = Vec::new(rt.alloc());
        push_text(rt.alloc(), &mut out, bytes)?;
        assert!(rt; out.as_slice() == wanted.as_bytes(), "{wanted}");
    }
    Ok(())
}

#[test]
fn the_largest_keys_of_all_heaps_stay(rt: HostRuntime) -> Result<(), Fail> {
    let alloc = rt.alloc();
    let mut all = Vec::new(alloc);
    for heap in 0..2u64 {
        let mut here = Largest::new(alloc);
        for number in 0..5_000u64 {
            let key = format!(in alloc; "k{number}")?;
            here.add(key.into_bytes(), number + heap)?;
        }
        here.hand_to(&mut all)?;
    }
    assert_eq!(rt; all.len(), 2_000);
    let keys = summed(alloc, all)?;
    assert_eq!(rt; keys.len(), 1_000);
    assert!(rt; keys[0].key.starts_with(b"k4999"));
    assert_eq!(rt; keys[0].members, 9_999);
    assert!(rt; keys[999].key.starts_with(b"k4000"));
    Ok(())
}

#[test]
fn long_names_of_keys_take_a_mebibyte(rt: HostRuntime) -> Result<(), Fail> {
    let alloc = rt.alloc();
    let mut here = Largest::new(alloc);
    for number in 0..8u64 {
        let mut key = Vec::new(alloc);
        key.resize(400_000, b'a' + number as u8)?;
        here.add(key, number)?;
    }
    let mut all = Vec::new(alloc);
    here.hand_to(&mut all)?;
    assert_eq!(rt; all.len(), 2);
    assert_eq!(rt; all[0].members, 7);
    Ok(())
}

#[test]
fn keys_and_peers_are_shown(rt: HostRuntime) -> Result<(), Fail> {
    let alloc = rt.alloc();
    let mut keys = Vec::new(alloc);
    for (name, members) in [("jobs", 7u64), ("mail", 2), ("rest", 1)] {
        let key = Vec::from_slice(alloc, name.as_bytes())?;
        keys.push(KeyCount { key, members })?;
    }
    let found = Found {
        keys,
        parts: 9,
        at: 1_000,
        took: 4,
        whole: true,
    };
    let page = keys_page(alloc, Some(&found), 3_500, 2, false)?;
    let wanted =
        "{\"keys\":[{\"key\":\"jobs\",\"members\":7,\"cut\":false},{\"key\":\"mail\",\"members\":2,\"cut\":false}],\"parts\":9,\"age_ms\":2500,\"took_ms\":4,\"whole\":true,\"walking\":false}\n";
    assert!(rt; page.as_slice() == wanted.as_bytes());
    let page = keys_page(alloc, None, 3_500, 2, true)?;
    let wanted =
        "{\"keys\":[],\"parts\":null,\"age_ms\":null,\"took_ms\":null,\"whole\":false,\"walking\":true}\n";
    assert!(rt; page.as_slice() == wanted.as_bytes());
    let address = String::from_str(alloc, "127.0.0.1:7101")?;
    let mut peers = Vec::new(alloc);
    peers.push(PeerShown {
        site: 0,
        address: Some(address),
        dials: true,
        up: false,
    })?;
    peers.push(PeerShown {
        site: 7,
        address: None,
        dials: false,
        up: true,
    })?;
    let page = peers_page(alloc, 3, &peers)?;
    let wanted =
        "{\"site\":3,\"peers\":[{\"site\":0,\"address\":\"127.0.0.1:7101\",\"dials\":true,\"up\":false},{\"site\":7,\"address\":null,\"dials\":false,\"up\":true}]}\n";
    assert!(rt; page.as_slice() == wanted.as_bytes());
    Ok(())
}
