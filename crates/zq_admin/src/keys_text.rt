//! The largest keys of a site, in JSON.

use crate::json::{push, push_text};
use crate::largest::KeyCount;
use std::alloc::{AllocError, Global};

/// How many bytes of a key are shown at most.
const SHOWN: usize = 256;

/// What a walk over the keys of a site found.
#[derive(Drop)]
pub struct Found {
    /// The largest keys, the largest first.
    pub keys: Vec<KeyCount>,
    /// How many keys the heaps have: one that has members in several counts once for each.
    pub parts: u64,
    /// When it ended, in milliseconds of the clock.
    pub at: u64,
    /// How many milliseconds it took.
    pub took: u64,
    /// Whether it came to the end of all heaps.
    pub whole: bool,
}

/// So many of the keys that were found, at this millisecond of the clock, and whether they are
/// looked for.
pub fn keys_page(
    alloc: Global,
    found: Option<&Found>,
    now: u64,
    count: u64,
    walks: bool,
) -> Result<Vec<u8>, AllocError> {
    let mut out = Vec::new(alloc);
    push(&mut out, "{\"keys\":[")?;
    match found {
        Some(found) => {
            push_keys(alloc, &mut out, &found.keys, count)?;
            push_walk(alloc, &mut out, found, now)?;
        }
        None => push(
            &mut out,
            "],\"parts\":null,\"age_ms\":null,\"took_ms\":null,\"whole\":false",
        )?,
    }
    let end = format!(in alloc; ",\"walking\":{walks}}}\n")?;
    push(&mut out, end.as_str())?;
    Ok(out)
}

/// The first so many keys.
fn push_keys(
    alloc: Global,
    out: &mut Vec<u8>,
    keys: &[KeyCount],
    count: u64,
) -> Result<(), AllocError> {
    for place in 0..keys.len() {
        if place as u64 >= count {
            break;
        }
        if place > 0 {
            push(out, ",")?;
        }
        push_key(alloc, out, &keys[place])?;
    }
    Ok(())
}

/// A key, with the number of its members.
fn push_key(alloc: Global, out: &mut Vec<u8>, count: &KeyCount) -> Result<(), AllocError> {
    let name = count.key.as_slice();
    push(out, "{\"key\":")?;
    push_text(alloc, out, &name[..name.len().min(SHOWN)])?;
    let members = count.members;
    let cut = name.len() > SHOWN;
    let rest = format!(in alloc; ",\"members\":{members},\"cut\":{cut}}}")?;
    push(out, rest.as_str())
}

/// When and how the keys were looked at.
fn push_walk(alloc: Global, out: &mut Vec<u8>, found: &Found, now: u64) -> Result<(), AllocError> {
    let (parts, took, whole) = (found.parts, found.took, found.whole);
    let age = now.saturating_sub(found.at);
    let text = format!(in alloc;
        "],\"parts\":{parts},\"age_ms\":{age},\"took_ms\":{took},\"whole\":{whole}"
    )?;
    push(out, text.as_str())
}
