//! The other sites of a site, in JSON.

use crate::json::{push, push_text};
use std::alloc::{AllocError, Global};

/// A peer of a site.
#[derive(Drop)]
pub struct PeerShown {
    /// Its number.
    pub site: u8,
    /// Where it listens, where the settings say so.
    pub address: Option<String>,
    /// Whether the site dials it.
    pub dials: bool,
    /// Whether a link is up.
    pub up: bool,
}

/// These peers of the site of this number.
pub fn peers_page(alloc: Global, site: u8, peers: &[PeerShown]) -> Result<Vec<u8>, AllocError> {
    let mut out = Vec::new(alloc);
    let begin = format!(in alloc; "{{\"site\":{site},\"peers\":[")?;
    push(&mut out, begin.as_str())?;
    for place in 0..peers.len() {
        if place > 0 {
            push(&mut out, ",")?;
        }
        push_peer(alloc, &mut out, &peers[place])?;
    }
    push(&mut out, "]}\n")?;
    Ok(out)
}

/// A peer.
fn push_peer(alloc: Global, out: &mut Vec<u8>, peer: &PeerShown) -> Result<(), AllocError> {
    let (site, dials, up) = (peer.site, peer.dials, peer.up);
    let begin = format!(in alloc; "{{\"site\":{site},\"address\":")?;
    push(out, begin.as_str())?;
    match &peer.address {
        Some(address) => push_text(alloc, out, address.as_bytes())?,
        None => push(out, "null")?,
    }
    let end = format!(in alloc; ",\"dials\":{dials},\"up\":{up}}}")?;
    push(out, end.as_str())
}
