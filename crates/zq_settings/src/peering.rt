//! Peers from the entries of an array.

ghost use Rattle.std.specs.Prelude.{◌≡◌, ◌≤◌, length, vec_len, IfOk, IsErrOf};
ghost use Rattle.toml.specs.View.{items_view, table_view, view};
ghost use Rattle.zq_settings.specs.Memory.{AsksForEntries, AsksForList};
ghost use Rattle.zq_settings.specs.Settings.{each};
ghost use Rattle.zq_settings.specs.Site.{peer_at, peer_of as peer_in, peers_in, peers_of as peers_at};
ghost use Rattle.zq_settings.specs.Tables.{value_at as value_in};
ghost use Rattle.zq_settings.specs.Texts.{Reads, ReadsAll};

use crate::address::read_peer_address;
use crate::fault::SettingsFault;
use crate::form::Form;
use crate::key::Key;
use crate::lookup::value_at;
use crate::number::read_site;
use crate::peer::Peer;
use crate::peers::{MOST_PEERS, Peers, find_site_twice};
use crate::unknown::refuse_unknown;
use crate::why::Why;
use std::alloc::{AllocError, Global};
use toml::{Table, Value};
use zq_dots::SiteNo;

/// The peers of the table, which are none where it does not have the key. None of them has the
/// site's own number, and where there is no secret each is at a loopback address or `localhost`.
pub fn read_peers(
    alloc: Global,
    table: &Table,
    own: SiteNo,
    secured: bool,
) -> Result<Peers, SettingsFault>
    ensures reads { Reads result
        (peers_at own secured (value_in Key.Peers (table_view table.now))) }
    ensures memory { IsErrOf result SettingsFault.NoMemory →
        AsksForEntries 63 (value_in Key.Peers (table_view table.now)) }
{
    let Some(value) = value_at(table, Key::Peers) else {
        return Ok(Peers::new(Vec::new(alloc)));
    };
    match value.as_array() {
        Some(entries) => peers_of(alloc, entries.as_slice(), own, secured),
        None => Err(Why::Kind(Key::Peers).into()),
    }
}

/// The peers of an array with these entries.
#[tactic(auto, using(crate::proofs::Apart::distinct_since, crate::proofs::Seen::count_seen))]
fn peers_of(
    alloc: Global,
    entries: &[Value],
    own: SiteNo,
    secured: bool,
) -> Result<Peers, SettingsFault>
    ensures reads { Reads result (peers_in own secured (items_view entries.now)) }
    ensures memory { IsErrOf result SettingsFault.NoMemory →
        AsksForList 63 (items_view entries.now) }
{
    if MOST_PEERS < entries.len() {
        return Err(Why::Count(Key::Peers, entries.len()).into());
    }
    let peers = each_peer(alloc, entries, own, secured)?;
    match find_site_twice(&peers) {
        Some(site) => Err(Why::PeerTwice(site).into()),
        None => Ok(Peers::new(peers)),
    }
}

/// The entries as peers, unless one of them is none.
fn each_peer(
    alloc: Global,
    entries: &[Value],
    own: SiteNo,
    secured: bool,
) -> Result<Vec<Peer>, SettingsFault>
    ensures peers { ReadsAll result (each (peer_in own secured) (items_view entries.now)) }
    ensures len { IfOk result (λ peers. vec_len peers ≡ length entries.now) }
    ensures memory { IsErrOf result SettingsFault.NoMemory → 1 ≤ length entries.now }
{
    let mut peers = Vec::with_capacity(alloc, entries.len())?;
    for entry in entries {
        let peer = peer_of(alloc, entry, own, secured)?;
        peers.push(peer).map_err(AllocError::from)?;
    }
    Ok(peers)
}

/// The peer that an entry is.
fn peer_of(alloc: Global, entry: &Value, own: SiteNo, secured: bool) -> Result<Peer, SettingsFault>
    ensures { Reads result (peer_in own secured (view entry.now)) }
{
    match entry.as_table() {
        Some(table) => read_peer(alloc, table, own, secured),
        None => Err(Why::Kind(Key::Peers).into()),
    }
}

/// The peer of a table.
fn read_peer(
    alloc: Global,
    table: &Table,
    own: SiteNo,
    secured: bool,
) -> Result<Peer, SettingsFault>
    ensures { Reads result (peer_at own secured (table_view table.now)) }
{
    refuse_unknown(alloc, table, Form::Peer)?;
    let site = read_site(table, Key::PeerSite)?;
    if site == own {
        return Err(Why::OwnPeer(site).into());
    }
    let address = read_peer_address(alloc, table, secured)?;
    Ok(Peer { site, address })
}
