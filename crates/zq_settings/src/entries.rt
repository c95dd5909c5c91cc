//! Ports from the entries of an array.

ghost use Rattle.std.specs.Prelude.{◌≡◌, length, vec_len, IfOk, IsErrOf};
ghost use Rattle.toml.specs.View.{items_view, table_view, view};
ghost use Rattle.zq_settings.specs.Memory.{AsksForEntries, AsksForList};
ghost use Rattle.zq_settings.specs.Settings.{each, port_of as port_in, ports_in, ports_of as ports_at};
ghost use Rattle.zq_settings.specs.Tables.{value_at as value_in};
ghost use Rattle.zq_settings.specs.Texts.{Reads, ReadsAll};

use crate::fault::SettingsFault;
use crate::key::Key;
use crate::lookup::value_at;
use crate::number::whole_of;
use crate::ports::{MOST_PORTS, Port, Ports, find_twice};
use crate::why::Why;
use std::alloc::{AllocError, Global};
use toml::{Table, Value};

/// The ports of the table.
pub fn read_ports(alloc: Global, table: &Table) -> Result<Ports, SettingsFault>
    ensures reads { Reads result (ports_at (value_in Key.Ports (table_view table.now))) }
    ensures memory { IsErrOf result SettingsFault.NoMemory →
        AsksForEntries 64 (value_in Key.Ports (table_view table.now)) }
{
    let Some(value) = value_at(table, Key::Ports) else {
        return Err(Why::Missing(Key::Ports).into());
    };
    match value.as_array() {
        Some(entries) => ports_of(alloc, entries.as_slice()),
        None => Err(Why::Kind(Key::Ports).into()),
    }
}

/// The ports of an array with these entries.
#[tactic(auto, using(crate::proofs::Apart::distinct_since, crate::proofs::Seen::count_seen))]
fn ports_of(alloc: Global, entries: &[Value]) -> Result<Ports, SettingsFault>
    ensures reads { Reads result (ports_in (items_view entries.now)) }
    ensures memory { IsErrOf result SettingsFault.NoMemory →
        AsksForList 64 (items_view entries.now) }
{
    if entries.is_empty() || MOST_PORTS < entries.len() {
        return Err(Why::Count(Key::Ports, entries.len()).into());
    }
    let ports = each_port(alloc, entries)?;
    match find_twice(&ports) {
        Some(port) => Err(Why::Twice(port).into()),
        None => Ok(Ports::new(ports)),
    }
}

/// The entries as ports, unless one of them is none.
fn each_port(alloc: Global, entries: &[Value]) -> Result<Vec<Port>, SettingsFault>
    ensures ports { ReadsAll result (each port_in (items_view entries.now)) }
    ensures len { IfOk result (λ ports. vec_len ports ≡ length entries.now) }
{
    let mut ports = Vec::with_capacity(alloc, entries.len())?;
    for entry in entries {
        ports.push(port_of(entry)?).map_err(AllocError::from)?;
    }
    Ok(ports)
}

fn port_of(entry: &Value) -> Result<Port, Why>
    ensures { result ≡ port_in (view entry.now) }
{
    whole_of(entry, Key::Ports)
}
