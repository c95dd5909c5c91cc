//! What a site keeps on disk, from a table.

ghost use Rattle.std.specs.Prelude.{◌≡◌, IsErrOf};
ghost use Rattle.toml.specs.View.{table_view};
ghost use Rattle.zq_settings.specs.DataKeys.{data_keys_of, sync_of};
ghost use Rattle.zq_settings.specs.Memory.{AsksForFolder};
ghost use Rattle.zq_settings.specs.Tables.{value_at as value_in};
ghost use Rattle.zq_settings.specs.Texts.{Reads};

use crate::data_path::read_data;
use crate::fault::SettingsFault;
use crate::key::Key;
use crate::lookup::value_at;
use crate::sync_mode::SyncMode;
use crate::values::DiskSettings;
use crate::why::Why;
use std::alloc::Global;
use toml::Table;

/// The values of the keys of what a site keeps, in their order.
pub fn read_data_keys(alloc: Global, table: &Table) -> Result<DiskSettings, SettingsFault>
    ensures reads { Reads result (data_keys_of (table_view table.now)) }
    ensures memory { IsErrOf result SettingsFault.NoMemory →
        AsksForFolder (value_in Key.Data (table_view table.now)) }
{
    let path = read_data(alloc, table)?;
    let sync = read_sync(table)?;
    Ok(DiskSettings { path, sync })
}

/// What waits for the disk: `"always"` or `"soon"`, and always where the table does not have the
/// key.
fn read_sync(table: &Table) -> Result<SyncMode, Why>
    ensures { result ≡ sync_of (value_in Key.Sync (table_view table.now)) }
{
    let Some(value) = value_at(table, Key::Sync) else {
        return Ok(SyncMode::Always);
    };
    match value.as_str() {
        Some("always") => Ok(SyncMode::Always),
        Some("soon") => Ok(SyncMode::Soon),
        Some(_) => Err(Why::Range(Key::Sync)),
        None => Err(Why::Kind(Key::Sync)),
    }
}
