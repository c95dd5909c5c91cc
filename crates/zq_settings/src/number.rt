//! The values of keys that take a number.

ghost use Rattle.std.specs.Prelude.{◌≡◌};
ghost use Rattle.toml.specs.View.{table_view, view};
ghost use Rattle.zq_settings.specs.Tables.{value_at as value_in};
ghost use Rattle.zq_settings.specs.Settings.{connections_of, number_of, required_of, site_of as site_in, whole_of as whole_in};

use crate::key::Key;
use crate::lookup::value_at;
use crate::values::ConnectionCount;
use crate::why::Why;
use crate::within::Within;
use toml::{Table, Value};
use zq_dots::SiteNo;

/// The number of the key, and the default where the table does not have the key.
pub fn read_number<const LEAST: u64, const MOST: u64>(
    table: &Table,
    key: Key,
    default: Within<LEAST, MOST>,
) -> Result<Within<LEAST, MOST>, Why>
    ensures { result ≡ number_of key LEAST MOST default.entry
        (value_in key (table_view table.now)) }
{
    let Some(value) = value_at(table, key) else {
        return Ok(default);
    };
    whole_of(value, key)
}

/// The number of the key, which has to be there.
pub fn read_required<const LEAST: u64, const MOST: u64>(
    table: &Table,
    key: Key,
) -> Result<Within<LEAST, MOST>, Why>
    ensures { result ≡ required_of key LEAST MOST (value_in key (table_view table.now)) }
{
    match value_at(table, key) {
        Some(value) => whole_of(value, key),
        None => Err(Why::Missing(key)),
    }
}

/// How many connections each port accepts: 0 says that there is no limit, as does a table that does
/// not have the key.
pub fn read_connections(table: &Table) -> Result<Option<ConnectionCount>, Why>
    ensures { result ≡ connections_of (value_in Key.Connections (table_view table.now)) }
{
    let number = read_number::<0, 1_000_000>(table, Key::Connections, Within::of(0))?.value();
    if number == 0 {
        Ok(None)
    } else {
        Ok(Some(Within::of(number)))
    }
}

/// The number of a site at the key, which has to be there.
pub fn read_site(table: &Table, key: Key) -> Result<SiteNo, Why>
    ensures { result ≡ site_in key (value_in key (table_view table.now)) }
{
    let number = read_required::<0, 63>(table, key)?.value();
    match SiteNo::new(number as u8) {
        Some(site) => Ok(site),
        None => unreachable!(),
    }
}

/// The number that the value of the key is.
pub fn whole_of<const LEAST: u64, const MOST: u64>(
    value: &Value,
    key: Key,
) -> Result<Within<LEAST, MOST>, Why>
    ensures { result ≡ whole_in key LEAST MOST (view value.now) }
{
    match value.as_integer() {
        Some(number) => Within::new(number).ok_or(Why::Range(key)),
        None => Err(Why::Kind(key)),
    }
}
