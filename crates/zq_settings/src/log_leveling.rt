//! How much the program's log says, from a table.

ghost use Rattle.std.specs.Prelude.{◌≡◌};
ghost use Rattle.toml.specs.View.{table_view};
ghost use Rattle.zq_settings.specs.Settings.{log_level_of};
ghost use Rattle.zq_settings.specs.Tables.{value_at as value_in};

use crate::key::Key;
use crate::log_level::LogLevel;
use crate::lookup::value_at;
use crate::why::Why;
use toml::Table;

/// How much the log says: `"warn"`, `"info"` or `"debug"`, and info where the table does not have
/// the key.
pub fn read_log_level(table: &Table) -> Result<LogLevel, Why>
    ensures { result ≡ log_level_of (value_in Key.LogLevel (table_view table.now)) }
{
    let Some(value) = value_at(table, Key::LogLevel) else {
        return Ok(LogLevel::Info);
    };
    match value.as_str() {
        Some("warn") => Ok(LogLevel::Warn),
        Some("info") => Ok(LogLevel::Info),
        Some("debug") => Ok(LogLevel::Debug),
        Some(_) => Err(Why::Range(Key::LogLevel)),
        None => Err(Why::Kind(Key::LogLevel)),
    }
}
