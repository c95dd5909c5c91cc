//! The values of a table.

ghost use Rattle.std.specs.Prelude.{◌≡◌, option_map};
ghost use Rattle.toml.specs.View.{table_view, view};
ghost use Rattle.zq_settings.specs.Tables.{value_at as value_in};

use crate::key::Key;
use toml::{Table, Value};

/// The value of the key, if the table has it.
pub fn value_at(table: &Table, key: Key) -> Option<&Value>
    ensures { option_map (λ v. view v.now) result ≡ value_in key (table_view table.now) }
{
    table.get(key.name())
}
