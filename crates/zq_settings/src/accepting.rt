//! Whom a site accepts, from a table.

ghost use Rattle.std.specs.Prelude.{◌≡◌};
ghost use Rattle.toml.specs.View.{table_view};
ghost use Rattle.zq_settings.specs.Site.{accept_of};
ghost use Rattle.zq_settings.specs.Tables.{value_at as value_in};

use crate::accept::Accept;
use crate::key::Key;
use crate::lookup::value_at;
use crate::why::Why;
use toml::Table;

/// Whom a site accepts: `"any"` or `"listed"`, and any where the table does not have the key.
pub fn read_accept(table: &Table) -> Result<Accept, Why>
    ensures { result ≡ accept_of (value_in Key.Accept (table_view table.now)) }
{
    let Some(value) = value_at(table, Key::Accept) else {
        return Ok(Accept::Any);
    };
    match value.as_str() {
        Some("any") => Ok(Accept::Any),
        Some("listed") => Ok(Accept::Listed),
        Some(_) => Err(Why::Range(Key::Accept)),
        None => Err(Why::Kind(Key::Accept)),
    }
}
