//! What the settings of several sites and those of one site have in common.

ghost use Rattle.std.specs.Prelude.{◌≡◌};
ghost use Rattle.toml.specs.View.{table_view};
ghost use Rattle.zq_settings.specs.Settings.{client_limits_of, common_of, rule_of, seed_of};
ghost use Rattle.zq_settings.specs.Tables.{value_at as value_in};

use crate::key::Key;
use crate::lookup::value_at;
use crate::number::{read_connections, read_number};
use crate::values::{ClientLimits, Common, Seed};
use crate::why::Why;
use crate::within::Within;
use toml::Table;
use zq_dots::Rule;

/// The values of these keys in their order.
pub fn read_common(table: &Table) -> Result<Common, Why>
    ensures { result ≡ common_of (table_view table.now) }
{
    Ok(Common {
        heaps: read_number(table, Key::Heaps, Within::of(4))?,
        workers: read_number(table, Key::Workers, Within::of(4))?,
        connections: read_connections(table)?,
        limits: read_client_limits(table)?,
    })
}

/// What limits the clients of a port: the values of these keys in their order.
fn read_client_limits(table: &Table) -> Result<ClientLimits, Why>
    ensures { result ≡ client_limits_of (table_view table.now) }
{
    Ok(ClientLimits {
        clients: read_number(table, Key::Clients, Within::of(10_000))?,
        timeout: read_number(table, Key::Timeout, Within::of(0))?,
        write_timeout: read_number(table, Key::WriteTimeout, Within::of(60))?,
        output: read_number(table, Key::Output, Within::of(268_435_456))?,
    })
}

/// What draws are made with, and 1 where the table does not have the key.
pub fn read_seed(table: &Table) -> Result<Seed, Why>
    ensures { result ≡ seed_of (value_in Key.Seed (table_view table.now)) }
{
    read_number(table, Key::Seed, Within::of(1))
}

/// The rule of scores: `"HIGH"` or `"LOW"`, and High where the table does not have the key.
pub fn read_rule(table: &Table) -> Result<Rule, Why>
    ensures { result ≡ rule_of (value_in Key.Rule (table_view table.now)) }
{
    let Some(value) = value_at(table, Key::Rule) else {
        return Ok(Rule::High);
    };
    match value.as_str() {
        Some("HIGH") => Ok(Rule::High),
        Some("LOW") => Ok(Rule::Low),
        Some(_) => Err(Why::Range(Key::Rule)),
        None => Err(Why::Kind(Key::Rule)),
    }
}
