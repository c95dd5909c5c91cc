//! The admin port of a site, from a table.

ghost use Rattle.std.specs.Prelude.{◌≡◌, IsErrOf};
ghost use Rattle.toml.specs.View.{table_view};
ghost use Rattle.zq_settings.specs.AdminKeys.{admin_bind_of};
ghost use Rattle.zq_settings.specs.Memory.{AsksForToken};
ghost use Rattle.zq_settings.specs.Site.{admin_keys_of, admin_of};
ghost use Rattle.zq_settings.specs.Tables.{value_at as value_in};
ghost use Rattle.zq_settings.specs.Texts.{Reads};

use crate::address::{ip_of, is_local_ip, read_address};
use crate::admin_token::read_admin_token;
use crate::fault::SettingsFault;
use crate::key::Key;
use crate::lookup::value_at;
use crate::values::AdminSettings;
use crate::why::Why;
use std::alloc::Global;
use std::net::{IpAddr, SocketAddr};
use toml::Table;

/// The values of the keys of the admin port in their order.
pub fn read_admin_keys(alloc: Global, table: &Table) -> Result<AdminSettings, SettingsFault>
    ensures reads { Reads result (admin_keys_of (table_view table.now)) }
    ensures memory { IsErrOf result SettingsFault.NoMemory →
        AsksForToken (value_in Key.AdminToken (table_view table.now)) }
{
    let address = read_admin(table)?;
    let token = read_admin_token(alloc, table)?;
    let bind = read_admin_bind(table, token.is_some())?;
    Ok(AdminSettings {
        address,
        token,
        bind,
    })
}

/// Where the admin port is, which has to be at a loopback address whether or not there is a secret.
/// `None` where the table does not have the key: then there is no such port.
fn read_admin(table: &Table) -> Result<Option<SocketAddr>, Why>
    ensures { result ≡ admin_of (value_in Key.Admin (table_view table.now)) }
{
    match value_at(table, Key::Admin) {
        // It is read as where there is no secret.
        Some(_) => Ok(Some(read_address(table, Key::Admin, false)?)),
        None => Ok(None),
    }
}

/// The address at which the admin port is in the place of the loopback address. Where there is no
/// token it has to be a loopback address.
fn read_admin_bind(table: &Table, guarded: bool) -> Result<Option<IpAddr>, Why>
    ensures { result ≡ admin_bind_of guarded (value_in Key.AdminBind (table_view table.now)) }
{
    let Some(value) = value_at(table, Key::AdminBind) else {
        return Ok(None);
    };
    let Some(text) = value.as_str() else {
        return Err(Why::Kind(Key::AdminBind));
    };
    match ip_of(text) {
        Some(ip) if guarded || is_local_ip(&ip) => Ok(Some(ip)),
        Some(_) => Err(Why::Exposed(Key::AdminBind)),
        None => Err(Why::Range(Key::AdminBind)),
    }
}
