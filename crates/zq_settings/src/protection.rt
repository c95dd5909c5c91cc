//! What protects a site from whoever reaches the port of its clients, from a table.

ghost use Rattle.std.specs.Prelude.{◌≡◌, IsErrOf};
ghost use Rattle.toml.specs.View.{table_view};
ghost use Rattle.zq_settings.specs.Memory.{AsksForPath};
ghost use Rattle.zq_settings.specs.Protecting.{is_reached, protection_of, unprotected_of};
ghost use Rattle.zq_settings.specs.Tables.{value_at as value_in};
ghost use Rattle.zq_settings.specs.Texts.{Reads};

use crate::address::is_local_ip;
use crate::fault::SettingsFault;
use crate::key::Key;
use crate::lookup::value_at;
use crate::password_file::read_password_file;
use crate::values::Protection;
use crate::why::Why;
use std::alloc::Global;
use std::net::IpAddr;
use toml::Table;

/// The values of `password_file` and `unprotected`. Where there is no password, and it is not said
/// that none is wanted, this address of the clients' port has to be a loopback address.
pub fn read_protection(
    alloc: Global,
    table: &Table,
    bind: &IpAddr,
) -> Result<Protection, SettingsFault>
    ensures reads { Reads result (protection_of bind.now (table_view table.now)) }
    ensures memory { IsErrOf result SettingsFault.NoMemory →
        AsksForPath (value_in Key.PasswordFile (table_view table.now)) }
{
    let password_file = read_password_file(alloc, table)?;
    let unprotected = read_unprotected(table)?;
    let protection = Protection {
        password_file,
        unprotected,
    };
    if is_reached(bind, &protection) {
        return Err(Why::Exposed(Key::Bind).into());
    }
    Ok(protection)
}

/// Whether others reach this address, and nothing keeps them out.
fn is_reached(bind: &IpAddr, protection: &Protection) -> bool
    ensures { result ≡ is_reached bind.now protection.now }
{
    !is_local_ip(bind) && protection.password_file.is_none() && !protection.unprotected
}

/// Whether the port may be open to others with no password, and not where the table does not have
/// the key.
fn read_unprotected(table: &Table) -> Result<bool, Why>
    ensures { result ≡ unprotected_of (value_in Key.Unprotected (table_view table.now)) }
{
    match value_at(table, Key::Unprotected) {
        Some(value) => value.as_bool().ok_or(Why::Kind(Key::Unprotected)),
        None => Ok(false),
    }
}
