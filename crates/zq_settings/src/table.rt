//! Settings from a table.

ghost use Rattle.std.specs.Prelude.{◌+◌, ◌≡◌, IsErrOf};
ghost use Rattle.toml.specs.View.{table_view};
ghost use Rattle.zq_settings.specs.Memory.{AsksForValues, AsksOfSite, AsksOfSites};
ghost use Rattle.zq_settings.specs.Settings.{settings_of};
ghost use Rattle.zq_settings.specs.Site.{if_given, site_settings_of, site_values_of};
ghost use Rattle.zq_settings.specs.Tables.{value_at as value_in};
ghost use Rattle.zq_settings.specs.Texts.{Reads};

use crate::accepting::read_accept;
use crate::address::{read_address, read_bind};
use crate::admin::read_admin_keys;
use crate::common::{read_common, read_rule, read_seed};
use crate::data_keys::read_data_keys;
use crate::entries::read_ports;
use crate::fault::SettingsFault;
use crate::form::Form;
use crate::key::Key;
use crate::log_leveling::read_log_level;
use crate::lookup::value_at;
use crate::number::{read_number, read_required, read_site};
use crate::peering::read_peers;
use crate::protection::read_protection;
use crate::secret::read_secret;
use crate::unknown::refuse_unknown;
use crate::values::{Seed, Settings, SiteSettings, WorkerCount};
use crate::within::Within;
use std::alloc::Global;
use toml::Table;
use zq_dots::SiteNo;

/// The settings of several sites that the table has, or the first rule that it breaks.
pub fn read_table(alloc: Global, table: &Table) -> Result<Settings, SettingsFault>
    ensures reads { Reads result (settings_of (table_view table.now)) }
    ensures memory { IsErrOf result SettingsFault.NoMemory → AsksOfSites (table_view table.now) }
{
    refuse_unknown(alloc, table, Form::Sites)?;
    let ports = read_ports(alloc, table)?;
    let common = read_common(table)?;
    let log_level = read_log_level(table)?;
    let seed = read_seed(table)?;
    let rule = read_rule(table)?;
    Ok(Settings {
        ports,
        heaps: common.heaps,
        workers: common.workers,
        connections: common.connections,
        limits: common.limits,
        log_level,
        seed,
        rule,
    })
}

/// The settings of one site that the table has, or the first rule that it breaks.
pub fn read_site_table(alloc: Global, table: &Table) -> Result<SiteSettings, SettingsFault>
    ensures reads { Reads result (site_settings_of (table_view table.now)) }
    ensures memory { IsErrOf result SettingsFault.NoMemory → AsksOfSite (table_view table.now) }
{
    refuse_unknown(alloc, table, Form::Site)?;
    read_site_values(alloc, table)
}

/// The values of the keys of one site in their order, in a table that has no other key.
fn read_site_values(alloc: Global, table: &Table) -> Result<SiteSettings, SettingsFault>
    ensures reads { Reads result (site_values_of (table_view table.now)) }
    ensures memory { IsErrOf result SettingsFault.NoMemory → AsksForValues (table_view table.now) }
{
    let site = read_site(table, Key::Site)?;
    let port = read_required(table, Key::Port)?;
    let bind = read_bind(table)?;
    let secret = read_secret(alloc, table)?;
    let secured = secret.is_some();
    let listen = read_address(table, Key::Listen, secured)?;
    let peers = read_peers(alloc, table, site, secured)?;
    let common = read_common(table)?;
    let link_backlog = read_number(table, Key::LinkBacklog, Within::of(67_108_864))?;
    let alone = read_number(table, Key::Alone, Within::of(10))?;
    let accept = read_accept(table)?;
    let admin = read_admin_keys(alloc, table)?;
    let protection = read_protection(alloc, table, &bind)?;
    let drain = read_number(table, Key::Drain, Within::of(10))?;
    let disk = read_data_keys(alloc, table)?;
    let log_level = read_log_level(table)?;
    let max_memory = read_number(table, Key::MaxMemory, Within::of(0))?;
    let seed = read_number(table, Key::Seed, seed_of_site(site))?;
    let rule = read_rule(table)?;
    Ok(SiteSettings {
        site,
        port,
        bind,
        listen,
        peers,
        heaps: common.heaps,
        rule,
        workers: given_workers(table, common.workers),
        connections: common.connections,
        limits: common.limits,
        link_backlog,
        alone,
        accept,
        admin,
        protection,
        drain,
        disk,
        log_level,
        max_memory,
        seed,
        secret,
    })
}

/// So many workers, where the table says how many.
fn given_workers(table: &Table, workers: WorkerCount) -> Option<WorkerCount>
    ensures { result ≡ if_given workers (value_in Key.Workers (table_view table.now)) }
{
    match value_at(table, Key::Workers) {
        Some(_) => Some(workers),
        None => None,
    }
}

/// What the draws of a site of this number are made with where the table does not say: the number
/// and 1, so that no two sites draw alike.
fn seed_of_site(site: SiteNo) -> Seed
    ensures { result ≡ site + 1 }
{
    Within::of(u64::from(site.value()) + 1)
}
