//! Settings from a text.

ghost use Rattle.std.specs.Prelude.{◌≡◌, ◌+◌, ◌≤◌, ◌==◌, count_by, take, length, IfOk, IfErr};
ghost use Rattle.toml.specs.Errors.{IsBlank, IsMemory, IsWithin};
ghost use Rattle.toml.specs.Parse.{parse_document};
ghost use Rattle.zq_settings.specs.Texts.{HasSettings, HasSiteSettings, IsNoTable, IsRefusal, IsSiteRefusal, line_of};

use crate::fault::SettingsFault;
use crate::table::{read_site_table, read_table};
use crate::values::{Settings, SiteSettings};
use crate::why::Why;
use std::alloc::Global;
use toml::de;

/// The settings that the TOML text writes. Each key may be missing but `ports`.
///
/// | key | value | if missing |
/// |---|---|---|
/// | `ports` | an array of 1 to 64 different numbers from 1 to 65535 | refused |
/// | `heaps` | 2 to 16 | 4 |
/// | `workers` | 1 to 64 | 4 |
/// | `connections` | 0 to 1000000, where 0 is without end | 0 |
/// | `clients` | 1 to 1000000 | 10000 |
/// | `timeout` | 0 to 1000000, where 0 is never | 0 |
/// | `write_timeout` | 0 to 1000000, where 0 is never | 60 |
/// | `output` | 1048576 to 1099511627776 | 268435456 |
/// | `log_level` | `"warn"`, `"info"` or `"debug"` | `"info"` |
/// | `seed` | 0 to 9223372036854775807 | 1 |
/// | `rule` | `"HIGH"` or `"LOW"` | `"HIGH"` |
///
/// # Errors
///
/// `Refused` with the first rule that the text breaks, and never where it breaks none. `NoMemory`
/// where there was no memory to read the text: never of a text that has only white space and
/// comments.
#[tactic(auto, using(crate::proofs::Told::given_since, crate::proofs::Told::refused_since, crate::proofs::Told::no_table_since))]
pub fn settings(alloc: Global, text: &str) -> Result<Settings, SettingsFault>
    ensures given { IfOk result (HasSettings text.now) }
    ensures refused { IfErr result (IsRefusal text.now) }
{
    match toml::table_from_str(alloc, text) {
        Ok(table) => read_table(alloc, &table),
        Err(error) => Err(text_fault(text, error)),
    }
}

/// The settings of one site that the TOML text writes. The keys `site`, `port` and `listen` have to
/// be there.
///
/// | key | value | if missing |
/// |---|---|---|
/// | `site` | its number, 0 to 63 | refused |
/// | `port` | the port of its clients, 1 to 65535 | refused |
/// | `bind` | the IP address at which that port is, as `"127.0.0.1"` | 127.0.0.1 |
/// | `secret` | what it shares with its peers, a text of at least 16 bytes | there is none |
/// | `listen` | where it listens for its peers: an IP address with a port that is not 0, as `"127.0.0.1:7101"` | refused |
/// | `peers` | an array of at most 63 tables, each with the keys `site` and `address` and no other: the number of another site, and where it listens, an IP address or the name of a host, with a port from 1 to 65535, as `"127.0.0.1:7101"` or `"queue-0.example:7101"` | there are none |
/// | `workers` | 1 to 64 | as many as there are processors, 4 at most |
/// | `link_backlog` | 1048576 to 1099511627776 | 67108864 |
/// | `alone` | 0 to 1000000 | 10 |
/// | `accept` | `"any"` or `"listed"` | `"any"` |
/// | `admin` | where its admin port is: a loopback address with a port that is not 0, as `"127.0.0.1:7180"` | there is none |
/// | `admin_token` | what requests there have to say: a text of 16 to 256 bytes of ASCII, each of which can be seen | nothing |
/// | `admin_bind` | the IP address at which that port is in the place of the loopback address | there is none |
/// | `password_file` | the file whose first line is the SHA-256 digest of the password of its clients, a text of 1 to 4096 bytes | they need none |
/// | `unprotected` | whether `bind` may be an address that others reach where there is no `password_file`: `true` or `false` | `false` |
/// | `drain` | 0 to 1000000 | 10 |
/// | `data` | the folder in which the site keeps its log, a text of 1 to 3072 bytes with no byte 0 | it keeps nothing |
/// | `sync` | `"always"` or `"soon"` | `"always"` |
/// | `max_memory` | 0 to 1099511627776, where 0 is no bound | 0 |
/// | `seed` | 0 to 9223372036854775807 | the site's number and 1 |
/// | `heaps`, `connections`, `clients`, `timeout`, `write_timeout`, `output`, `log_level`, `rule` | as of [`settings`] | as of [`settings`] |
///
/// No two peers have the same number. Where there is no `secret`, `listen` is a loopback address,
/// and so is each peer's `address`, or it has the name `localhost`. `admin` is a loopback address
/// with a secret too. Where there is no `admin_token`, `admin_bind` is a loopback address. Where
/// there is no `password_file` and `unprotected` is not true, `bind` is a loopback address.
///
/// # Errors
///
/// `Refused` with the first rule that the text breaks, and never where it breaks none. `NoMemory`
/// where there was no memory to read the text: never of a text that has only white space and
/// comments.
#[tactic(auto, using(crate::proofs::Told::site_given_since, crate::proofs::Told::site_refused_since, crate::proofs::Told::no_site_table_since))]
pub fn site_settings(alloc: Global, text: &str) -> Result<SiteSettings, SettingsFault>
    ensures given { IfOk result (HasSiteSettings text.now) }
    ensures refused { IfErr result (IsSiteRefusal text.now) }
{
    match toml::table_from_str(alloc, text) {
        Ok(table) => read_site_table(alloc, &table),
        Err(error) => Err(text_fault(text, error)),
    }
}

/// What a text that TOML does not take is refused for.
fn text_fault(text: &str, error: de::Error) -> SettingsFault
    requires within { IsWithin text.now error }
    requires refused { ¬ IsMemory error → parse_document text.now ≡ None }
    requires memory { IsMemory error → ¬ IsBlank text.now }
    ensures { IsNoTable text.now result }
{
    match error.span() {
        Some(span) => {
            let line = line_at(text, span.start);
            SettingsFault::Refused(Why::Text { line, error })
        }
        None => SettingsFault::NoMemory,
    }
}

/// The line, from 1, of a place in the text.
fn line_at(text: &str, place: usize) -> usize
    requires { place ≤ length text.now }
    ensures { result ≡ line_of text.now place }
{
    let before = &text.as_bytes()[..place];
    before.iter().filter(|byte| **byte == b'\n').count() + 1
}
