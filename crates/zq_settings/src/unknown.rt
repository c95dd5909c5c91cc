//! Keys that tables do not have.

ghost use Rattle.std.specs.BTreeMap.{keys};
ghost use Rattle.std.specs.Prelude.{◌≡◌, IsErrOf, find, not, option_copied, string_bytes};
ghost use Rattle.toml.specs.View.{table_view};
ghost use Rattle.zq_settings.specs.Keys.{is_known};
ghost use Rattle.zq_settings.specs.Memory.{AsksForName};
ghost use Rattle.zq_settings.specs.Settings.{known_keys};
ghost use Rattle.zq_settings.specs.Texts.{Reads};

use crate::fault::SettingsFault;
use crate::form::Form;
use crate::name::Name;
use crate::why::Why;
use std::alloc::Global;
use toml::Table;

/// Refuses a table with a key that tables of its kind do not have.
#[tactic(auto, using(crate::proofs::Seen::unknown_seen))]
pub fn refuse_unknown(alloc: Global, table: &Table, form: Form) -> Result<(), SettingsFault>
    ensures reads { Reads result (known_keys form (table_view table.now)) }
    ensures memory { IsErrOf result SettingsFault.NoMemory →
        AsksForName form (table_view table.now) }
{
    match find_unknown(table, form) {
        Some(name) => {
            let name = Name::copy(alloc, name.as_str())?;
            Err(SettingsFault::Refused(Why::Unknown(form, name)))
        }
        None => Ok(()),
    }
}

/// The least key of the table that tables of its kind do not have.
fn find_unknown(table: &Table, form: Form) -> Option<&String>
    ensures { option_copied result ≡ find (λ name. not (is_known form (string_bytes name)))
        (keys table.now) }
{
    table.keys().find(|name| !form.has_key(name.as_str()))
}
