//! The folder of a site's log, from a table.

ghost use Rattle.std.specs.List.{list_all};
ghost use Rattle.std.specs.Prelude.{◌≡◌, ◌==◌, IfOk, IsErrOf, IsTrue, not};
ghost use Rattle.toml.specs.View.{table_view};
ghost use Rattle.zq_settings.specs.DataKeys.{data_of};
ghost use Rattle.zq_settings.specs.Memory.{AsksForFolder};
ghost use Rattle.zq_settings.specs.Folders.{is_folder as is_folder_in};
ghost use Rattle.zq_settings.specs.Tables.{value_at as value_in};
ghost use Rattle.zq_settings.specs.Texts.{Reads};

use crate::fault::SettingsFault;
use crate::key::Key;
use crate::lookup::value_at;
use crate::why::Why;
use std::alloc::{AllocError, Global};
use std::marker::Model;
use toml::Table;

/// The most bytes of a path.
const MOST_FOLDER: usize = 3_072;

/// The path of a folder: 1 to 3,072 bytes, none of them 0.
#[derive(Debug, Drop)]
pub struct DataPath {
    text: String,
}

impl Model for DataPath {
    ghost use Rattle.std.specs.Prelude.{IsTrue, List, ℕ, string_bytes};
    ghost use Rattle.zq_settings.specs.Folders.{is_folder};

    ghost Value = { List ℕ };

    ghost view = { λ p. string_bytes p.text };

    ghost invariant = { λ p. IsTrue (is_folder (string_bytes p.text)) };
}

impl DataPath {
    /// A copy of the text, which is a path.
    fn copy(alloc: Global, text: &str) -> Result<DataPath, AllocError>
        requires { IsTrue (is_folder_in text.now) }
        ensures { IfOk result (λ copied. copied ≡ text.now) }
    {
        let text = String::from_str(alloc, text)?;
        Ok(DataPath { text })
    }

    /// Its text.
    pub fn as_str(&self) -> &str
        ensures bytes { result.now ≡ self.now }
        ensures path { IsTrue (is_folder_in result.now) }
    {
        self.text.as_str()
    }
}

/// The folder of the table, if it has one.
pub fn read_data(alloc: Global, table: &Table) -> Result<Option<DataPath>, SettingsFault>
    ensures reads { Reads result (data_of (value_in Key.Data (table_view table.now))) }
    ensures memory { IsErrOf result SettingsFault.NoMemory →
        AsksForFolder (value_in Key.Data (table_view table.now)) }
{
    let Some(value) = value_at(table, Key::Data) else {
        return Ok(None);
    };
    let Some(text) = value.as_str() else {
        return Err(Why::Kind(Key::Data).into());
    };
    if !is_folder(text) {
        return Err(Why::Range(Key::Data).into());
    }
    let path = DataPath::copy(alloc, text)?;
    Ok(Some(path))
}

/// Whether the text is a path.
fn is_folder(text: &str) -> bool
    ensures { result ≡ is_folder_in text.now }
{
    let bytes = text.as_bytes();
    1 <= bytes.len() && bytes.len() <= MOST_FOLDER && have_no_zero(bytes)
}

/// Whether no byte is 0.
fn have_no_zero(bytes: &[u8]) -> bool
    ensures { result ≡ list_all (λ byte. not (byte == 0)) bytes.now }
{
    bytes.iter().all(|byte| *byte != 0)
}
