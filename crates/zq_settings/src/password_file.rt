//! The file that has the digest of a password.

ghost use Rattle.std.specs.Prelude.{◌≡◌, IfOk, IsErrOf, IsTrue};
ghost use Rattle.toml.specs.View.{table_view};
ghost use Rattle.zq_settings.specs.Memory.{AsksForPath};
ghost use Rattle.zq_settings.specs.Paths.{is_path as is_path_in, password_file_of};
ghost use Rattle.zq_settings.specs.Tables.{value_at as value_in};
ghost use Rattle.zq_settings.specs.Texts.{Reads};

use crate::fault::SettingsFault;
use crate::key::Key;
use crate::lookup::value_at;
use crate::why::Why;
use std::alloc::{AllocError, Global};
use std::marker::Model;
use toml::Table;

/// The most bytes of the name of a file.
const MOST_PATH: usize = 4096;

/// The name of the file whose first line is the SHA-256 digest of a password: 1 to 4096 bytes.
#[derive(Debug, Drop)]
pub struct PasswordFile {
    text: String,
}

impl Model for PasswordFile {
    ghost use Rattle.std.specs.Prelude.{IsTrue, List, ℕ, string_bytes};
    ghost use Rattle.zq_settings.specs.Paths.{is_path};

    ghost Value = { List ℕ };

    ghost view = { λ f. string_bytes f.text };

    ghost invariant = { λ f. IsTrue (is_path (string_bytes f.text)) };
}

impl PasswordFile {
    /// A copy of the text, which is the name of a file.
    fn copy(alloc: Global, text: &str) -> Result<PasswordFile, AllocError>
        requires { IsTrue (is_path_in text.now) }
        ensures { IfOk result (λ copied. copied ≡ text.now) }
    {
        let text = String::from_str(alloc, text)?;
        Ok(PasswordFile { text })
    }

    /// Its name.
    pub fn as_str(&self) -> &str
        ensures bytes { result.now ≡ self.now }
        ensures path { IsTrue (is_path_in result.now) }
    {
        self.text.as_str()
    }
}

/// The file that the table names, if it names one.
pub fn read_password_file(
    alloc: Global,
    table: &Table,
) -> Result<Option<PasswordFile>, SettingsFault>
    ensures reads { Reads result
        (password_file_of (value_in Key.PasswordFile (table_view table.now))) }
    ensures memory { IsErrOf result SettingsFault.NoMemory →
        AsksForPath (value_in Key.PasswordFile (table_view table.now)) }
{
    let Some(value) = value_at(table, Key::PasswordFile) else {
        return Ok(None);
    };
    let Some(text) = value.as_str() else {
        return Err(Why::Kind(Key::PasswordFile).into());
    };
    if !is_path(text) {
        return Err(Why::Range(Key::PasswordFile).into());
    }
    let file = PasswordFile::copy(alloc, text)?;
    Ok(Some(file))
}

/// Whether the text is the name of a file.
fn is_path(text: &str) -> bool
    ensures { result ≡ is_path_in text.now }
{
    1 <= text.len() && text.len() <= MOST_PATH
}
