//! What a site shares with its peers alone.

ghost use Rattle.std.specs.Prelude.{◌≡◌, ◌≤◌, IfOk, IsErrOf, length};
ghost use Rattle.toml.specs.View.{table_view};
ghost use Rattle.zq_settings.specs.Memory.{AsksForSecret};
ghost use Rattle.zq_settings.specs.Site.{secret_of};
ghost use Rattle.zq_settings.specs.Tables.{value_at as value_in};
ghost use Rattle.zq_settings.specs.Texts.{Reads};

use crate::fault::SettingsFault;
use crate::key::Key;
use crate::lookup::value_at;
use crate::why::Why;
use std::alloc::{AllocError, Global};
use std::fmt;
use std::marker::Model;
use toml::Table;

/// The fewest bytes that a secret has.
pub const LEAST_SECRET: usize = 16;

/// The secret of a site and its peers: a text of at least 16 bytes.
#[derive(Drop)]
pub struct Secret {
    text: String,
}

impl Model for Secret {
    ghost use Rattle.std.specs.Prelude.{List, ℕ, string_bytes, length, ◌≤◌};

    ghost Value = { List ℕ };

    ghost view = { λ s. string_bytes s.text };

    ghost invariant = { λ s. 16 ≤ length (string_bytes s.text) };
}

impl Secret {
    /// A copy of the text, which has at least 16 bytes.
    pub(crate) fn copy(alloc: Global, text: &str) -> Result<Secret, AllocError>
        requires { 16 ≤ length text.now }
        ensures { IfOk result (λ copied. copied ≡ text.now) }
    {
        let text = String::from_str(alloc, text)?;
        Ok(Secret { text })
    }

    /// Its bytes, of which there are at least 16.
    pub fn as_bytes(&self) -> &[u8]
        ensures bytes { result.now ≡ self.now }
        ensures least { 16 ≤ length result.now }
    {
        self.text.as_bytes()
    }
}

impl fmt::Debug for Secret {
    /// That there is a secret, and none of its bytes.
    fn fmt<W: fmt::Write>(&self, f: &mut fmt::Formatter<W>) -> fmt::Result {
        f.write_str("Secret")
    }
}

/// The secret of the table, if it has one.
pub fn read_secret(alloc: Global, table: &Table) -> Result<Option<Secret>, SettingsFault>
    ensures reads { Reads result (secret_of (value_in Key.Secret (table_view table.now))) }
    ensures memory { IsErrOf result SettingsFault.NoMemory →
        AsksForSecret (value_in Key.Secret (table_view table.now)) }
{
    let Some(value) = value_at(table, Key::Secret) else {
        return Ok(None);
    };
    let Some(text) = value.as_str() else {
        return Err(Why::Kind(Key::Secret).into());
    };
    if text.len() < LEAST_SECRET {
        return Err(Why::Range(Key::Secret).into());
    }
    let secret = Secret::copy(alloc, text)?;
    Ok(Some(secret))
}
