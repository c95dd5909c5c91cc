//! What a request at the admin port of a site has to say.

ghost use Rattle.std.specs.Prelude.{◌≡◌, IfOk, IsErrOf, IsTrue};
ghost use Rattle.std.specs.Char.{is_ascii_graphic};
ghost use Rattle.std.specs.List.{list_all};
ghost use Rattle.toml.specs.View.{table_view};
ghost use Rattle.zq_settings.specs.AdminKeys.{admin_token_of, is_token as is_token_in};
ghost use Rattle.zq_settings.specs.Memory.{AsksForToken};
ghost use Rattle.zq_settings.specs.Tables.{value_at as value_in};
ghost use Rattle.zq_settings.specs.Texts.{Reads};

use crate::fault::SettingsFault;
use crate::key::Key;
use crate::lookup::value_at;
use crate::why::Why;
use std::alloc::{AllocError, Global};
use std::fmt;
use std::marker::Model;
use toml::Table;

/// The fewest bytes that a token has.
const LEAST_TOKEN: usize = 16;

/// The most bytes that a token has.
const MOST_TOKEN: usize = 256;

/// What a request at the admin port of a site has to say: 16 to 256 bytes of ASCII, each of which
/// can be seen. So a header takes it as it is.
#[derive(Drop)]
pub struct AdminToken {
    text: String,
}

impl Model for AdminToken {
    ghost use Rattle.std.specs.Prelude.{IsTrue, List, ℕ, string_bytes};
    ghost use Rattle.zq_settings.specs.AdminKeys.{is_token};

    ghost Value = { List ℕ };

    ghost view = { λ t. string_bytes t.text };

    ghost invariant = { λ t. IsTrue (is_token (string_bytes t.text)) };
}

impl AdminToken {
    /// A copy of the text, which is a token.
    fn copy(alloc: Global, text: &str) -> Result<AdminToken, AllocError>
        requires { IsTrue (is_token_in text.now) }
        ensures { IfOk result (λ copied. copied ≡ text.now) }
    {
        let text = String::from_str(alloc, text)?;
        Ok(AdminToken { text })
    }

    /// Its text.
    pub fn as_str(&self) -> &str
        ensures bytes { result.now ≡ self.now }
        ensures token { IsTrue (is_token_in result.now) }
    {
        self.text.as_str()
    }
}

impl fmt::Debug for AdminToken {
    /// That there is a token, and none of its bytes.
    fn fmt<W: fmt::Write>(&self, f: &mut fmt::Formatter<W>) -> fmt::Result {
        f.write_str("AdminToken")
    }
}

/// The token of the table, if it has one.
pub fn read_admin_token(alloc: Global, table: &Table) -> Result<Option<AdminToken>, SettingsFault>
    ensures reads { Reads result
        (admin_token_of (value_in Key.AdminToken (table_view table.now))) }
    ensures memory { IsErrOf result SettingsFault.NoMemory →
        AsksForToken (value_in Key.AdminToken (table_view table.now)) }
{
    let Some(value) = value_at(table, Key::AdminToken) else {
        return Ok(None);
    };
    let Some(text) = value.as_str() else {
        return Err(Why::Kind(Key::AdminToken).into());
    };
    if !is_token(text) {
        return Err(Why::Range(Key::AdminToken).into());
    }
    let token = AdminToken::copy(alloc, text)?;
    Ok(Some(token))
}

/// Whether the text is a token.
fn is_token(text: &str) -> bool
    ensures { result ≡ is_token_in text.now }
{
    let bytes = text.as_bytes();
    LEAST_TOKEN <= bytes.len() && bytes.len() <= MOST_TOKEN && are_graphic(bytes)
}

/// Whether each byte is one of ASCII that can be seen.
fn are_graphic(bytes: &[u8]) -> bool
    ensures { result ≡ list_all is_ascii_graphic bytes.now }
{
    bytes.iter().all(|byte| byte.is_ascii_graphic())
}
