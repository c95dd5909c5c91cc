//! Names of hosts.

ghost use Rattle.std.specs.Prelude.{◌≡◌, IfOk};
ghost use Rattle.zq_settings.specs.Hosts.{IsHost};

use std::alloc::{AllocError, Global};
use std::marker::Model;

/// The name of a host: at most 253 bytes of labels that are joined by dots. A label has 1 to 63
/// letters and digits of ASCII, hyphens and underscores, with no hyphen at either end, and the last
/// label is not of digits alone.
#[derive(Debug, Drop)]
pub struct HostName {
    text: String,
}

impl Model for HostName {
    ghost use Rattle.std.specs.Prelude.{List, ℕ, string_bytes};
    ghost use Rattle.zq_settings.specs.Hosts.{IsHost};

    ghost Value = { List ℕ };

    ghost view = { λ n. string_bytes n.text };

    ghost invariant = { λ n. IsHost (string_bytes n.text) };
}

impl HostName {
    /// A copy of the text, which is the name of a host.
    pub(crate) fn copy(alloc: Global, name: &str) -> Result<HostName, AllocError>
        requires { IsHost name.now }
        ensures { IfOk result (λ copied. copied ≡ name.now) }
    {
        let text = String::from_str(alloc, name)?;
        Ok(HostName { text })
    }

    /// Its text.
    pub fn as_str(&self) -> &str
        ensures name { result.now ≡ self.now }
        ensures host { IsHost result.now }
    {
        self.text.as_str()
    }
}
