//! Bytes that a log has committed.
ghost use Rattle.std.specs.Prelude.{◌≡◌, List, ℕ};

use std::marker::Model;

/// Bytes that a log has committed. Only a commit makes one, so what may be handed on only then is
/// asked for as this.
#[derive(Drop)]
pub struct Committed {
    body: Vec<u8>,
}

impl Model for Committed {
    ghost Value = { List ℕ };

    ghost view = { λ c. c.body.items };
}

impl Committed {
    /// These bytes, which the log that makes it has just committed.
    pub(crate) fn of(body: Vec<u8>) -> Committed
        ensures { result ≡ body.items }
    {
        Committed { body }
    }

    /// The bytes.
    pub fn body(&self) -> &[u8]
        ensures { result.now ≡ self.now }
    {
        &self.body
    }
}
