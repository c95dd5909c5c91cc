//! The password of a site.

ghost use Rattle.sha2.specs.Sha256.{sha256};
ghost use Rattle.std.specs.List.{position};
ghost use Rattle.std.specs.Prelude.{IfSome, IsTrue, length, ◌<◌, ◌↔◌, ◌≡◌};
ghost use Rattle.zq_client.specs.Digests.{digest_in, ends_word, first_word};

use hex::FromHex;
use sha2::{Digest, Sha256};
use std::fmt;
use std::marker::Model;
use zq_wire::is_same_tag;

/// The password of a site, of which only the SHA-256 digest is known (FIPS 180-4).
#[derive(Clone, Copy)]
pub struct Password {
    digest: [u8; 32],
}

impl Model for Password {
    ghost use Rattle.std.specs.Prelude.{List, ℕ};

    ghost Value = { List ℕ };

    ghost view = { λ p. p.digest };

    ghost inverse = { λ digest. record { digest = digest } };
}

impl Password {
    /// The password whose SHA-256 digest these bytes are.
    pub fn of_digest(digest: [u8; 32]) -> Password
        ensures { result ≡ digest }
    {
        Password { digest }
    }

    /// The password whose digest stands first in these bytes: 64 hexadecimal digits in either case,
    /// up to the first blank or end of a line. `None` where these do not stand there.
    pub fn read(bytes: &[u8]) -> Option<Password>
        ensures { result ≡ digest_in bytes.now }
    {
        match <[u8; 32] as FromHex>::from_hex(first_word(bytes)) {
            Ok(digest) => Some(Password { digest }),
            Err(_) => None,
        }
    }

    /// Whether a text is the password: whether its digest is the password's. The digests are
    /// compared in a time that says nothing of where they differ.
    pub fn is(&self, text: &[u8]) -> bool
        ensures { IsTrue result ↔ (sha256 text.now ≡ self.now) }
    {
        is_same_tag(&Sha256::digest(text), &self.digest)
    }
}

/// The bytes before the first blank or end of a line.
fn first_word(bytes: &[u8]) -> &[u8]
    ensures { result.now ≡ first_word bytes.now }
{
    match end_of_word(bytes) {
        Some(end) => &bytes[..end],
        None => bytes,
    }
}

/// Where the first of these stands.
fn end_of_word(bytes: &[u8]) -> Option<usize>
    ensures place { result ≡ position ends_word bytes.now }
    ensures inside { IfSome result (λ end. end < length bytes.now) }
{
    bytes
        .iter()
        .position(|byte| *byte == b' ' || (*byte == b'\r' || *byte == b'\n'))
}

impl fmt::Debug for Password {
    /// That there is a password, and none of its bytes.
    fn fmt<W: fmt::Write>(&self, f: &mut fmt::Formatter<W>) -> fmt::Result {
        f.write_str("Password")
    }
}
