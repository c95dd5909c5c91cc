//! Whether a request says the token.

ghost use Rattle.http.specs.HeaderMap.{get};
ghost use Rattle.http.specs.Request.{head_of};
ghost use Rattle.std.specs.Prelude.{IsTrue, codes, option_copied, ◌++◌, ◌↔◌, ◌≡◌};
ghost use Rattle.zq_admin.specs.Tokens.{SaysToken, both as both_same};

use bytes::Bytes;
use http::Request;

/// What stands before the token.
const SCHEME: &[u8] = b"Bearer ";

/// Whether a request has the header `Authorization: Bearer TOKEN`, or no token is asked for.
pub fn is_known(request: &Request<Bytes>, token: Option<&str>) -> bool
    ensures { IsTrue result ↔ SaysToken (option_copied token.entry)
        (get (head_of request.now).headers (codes "authorization")) }
{
    let Some(token) = token else {
        return true;
    };
    let Some(said) = request.headers().get("authorization") else {
        return false;
    };
    says(said.as_bytes(), token.as_bytes())
}

/// Whether this is said of the token.
fn says(said: &[u8], token: &[u8]) -> bool
    ensures { IsTrue result ↔ (said.now ≡ codes "Bearer " ++ token.now) }
{
    match said.strip_prefix(SCHEME) {
        Some(rest) => is_same(rest, token),
        None => false,
    }
}

/// Whether both are the same. Where they are of one length all bytes are looked at, whatever they
/// are, so that the time that it takes says nothing of the place of a difference.
fn is_same(one: &[u8], other: &[u8]) -> bool
    ensures { IsTrue result ↔ (one.now ≡ other.now) }
{
    if one.len() != other.len() {
        return false;
    }
    let mut same = true;
    for (index, byte) in one.iter().enumerate() {
        same = both(same, *byte, other[index]);
    }
    same
}

/// Whether all before were the same, and these two are.
fn both(same: bool, byte: u8, other: u8) -> bool
    ensures { result ≡ both_same same byte other }
{
    same & (byte == other)
}
