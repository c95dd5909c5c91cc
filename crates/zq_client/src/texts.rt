//! Replies, and the parts of arrays.

ghost use Rattle.std.specs.Prelude.{IfOk, IsTrue, OnOk, map, pos, [], ◌++◌, ◌∷◌, ◌≡◌};
ghost use Rattle.std.specs.Fmt.{signed_decimal};
ghost use Rattle.zq_client.specs.Texts.{OK, are_writable, array_bytes};
ghost use Rattle.zq_resp.specs.Reply.{bulk, is_writable, reply_bytes};

use std::alloc::{AllocError, Global};
use zq_resp::{Reply, Text};

/// OK.
pub fn ok_reply() -> Reply
    ensures bytes { reply_bytes result ≡ OK }
    ensures writable { IsTrue (is_writable result) }
{
    Reply::Simple("OK")
}

/// A bulk string of these bytes.
pub fn bulk_reply(alloc: Global, bytes: &[u8]) -> Result<Reply, AllocError>
    ensures bytes { IfOk result (λ reply. reply_bytes reply ≡ bulk bytes.now) }
    ensures writable { IfOk result (λ reply. IsTrue (is_writable reply)) }
{
    let text = Text::from_slice(alloc, bytes)?;
    Ok(Reply::Bulk(text))
}

/// A bulk string of a number's digits.
pub fn digits_reply(number: u64) -> Reply
    ensures bytes { reply_bytes result ≡ bulk (signed_decimal (pos number)) }
    ensures writable { IsTrue (is_writable result) }
{
    Reply::Number(i128::from(number))
}

/// An array of these parts.
pub fn array_reply(parts: Vec<Reply>) -> Reply
    requires { IsTrue (are_writable parts.items) }
    ensures bytes { reply_bytes result ≡ array_bytes (map reply_bytes parts.items) }
    ensures writable { IsTrue (is_writable result) }
{
    Reply::Array(parts)
}

/// Puts a part behind the others.
pub fn push_part(parts: &mut Vec<Reply>, part: Reply) -> Result<(), AllocError>
    requires { IsTrue (is_writable part) }
    ensures parts { OnOk result (map reply_bytes parts.new.items ≡ map reply_bytes parts.old.items
        ++ reply_bytes part ∷ []) }
    ensures writable { IsTrue (are_writable parts.old.items) →
        IsTrue (are_writable parts.new.items) }
{
    parts.push(part)?;
    Ok(())
}

/// Puts a bulk string and a reply behind the parts.
pub fn push_pair(
    alloc: Global,
    parts: &mut Vec<Reply>,
    name: &[u8],
    value: Reply,
) -> Result<(), AllocError>
    requires { IsTrue (is_writable value) }
    ensures parts { OnOk result (map reply_bytes parts.new.items ≡ map reply_bytes parts.old.items
        ++ bulk name.now ∷ reply_bytes value ∷ []) }
    ensures writable { IsTrue (are_writable parts.old.items) →
        IsTrue (are_writable parts.new.items) }
{
    let name = bulk_reply(alloc, name)?;
    push_part(parts, name)?;
    push_part(parts, value)
}

/// Puts two bulk strings behind the parts.
pub fn push_texts(
    alloc: Global,
    parts: &mut Vec<Reply>,
    name: &[u8],
    text: &[u8],
) -> Result<(), AllocError>
    ensures parts { OnOk result (map reply_bytes parts.new.items ≡ map reply_bytes parts.old.items
        ++ bulk name.now ∷ bulk text.now ∷ []) }
    ensures writable { IsTrue (are_writable parts.old.items) →
        IsTrue (are_writable parts.new.items) }
{
    let value = bulk_reply(alloc, text)?;
    push_pair(alloc, parts, name, value)
}
