//! Replies and their bytes.

ghost use Rattle.std.specs.Prelude.{◌≡◌, ◌+◌, ◌<◌, ◌≤◌, ◌∷◌, ◌++◌, decimal, length, take, IsTrue};
ghost use Rattle.std.specs.Fmt.{signed_decimal};
ghost use Rattle.std.specs.Vec.{vec_len, vec_capacity};
ghost use Rattle.std.specs.Result.{OnOk, OnErr};
ghost use Rattle.zq_resp.specs.Reply.{reply_bytes, all_bytes, is_writable, line, bulk, pair, after_text};

use itoa::Buffer;
use smallvec::SmallVec;
use std::alloc::AllocError;

/// The bytes of a bulk string. At most 16 lie in the value itself, and take no memory of their own.
pub type Text = SmallVec<u8, 16>;

const LINE_END: &[u8] = b"\r\n";

/// A reply of RESP2.
///
/// `Simple` and `Error` texts stand on one line: `write_reply` requires that they have no CR and no
/// LF. `after` is a number that is written behind an error's text, with a space between.
#[derive(Debug, Drop)]
pub enum Reply {
    Simple(&'static str),
    Error {
        text: &'static str,
        after: Option<u64>,
    },
    Integer(i64),
    Bulk(Text),
    /// The number's digits as a bulk string. It takes no memory of its own.
    Number(i128),
    NullBulk,
    /// An array that is not there.
    NullArray,
    Array(Vec<Reply>),
    /// An array of two bulk strings: a text, and a number's digits. It takes no memory for a list.
    Pair(Text, i128),
}

/// Appends the reply's bytes to `out`. Where memory is refused, `out` has the bytes that it had.
pub fn write_reply(out: &mut Vec<u8>, reply: &Reply) -> Result<(), AllocError>
    requires { IsTrue (is_writable reply.now) }
    ensures written { OnOk result (out.new.items ≡ out.old.items ++ reply_bytes reply.now) }
    ensures full { OnErr result
        (vec_capacity out.old < vec_len out.old + length (reply_bytes reply.now)) }
    ensures refused { OnErr result (out.new.items ≡ out.old.items) }
{
    let start = out.len();
    let written = append_reply(out, reply);
    if written.is_err() {
        out.truncate(start);
    }
    written
}

/// Where memory is refused, a part of the bytes may stand behind those that were there.
#[cycle(append)]
fn append_reply(out: &mut Vec<u8>, reply: &Reply) -> Result<(), AllocError>
    ensures written { OnOk result (out.new.items ≡ out.old.items ++ reply_bytes reply.now) }
    ensures full { OnErr result
        (vec_capacity out.old < vec_len out.old + length (reply_bytes reply.now)) }
    ensures kept { take (length out.old.items) out.new.items ≡ out.old.items }
    ensures capacity { vec_capacity out.old ≤ vec_capacity out.new }
{
    match reply {
        Reply::Simple(text) => append_line(out, b'+', text.as_bytes()),
        Reply::Error { text, after } => append_error(out, text.as_bytes(), *after),
        Reply::Integer(number) => append_integer(out, *number),
        Reply::Bulk(text) => append_bulk(out, text.as_slice()),
        Reply::Number(number) => append_digits(out, *number),
        Reply::NullBulk => append_line(out, b'$', b"-1"),
        Reply::NullArray => append_line(out, b'*', b"-1"),
        Reply::Array(parts) => {
            append_number(out, b'*', parts.len())?;
            append_all(out, parts)
        }
        Reply::Pair(text, number) => append_pair(out, text.as_slice(), *number),
    }
}

#[cycle(append)]
fn append_all(out: &mut Vec<u8>, replies: &[Reply]) -> Result<(), AllocError>
    ensures written { OnOk result (out.new.items ≡ out.old.items ++ all_bytes replies.now) }
    ensures full { OnErr result
        (vec_capacity out.old < vec_len out.old + length (all_bytes replies.now)) }
    ensures kept { take (length out.old.items) out.new.items ≡ out.old.items }
    ensures capacity { vec_capacity out.old ≤ vec_capacity out.new }
{
    for reply in replies {
        append_reply(out, reply)?;
    }
    Ok(())
}

#[inline(always)]
fn append_line(out: &mut Vec<u8>, kind: u8, text: &[u8]) -> Result<(), AllocError>
    ensures written { OnOk result (out.new.items ≡ out.old.items ++ kind ∷ line text.now) }
    ensures full { OnErr result
        (vec_capacity out.old < vec_len out.old + length (kind ∷ line text.now)) }
    ensures kept { take (length out.old.items) out.new.items ≡ out.old.items }
    ensures capacity { vec_capacity out.old ≤ vec_capacity out.new }
{
    out.push(kind)?;
    append_ended(out, text)
}

/// A line with a number that may be below 0. Most are counts.
fn append_integer(out: &mut Vec<u8>, number: i64) -> Result<(), AllocError>
    ensures written { OnOk result
        (out.new.items ≡ out.old.items ++ 58 ∷ line (signed_decimal number)) }
    ensures full { OnErr result
        (vec_capacity out.old < vec_len out.old + length (58 ∷ line (signed_decimal number))) }
    ensures kept { take (length out.old.items) out.new.items ≡ out.old.items }
    ensures capacity { vec_capacity out.old ≤ vec_capacity out.new }
{
    match usize::try_from(number) {
        Ok(number) => append_number(out, b':', number),
        Err(_) => append_line(out, b':', Buffer::new().format(number).as_bytes()),
    }
}

/// A line with a number. One digit is written as it is.
#[inline(always)]
fn append_number(out: &mut Vec<u8>, kind: u8, number: usize) -> Result<(), AllocError>
    ensures written { OnOk result (out.new.items ≡ out.old.items ++ kind ∷ line (decimal number)) }
    ensures full { OnErr result
        (vec_capacity out.old < vec_len out.old + length (kind ∷ line (decimal number))) }
    ensures kept { take (length out.old.items) out.new.items ≡ out.old.items }
    ensures capacity { vec_capacity out.old ≤ vec_capacity out.new }
{
    if number >= 10 {
        return append_line(out, kind, Buffer::new().format(number).as_bytes());
    }
    out.reserve(4)?;
    out.push_reserved(kind);
    out.push_reserved(b'0' + number as u8);
    out.push_reserved(b'\r');
    out.push_reserved(b'\n');
    Ok(())
}

/// A text, CR LF.
#[inline(always)]
fn append_ended(out: &mut Vec<u8>, text: &[u8]) -> Result<(), AllocError>
    ensures written { OnOk result (out.new.items ≡ out.old.items ++ line text.now) }
    ensures full { OnErr result (vec_capacity out.old < vec_len out.old + length (line text.now)) }
    ensures kept { take (length out.old.items) out.new.items ≡ out.old.items }
    ensures capacity { vec_capacity out.old ≤ vec_capacity out.new }
{
    out.reserve(text.len() + 2)?;
    out.extend_from_slice(text)?;
    out.push_reserved(b'\r');
    out.push_reserved(b'\n');
    Ok(())
}

fn append_error(out: &mut Vec<u8>, text: &[u8], after: Option<u64>) -> Result<(), AllocError>
    ensures written { OnOk result
        (out.new.items ≡ out.old.items ++ 45 ∷ line (text.now ++ after_text after)) }
    ensures full { OnErr result
        (vec_capacity out.old < vec_len out.old
        + length (45 ∷ line (text.now ++ after_text after))) }
    ensures kept { take (length out.old.items) out.new.items ≡ out.old.items }
    ensures capacity { vec_capacity out.old ≤ vec_capacity out.new }
{
    out.push(b'-')?;
    out.extend_from_slice(text)?;
    if let Some(number) = after {
        out.push(b' ')?;
        out.extend_from_slice(Buffer::new().format(number).as_bytes())?;
    }
    out.extend_from_slice(LINE_END)
}

#[inline(always)]
fn append_bulk(out: &mut Vec<u8>, bytes: &[u8]) -> Result<(), AllocError>
    ensures written { OnOk result (out.new.items ≡ out.old.items ++ bulk bytes.now) }
    ensures full { OnErr result (vec_capacity out.old < vec_len out.old + length (bulk bytes.now)) }
    ensures kept { take (length out.old.items) out.new.items ≡ out.old.items }
    ensures capacity { vec_capacity out.old ≤ vec_capacity out.new }
{
    append_number(out, b'$', bytes.len())?;
    append_ended(out, bytes)
}

/// A bulk string of a number's digits. Most numbers take 64 bits, which are written in fewer steps.
fn append_digits(out: &mut Vec<u8>, number: i128) -> Result<(), AllocError>
    ensures written { OnOk result (out.new.items ≡ out.old.items ++ bulk (signed_decimal number)) }
    ensures full { OnErr result
        (vec_capacity out.old < vec_len out.old + length (bulk (signed_decimal number))) }
    ensures kept { take (length out.old.items) out.new.items ≡ out.old.items }
    ensures capacity { vec_capacity out.old ≤ vec_capacity out.new }
{
    match u64::try_from(number) {
        Ok(number) => append_bulk(out, Buffer::new().format(number).as_bytes()),
        Err(_) => append_bulk(out, Buffer::new().format(number).as_bytes()),
    }
}

fn append_pair(out: &mut Vec<u8>, text: &[u8], number: i128) -> Result<(), AllocError>
    ensures written { OnOk result (out.new.items ≡ out.old.items ++ pair text.now number) }
    ensures full { OnErr result
        (vec_capacity out.old < vec_len out.old + length (pair text.now number)) }
    ensures kept { take (length out.old.items) out.new.items ≡ out.old.items }
    ensures capacity { vec_capacity out.old ≤ vec_capacity out.new }
{
    append_number(out, b'*', 2)?;
    append_bulk(out, text)?;
    append_digits(out, number)
}
