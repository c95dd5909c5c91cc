//! Pairs of a line, `key=value`.

ghost use Rattle.std.specs.Prelude.{OnOk, flat_map, ◌++◌, ◌<◌, ◌≡◌};
ghost use Rattle.std.specs.List.{list_all};
ghost use Rattle.zq_log.specs.Pairs as wanted;
ghost use Rattle.zq_log.specs.Pairs.{escaped, pair, quoted, written};

use std::alloc::AllocError;

/// Appends a pair behind a blank. A value that has no byte, or one that is a blank, a control byte,
/// or one of `"`, `=` and `\`, stands between quotes: there a quote and a backslash stand behind a
/// backslash, and a control byte is `\u00` and two digits of its number to the base 16. So it is in
/// `logfmt`: `peer=2 reason="it was closed"`.
pub fn push_pair(bytes: &mut Vec<u8>, key: &[u8], value: &[u8]) -> Result<(), AllocError>
    ensures { OnOk result (bytes.new.items ≡ bytes.old.items ++ pair key.now value.now) }
{
    bytes.push(b' ')?;
    bytes.extend_from_slice(key)?;
    bytes.push(b'=')?;
    push_value(bytes, value)
}

/// Appends a value, between quotes where it needs them.
fn push_value(bytes: &mut Vec<u8>, value: &[u8]) -> Result<(), AllocError>
    ensures { OnOk result (bytes.new.items ≡ bytes.old.items ++ written value.now) }
{
    if is_plain(value) {
        bytes.extend_from_slice(value)
    } else {
        push_quoted(bytes, value)
    }
}

/// Whether a value stands with no quotes around it.
pub fn is_plain(value: &[u8]) -> bool
    ensures { result ≡ wanted.is_plain value.now }
{
    !value.is_empty() && all_bare(value)
}

/// Whether each byte may stand with no quotes.
fn all_bare(value: &[u8]) -> bool
    ensures { result ≡ list_all wanted.is_bare value.now }
{
    let mut bare = true;
    for byte in value {
        bare = bare && is_bare(*byte);
    }
    bare
}

/// Whether a byte may stand with no quotes.
fn is_bare(byte: u8) -> bool
    ensures { result ≡ wanted.is_bare byte }
{
    !(is_control(byte) || is_mark(byte) || byte == b' ' || byte == b'=')
}

/// Whether a byte moves a terminal's cursor, or ends a line.
fn is_control(byte: u8) -> bool
    ensures { result ≡ wanted.is_control byte }
{
    byte < 32 || byte == 127
}

/// Whether a byte is a quote or a backslash.
fn is_mark(byte: u8) -> bool
    ensures { result ≡ wanted.is_mark byte }
{
    byte == b'"' || byte == b'\\'
}

/// Appends a value between quotes.
fn push_quoted(bytes: &mut Vec<u8>, value: &[u8]) -> Result<(), AllocError>
    ensures { OnOk result (bytes.new.items ≡ bytes.old.items ++ quoted value.now) }
{
    bytes.push(b'"')?;
    push_all_escaped(bytes, value)?;
    bytes.push(b'"')?;
    Ok(())
}

/// Appends the bytes of a value as they stand between quotes.
fn push_all_escaped(bytes: &mut Vec<u8>, value: &[u8]) -> Result<(), AllocError>
    ensures { OnOk result (bytes.new.items ≡ bytes.old.items ++ flat_map escaped value.now) }
{
    for byte in value {
        push_escaped(bytes, *byte)?;
    }
    Ok(())
}

/// Appends a byte as it stands between quotes.
fn push_escaped(bytes: &mut Vec<u8>, byte: u8) -> Result<(), AllocError>
    ensures { OnOk result (bytes.new.items ≡ bytes.old.items ++ escaped byte) }
{
    if is_control(byte) {
        bytes.extend_from_slice(&[b'\\', b'u', b'0', b'0', digit(byte / 16), digit(byte % 16)])
    } else if is_mark(byte) {
        bytes.extend_from_slice(&[b'\\', byte])
    } else {
        bytes.push(byte)?;
        Ok(())
    }
}

/// The digit of a number below 16.
fn digit(number: u8) -> u8
    requires { number < 16 }
    ensures { result ≡ wanted.digit number }
{
    if number < 10 {
        b'0' + number
    } else {
        b'a' + (number - 10)
    }
}
