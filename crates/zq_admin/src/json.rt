//! Texts in JSON.

use std::alloc::{AllocError, Global};
use std::str;

/// Adds this.
pub fn push(out: &mut Vec<u8>, text: &str) -> Result<(), AllocError> {
    out.extend_from_slice(text.as_bytes())
        .map_err(AllocError::from)
}

/// Adds a string of these bytes, between quotes. Where they are not UTF-8, one that is not ASCII is
/// shown as `\xNN`, as redis-cli does.
pub fn push_text(alloc: Global, out: &mut Vec<u8>, bytes: &[u8]) -> Result<(), AllocError> {
    let is_text = str::from_utf8(bytes).is_ok();
    push(out, "\"")?;
    for byte in bytes {
        push_byte(alloc, out, *byte, is_text)?;
    }
    push(out, "\"")
}

/// Adds a byte of a string.
fn push_byte(alloc: Global, out: &mut Vec<u8>, byte: u8, is_text: bool) -> Result<(), AllocError> {
    match byte {
        b'"' => push(out, "\\\""),
        b'\\' => push(out, "\\\\"),
        b' '..=b'~' => out.push(byte).map_err(AllocError::from),
        0x80..=0xff if is_text => out.push(byte).map_err(AllocError::from),
        0x80..=0xff => {
            let text = format!(in alloc; "\\\\x{byte:02x}")?;
            push(out, text.as_str())
        }
        _ => {
            let text = format!(in alloc; "\\u{byte:04x}")?;
            push(out, text.as_str())
        }
    }
}
