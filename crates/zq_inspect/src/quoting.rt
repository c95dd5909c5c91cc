//! Members with their scores, as they are written.

ghost use Rattle.std.specs.Prelude.{IfOk, OnOk, flat_map, map, ◌++◌, ◌≡◌};
ghost use Rattle.zq_inspect.specs.Lines.{member_line, quoted, quoted_byte};
ghost use Rattle.zq_queue.specs.Lent.{lent_pair};

use crate::lines::add_hex;
use itoa::Buffer;
use std::alloc::{AllocError, Global};

/// Appends a byte as redis-cli writes it between quotes: one that does not print as `\xNN`, but
/// for those that have a letter.
fn add_byte(text: &mut Vec<u8>, byte: u8) -> Result<(), AllocError>
    ensures { OnOk result (text.new.items ≡ text.old.items ++ quoted_byte byte) }
{
    match byte {
        b'"' => text.extend_from_slice(b"\\\""),
        b'\\' => text.extend_from_slice(b"\\\\"),
        7 => text.extend_from_slice(b"\\a"),
        8 => text.extend_from_slice(b"\\b"),
        b'\t' => text.extend_from_slice(b"\\t"),
        b'\n' => text.extend_from_slice(b"\\n"),
        b'\r' => text.extend_from_slice(b"\\r"),
        32..=126 => {
            text.push(byte)?;
            Ok(())
        }
        _ => {
            text.extend_from_slice(b"\\x")?;
            add_hex(text, byte)
        }
    }
}

/// Appends these bytes between quotes.
fn add_quoted(text: &mut Vec<u8>, bytes: &[u8]) -> Result<(), AllocError>
    ensures { OnOk result (text.new.items ≡ text.old.items ++ quoted bytes.now) }
{
    text.push(b'"')?;
    add_bytes(text, bytes)?;
    text.push(b'"')?;
    Ok(())
}

/// Appends each of these bytes as it stands between quotes.
fn add_bytes(text: &mut Vec<u8>, bytes: &[u8]) -> Result<(), AllocError>
    ensures { OnOk result (text.new.items ≡ text.old.items ++ flat_map quoted_byte bytes.now) }
{
    for byte in bytes {
        add_byte(text, *byte)?;
    }
    Ok(())
}

/// Appends the line of a member: its score, a space, its bytes between quotes.
fn add_member(text: &mut Vec<u8>, pair: &(i128, &[u8])) -> Result<(), AllocError>
    ensures { OnOk result (text.new.items ≡ text.old.items ++ member_line (lent_pair pair.now)) }
{
    text.extend_from_slice(Buffer::new().format(pair.0).as_bytes())?;
    text.push(b' ')?;
    add_quoted(text, pair.1)?;
    text.push(b'\n')?;
    Ok(())
}

/// The lines of these members.
pub fn member_lines(alloc: Global, pairs: &[(i128, &[u8])]) -> Result<Vec<u8>, AllocError>
    ensures { IfOk result
        (λ text. text.items ≡ flat_map member_line (map lent_pair pairs.now)) }
{
    let mut text = Vec::new(alloc);
    for pair in pairs {
        add_member(&mut text, pair)?;
    }
    Ok(text)
}
