//! The form of a line.

ghost use Rattle.std.specs.Prelude.{IfOk, OnOk, map, ◌++◌, ◌≡◌};
ghost use Rattle.zq_log.specs.Lines.{cut, line, plain, told};

use crate::stamp::Stamp;
use log::Level;
use std::alloc::{AllocError, Global};

/// The most bytes of a line, without the byte that ends it.
const MOST_BYTES: usize = 1_024;

/// What a line that was cut ends in.
const POINTS: &[u8] = b"...";

/// The line of a message: the time, the level, the message, its pairs as `push_pair` writes them
/// and, where there were more like it, how many;
/// `2026-11-28T19:20:35.123Z WARN site=3 link lost peer=1 reason="it was closed" more=12`. A byte of
/// the message below 32, or 127, is a question mark there. A line of more than 1,024 bytes is cut
/// and ends in `...`. A newline ends it.
pub fn line_of(
    alloc: Global,
    stamp: &Stamp,
    level: Level,
    message: &[u8],
    pairs: &[u8],
    more: u64,
) -> Result<Vec<u8>, AllocError>
    ensures { IfOk result (λ bytes. bytes.items ≡ line stamp.now level message.now pairs.now more) }
{
    let mut bytes = Vec::new(alloc);
    bytes.extend_from_slice(stamp)?;
    bytes.push(b' ')?;
    bytes.extend_from_slice(level.as_str().as_bytes())?;
    bytes.push(b' ')?;
    push_plain(&mut bytes, message)?;
    bytes.extend_from_slice(pairs)?;
    push_told(alloc, &mut bytes, more)?;
    cut_long(&mut bytes)?;
    bytes.push(b'\n')?;
    Ok(bytes)
}

/// A byte of a message as it is written.
fn plain_of(byte: u8) -> u8
    ensures { result ≡ plain byte }
{
    if byte < 32 || byte == 127 { b'?' } else { byte }
}

/// Appends the bytes of a message.
fn push_plain(bytes: &mut Vec<u8>, message: &[u8]) -> Result<(), AllocError>
    ensures { OnOk result (bytes.new.items ≡ bytes.old.items ++ map plain message.now) }
{
    for byte in message {
        bytes.push(plain_of(*byte))?;
    }
    Ok(())
}

/// Appends how many more there were, where there were some.
fn push_told(alloc: Global, bytes: &mut Vec<u8>, more: u64) -> Result<(), AllocError>
    ensures { OnOk result (bytes.new.items ≡ bytes.old.items ++ told more) }
{
    if more == 0 {
        return Ok(());
    }
    let text = format!(in alloc; " more={more}")?;
    bytes.extend_from_slice(text.as_bytes())
}

/// Cuts what is too long.
fn cut_long(bytes: &mut Vec<u8>) -> Result<(), AllocError>
    ensures { OnOk result (bytes.new.items ≡ cut bytes.old.items) }
{
    if bytes.len() <= MOST_BYTES {
        return Ok(());
    }
    bytes.truncate(MOST_BYTES - POINTS.len());
    bytes.extend_from_slice(POINTS)
}
