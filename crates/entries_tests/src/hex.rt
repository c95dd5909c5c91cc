//! Bytes by their hexadecimal digits.

ghost use Rattle.std.specs.Prelude.{◌≤◌};

use std::alloc::{AllocError, Global};

/// The value of a digit.
fn nibble(digit: u8) -> u8
    ensures { result ≤ 15 }
{
    match digit {
        b'0'..=b'9' => digit - b'0',
        b'a'..=b'f' => digit - b'a' + 10,
        _ => 0,
    }
}

/// The bytes that pairs of digits are.
pub fn bytes_of(alloc: Global, hex: &str) -> Result<Vec<u8>, AllocError> {
    let mut bytes = Vec::new(alloc);
    for pair in hex.as_bytes().chunks(2) {
        if let [high, low] = pair {
            bytes.push(nibble(*high) * 16 + nibble(*low))?;
        }
    }
    Ok(bytes)
}
