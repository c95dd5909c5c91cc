//! Lines of a name and what is said under it.

ghost use Rattle.std.specs.Prelude.{OnOk, decimal, flat_map, ◌++◌, ◌<◌, ◌≡◌};
ghost use Rattle.zq_inspect.specs.Lines.{hex_digit, hex_pair, number_line, word_line};

use itoa::Buffer;
use std::alloc::AllocError;

/// Appends a number in decimal.
pub(crate) fn add_number(text: &mut Vec<u8>, number: u64) -> Result<(), AllocError>
    ensures { OnOk result (text.new.items ≡ text.old.items ++ decimal number) }
{
    text.extend_from_slice(Buffer::new().format(number).as_bytes())
}

/// Appends a line of a name and a number.
pub(crate) fn add_number_line(
    text: &mut Vec<u8>,
    name: &[u8],
    number: u64,
) -> Result<(), AllocError>
    ensures { OnOk result (text.new.items ≡ text.old.items ++ number_line name.now number) }
{
    text.extend_from_slice(name)?;
    text.push(b' ')?;
    add_number(text, number)?;
    text.push(b'\n')?;
    Ok(())
}

/// Appends a line of a name and words.
pub(crate) fn add_word_line(text: &mut Vec<u8>, name: &[u8], words: &[u8]) -> Result<(), AllocError>
    ensures { OnOk result (text.new.items ≡ text.old.items ++ word_line name.now words.now) }
{
    text.extend_from_slice(name)?;
    text.push(b' ')?;
    text.extend_from_slice(words)?;
    text.push(b'\n')?;
    Ok(())
}

/// A digit to the base 16.
fn hex_digit(value: u8) -> u8
    requires { value < 16 }
    ensures { result ≡ hex_digit value }
{
    if value < 10 {
        b'0' + value
    } else {
        b'a' - 10 + value
    }
}

/// Appends a byte to the base 16, by two digits.
pub(crate) fn add_hex(text: &mut Vec<u8>, byte: u8) -> Result<(), AllocError>
    ensures { OnOk result (text.new.items ≡ text.old.items ++ hex_pair byte) }
{
    text.push(hex_digit(byte / 16))?;
    text.push(hex_digit(byte % 16))?;
    Ok(())
}

/// Appends each of these bytes so.
pub(crate) fn add_hex_all(text: &mut Vec<u8>, bytes: &[u8]) -> Result<(), AllocError>
    ensures { OnOk result (text.new.items ≡ text.old.items ++ flat_map hex_pair bytes.now) }
{
    for byte in bytes {
        add_hex(text, *byte)?;
    }
    Ok(())
}
