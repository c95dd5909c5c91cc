//! Records as bytes. A record is its checksum and its payload, escaped so that no byte is 0, and an
//! end mark. A payload is a floor of eight bytes and a body.
ghost use Rattle.std.specs.Prelude.{◌≡◌, ◌++◌, ◌∷◌, [], drop, OnOk};
ghost use Rattle.zq_wal.specs.Format.{escaped, encoded, floor_of};

use std::alloc::AllocError;
use zq_dots::fnv1a64;

/// Stands at the end of a record, and nowhere else.
pub(crate) const END: u8 = 255;
/// Stands before the number of an escaped byte.
pub(crate) const ESCAPE: u8 = 254;
/// How many bytes a checksum has, and a floor.
pub(crate) const EIGHT: usize = 8;

/// Appends a record with this payload.
pub(crate) fn encode(out: &mut Vec<u8>, payload: &[u8]) -> Result<(), AllocError>
    ensures { OnOk result (out.new.items ≡ out.old.items ++ encoded payload.now) }
{
    let sum = fnv1a64(payload).to_be_bytes();
    escape(out, &sum)?;
    escape(out, payload)?;
    out.push(END)?;
    Ok(())
}

fn escape(out: &mut Vec<u8>, bytes: &[u8]) -> Result<(), AllocError>
    ensures { OnOk result (out.new.items ≡ out.old.items ++ escaped bytes.now) }
{
    for byte in bytes {
        escape_byte(out, *byte)?;
    }
    Ok(())
}

fn escape_byte(out: &mut Vec<u8>, byte: u8) -> Result<(), AllocError>
    ensures { OnOk result (out.new.items ≡ out.old.items ++ escaped (byte ∷ [])) }
{
    let number = match byte {
        0 => 1,
        ESCAPE => 2,
        END => 3,
        _ => {
            out.push(byte)?;
            return Ok(());
        }
    };
    out.push(ESCAPE)?;
    out.push(number)?;
    Ok(())
}

/// How many records of its file had been synced when the record of this payload was written.
#[tactic(auto, unfolding(crate::specs::Format::floor_of))]
pub fn floor(payload: &[u8]) -> u64
    ensures { result ≡ floor_of payload.now }
{
    match payload.first_chunk::<8>() {
        Some(number) => u64::from_be_bytes(*number),
        None => 0,
    }
}

/// What stands behind the floor of a payload.
pub fn body(payload: &[u8]) -> &[u8]
    ensures { result.now ≡ drop 8 payload.now }
{
    payload.get(EIGHT..).unwrap_or(&[])
}
