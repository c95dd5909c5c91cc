//! Writing fields, highest byte first.

ghost use Rattle.std.specs.Int.{to_be_bytes, w32, w64};
ghost use Rattle.std.specs.Prelude.{◌≡◌, ◌≤◌, ◌<◌, ◌+◌, ◌++◌, ◌∷◌, [], OnErr, OnOk, length};
ghost use Rattle.std.specs.Vec.{vec_capacity, vec_len};
ghost use Rattle.zq_fields.specs.Fields.{signed};

use std::alloc::AllocError;

/// Appends a byte. An error comes only where `out` had no room left and memory was refused; then
/// nothing is written.
pub fn write_byte(out: &mut Vec<u8>, byte: u8) -> Result<(), AllocError>
    ensures written { OnOk result (out.new.items ≡ out.old.items ++ byte ∷ []) }
    ensures refused { OnErr result (out.new.items ≡ out.old.items) }
    ensures full { OnErr result (vec_capacity out.old < vec_len out.old + 1) }
    ensures capacity { vec_capacity out.old ≤ vec_capacity out.new }
{
    out.push(byte)?;
    Ok(())
}

/// Appends the bytes. An error comes only where `out` had too little room left and memory was
/// refused; then nothing is written.
pub fn write_bytes(out: &mut Vec<u8>, bytes: &[u8]) -> Result<(), AllocError>
    ensures written { OnOk result (out.new.items ≡ out.old.items ++ bytes.now) }
    ensures refused { OnErr result (out.new.items ≡ out.old.items) }
    ensures full { OnErr result (vec_capacity out.old < vec_len out.old + length bytes.now) }
    ensures capacity { vec_capacity out.old ≤ vec_capacity out.new }
{
    out.extend_from_slice(bytes)
}

/// Appends a number's four bytes, the highest first. An error is that of `write_bytes`.
pub fn write_u32(out: &mut Vec<u8>, number: u32) -> Result<(), AllocError>
    ensures written { OnOk result (out.new.items ≡ out.old.items ++ to_be_bytes w32 number) }
    ensures refused { OnErr result (out.new.items ≡ out.old.items) }
    ensures full { OnErr result (vec_capacity out.old < vec_len out.old + 4) }
    ensures capacity { vec_capacity out.old ≤ vec_capacity out.new }
{
    let four = number.to_be_bytes();
    write_bytes(out, &four)
}

/// Appends a number's eight bytes, the highest first. An error is that of `write_bytes`.
pub fn write_u64(out: &mut Vec<u8>, number: u64) -> Result<(), AllocError>
    ensures written { OnOk result (out.new.items ≡ out.old.items ++ to_be_bytes w64 number) }
    ensures refused { OnErr result (out.new.items ≡ out.old.items) }
    ensures full { OnErr result (vec_capacity out.old < vec_len out.old + 8) }
    ensures capacity { vec_capacity out.old ≤ vec_capacity out.new }
{
    let eight = number.to_be_bytes();
    write_bytes(out, &eight)
}

/// Appends a number's eight bytes in two's complement, the highest first. An error is that of
/// `write_bytes`.
pub fn write_i64(out: &mut Vec<u8>, number: i64) -> Result<(), AllocError>
    ensures written { OnOk result (out.new.items ≡ out.old.items ++ signed w64 number) }
    ensures refused { OnErr result (out.new.items ≡ out.old.items) }
    ensures full { OnErr result (vec_capacity out.old < vec_len out.old + 8) }
    ensures capacity { vec_capacity out.old ≤ vec_capacity out.new }
{
    write_u64(out, number.cast_unsigned())
}
