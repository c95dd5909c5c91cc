//! Numbers of sixteen bytes, highest byte first.

ghost use Rattle.std.specs.Int.{to_be_bytes, w128};
ghost use Rattle.std.specs.Prelude.{FitsSigned, IfSome, List, OnErr, OnOk, Some, ℤ, ℕ, ◌≡◌, ◌≤◌, ◌<◌, ◌+◌, ◌++◌};
ghost use Rattle.std.specs.Vec.{vec_capacity, vec_len};
ghost use Rattle.zq_fields.specs.Fields.{Gives, number_field, signed, signed_field};

use crate::write::write_bytes;
use std::alloc::AllocError;

/// A number of sixteen bytes in two's complement, the highest first, and the bytes after it, or
/// `None` where there are fewer.
pub fn read_i128(bytes: &[u8]) -> Option<(i128, &[u8])>
    ensures exact { Gives (λ x. (x.0, x.1.now)) result (signed_field w128 bytes.now) }
    ensures found { IfSome result (λ x. bytes.now ≡ signed w128 x.0 ++ x.1.now) }
{
    let (bits, rest) = read_u128(bytes)?;
    Some((bits.cast_signed(), rest))
}

fn read_u128(bytes: &[u8]) -> Option<(u128, &[u8])>
    ensures exact { Gives (λ x. (x.0, x.1.now)) result (number_field w128 bytes.now) }
    ensures found { IfSome result (λ x. bytes.now ≡ to_be_bytes w128 x.0 ++ x.1.now) }
{
    let (number, rest) = bytes.split_first_chunk::<16>()?;
    Some((u128::from_be_bytes(*number), rest))
}

/// Appends a number's sixteen bytes in two's complement, the highest first. Where memory is refused
/// nothing is written; it is refused only where room was missing.
pub fn write_i128(out: &mut Vec<u8>, number: i128) -> Result<(), AllocError>
    ensures written { OnOk result (out.new.items ≡ out.old.items ++ signed w128 number) }
    ensures refused { OnErr result (out.new.items ≡ out.old.items) }
    ensures full { OnErr result (vec_capacity out.old < vec_len out.old + 16) }
    ensures capacity { vec_capacity out.old ≤ vec_capacity out.new }
{
    write_u128(out, number.cast_unsigned())
}

fn write_u128(out: &mut Vec<u8>, number: u128) -> Result<(), AllocError>
    ensures written { OnOk result (out.new.items ≡ out.old.items ++ to_be_bytes w128 number) }
    ensures refused { OnErr result (out.new.items ≡ out.old.items) }
    ensures full { OnErr result (vec_capacity out.old < vec_len out.old + 16) }
    ensures capacity { vec_capacity out.old ≤ vec_capacity out.new }
{
    let sixteen = number.to_be_bytes();
    write_bytes(out, &sixteen)
}

/// A number of sixteen bytes that was written is read again.
pub fn wide_again()
    ensures { (z : ℤ) (rest : List ℕ) → FitsSigned w128 z →
        signed_field w128 (signed w128 z ++ rest) ≡ Some (z, rest) }
{}
