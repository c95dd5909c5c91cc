//! Reading fields, highest byte first.

ghost use Rattle.std.specs.Int.{cast_unsigned, to_be_bytes, w32, w64};
ghost use Rattle.std.specs.Prelude.{◌≡◌, ◌++◌, ◌∷◌, IfSome, length};
ghost use Rattle.zq_fields.specs.Fields.{Gives, byte_field, bytes_field, number_field, signed, signed_field};

/// A byte and the bytes after it, or `None` where there is none.
pub fn read_byte(bytes: &[u8]) -> Option<(u8, &[u8])>
    ensures exact { Gives (λ x. (x.0, x.1.now)) result (byte_field bytes.now) }
    ensures found { IfSome result (λ x. bytes.now ≡ x.0 ∷ x.1.now) }
{
    let (byte, rest) = bytes.split_first()?;
    Some((*byte, rest))
}

/// The first `count` bytes and the bytes after them, or `None` where there are fewer.
pub fn read_bytes(bytes: &[u8], count: usize) -> Option<(&[u8], &[u8])>
    ensures exact { Gives (λ x. (x.0.now, x.1.now)) result (bytes_field count bytes.now) }
    ensures found { IfSome result (λ x. bytes.now ≡ x.0.now ++ x.1.now) }
    ensures count { IfSome result (λ x. length x.0.now ≡ count) }
{
    bytes.split_at_checked(count)
}

/// A number of four bytes, the highest first, and the bytes after it, or `None` where there are
/// fewer.
pub fn read_u32(bytes: &[u8]) -> Option<(u32, &[u8])>
    ensures exact { Gives (λ x. (x.0, x.1.now)) result (number_field w32 bytes.now) }
    ensures found { IfSome result (λ x. bytes.now ≡ to_be_bytes w32 x.0 ++ x.1.now) }
{
    let (number, rest) = bytes.split_first_chunk::<4>()?;
    Some((u32::from_be_bytes(*number), rest))
}

/// A number of eight bytes, the highest first, and the bytes after it, or `None` where there are
/// fewer.
pub fn read_u64(bytes: &[u8]) -> Option<(u64, &[u8])>
    ensures exact { Gives (λ x. (x.0, x.1.now)) result (number_field w64 bytes.now) }
    ensures found { IfSome result (λ x. bytes.now ≡ to_be_bytes w64 x.0 ++ x.1.now) }
{
    let (number, rest) = bytes.split_first_chunk::<8>()?;
    Some((u64::from_be_bytes(*number), rest))
}

/// A number of eight bytes in two's complement, the highest first, and the bytes after it, or
/// `None` where there are fewer.
pub fn read_i64(bytes: &[u8]) -> Option<(i64, &[u8])>
    ensures exact { Gives (λ x. (x.0, x.1.now)) result (signed_field w64 bytes.now) }
    ensures found { IfSome result (λ x. bytes.now ≡ signed w64 x.0 ++ x.1.now) }
{
    let (bits, rest) = read_u64(bytes)?;
    Some((bits.cast_signed(), rest))
}
