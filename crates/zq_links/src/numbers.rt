//! Numbers of four and of eight bytes, taken from the front of the bytes.

ghost use Rattle.std.specs.Int.{to_be_bytes, w32, w64};
ghost use Rattle.std.specs.Prelude.{IfOk, ◌++◌, ◌≡◌};
ghost use Rattle.zq_fields.specs.Reading.{Gives};
ghost use Rattle.zq_links.specs.Numbers as read;

use zq_fields::{PartFault, read_u32, read_u64};

/// Takes a number of four bytes.
pub(crate) fn take_u32(bytes: &mut &[u8]) -> Result<u32, PartFault>
    ensures exact { Gives (λ x. (x, bytes.new.now)) result (read.u32_at bytes.old.now) }
    ensures found { IfOk result (λ x. bytes.old.now ≡ to_be_bytes w32 x ++ bytes.new.now) }
{
    let Some((number, rest)) = read_u32(bytes) else {
        return Err(PartFault::Short);
    };
    *bytes = rest;
    Ok(number)
}

/// Takes a number of eight bytes.
pub(crate) fn take_u64(bytes: &mut &[u8]) -> Result<u64, PartFault>
    ensures exact { Gives (λ x. (x, bytes.new.now)) result (read.u64_at bytes.old.now) }
    ensures found { IfOk result (λ x. bytes.old.now ≡ to_be_bytes w64 x ++ bytes.new.now) }
{
    let Some((number, rest)) = read_u64(bytes) else {
        return Err(PartFault::Short);
    };
    *bytes = rest;
    Ok(number)
}
