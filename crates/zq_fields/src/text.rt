//! Keys and members: four bytes of length, and as many bytes.

ghost use Rattle.std.specs.Prelude.{◌≡◌, ◌≤◌, ◌++◌, IfOk, OnOk, length, take};
ghost use Rattle.zq_dots.specs.Placed as placed;
ghost use Rattle.zq_fields.specs.Fields.{text};
ghost use Rattle.zq_fields.specs.Reading as read;

use crate::fault::PartFault;
use crate::{read_bytes, read_u32, write_bytes, write_u32};
use std::alloc::AllocError;
use zq_dots::LONGEST;

/// Takes a key or a member, of at most 1048576 bytes.
#[tactic(auto, unfolding(crate::specs::Reading::text_at))]
pub fn read_text<'a>(bytes: &mut &'a [u8]) -> Result<&'a [u8], PartFault>
    ensures exact { read.Gives (λ x. (x.now, bytes.new.now)) result (read.text_at bytes.old.now) }
    ensures found { IfOk result (λ x. bytes.old.now ≡ text x.now ++ bytes.new.now) }
    ensures short { IfOk result (λ x. length x.now ≤ placed.LONGEST) }
{
    let Some((count, rest)) = read_u32(bytes) else {
        return Err(PartFault::Short);
    };
    let count = count as usize;
    if count > LONGEST {
        return Err(PartFault::Length);
    }
    let Some((text, rest)) = read_bytes(rest, count) else {
        return Err(PartFault::Short);
    };
    *bytes = rest;
    Ok(text)
}

/// Appends a key or a member. Where memory is refused a part of it may stand behind what stood
/// there.
pub fn write_text(out: &mut Vec<u8>, bytes: &[u8]) -> Result<(), AllocError>
    requires { length bytes.now ≤ placed.LONGEST }
    ensures written { OnOk result (out.new.items ≡ out.old.items ++ text bytes.now) }
    ensures kept { take (length out.old.items) out.new.items ≡ out.old.items }
{
    write_u32(out, bytes.len() as u32)?;
    write_bytes(out, bytes)
}
