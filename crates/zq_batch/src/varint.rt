//! Numbers by groups of seven bits.

ghost use Rattle.std.specs.Prelude.{◌≡◌, ◌-◌, ◌<◌, ◌≤◌, ◌++◌, IfOk, OnOk, length, take};
ghost use Rattle.zq_batch.specs.Varint as spell;
ghost use Rattle.zq_fields.specs.Reading as read;

use std::alloc::AllocError;
use zq_fields::{PartFault, read_byte, write_byte};

/// The most bytes of a number.
const MOST_GROUPS: u8 = 8;

// Where the rest begins, from 0 at the first of the whole frame's bytes.
pub(crate) fn place(whole: usize, rest: &[u8]) -> usize
    ensures { result ≡ read.place whole rest.now }
{
    whole.saturating_sub(rest.len())
}

/// Takes a number from `low` up to `last`, in its shortest form.
#[tactic(auto, unfolding(crate::specs::Varint::varint_in))]
pub(crate) fn read_varint(
    whole: usize,
    bytes: &mut &[u8],
    low: u64,
    last: u64,
) -> Result<u64, PartFault>
    ensures exact { read.Gives (λ x. (x, bytes.new.now)) result
        (spell.varint_in whole low last bytes.old.now) }
    ensures found { IfOk result (λ x. bytes.old.now ≡ spell.varint x ++ bytes.new.now) }
    ensures low { IfOk result (λ x. low ≤ x) }
    ensures within { IfOk result (λ x. x ≤ last) }
{
    let at = place(whole, bytes);
    let number = read_groups(MOST_GROUPS, at, bytes)?;
    if number < low || last < number {
        return Err(PartFault::Field(at));
    }
    Ok(number)
}

/// Takes a number of at most so many groups, which begins at this place.
fn read_groups(most: u8, at: usize, bytes: &mut &[u8]) -> Result<u64, PartFault>
    requires { most ≤ spell.MOST_GROUPS }
    ensures exact { read.Gives (λ x. (x, bytes.new.now)) result
        (spell.groups_at most at bytes.old.now) }
    ensures found { IfOk result (λ x. bytes.old.now ≡ spell.groups most x ++ bytes.new.now) }
    ensures below { IfOk result (λ x. x < spell.numbers most) }
{
    if most == 0 {
        return Err(PartFault::Field(at));
    }
    let Some((byte, rest)) = read_byte(bytes) else {
        return Err(PartFault::Short);
    };
    *bytes = rest;
    if byte < 128 {
        return Ok(byte as u64);
    }
    let high = read_groups(most - 1, at, bytes)?;
    if high == 0 {
        return Err(PartFault::Field(at));
    }
    Ok(low_group(byte) + 128 * high)
}

/// The group of a byte that is not the last.
fn low_group(byte: u8) -> u64
    requires { 128 ≤ byte }
    ensures group { result ≡ byte - 128 }
    ensures byte { byte < 256 }
{
    (byte - 128) as u64
}

/// Appends a number in its shortest form. Where memory is refused a part of it may stand behind
/// what stood there.
pub(crate) fn write_varint(out: &mut Vec<u8>, number: u64) -> Result<(), AllocError>
    ensures written { OnOk result (out.new.items ≡ out.old.items ++ spell.varint number) }
    ensures kept { take (length out.old.items) out.new.items ≡ out.old.items }
{
    write_groups(out, MOST_GROUPS, number)
}

fn write_groups(out: &mut Vec<u8>, most: u8, number: u64) -> Result<(), AllocError>
    ensures written { OnOk result (out.new.items ≡ out.old.items ++ spell.groups most number) }
    ensures kept { take (length out.old.items) out.new.items ≡ out.old.items }
{
    if most == 0 {
        return Ok(());
    }
    if number < 128 {
        return write_byte(out, number as u8);
    }
    write_byte(out, 128 + (number % 128) as u8)?;
    write_groups(out, most - 1, number / 128)
}
