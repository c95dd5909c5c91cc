//! Keys and members.

ghost use Rattle.std.specs.Prelude.{◌≡◌, ◌≤◌, ◌++◌, IfOk, OnOk, false, length, take, true};
ghost use Rattle.zq_batch.specs.Before as before_of;
ghost use Rattle.zq_batch.specs.Fields as read_batch;
ghost use Rattle.zq_batch.specs.Spelling as spell;
ghost use Rattle.zq_dots.specs.Placed as placed;
ghost use Rattle.zq_fields.specs.Reading as read;

use crate::before::{last_op, repeats_key};
use crate::varint::{place, read_varint, write_varint};
use crate::view::View;
use std::alloc::AllocError;
use zq_dots::LONGEST;
use zq_fields::{PartFault, read_bytes, write_bytes};

/// Takes a key or a member, of at most 1048576 bytes.
#[tactic(auto, unfolding(crate::specs::Fields::name_at))]
pub(crate) fn read_name<'a>(whole: usize, bytes: &mut &'a [u8]) -> Result<&'a [u8], PartFault>
    ensures exact { read.Gives (λ x. (x.now, bytes.new.now)) result
        (read_batch.name_at whole bytes.old.now) }
    ensures found { IfOk result (λ x. bytes.old.now ≡ spell.name x.now ++ bytes.new.now) }
    ensures short { IfOk result (λ x. length x.now ≤ placed.LONGEST) }
{
    let count = read_varint(whole, bytes, 0, LONGEST as u64)?;
    let Some((name, rest)) = read_bytes(bytes, count as usize) else {
        return Err(PartFault::Short);
    };
    *bytes = rest;
    Ok(name)
}

/// Takes the key, unless it is that of the operation before.
pub(crate) fn read_key<'a>(
    whole: usize,
    before: &[View<'a>],
    again: bool,
    bytes: &mut &'a [u8],
) -> Result<&'a [u8], PartFault>
    requires { again ≡ true →
        before_of.holds before_of.has_short_key (before_of.last_op before.now) ≡ true }
    ensures exact { read.Gives (λ x. (x.now, bytes.new.now)) result
        (read_batch.key_at whole before.now again bytes.old.now) }
    ensures found { IfOk result (λ x. bytes.old.now
        ≡ spell.key_bytes again x.now ++ bytes.new.now) }
    ensures again { IfOk result (λ x. before_of.repeats_key before.now x.now ≡ again) }
    ensures short { IfOk result (λ x. length x.now ≤ placed.LONGEST) }
{
    if again {
        Ok(key_before(before))
    } else {
        read_other_key(whole, before, bytes)
    }
}

/// The key of the operation before.
fn key_before<'a>(before: &[View<'a>]) -> &'a [u8]
    requires { before_of.holds before_of.has_short_key (before_of.last_op before.now) ≡ true }
    ensures key { result.now ≡ read_batch.key_from (before_of.last_op before.now) }
    ensures again { before_of.repeats_key before.now result.now ≡ true }
    ensures short { length result.now ≤ placed.LONGEST }
{
    last_op(before).unwrap().key()
}

/// Takes a key that need be written.
#[tactic(auto, unfolding(crate::specs::Fields::other_key_at))]
fn read_other_key<'a>(
    whole: usize,
    before: &[View<'a>],
    bytes: &mut &'a [u8],
) -> Result<&'a [u8], PartFault>
    ensures exact { read.Gives (λ x. (x.now, bytes.new.now)) result
        (read_batch.other_key_at whole before.now bytes.old.now) }
    ensures found { IfOk result (λ x. bytes.old.now ≡ spell.name x.now ++ bytes.new.now) }
    ensures other { IfOk result (λ x. before_of.repeats_key before.now x.now ≡ false) }
    ensures short { IfOk result (λ x. length x.now ≤ placed.LONGEST) }
{
    let at = place(whole, bytes);
    let key = read_name(whole, bytes)?;
    if repeats_key(before, key) {
        return Err(PartFault::Field(at));
    }
    Ok(key)
}

/// Appends a key or a member. Where memory is refused a part of it may stand behind what stood
/// there.
pub(crate) fn write_name(out: &mut Vec<u8>, bytes: &[u8]) -> Result<(), AllocError>
    ensures written { OnOk result (out.new.items ≡ out.old.items ++ spell.name bytes.now) }
    ensures kept { take (length out.old.items) out.new.items ≡ out.old.items }
{
    write_varint(out, bytes.len() as u64)?;
    write_bytes(out, bytes)
}

/// Appends the key, unless it is that of the operation before.
pub(crate) fn write_key(out: &mut Vec<u8>, again: bool, key: &[u8]) -> Result<(), AllocError>
    ensures written { OnOk result (out.new.items ≡ out.old.items ++ spell.key_bytes again key.now) }
    ensures kept { take (length out.old.items) out.new.items ≡ out.old.items }
{
    if again {
        return Ok(());
    }
    write_name(out, key)
}
