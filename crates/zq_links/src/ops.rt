//! Operations, one after the other.

ghost use Rattle.std.specs.Prelude.{◌≡◌, ◌<◌, ◌≤◌, ◌^◌, ◌++◌, ◌∷◌, IfOk, OnErr, OnOk, [], flat_map, length, map, vec_capacity};
ghost use Rattle.zq_links.specs.Answer.{Answers, IsOfMemoryAmong, IsOfMemoryFor, IsOfMemoryInOps};
ghost use Rattle.zq_links.specs.Ops.{AreSpelled, IsOpSpelled, AreEachSpelled};
ghost use Rattle.zq_links.specs.Reading as read;
ghost use Rattle.zq_links.specs.Spelling.{newest_op, op_bytes, ops_bytes};

use crate::frame_fault::FrameFault;
use std::alloc::{AllocError, Global};
use zq_delta::{append_op, read_op};
use zq_dots::Op;
use zq_fields::{read_u32, write_u32};

/// Takes the number of operations, and as many.
#[tactic(auto, unfolding(crate::specs::Reading::ops_at))]
pub(crate) fn read_ops(alloc: Global, bytes: &mut &[u8]) -> Result<Vec<Op>, FrameFault>
    ensures exact { Answers (IsOfMemoryInOps bytes.old.now)
        (λ ops. (ops.items, bytes.new.now)) result (read.ops_at bytes.old.now) }
    ensures found { IfOk result (λ ops. AreSpelled ops.items bytes.old.now bytes.new.now) }
    ensures few { IfOk result (λ ops. length ops.items < 2 ^ 32) }
{
    let Some((count, rest)) = read_u32(bytes) else {
        return Err(FrameFault::Short);
    };
    *bytes = rest;
    let ops = read_each(alloc, count, bytes)?;
    Ok(ops)
}

/// Takes so many operations. No memory is asked for what the number only declares: an operation is
/// read before there is a place for it in the list.
fn read_each(alloc: Global, count: u32, bytes: &mut &[u8]) -> Result<Vec<Op>, FrameFault>
    ensures exact { Answers (IsOfMemoryAmong count bytes.old.now)
        (λ ops. (ops.items, bytes.new.now)) result (read.more_ops_at count [] bytes.old.now) }
    ensures found { IfOk result (λ ops. AreEachSpelled ops.items bytes.old.now bytes.new.now) }
    ensures count { IfOk result (λ ops. length ops.items ≡ count) }
{
    let mut ops = Vec::new(alloc);
    for number in 0..count {
        let op = read_one(alloc, number, bytes)?;
        append(&mut ops, op)?;
    }
    Ok(ops)
}

/// Puts an operation at the end. Memory is asked for only where the list has no place for one more.
fn append(ops: &mut Vec<Op>, op: Op) -> Result<(), AllocError>
    ensures items { OnOk result (ops.new.items ≡ ops.old.items ++ op ∷ []) }
    ensures full { OnErr result (vec_capacity ops.old ≤ length ops.old.items) }
{
    ops.push(op)?;
    Ok(())
}

/// Takes the operation of this number.
fn read_one(alloc: Global, number: u32, bytes: &mut &[u8]) -> Result<Op, FrameFault>
    ensures exact { Answers (IsOfMemoryFor number bytes.old.now)
        (λ op. (op, bytes.new.now)) result (read.op_in number bytes.old.now) }
    ensures found { IfOk result (λ op. IsOpSpelled op bytes.old.now bytes.new.now) }
{
    match read_op(alloc, bytes) {
        Ok((op, used)) => {
            *bytes = &bytes[used..];
            Ok(op)
        }
        Err(fault) => Err(FrameFault::Op(number, fault)),
    }
}

/// Appends the number of operations and each, in version 2.
#[tactic(auto, unfolding(crate::specs::Spelling::ops_bytes))]
pub(crate) fn write_ops(out: &mut Vec<u8>, ops: &[Op]) -> Result<(), AllocError>
    requires { length ops.now < 2 ^ 32 }
    ensures { OnOk result (out.new.items ≡ out.old.items ++ ops_bytes (map newest_op ops.now)) }
{
    write_u32(out, ops.len() as u32)?;
    write_each(out, ops)?;
    Ok(())
}

fn write_each(out: &mut Vec<u8>, ops: &[Op]) -> Result<(), AllocError>
    ensures { OnOk result
        (out.new.items ≡ out.old.items ++ flat_map op_bytes (map newest_op ops.now)) }
{
    for op in ops {
        append_op(out, op)?;
    }
    Ok(())
}
