//! Writing an operation in its newest version.

ghost use Rattle.std.specs.Prelude.{◌≡◌, ◌≤◌, ◌++◌, IfOk, OnErr, OnOk, length, take};
ghost use Rattle.zq_delta.specs.Spelling.{op_spelling};
ghost use Rattle.zq_delta.specs.declared.version.Version.TheVariants as version;

use crate::act::write_act;
use crate::version::Version;
use std::alloc::{AllocError, Global};
use zq_dots::Op;
use zq_fields::{sparse_len, write_bytes, write_sparse, write_text};

// The most bytes of an operation beside its vector, its key and its member: version, heaps, heap
// and site, the act with its score, and the two lengths.
const FRAME: usize = 4 + 9 + 8;

/// The bytes of an operation, in version 2. It fails only where memory is refused.
pub fn write_op(alloc: Global, op: &Op) -> Result<Vec<u8>, AllocError>
    ensures written { IfOk result (λ v. v.items ≡ op_spelling version.Two op.now) }
{
    let mut out = Vec::with_capacity(alloc, room(op))?;
    append(&mut out, op)?;
    Ok(out)
}

/// Appends the bytes of an operation, in version 2. Where memory is refused `out` has the bytes
/// that it had.
pub fn append_op(out: &mut Vec<u8>, op: &Op) -> Result<(), AllocError>
    ensures written { OnOk result
        (out.new.items ≡ out.old.items ++ op_spelling version.Two op.now) }
    ensures refused { OnErr result (out.new.items ≡ out.old.items) }
{
    out.reserve(room(op))?;
    let start = out.len();
    let written = append(out, op);
    if written.is_err() {
        out.truncate(start);
    }
    written
}

/// No fewer bytes than the operation has.
fn room(op: &Op) -> usize {
    FRAME + sparse_len(op.seen()) + op.key().len() + op.member().len()
}

/// Where memory is refused a part of the bytes may stand behind those that were there.
#[tactic(auto, unfolding(crate::specs::Spelling::fields))]
fn append(out: &mut Vec<u8>, op: &Op) -> Result<(), AllocError>
    ensures written { OnOk result
        (out.new.items ≡ out.old.items ++ op_spelling version.Two op.now) }
    ensures kept { take (length out.old.items) out.new.items ≡ out.old.items }
{
    let site = op.dot().site.value();
    write_bytes(out, &[Version::Two.byte(), op.heaps(), op.heap(), site])?;
    write_sparse(out, op.seen())?;
    write_act(out, op.act())?;
    write_text(out, op.key())?;
    write_text(out, op.member())
}
