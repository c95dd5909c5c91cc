//! Reading an operation from the front of some bytes.

ghost use Rattle.std.specs.Prelude.{◌≡◌, ◌++◌, IfOk, List, MatchResult, length, take, ℕ};
ghost use Rattle.zq_delta.specs.Answer.{Answers};
ghost use Rattle.zq_delta.specs.Reading.{found_at};
ghost use Rattle.zq_delta.specs.Spelling.{op_spelling};
ghost use Rattle.zq_delta.specs.Version.{HasSpelling};
ghost use Rattle.zq_delta.specs.declared.fault.OpFault.TheVariants.{NoMemory};
ghost use Rattle.zq_delta.specs.declared.version.Version.{Version};
ghost use Rattle.zq_dots.specs.Placed.{IsRanged, Placed};

use crate::fault::OpFault;
use crate::parts::{operation, read_parts};
use crate::version::read_version;
use std::alloc::Global;
use zq_dots::Op;

/// The operation at the front of the bytes, in version 1 or 2, and how many bytes it takes.
///
/// A fault is that of the first field, from the left, that is missing or out of its range. Memory
/// is asked for once the whole operation is found: `NoMemory` comes only where its key or its
/// member got none.
pub fn read_op(alloc: Global, bytes: &[u8]) -> Result<(Op, usize), OpFault>
    ensures exact { Answers (λ x. x) result (found_at bytes.now) }
    ensures found { IfOk result (λ x. (v : Version) × HasSpelling v x.0
        × (take x.1 bytes.now ≡ op_spelling v x.0)) }
    ensures only { (v : Version) (o : Placed) (rest : List ℕ) → IsRanged o → HasSpelling v o →
        bytes.now ≡ op_spelling v o ++ rest →
        MatchResult result (λ x. x ≡ (o, length (op_spelling v o))) (λ fault. fault ≡ NoMemory) }
    ensures sound { IfOk result (λ x. IsRanged x.0) }
{
    read_front(alloc, bytes)
}

#[tactic(auto, unfolding(crate::specs::Reading::op_at))]
fn read_front(alloc: Global, bytes: &[u8]) -> Result<(Op, usize), OpFault>
    ensures exact { Answers (λ x. x) result (found_at bytes.now) }
    ensures found { IfOk result (λ x. (v : Version) × HasSpelling v x.0
        × (take x.1 bytes.now ≡ op_spelling v x.0)) }
    ensures sound { IfOk result (λ x. IsRanged x.0) }
{
    let mut rest = bytes;
    let version = read_version(&mut rest)?;
    let parts = match read_parts(version, bytes.len(), &mut rest) {
        Ok(parts) => parts,
        Err(fault) => return Err(OpFault::from(fault)),
    };
    let op = operation(alloc, &parts)?;
    Ok((op, bytes.len() - rest.len()))
}
