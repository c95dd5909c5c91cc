//! How a frame is written.
ghost use Rattle.std.specs.Prelude.{◌≡◌, ◌<◌, ◌^◌, IfOk, length};
ghost use Rattle.zq_links.specs.Frame as model;
ghost use Rattle.zq_links.specs.Spelling.{frame_spelling, newest};

use crate::frame::Frame;
use crate::have::write_have;
use crate::kind::Kind;
use crate::ops::write_ops;
use std::alloc::{AllocError, Global};
use zq_dots::Op;
use zq_fields::{write_byte, write_bytes};
use zq_merge::{Version, write_state};

/// The bytes of a frame, of kind 5, 2 or 3, with the newest versions inside. It fails only where
/// memory is refused.
pub fn write_frame(alloc: Global, frame: &Frame) -> Result<Vec<u8>, AllocError>
    requires { model.IsWritable frame.now }
    ensures written { IfOk result
        (λ v. v.items ≡ frame_spelling (newest (model.frame_of frame.now))) }
{
    let mut out = Vec::new(alloc);
    match frame {
        Frame::Have(have) => {
            write_byte(&mut out, Kind::Have(Version::Three).byte())?;
            write_have(&mut out, have)?;
            Ok(out)
        }
        Frame::Ops(ops) => write_ops_frame(alloc, ops),
        Frame::State(shard) => {
            let state = write_state(alloc, shard)?;
            write_byte(&mut out, Kind::State.byte())?;
            write_bytes(&mut out, &state)?;
            Ok(out)
        }
    }
}

/// The bytes of a frame of these operations, of kind 2, in the newest version. It fails only where
/// memory is refused.
pub fn write_ops_frame(alloc: Global, ops: &[Op]) -> Result<Vec<u8>, AllocError>
    requires { length ops.now < 2 ^ 32 }
    ensures { IfOk result (λ v. v.items ≡ frame_spelling (newest (model.OfOps ops.now))) }
{
    let mut out = Vec::new(alloc);
    write_byte(&mut out, Kind::Ops.byte())?;
    write_ops(&mut out, ops)?;
    Ok(out)
}
