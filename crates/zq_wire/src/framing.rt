//! How a frame is written.
ghost use Rattle.std.specs.Prelude.{◌≡◌, ◌<◌, ◌^◌, ◌+◌, ◌++◌, length, OnErr, OnOk, vec_len};
ghost use Rattle.std.specs.Vec.{vec_capacity};
ghost use Rattle.zq_wire.specs.Framed.{framed};

use std::alloc::AllocError;
use zq_fields::{write_bytes, write_u32};

/// Appends a frame behind its length. Where memory is refused nothing is written; it is refused
/// only where room was missing.
pub fn write_framed(out: &mut Vec<u8>, frame: &[u8]) -> Result<(), AllocError>
    requires { length frame.now < 2 ^ 32 }
    ensures written { OnOk result (out.new.items ≡ out.old.items ++ framed frame.now) }
    ensures refused { OnErr result (out.new.items ≡ out.old.items) }
    ensures full { OnErr result (vec_capacity out.old < vec_len out.old + (length frame.now + 4)) }
{
    out.reserve(frame.len() + 4)?;
    write_u32(out, frame.len() as u32)?;
    write_bytes(out, frame)
}
