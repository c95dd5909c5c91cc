//! The head of a frame of operations.
ghost use Rattle.std.specs.Int.{to_be_bytes, w32};
ghost use Rattle.std.specs.Prelude.{◌≡◌, ◌+◌, ◌<◌, ◌^◌, ◌∷◌, IfOk};

use std::alloc::{AllocError, Global};
use zq_fields::{write_byte, write_u32};

/// The kind of a frame of operations.
const OPS: u8 = 2;

/// The bytes of the kind and of the number.
const HEAD: usize = 5;

/// A frame of so many operations, with room for their bytes, of which none is written.
pub(crate) fn begin_frame(alloc: Global, count: u32, bytes: usize) -> Result<Vec<u8>, AllocError>
    requires { bytes + 5 < 2 ^ 64 }
    ensures { IfOk result (λ frame. frame.items ≡ 2 ∷ to_be_bytes w32 count) }
{
    let mut frame = Vec::with_capacity(alloc, HEAD + bytes)?;
    write_byte(&mut frame, OPS)?;
    write_u32(&mut frame, count)?;
    Ok(frame)
}
