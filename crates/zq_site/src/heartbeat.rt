//! What keeps a link up over which nothing else goes.

ghost use Rattle.std.specs.Prelude.{IfOk, ◌≡◌};
ghost use Rattle.zq_site.specs.Heartbeat as wanted;

use std::alloc::{AllocError, Global};
use zq_links::write_ops_frame;

/// A frame of no operations. A peer of each version hears it, and does nothing.
pub fn heartbeat(alloc: Global) -> Result<Vec<u8>, AllocError>
    ensures { IfOk result (λ frame. frame.items ≡ wanted.heartbeat) }
{
    write_ops_frame(alloc, &[])
}
