//! What sends frames to other sites.
ghost use Rattle.std.specs.Prelude.{Bool, List, ℕ};
ghost use Rattle.zq_peers.specs.Carried.{IsPassedOn};

use crate::carry::Carry;
use std::alloc::{AllocError, Global};
use zq_dots::SiteNo;
use zq_links::{Frame, write_frame};

/// What sends frames to other sites.
///
/// Each carrier of bytes does. What sends frames by it knows of nothing else that it can do, so
/// what it says was sent was.
pub(crate) trait Sends {
    ghost use Rattle.std.specs.Prelude.{Bool, ℕ};
    ghost use Rattle.zq_links.specs.Frame.{Frame as Parcel, IsWritable, frame_of};

    /// The state before, the site, the frame, whether there was memory for it, and the state after.
    ghost sends: { Self → ℕ → Parcel → Bool → Self → Type 0 };

    /// Sends a frame to the site, and says whether there was memory for it. Where there was none
    /// the frame is lost.
    fn send(&mut self, alloc: Global, to: SiteNo, frame: &Frame) -> bool
        requires { IsWritable frame.now }
        ensures { sends self.old to (frame_of frame.now) result self.new };
}

impl<C: Carry> Sends for C {
    ghost use Rattle.zq_peers.specs.Carried.{IsSent};

    ghost sends = { IsSent C.carries };

    fn send(&mut self, alloc: Global, to: SiteNo, frame: &Frame) -> bool {
        let written = write_frame(alloc, frame);
        pass_on(alloc, self, to, written)
    }
}

/// Carries the bytes of a frame, if there was memory to write them, and says whether there was
/// memory for all.
fn pass_on<C: Carry>(
    alloc: Global,
    carrier: &mut C,
    to: SiteNo,
    written: Result<Vec<u8>, AllocError>,
) -> bool
    ensures { IsPassedOn C.carries carrier.old carrier.new to written result }
{
    match written {
        Ok(bytes) => carrier.carry(alloc, to, bytes),
        Err(_) => false,
    }
}
