//! What carries frames to other sites.
ghost use Rattle.std.specs.Prelude.{Bool, List, ℕ, ◌&&◌, ◌≡◌};

use std::alloc::Global;
use zq_dots::SiteNo;

/// What carries the bytes of frames to other sites.
pub trait Carry {
    /// The state before, the site, the bytes, whether they were carried, and the state after.
    ghost carries: { Self → ℕ → List ℕ → Bool → Self → Type 0 };

    /// Carries the bytes of a frame to the site, and says whether there was memory for it. Where
    /// there was none the frame is lost. To carry a frame to a site that is not there is to drop
    /// it.
    fn carry(&mut self, alloc: Global, to: SiteNo, frame: Vec<u8>) -> bool
        ensures { carries self.old to frame.items result self.new };
}

/// Whether both were carried.
pub(crate) fn both(first: bool, second: bool) -> bool
    ensures { result ≡ (first && second) }
{
    first && second
}
