//! The two heaps that ZPOPNEAR draws.
ghost use Rattle.std.specs.Prelude.{◌≡◌, ◌∷◌, [], max, min};
ghost use Rattle.zq_semantics.specs.Doing.{drawn};
ghost use Rattle.zq_spread.specs.Calls.{heaps_of};
ghost use Rattle.zq_spread.specs.Several.{AreHeapsOf};

use crate::site::Site;

impl Site {
    /// The lower of the heaps that these words draw, and the higher one.
    pub(crate) fn draw(&self, w1: u64, w2: u64) -> (u8, u8)
        ensures drawn { result.0 ∷ result.1 ∷ [] ≡ drawn (heaps_of self.now) w1 w2 }
        ensures heaps { AreHeapsOf self.now (result.0 ∷ result.1 ∷ []) }
    {
        let heaps = self.slots.len() as u64;
        let first = w1 % heaps;
        let second = (first + 1 + w2 % (heaps - 1)) % heaps;
        (u64::min(first, second) as u8, u64::max(first, second) as u8)
    }
}
