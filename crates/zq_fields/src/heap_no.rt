//! A heap, and the number of heaps.

ghost use Rattle.std.specs.Prelude.{◌≡◌, ◌<◌, ◌∷◌, IfOk};
ghost use Rattle.zq_model.specs.Sets.{IsHeaps};
ghost use Rattle.zq_fields.specs.Reading as read;

use crate::fault::PartFault;
use crate::range::read_byte_in;

// The most heaps of a site.
const MOST_HEAPS: u8 = 16;

/// A heap of a site, and how many heaps the site has.
#[derive(Clone, Copy, Debug, PartialEq, Eq)]
pub struct HeapNo {
    pub heap: u8,
    pub heaps: u8,
}

/// Takes the number of heaps, 1 to 16, and the heap, below it.
#[tactic(auto, unfolding(crate::specs::Reading::heap_at))]
pub fn read_heap(whole: usize, bytes: &mut &[u8]) -> Result<HeapNo, PartFault>
    ensures exact { read.Gives (λ x. (x, bytes.new.now)) result (read.heap_at whole bytes.old.now) }
    ensures found { IfOk result (λ x. bytes.old.now ≡ x.heaps ∷ x.heap ∷ bytes.new.now) }
    ensures heaps { IfOk result (λ x. IsHeaps x.heaps) }
    ensures heap { IfOk result (λ x. x.heap < x.heaps) }
{
    let heaps = read_byte_in(whole, bytes, 1, MOST_HEAPS + 1)?;
    let heap = read_byte_in(whole, bytes, 0, heaps)?;
    Ok(HeapNo { heap, heaps })
}
