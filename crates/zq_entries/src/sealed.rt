//! That all pieces of a heap are there.

ghost use Rattle.std.specs.Prelude.{IfOk, OnOk, ◌++◌, ◌<◌, ◌≡◌};
ghost use Rattle.zq_entries.specs.Entry.{IsSealed};
ghost use Rattle.zq_entries.specs.Parts.{sealed_at};
ghost use Rattle.zq_entries.specs.Spelling.{sealed_bytes};
ghost use Rattle.zq_fields.specs.Reading.{Gives};
ghost use Rattle.zq_model.specs.Sets.{IsCounters, IsHeaps};

use std::alloc::AllocError;
use zq_dots::Vector;
use zq_fields::{HeapNo, PartFault, read_heap, read_sparse, write_bytes, write_sparse};

/// All pieces of a heap are there: with the operations of the rounds between them they are the
/// heap, which has the operations of this vector.
#[derive(Clone, Copy, Debug, PartialEq, Eq)]
pub struct Sealed {
    /// The heap, below the number of heaps, 1 to 16.
    pub heap: HeapNo,
    /// The operations that it has.
    pub vector: Vector,
}

/// Takes what follows the kind.
#[tactic(auto, unfolding(crate::specs::Parts::sealed_at, crate::specs::Spelling::sealed_bytes))]
pub(crate) fn read_sealed(whole: usize, bytes: &mut &[u8]) -> Result<Sealed, PartFault>
    ensures exact { Gives (λ w. (w, bytes.new.now)) result (sealed_at whole bytes.old.now) }
    ensures found { IfOk result (λ w. bytes.old.now ≡ sealed_bytes w ++ bytes.new.now) }
    ensures heaps { IfOk result (λ w. IsHeaps w.heap.heaps) }
    ensures heap { IfOk result (λ w. w.heap.heap < w.heap.heaps) }
    ensures counters { IfOk result (λ w. IsCounters w.vector) }
{
    let heap = read_heap(whole, bytes)?;
    let vector = read_sparse(whole, None, bytes)?;
    Ok(Sealed { heap, vector })
}

/// Appends what follows the kind.
#[tactic(auto, unfolding(crate::specs::Spelling::sealed_bytes))]
pub(crate) fn write_sealed(out: &mut Vec<u8>, whole: &Sealed) -> Result<(), AllocError>
    requires heaps { IsHeaps whole.now.heap.heaps }
    requires heap { whole.now.heap.heap < whole.now.heap.heaps }
    requires counters { IsCounters whole.now.vector }
    ensures written { OnOk result (out.new.items ≡ out.old.items ++ sealed_bytes whole.now) }
    ensures sound { OnOk result (IsSealed whole.now) }
{
    write_bytes(out, &[whole.heap.heaps, whole.heap.heap])?;
    write_sparse(out, &whole.vector)
}
