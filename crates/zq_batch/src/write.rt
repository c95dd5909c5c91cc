//! Writing a batch.

ghost use Rattle.std.specs.Prelude.{◌≡◌, ◌≤◌, ◌++◌, ◌∷◌, All, IfOk, MatchOption, OnErr, ℕ, false, length, take, true};
ghost use Rattle.zq_batch.specs.Batch.{AreBatch, IsOfHeap, MOST_OPS};
ghost use Rattle.zq_batch.specs.Spelling as spell;

use crate::ops::views_of;
use crate::read::KIND;
use crate::varint::write_varint;
use crate::view::View;
use crate::views::write_each;
use std::alloc::{AllocError, Global};
use zq_dots::Op;
use zq_fields::{HeapNo, write_bytes};

// The most operations of a batch.
const MOST: usize = 4096;

/// The bytes of operations, and `None` where they have no spelling together: that is where there is
/// none or more than 4096, or they are of more than one heap, or one is not the next of its site
/// behind those before it. It fails only where memory is refused.
pub fn write_batch(alloc: Global, ops: &[Op]) -> Result<Option<Vec<u8>>, AllocError>
    ensures { IfOk result (λ r. MatchOption r
        ((heaps heap : ℕ) → AreBatch heaps heap ops.now → ⊥)
        (λ v. (heaps heap : ℕ) × AreBatch heaps heap ops.now
        × (v.items ≡ spell.batch_bytes heaps heap ops.now))) }
{
    let views = views_of(alloc, ops)?;
    let mut out = Vec::new(alloc);
    if append_views(&mut out, &views)? {
        Ok(Some(out))
    } else {
        Ok(None)
    }
}

/// Appends the bytes of operations, and says whether they have a spelling together. Where they have
/// none, or memory is refused, a part of it may stand behind what stood there.
pub(crate) fn append_views(out: &mut Vec<u8>, views: &[View<'_>]) -> Result<bool, AllocError>
    ensures written { IfOk result (λ is. is ≡ true → (heaps heap : ℕ)
        × AreBatch heaps heap views.now
        × (out.new.items ≡ out.old.items ++ spell.batch_bytes heaps heap views.now)) }
    ensures other { IfOk result (λ is. is ≡ false →
        (heaps heap : ℕ) → AreBatch heaps heap views.now → ⊥) }
    ensures kept { take (length out.old.items) out.new.items ≡ out.old.items }
{
    let Some((view, _)) = views.split_first() else {
        return Ok(false);
    };
    let heap = view.heap();
    if views.len() > MOST || !are_of(views, heap) {
        return Ok(false);
    }
    write_bytes(out, &[KIND, heap.heaps, heap.heap])?;
    write_varint(out, views.len() as u64)?;
    write_each(out, views)
}

/// Whether all are of this heap.
fn are_of(views: &[View<'_>], heap: HeapNo) -> bool
    ensures all { result ≡ true → All (IsOfHeap heap.heaps heap.heap) views.now }
    ensures other { All (IsOfHeap heap.heaps heap.heap) views.now → result ≡ true }
{
    for view in views {
        if view.heap().heaps != heap.heaps || view.heap().heap != heap.heap {
            return false;
        }
    }
    true
}
