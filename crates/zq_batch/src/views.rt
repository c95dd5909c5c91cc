//! Operations one after the other.

ghost use Rattle.std.specs.Prelude.{◌≡◌, ◌<◌, ◌≤◌, ◌++◌, ◌∷◌, All, IfOk, OnErr, OnOk, [], length, take, true, vec_capacity};
ghost use Rattle.zq_batch.specs.Answer.{AnswersPart};
ghost use Rattle.zq_batch.specs.Batch.{IsOfHeap, MOST_OPS};
ghost use Rattle.zq_batch.specs.Before.{AreNext};
ghost use Rattle.zq_batch.specs.Reading as read_batch;
ghost use Rattle.zq_batch.specs.Spelling as spell;
ghost use Rattle.zq_dots.specs.Placed.{IsRanged};
ghost use Rattle.zq_model.specs.Sets as sets;

use crate::fault::BatchFault;
use crate::op::{read_op, write_op};
use crate::view::View;
use std::alloc::{AllocError, Global};
use zq_fields::HeapNo;

/// Takes so many operations of the heap. No more room is asked for than the bytes can fill.
pub(crate) fn read_views<'a>(
    alloc: Global,
    whole: usize,
    heap: HeapNo,
    count: u64,
    bytes: &mut &'a [u8],
) -> Result<Vec<View<'a>>, BatchFault>
    requires heaps { sets.IsHeaps heap.heaps }
    requires heap { heap.heap < heap.heaps }
    requires few { count ≤ MOST_OPS }
    ensures exact { AnswersPart (λ v. (v.items, bytes.new.now)) result
        (read_batch.each_at whole heap count [] bytes.old.now) }
    ensures found { IfOk result
        (λ v. bytes.old.now ≡ spell.each_bytes [] v.items ++ bytes.new.now) }
    ensures count { IfOk result (λ v. length v.items ≡ count) }
    ensures next { IfOk result (λ v. AreNext [] v.items) }
    ensures of_heap { IfOk result (λ v. All (IsOfHeap heap.heaps heap.heap) v.items) }
{
    let room = (count as usize).min(bytes.len());
    let mut views = Vec::with_capacity(alloc, room)?;
    for _number in 0..count {
        let view = read_op(whole, heap, &views, bytes)?;
        append(&mut views, view)?;
    }
    Ok(views)
}

/// Puts an operation at the end.
fn append<'a>(views: &mut Vec<View<'a>>, view: View<'a>) -> Result<(), AllocError>
    ensures items { OnOk result (views.new.items ≡ views.old.items ++ view.entry ∷ []) }
{
    views.push(view)?;
    Ok(())
}

/// Appends operations, and says whether they have a spelling, each behind those before it. Where
/// memory is refused, or they have none, a part of it may stand behind what stood there.
pub(crate) fn write_each(out: &mut Vec<u8>, views: &[View<'_>]) -> Result<bool, AllocError>
    ensures written { IfOk result (λ is. is ≡ true →
        out.new.items ≡ out.old.items ++ spell.each_bytes [] views.now) }
    ensures next { IfOk result (λ is. is ≡ true → AreNext [] views.now) }
    ensures other { IfOk result (λ is. AreNext [] views.now → is ≡ true) }
    ensures kept { take (length out.old.items) out.new.items ≡ out.old.items }
{
    for number in 0..views.len() {
        if !write_op(out, &views[..number], &views[number])? {
            return Ok(false);
        }
    }
    Ok(true)
}
