//! How the operations of a round are judged, by the rules by which they are taken when the log is
//! read again.

ghost use Rattle.std.specs.Prelude.{IfErr, OnOk, [], true, ◌∷◌, ◌≡◌, ◌⊎◌};
ghost use Rattle.zq_dots.specs.Placed.{IsRanged};
ghost use Rattle.zq_keeper.specs.Operations as spec;
ghost use Rattle.zq_model.specs.Sets.{covers};
ghost use Rattle.zq_recovery.specs.declared.refusal.Refusal.{Refusal as refusal};

use crate::next::Part;
use crate::outline::Outline;
use zq_dots::{Dot, Op, Vector, heap_of};
use zq_entries::Batch;
use zq_recovery::{Identity, Refusal};

/// Notes the operations of batches, the first ones first. `WrongHeap`, `Gap` where one would be
/// refused; the outlines are then of no use.
pub(crate) fn note_batches(
    identity: &Identity,
    outlines: &mut [Outline],
    batches: &[Batch],
) -> Result<(), Refusal>
    ensures noted { OnOk result
        (spec.TakesEach identity.now batches.now outlines.old outlines.new) }
    ensures cause { IfErr result (λ r. (r ≡ refusal.WrongHeap) ⊎ (r ≡ refusal.Gap)) }
{
    for batch in batches {
        note_ops(identity, outlines, batch.ops())?;
    }
    Ok(())
}

/// The same of those batches whose heaps' pieces have begun.
pub(crate) fn note_chosen(
    identity: &Identity,
    parts: &[Part],
    outlines: &mut [Outline],
    batches: &[Batch],
) -> Result<(), Refusal>
    ensures noted { OnOk result (spec.TakesEach identity.now
        (spec.chosen parts.now batches.now) outlines.old outlines.new) }
    ensures cause { IfErr result (λ r. (r ≡ refusal.WrongHeap) ⊎ (r ≡ refusal.Gap)) }
{
    for batch in batches {
        note_one(identity, parts, outlines, batch)?;
    }
    Ok(())
}

/// The same of one batch.
fn note_one(
    identity: &Identity,
    parts: &[Part],
    outlines: &mut [Outline],
    batch: &Batch,
) -> Result<(), Refusal>
    ensures noted { OnOk result (spec.TakesEach identity.now
        (spec.chosen parts.now (batch.now ∷ [])) outlines.old outlines.new) }
    ensures cause { IfErr result (λ r. (r ≡ refusal.WrongHeap) ⊎ (r ≡ refusal.Gap)) }
{
    if is_chosen(parts, batch) {
        note_ops(identity, outlines, batch.ops())
    } else {
        Ok(())
    }
}

/// Whether the pieces of a batch's heap have begun.
pub(crate) fn is_chosen(parts: &[Part], batch: &Batch) -> bool
    ensures { result ≡ spec.is_chosen parts.now batch.now }
{
    let Some(op) = batch.ops().first() else {
        return false;
    };
    match parts.get(op.heap() as usize) {
        Some(part) => part.is_begun(),
        None => false,
    }
}

fn note_ops(identity: &Identity, outlines: &mut [Outline], ops: &[Op]) -> Result<(), Refusal>
    ensures noted { OnOk result (spec.TakesOps identity.now ops.now outlines.old outlines.new) }
    ensures cause { IfErr result (λ r. (r ≡ refusal.WrongHeap) ⊎ (r ≡ refusal.Gap)) }
{
    for op in ops {
        note_op(identity, outlines, op)?;
    }
    Ok(())
}

/// Notes an operation in the outline of its heap.
fn note_op(identity: &Identity, outlines: &mut [Outline], op: &Op) -> Result<(), Refusal>
    ensures noted { OnOk result (spec.TakesOp identity.now op.now outlines.old outlines.new) }
    ensures cause { IfErr result (λ r. (r ≡ refusal.WrongHeap) ⊎ (r ≡ refusal.Gap)) }
{
    ranged(op);
    let place = op.heap() as usize;
    if place < outlines.len() && is_placed(identity, op) {
        note_in(&mut outlines[place], op)
    } else {
        Err(Refusal::WrongHeap)
    }
}

/// For the proof: the numbers of an operation are in range.
fn ranged(op: &Op)
    ensures { IsRanged op.now }
{
    let _ = op.heap();
    let _ = op.heaps();
    let _ = op.dot().site.value();
    let _ = op.seen();
    let _ = op.key();
    let _ = op.member();
    let _ = op.act();
}

/// Whether an operation is of a site with this number of heaps, and lies where its member's hash
/// says.
fn is_placed(identity: &Identity, op: &Op) -> bool
    ensures { result ≡ true → spec.IsPlaced identity.now op.now }
{
    op.heaps() == identity.heaps && heap_of(op.key(), op.member(), op.heaps()) == op.heap()
}

/// Whether a vector knows all that another one knows. Mostly they are the same.
fn knows(vector: &Vector, seen: &Vector) -> bool
    ensures { result ≡ covers vector.now seen.now }
{
    vector == seen || vector.covers(seen)
}

/// Notes an operation; one that is known changes nothing.
fn note_in(outline: &mut Outline, op: &Op) -> Result<(), Refusal>
    ensures noted { OnOk result (spec.Takes op.now outline.old outline.new) }
    ensures cause { IfErr result (λ r. (r ≡ refusal.WrongHeap) ⊎ (r ≡ refusal.Gap)) }
{
    if outline.vector.has(op.dot()) {
        return Ok(());
    }
    if !knows(&outline.vector, op.seen()) {
        return Err(Refusal::Gap);
    }
    let Dot { site, n } = op.dot();
    outline.vector.set(site, n);
    Ok(())
}
