//! How many operations of this site a peer knows, as what it sends tells.

ghost use Rattle.std.specs.List.{list_any};
ghost use Rattle.std.specs.Prelude.{false, ℕ, ◌==◌, ◌≡◌};
ghost use Rattle.zq_replica.specs.Told as spec;

use zq_dots::{Op, SiteNo};
use zq_links::{Control, Frame, Piece, Resume};

/// Whether a frame may tell of operations of this site, `own`. Operations of others tell nothing.
pub(crate) fn may_tell(own: SiteNo, frame: &Frame) -> bool
    ensures { result ≡ false → (heaps heap : ℕ) → spec.told_by own heaps heap frame.now ≡ 0 }
{
    match frame {
        Frame::Ops(ops) => has_own(own, ops),
        Frame::Have(_) | Frame::State(_) => true,
    }
}

/// Whether one of these operations is of this site, `own`.
fn has_own(own: SiteNo, ops: &[Op]) -> bool
    ensures { result ≡ list_any (λ o. o.operation.site == own) ops.now }
{
    ops.iter().any(|op| op.dot().site == own)
}

/// How many operations of this site, `own`, the sender of a frame knows in a heap among so many: 0
/// where the frame tells nothing of that.
pub(crate) fn told_by(own: SiteNo, heaps: u8, heap: u8, frame: &Frame) -> u64
    ensures { result ≡ spec.told_by own heaps heap frame.now }
{
    match frame {
        Frame::Have(have) => told_in(heaps, heap, have.heaps, have.heap, have.vector.get(own)),
        Frame::Ops(ops) => told_by_ops(own, heaps, heap, ops),
        Frame::State(shard) => {
            let known = shard.vector().get(own);
            told_in(heaps, heap, shard.heaps(), shard.heap(), known)
        }
    }
}

/// This number where it was told of this heap among so many, and else 0.
fn told_in(heaps: u8, heap: u8, of_heaps: u8, of_heap: u8, known: u64) -> u64
    ensures { result ≡ spec.told_in heaps heap of_heaps of_heap known }
{
    if of_heaps == heaps && of_heap == heap {
        known
    } else {
        0
    }
}

/// The greatest number of this site's operations of the heap, in whatever order they come.
fn told_by_ops(own: SiteNo, heaps: u8, heap: u8, ops: &[Op]) -> u64
    ensures { result ≡ spec.told_by_ops own heaps heap ops.now }
{
    ops.iter().fold(
        0,
        |told: u64, op| told.max(told_by_op(own, heaps, heap, op)),
    )
}

/// The number of an operation of the heap, where it is of this site.
fn told_by_op(own: SiteNo, heaps: u8, heap: u8, op: &Op) -> u64
    ensures { result ≡ spec.told_by_op own heaps heap op.now }
{
    let dot = op.dot();
    if dot.site == own {
        told_in(heaps, heap, op.heaps(), op.heap(), dot.n)
    } else {
        0
    }
}

/// How many operations of this site, `own`, the sender of a control frame knows in a heap among so
/// many: 0 where the frame tells nothing of that.
pub(crate) fn told_by_control(own: SiteNo, heaps: u8, heap: u8, control: &Control) -> u64
    ensures { result ≡ spec.told_by_control own heaps heap control.now }
{
    match control {
        Control::Routes(_) => 0,
        Control::At(at) => told_in(heaps, heap, at.heaps, at.heap, at.vector.get(own)),
        Control::Behind(behind) => {
            let known = behind.vector.get(own);
            told_in(heaps, heap, behind.heaps, behind.heap, known)
        }
        Control::Fetch(fetch) => {
            let known = told_by_resume(own, &fetch.resume);
            told_in(heaps, heap, fetch.heaps, fetch.heap, known)
        }
    }
}

/// How many operations of this site, `own`, the sender of a piece knows in a heap among so many: 0
/// where the piece is of another heap.
pub(crate) fn told_by_piece(own: SiteNo, heaps: u8, heap: u8, piece: &Piece) -> u64
    ensures { result ≡ spec.told_by_piece own heaps heap piece.now }
{
    let part = &piece.part;
    told_in(
        heaps,
        heap,
        part.heaps(),
        part.heap(),
        part.vector().get(own),
    )
}

/// How many operations of this site a stage of the peer has taken, where the peer has one.
fn told_by_resume(own: SiteNo, resume: &Option<Resume>) -> u64
    ensures { result ≡ spec.told_by_resume own resume.now }
{
    match resume {
        Some(resume) => resume.vector.get(own),
        None => 0,
    }
}
