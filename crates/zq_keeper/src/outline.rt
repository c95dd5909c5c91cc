//! The outline of a heap.

ghost use Rattle.std.specs.Prelude.{IfOk, IsTrue, map, replicate, ◌≡◌};
ghost use Rattle.zq_keeper.specs.Outline as spec;

use std::alloc::{AllocError, Global};
use zq_dots::Vector;
use zq_stage::Stage;

/// What a log says of a heap, but for its members.
#[derive(Clone, Copy, Debug, PartialEq, Eq)]
pub struct Outline {
    /// The operations that it has.
    pub vector: Vector,
    /// The life that its pieces tell.
    pub life: u64,
    /// The number of the piece that would follow.
    pub next: u32,
    /// Whether the last piece of its stream came.
    pub whole: bool,
}

impl Outline {
    /// That of a heap in which nothing was done.
    pub(crate) fn empty() -> Outline
        ensures { result ≡ spec.empty_outline }
    {
        Outline {
            vector: Vector::new(),
            life: 0,
            next: 1,
            whole: true,
        }
    }

    /// That of a heap which was read.
    pub(crate) fn of(stage: &Stage) -> Outline
        ensures { result ≡ spec.outline_of stage.now }
    {
        Outline {
            vector: *stage.vector(),
            life: stage.life(),
            next: stage.next(),
            whole: stage.is_whole(),
        }
    }
}

/// Those of heaps which were read.
pub(crate) fn outlines_of(alloc: Global, stages: &[Stage]) -> Result<Vec<Outline>, AllocError>
    ensures { IfOk result (λ v. v.items ≡ map spec.outline_of stages.now) }
{
    let mut outlines = Vec::new(alloc);
    for stage in stages {
        outlines.push(Outline::of(stage))?;
    }
    Ok(outlines)
}

/// Those of so many heaps in which nothing was done.
pub(crate) fn empty_outlines(alloc: Global, heaps: u8) -> Result<Vec<Outline>, AllocError>
    ensures { IfOk result (λ v. v.items ≡ replicate heaps spec.empty_outline) }
{
    let mut outlines = Vec::new(alloc);
    for _heap in 0..heaps {
        outlines.push(Outline::empty())?;
    }
    Ok(outlines)
}

/// Whether the last piece came of each heap.
pub(crate) fn are_whole(outlines: &[Outline]) -> bool
    ensures whole { IsTrue result → spec.AreAllWhole outlines.now }
    ensures other { spec.AreAllWhole outlines.now → IsTrue result }
{
    for outline in outlines {
        if !outline.whole {
            return false;
        }
    }
    true
}
