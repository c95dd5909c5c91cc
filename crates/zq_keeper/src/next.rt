//! The next file of a log.

ghost use Rattle.std.specs.Prelude.{IfOk, IsTrue, replicate, ◌≡◌};
ghost use Rattle.zq_keeper.specs.Operations as spec;
ghost use Rattle.zq_keeper.specs.Outline as outline;
ghost use Rattle.zq_keeper.specs.declared.next.Part.TheVariants.{Waiting};

use crate::outline::{Outline, empty_outlines};
use std::alloc::{AllocError, Global};

/// How far a heap is in the next file.
#[derive(Clone, Copy, Debug, PartialEq, Eq)]
pub enum Part {
    /// None of its pieces came.
    Waiting,
    /// Pieces of it came: its operations go into the next file too.
    Coming,
    /// All of its pieces came.
    Sealed,
}

impl Part {
    /// Whether a piece came.
    pub fn is_begun(self) -> bool
        ensures { result ≡ spec.is_begun self }
    {
        match self {
            Part::Waiting => false,
            Part::Coming | Part::Sealed => true,
        }
    }

    /// Whether all of them came.
    pub fn is_sealed(self) -> bool
        ensures { result ≡ spec.is_sealed self }
    {
        match self {
            Part::Sealed => true,
            Part::Waiting | Part::Coming => false,
        }
    }
}

/// The next file, as far as it was written.
#[derive(Drop)]
pub struct Next {
    /// What it says of each heap.
    pub heaps: Vec<Outline>,
    /// How far each heap is.
    pub parts: Vec<Part>,
}

impl Next {
    /// One in which there is a Start alone.
    pub(crate) fn of_start(alloc: Global, heaps: u8) -> Result<Next, AllocError>
        ensures heaps { IfOk result (λ n. n.heaps.items
            ≡ replicate heaps outline.empty_outline) }
        ensures parts { IfOk result (λ n. n.parts.items ≡ replicate heaps Waiting) }
    {
        let outlines = empty_outlines(alloc, heaps)?;
        let mut parts = Vec::new(alloc);
        for _heap in 0..heaps {
            parts.push(Part::Waiting)?;
        }
        Ok(Next {
            heaps: outlines,
            parts,
        })
    }

    /// Whether all pieces of each heap came.
    pub fn is_sealed(&self) -> bool
        ensures { IsTrue result → spec.AreSealed self.now.parts.items }
    {
        for part in &self.parts {
            if !part.is_sealed() {
                return false;
            }
        }
        true
    }
}
