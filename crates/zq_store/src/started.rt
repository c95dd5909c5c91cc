//! How a site began.

ghost use Rattle.std.specs.Prelude.{replicate, ◌≡◌};

use zq_wire::{MOST_HEAPS, RUN, Run};

/// How a site began.
#[derive(Clone, Copy, Debug, PartialEq, Eq)]
pub struct Started {
    /// Its run: where it keeps a log on disk its folder, which start of it this is, and how many
    /// operations of each heap the site had made before.
    pub run: Run,
    /// How many bytes that log has, and 0 where it keeps none.
    pub bytes: u64,
}

impl Started {
    /// A site that has nothing, in the only start of a run of this name.
    pub fn anew(name: [u8; RUN]) -> Started
        ensures name { result.run.name ≡ name }
        ensures start { result.run.start ≡ 1 }
        ensures counters { result.run.counters ≡ replicate 16 0 }
    {
        let run = Run {
            name,
            start: 1,
            counters: [0; MOST_HEAPS],
        };
        Started { run, bytes: 0 }
    }
}
