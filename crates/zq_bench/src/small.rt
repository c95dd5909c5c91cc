//! All measurements in small sizes, but that of the lock, whose figures are on standard output.
use crate::heap::Sizes as HeapSizes;
use crate::image::Part;
use crate::node::Plan;
use crate::pops::Plan as PopsPlan;
use crate::ranked::Sizes as RankedSizes;
use crate::{heap, image, node, pops, ranked, site, world};
use std::alloc::Global;
use std::rt::Clock;
use std::sync::Wait;
use std::thread::Threads;

const HEAP: HeapSizes = HeapSizes {
    steps: 1000,
    members: 100,
    is_wide: false,
};

const IMAGE: Part = Part::Frame { members: 1000 };

const NODE: Plan = Plan {
    operations: 3000,
    round: 1000,
};

const POPS: PopsPlan = PopsPlan {
    pop: "ZPOPNEAR",
    members: 1000,
    heaps: 4,
    passes: 2,
};

const RANKED: RankedSizes = RankedSizes {
    steps: 1000,
    pairs: 100,
};

const SITE_CALLS: usize = 1000;

const WORLD_EVENTS: u32 = 1000;

/// Measures all of them in turn.
pub fn measure_all<R: Clock + Print + Eprint + Input + Threads + Wait + Sync>(
    rt: &R,
    alloc: Global,
) -> Option<()> {
    heap::measure(rt, alloc, HEAP)?;
    image::measure(rt, alloc, IMAGE)?;
    node::measure(rt, alloc, NODE)?;
    pops::measure(rt, alloc, POPS)?;
    ranked::measure(rt, alloc, RANKED)?;
    site::measure(rt, alloc, SITE_CALLS)?;
    world::measure(rt, alloc, WORLD_EVENTS)
}
