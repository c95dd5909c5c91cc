//! The times of the steps that a `PosHeap` has.
use crate::clock::now;
use crate::ranked::Sizes;
use crate::ranked::heap_work::{change, pop_all, remove_half, set_all};
use crate::ranked::scores::drawn;
use crate::ranked::watch::tell;
use rand_pcg::Pcg64;
use std::alloc::Global;
use std::rt::Clock;
use zq_posheap::PosHeap;

/// Times each kind of step, over the draws that a `Ranked` has.
pub fn time_all<R: Clock + Eprint>(rt: &R, alloc: Global, sizes: Sizes) -> Option<()> {
    let mut draws = Pcg64::new(1, 1);
    let scores = drawn(alloc, &mut draws, sizes.pairs).ok()?;
    let mut heap = PosHeap::new(alloc);
    time_steps(rt, &mut heap, &scores, &mut draws, sizes)
}

fn time_steps<R: Clock + Eprint>(
    rt: &R,
    heap: &mut PosHeap<()>,
    scores: &[i128],
    draws: &mut Pcg64,
    sizes: Sizes,
) -> Option<()> {
    time_insertions(rt, heap, scores, sizes.pairs)?;
    time_changes(rt, heap, draws, sizes)?;
    time_removals(rt, heap, sizes.pairs)
}

fn time_insertions<R: Clock + Eprint>(
    rt: &R,
    heap: &mut PosHeap<()>,
    scores: &[i128],
    pairs: u32,
) -> Option<()> {
    let began = now(rt);
    set_all(heap, scores).ok()?;
    tell(rt, "heap insert", pairs, began)
}

fn time_changes<R: Clock + Eprint>(
    rt: &R,
    heap: &mut PosHeap<()>,
    draws: &mut Pcg64,
    sizes: Sizes,
) -> Option<()> {
    let began = now(rt);
    change(heap, draws, sizes).ok()?;
    tell(rt, "heap change", sizes.steps, began)
}

fn time_removals<R: Clock + Eprint>(rt: &R, heap: &mut PosHeap<()>, pairs: u32) -> Option<()> {
    let began = now(rt);
    remove_half(heap, pairs);
    tell(rt, "heap remove", pairs / 2, began)?;
    let left = pairs - pairs / 2;
    let began = now(rt);
    pop_all(heap, left);
    tell(rt, "heap pop", left, began)
}
