//! The times of the steps of a `Ranked`.
use crate::clock::now;
use crate::ranked::Sizes;
use crate::ranked::ranked_work::{change, insert_all, pop_all, remove_half, sum_ranks, sum_tens};
use crate::ranked::scores::drawn;
use crate::ranked::watch::tell;
use rand_pcg::Pcg64;
use std::alloc::Global;
use std::rt::Clock;
use zq_ranked::Ranked;

/// Times each kind of step, and writes a checksum of what was answered.
pub fn time_all<R: Clock + Print + Eprint>(rt: &R, alloc: Global, sizes: Sizes) -> Option<()> {
    let mut draws = Pcg64::new(1, 1);
    let mut scores = drawn(alloc, &mut draws, sizes.pairs).ok()?;
    let mut ranked = Ranked::new(alloc);
    time_steps(rt, &mut ranked, &mut scores, &mut draws, sizes)
}

fn time_steps<R: Clock + Print + Eprint>(
    rt: &R,
    ranked: &mut Ranked,
    scores: &mut [i128],
    draws: &mut Pcg64,
    sizes: Sizes,
) -> Option<()> {
    let (ranks, tens) = time_full(rt, ranked, scores, draws, sizes.steps)?;
    let popped = time_removals(rt, ranked, scores, sizes.pairs)?;
    println!(rt; "ranks {ranks} tens {tens} popped {popped:016x}").ok()
}

/// Times what is done while all pairs are there, and answers the checksums of the ranks and of the
/// tens.
fn time_full<R: Clock + Eprint>(
    rt: &R,
    ranked: &mut Ranked,
    scores: &mut [i128],
    draws: &mut Pcg64,
    steps: u32,
) -> Option<(usize, i128)> {
    time_insertions(rt, ranked, scores)?;
    let ranks = time_ranks(rt, ranked, scores, draws, steps)?;
    let tens = time_tens(rt, ranked, scores, draws, steps)?;
    time_changes(rt, ranked, scores, draws, steps)?;
    Some((ranks, tens))
}

fn time_insertions<R: Clock + Eprint>(rt: &R, ranked: &mut Ranked, scores: &[i128]) -> Option<()> {
    let began = now(rt);
    insert_all(ranked, scores).ok()?;
    tell(rt, "ranked insert", count(scores), began)
}

fn time_ranks<R: Clock + Eprint>(
    rt: &R,
    ranked: &Ranked,
    scores: &[i128],
    draws: &mut Pcg64,
    steps: u32,
) -> Option<usize> {
    let began = now(rt);
    let ranks = sum_ranks(ranked, scores, draws, steps);
    tell(rt, "ranked rank", steps, began)?;
    Some(ranks)
}

fn time_tens<R: Clock + Eprint>(
    rt: &R,
    ranked: &Ranked,
    scores: &[i128],
    draws: &mut Pcg64,
    steps: u32,
) -> Option<i128> {
    let began = now(rt);
    let tens = sum_tens(ranked, draws, steps, count(scores));
    tell(rt, "ranked ten", steps, began)?;
    Some(tens)
}

fn time_changes<R: Clock + Eprint>(
    rt: &R,
    ranked: &mut Ranked,
    scores: &mut [i128],
    draws: &mut Pcg64,
    steps: u32,
) -> Option<()> {
    let began = now(rt);
    change(ranked, scores, draws, steps).ok()?;
    tell(rt, "ranked change", steps, began)
}

/// Times the removal of one half and then the pops of the other, and answers the checksum of what
/// was popped.
fn time_removals<R: Clock + Eprint>(
    rt: &R,
    ranked: &mut Ranked,
    scores: &[i128],
    pairs: u32,
) -> Option<u64> {
    let began = now(rt);
    remove_half(ranked, scores);
    tell(rt, "ranked remove", pairs / 2, began)?;
    let left = pairs - pairs / 2;
    let began = now(rt);
    let popped = pop_all(ranked, left);
    tell(rt, "ranked pop", left, began)?;
    Some(popped)
}

/// How many scores there are.
fn count(scores: &[i128]) -> u32 {
    u32::try_from(scores.len()).unwrap_or(u32::MAX)
}
