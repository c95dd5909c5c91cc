//! 128 passes; what was joined last is split first.

ghost use Rattle.std.specs.Prelude.{◌≡◌, ◌+◌, ◌≤◌, [], IfOk, length, vec_len};
ghost use Rattle.zq_tally.specs.Limits.{ALL_PARTS};
ghost use Rattle.zq_tally.specs.Words.{id_of, total_table, total_of, kept_of, passes_of, AreOf};

use crate::{Count, Tally, Total};
use std::alloc::Global;
use std::test::Fail;

/// A table without a pass.
fn opened(alloc: Global) -> Result<(Tally, Total), Fail>
    ensures table { IfOk result (λ made. total_table made.1 ≡ id_of made.0) }
    ensures zero { IfOk result (λ made. total_of made.1 ≡ 0) }
    ensures parts { IfOk result (λ made. (kept_of made.1 ≡ ALL_PARTS) × (passes_of made.1 ≡ [])) }
{
    match Tally::new(alloc) {
        Ok(made) => Ok(made),
        Err(_) => Err(Fail::from("memory")),
    }
}

/// As many passes as a table has.
fn all_passes(alloc: Global, tally: &Tally, total: &mut Total) -> Result<Vec<Count>, Fail>
    requires own { total_table total.old ≡ id_of tally.now }
    requires new { (kept_of total.old ≡ ALL_PARTS) × (passes_of total.old ≡ [])
        × (total_of total.old ≡ 0) }
    ensures table { total_table total.new ≡ id_of tally.now }
    ensures own { IfOk result (λ counts. AreOf (id_of tally.now) counts.items) }
    ensures all { IfOk result (λ counts. (vec_len counts ≡ 128) × (kept_of total.new ≡ 1)
        × (passes_of total.new ≡ []) × (total_of total.new ≡ 0)) }
{
    let mut counts = Vec::with_capacity(alloc, 128)?;
    while counts.len() < 128 {
        counts.push_reserved(tally.add_pass(total));
    }
    Ok(counts)
}

/// One step of each of these passes.
fn walk(tally: &Tally, total: &mut Total, counts: &mut [Count], passes: &[u8])
    requires own { (total_table total.old ≡ id_of tally.now) × AreOf (id_of tally.now) counts.old }
    requires short { (total_of total.old ≡ 0) × (length passes.now ≤ 1000) }
    ensures own { (total_table total.new ≡ id_of tally.now) × AreOf (id_of tally.now) counts.new }
    ensures stays { (kept_of total.new ≡ kept_of total.old)
        × (passes_of total.new ≡ passes_of total.old) }
{
    for pass in passes {
        let place = usize::from(*pass);
        if place < counts.len() {
            tally.step(&mut counts[place], total);
        }
    }
}

#[test]
fn the_tally_is_what_the_passes_have_stepped(rt: HostRuntime) -> Result<(), Fail> {
    let (tally, mut total) = opened(rt.alloc())?;
    let mut counts = all_passes(rt.alloc(), &tally, &mut total)?;
    walk(
        &tally,
        &mut total,
        counts.as_mut_slice(),
        &[0, 127, 64, 127, 0, 127],
    );
    assert_eq!(rt; tally.tally(&mut total, counts.as_mut_slice()), 6);
    assert_eq!(rt; total.steps(), 6);
    let mut found = [0u64; 3];
    for (place, pass) in [0usize, 64, 127].iter().enumerate() {
        found[place] = counts[*pass].steps();
    }
    assert_eq!(rt; found, [2, 1, 3]);
    Ok(())
}

#[test]
fn what_was_joined_last_is_split_first(rt: HostRuntime) -> Result<(), Fail> {
    let (tally, mut total) = opened(rt.alloc())?;
    let mut first = tally.add_pass(&mut total);
    let mut second = tally.add_pass(&mut total);
    tally.step(&mut first, &mut total);
    tally.step(&mut second, &mut total);
    tally.step(&mut second, &mut total);
    tally.join(&mut total, first);
    tally.join(&mut total, second);
    tally.look(&mut total);
    let second = tally.split(&mut total, 2);
    let first = tally.split(&mut total, 1);
    assert_eq!(rt; (first.steps(), second.steps(), total.steps()), (1, 2, 3));
    Ok(())
}
