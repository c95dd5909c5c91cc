//! Operations that a site takes under one hold.
ghost use Rattle.std.specs.Prelude.{◌<◌, length};
ghost use Rattle.zq_spread.specs.Passes.{IsPassOf};

use super::opened;
use super::taking::{operations, take_all};
use std::alloc::Global;
use std::process::Abort;
use std::sync::Wait;
use std::test::Fail;
use zq_dots::Op;
use zq_journal::TakeFault;
use zq_shard::Shard;
use zq_spread::{Pass, Site, TakeEnd, TakenAll};

/// Those of site 5's operations that are handed over, by their places among all, of which every
/// second one lies in heap 0; how many are taken, and how many of these are new; and why no more.
type Line = (&'static [usize], usize, u64, TakeEnd);

const WRONG: TakeEnd = TakeEnd::Refused(TakeFault::WrongHeap);

/// In heap 0. Each operation there follows the one before it.
const TAKEN: [Line; 9] = [
    (&[], 0, 0, TakeEnd::All),
    (&[0, 2], 2, 2, TakeEnd::All),
    (&[0, 2, 4], 3, 1, TakeEnd::All),
    (&[8], 0, 0, TakeEnd::Early),
    (&[4, 6, 10, 8], 2, 1, TakeEnd::Early),
    (&[8, 10], 2, 2, TakeEnd::All),
    (&[1, 12], 0, 0, WRONG),
    (&[12, 1, 14], 1, 1, WRONG),
    (&[14], 1, 1, TakeEnd::All),
];

/// Equal operations, by their places among these.
fn chosen(alloc: Global, ops: &[Op], places: &[usize]) -> Option<Vec<Op>> {
    let mut some = Vec::new(alloc);
    for place in places {
        let op = ops.get(*place)?;
        some.push(op.copy(alloc).ok()?).ok()?;
    }
    Some(some)
}

/// Takes those of each line in heap 0, and looks at how far the site took them.
fn take_lines<R: Wait + Abort>(rt: &R, alloc: Global, site: &Site, pass: &mut Pass, ops: &[Op])
    requires heaps { 0 < length site.now.slots.items }
    requires pass { IsPassOf site.now pass.old }
    ensures pass { IsPassOf site.now pass.new }
{
    for (places, taken, fresh, end) in &TAKEN {
        let wanted = TakenAll {
            taken: *taken,
            fresh: *fresh,
            end: *end,
        };
        let found = take_chosen(rt, alloc, site, pass, ops, places);
        assert!(rt; found == Some(wanted));
    }
}

/// How far a site takes those in heap 0 that stand at these places.
fn take_chosen<R: Wait>(
    rt: &R,
    alloc: Global,
    site: &Site,
    pass: &mut Pass,
    ops: &[Op],
    places: &[usize],
) -> Option<TakenAll>
    requires heaps { 0 < length site.now.slots.items }
    requires pass { IsPassOf site.now pass.old }
    ensures pass { IsPassOf site.now pass.new }
{
    let mut some = chosen(alloc, ops, places)?;
    site.take_all(rt, alloc, pass, 0, &mut some).ok()
}

/// What a heap of a site shows.
fn shown<R: Wait>(rt: &R, alloc: Global, site: &Site, pass: &mut Pass) -> Option<Shard>
    requires heaps { 0 < length site.now.slots.items }
    requires pass { IsPassOf site.now pass.old }
{
    site.state(rt, alloc, pass, 0).ok()
}

#[test]
fn a_list_is_taken_up_to_the_first_that_is_early_or_refused(rt: HostRuntime) -> Result<(), Fail> {
    let alloc = rt.alloc();
    let ops = operations(alloc, 8)?;
    let (site, mut pass, _) = opened(alloc, 0, 2).ok_or("memory")?;
    take_lines(&rt, alloc, &site, &mut pass, &ops);
    let (other, mut single, _) = opened(alloc, 1, 2).ok_or("memory")?;
    take_all(&rt, alloc, &other, &mut single, &ops);
    let one = shown(&rt, alloc, &site, &mut pass).ok_or("a heap")?;
    let two = shown(&rt, alloc, &other, &mut single).ok_or("a heap")?;
    assert!(rt; one.same(&two));
    Ok(())
}
