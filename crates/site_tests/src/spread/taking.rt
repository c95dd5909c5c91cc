//! What passes of a site take of another one.
ghost use Rattle.std.specs.Prelude.{◌<◌, ◌≡◌, ◌≤◌, All, IfOk, length};
ghost use Rattle.zq_spread.specs.Passes.{IsPassOf};

use std::alloc::Global;
use std::sync::Wait;
use std::test::Fail;
use std::thread::{Threads, for_each_mut};
use zq_dots::{Act, Op, Score, SiteNo};
use zq_journal::{Book, TakeFault};
use zq_shard::{Shard, Taken};
use zq_spread::{Pass, Site};

/// What site 5 made in two heaps, in so many rounds of a put in each.
pub fn operations(alloc: Global, rounds: i64) -> Result<Vec<Op>, Fail> {
    let site = SiteNo::new(5).ok_or("a site")?;
    let mut even = Shard::new(alloc, 0, 2);
    let mut odd = Shard::new(alloc, 1, 2);
    let mut ops = Vec::new(alloc);
    for round in 0..rounds {
        let put = Act::Put(Score::new(round).ok_or("a score")?);
        ops.push(even.make(alloc, site, b"q", b"a", put)?)?;
        ops.push(odd.make(alloc, site, b"q", b"b", put)?)?;
    }
    Ok(ops)
}

/// Takes the operations in turn, and says how many were new.
pub fn take_all<R: Wait>(rt: &R, alloc: Global, site: &Site, pass: &mut Pass, ops: &[Op]) -> u64
    requires { IsPassOf site.now pass.old }
    ensures { IsPassOf site.now pass.new }
{
    let mut new = 0u64;
    for op in ops {
        if let Ok(Taken::New) = site.take(rt, alloc, pass, op) {
            new = new.wrapping_add(1);
        }
    }
    new
}

/// Takes the operations by each of the passes, in a thread of its own.
pub fn take_in_crowd<R: Threads + Wait + Sync>(
    rt: &R,
    alloc: Global,
    site: &Site,
    passes: &mut [Pass],
    ops: &[Op],
)
    requires some { 0 < length passes.old }
    requires passes { All (IsPassOf site.now) passes.old }
    ensures { All (IsPassOf site.now) passes.new }
{
    let threads = passes.len();
    for_each_mut(
        rt,
        passes,
        threads,
        &|_, pass: &mut Pass|
            requires { IsPassOf site.now pass.now }
            ensures { IsPassOf site.entry.now pass.exit.now }
        {
            take_all(rt, alloc, site, pass, ops);
        },
    );
}

/// The steps of all these passes in a heap.
pub fn steps_in(passes: &[Pass], heap: u8) -> u64 {
    let mut steps = 0u64;
    for pass in passes {
        steps = steps.wrapping_add(pass.steps(heap));
    }
    steps
}

/// Takes the operations by the first pass. Says which was the last of site 5 that the second finds
/// in each of two heaps, after it has met the first there.
pub fn both_take<R: Wait>(
    rt: &R,
    alloc: Global,
    site: &Site,
    first: &mut Pass,
    second: &mut Pass,
    ops: &[Op],
) -> Result<[u64; 2], Fail>
    requires heaps { 2 ≤ length site.now.slots.items }
    requires first { IsPassOf site.now first.old }
    requires second { IsPassOf site.now second.old }
{
    let maker = SiteNo::new(5).ok_or("a site")?;
    take_all(rt, alloc, site, first, ops);
    let mut last = [0u64; 2];
    for heap in 0..2u8 {
        if site.meet(rt, second, first, heap).is_err() {
            return Err(Fail::from("worn"));
        }
        let Ok(vector) = site.vector(rt, second, heap) else {
            return Err(Fail::from("worn"));
        };
        last[usize::from(heap)] = vector.get(maker);
    }
    Ok(last)
}

/// The same, by the first two of these passes.
pub fn two_take<R: Wait>(
    rt: &R,
    alloc: Global,
    site: &Site,
    passes: &mut [Pass],
    ops: &[Op],
) -> Result<[u64; 2], Fail>
    requires heaps { 2 ≤ length site.now.slots.items }
    requires passes { All (IsPassOf site.now) passes.old }
{
    let Some((first, others)) = passes.split_first_mut() else {
        return Err(Fail::from("no pass"));
    };
    let Some((second, _)) = others.split_first_mut() else {
        return Err(Fail::from("one pass"));
    };
    both_take(rt, alloc, site, first, second, ops)
}

/// The last stamp.
const LAST: u64 = 4_611_686_018_427_387_904;

/// A site of which heap 0 has its last stamp, with one pass.
#[tactic(auto, unfolding(zq_journal::specs::Books::LAST_STAMP))]
fn opened_at_last(alloc: Global) -> Result<(Site, Vec<Pass>), Fail>
    ensures heaps { IfOk result (λ made. length made.0.slots.items ≡ 2) }
    ensures passes { IfOk result (λ made. All (IsPassOf made.0) made.1.items) }
{
    let number = SiteNo::new(0).ok_or("a site")?;
    let mut books = Vec::new(alloc);
    let worn = Book::new_at(alloc, Shard::new(alloc, 0, 2), LAST, 0);
    books.push(worn)?;
    let empty = Book::new(alloc, Shard::new(alloc, 1, 2));
    books.push(empty)?;
    match Site::of_books(alloc, number, books, 1) {
        Ok(made) => Ok(made),
        Err(_) => Err(Fail::from("no site")),
    }
}

/// What becomes of an operation in each heap of that site.
pub fn take_at_last<R: Wait>(rt: &R, alloc: Global) -> Result<[Result<Taken, TakeFault>; 2], Fail> {
    let ops = operations(alloc, 1)?;
    let (site, mut passes) = opened_at_last(alloc)?;
    let Some((pass, _)) = passes.as_mut_slice().split_first_mut() else {
        return Err(Fail::from("no pass"));
    };
    let mut taken = [Ok(Taken::Known); 2];
    for op in &ops {
        taken[usize::from(op.heap() % 2)] = site.take(rt, alloc, pass, op);
    }
    Ok(taken)
}
