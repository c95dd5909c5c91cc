//! Sites over books at their last values. With key q and 2 heaps the member a lies in heap 0 and b
//! in heap 1.
ghost use Rattle.std.specs.Prelude.{◌≡◌, IfSome, length};
ghost use Rattle.zq_model.specs.Rule.{Greatest};
ghost use Rattle.zq_spread.specs.Passes.{IsPassOf};

use super::asking::{Line, follow};
use super::two_of;
use std::alloc::Global;
use std::process::Abort;
use std::sync::Wait;
use std::test::Fail;
use zq_dots::{Act, LAST_COUNTER, Rule, Score, SiteNo, Vector};
use zq_journal::{Book, MergeFault, TakeFault};
use zq_posheap::Seeded;
use zq_shard::{Shard, Taken};
use zq_spread::{Pass, Site};

/// The last stamp, as a number of its own: where the code's were less, calls would be refused too
/// early.
const LAST: u64 = 4_611_686_018_427_387_904;

/// A site of this number over this book of heap 0, with two passes. Heap 1 is empty.
pub(super) fn opened_over(alloc: Global, number: u8, even: Book) -> Option<(Site, Pass, Pass)>
    requires { (even.heap ≡ 0) × (even.heaps ≡ 2) × (even.rule ≡ Greatest) }
    ensures heaps { IfSome result (λ made. length made.0.slots.items ≡ 2) }
    ensures first { IfSome result (λ made. IsPassOf made.0 made.1) }
    ensures second { IfSome result (λ made. IsPassOf made.0 made.2) }
{
    let number = SiteNo::new(number)?;
    let mut books = Vec::new(alloc);
    books.push(even).ok()?;
    let odd = Book::new(alloc, Shard::new(alloc, 1, 2));
    books.push(odd).ok()?;
    let Ok((site, passes)) = Site::of_books(alloc, number, books, 2) else {
        return None;
    };
    let (first, second) = two_of(&site, passes)?;
    Some((site, first, second))
}

/// A book of heap 0 of which the stamp is the one before the last.
#[tactic(auto, unfolding(zq_journal::specs::Books::LAST_STAMP))]
fn late(alloc: Global) -> Book
    ensures { (result.heap ≡ 0) × (result.heaps ≡ 2) × (result.rule ≡ Greatest) }
{
    Book::new_at(alloc, Shard::new(alloc, 0, 2), LAST - 1, 0)
}

const WORN: &str = "-ERR worn after 0\r\n";

/// What the pass answers that has written at the last stamp, also in heap 1.
const AT_LAST: [Line; 13] = [
    ("ZADD q 1 a", (0, 0), ":1\r\n"),
    ("ZADD q 1 a", (0, 0), WORN),
    ("ZADD q 1 b", (0, 0), WORN),
    ("ZINCRBY q 1 b", (0, 0), WORN),
    ("ZREM q a", (0, 0), WORN),
    ("ZSCORE q b", (0, 0), WORN),
    ("ZCARD q", (0, 0), WORN),
    ("ZRANGE q 0 -1", (0, 0), WORN),
    ("ZRANK q a", (0, 0), WORN),
    ("ZPOPMIN q", (0, 0), WORN),
    ("ZPOPNEAR q", (0, 0), WORN),
    ("DEL q", (0, 0), WORN),
    ("PING", (0, 0), "+PONG\r\n"),
];

/// What another pass answers then.
const BESIDE: [Line; 5] = [
    ("ZADD q 1 b", (0, 0), ":1\r\n"),
    ("ZSCORE q b", (0, 0), "$1\r\n1\r\n"),
    ("ZADD q 1 a", (0, 0), WORN),
    ("ZCARD q", (0, 0), WORN),
    ("ZADD q 2 b", (0, 0), ":0\r\n"),
];

#[test]
fn a_pass_at_the_last_stamp_is_worn_alone(rt: HostRuntime) -> Result<(), Fail> {
    let alloc = rt.alloc();
    let (site, mut first, mut second) = opened_over(alloc, 0, late(alloc)).ok_or("memory")?;
    follow(&rt, alloc, &site, &mut first, &AT_LAST);
    follow(&rt, alloc, &site, &mut second, &BESIDE);
    Ok(())
}

/// Heap 0 with the member a at 3, in which site 0 has used up its counter.
#[tactic(auto, unfolding(zq_model::specs::Sets::LAST))]
fn used_up(alloc: Global) -> Option<Shard>
    ensures { IfSome result (λ shard. (shard.heap ≡ 0) × (shard.heaps ≡ 2)
        × (shard.rule ≡ Greatest)) }
{
    let mut vector = Vector::new();
    vector.set(SiteNo::new(0)?, LAST_COUNTER);
    let old = Shard::of_vector(alloc, 0, 2, Rule::High, &vector, Seeded::new(0));
    let mut shard = Shard::new(alloc, 0, 2);
    let three = Act::Put(Score::new(3)?);
    let five = SiteNo::new(5)?;
    shard.make(alloc, five, b"q", b"a", three).ok()?;
    shard.merge(alloc, &old).ok()?;
    Some(shard)
}

/// What site 0 answers over that heap.
const USED_UP: [Line; 6] = [
    ("ZADD q 1 b 2 a", (0, 0), "-ERR worn after 1\r\n"),
    ("ZCARD q", (0, 0), ":2\r\n"),
    ("ZPOPMIN q 2", (0, 0), "*2\r\n$1\r\nb\r\n$1\r\n1\r\n"),
    ("ZPOPMIN q", (0, 0), WORN),
    ("ZINCRBY q 1 a", (0, 0), WORN),
    ("ZSCORE q a", (0, 0), "$1\r\n3\r\n"),
];

/// What site 1 answers.
const FRESH: [Line; 2] = [
    ("ZADD q 2 a", (0, 0), ":0\r\n"),
    ("ZSCORE q a", (0, 0), "$1\r\n2\r\n"),
];

/// Asks a site of this number over that heap.
fn follow_over_used_up<R: Wait + Abort>(
    rt: &R,
    alloc: Global,
    number: u8,
    lines: &[Line],
) -> Option<()> {
    let book = Book::new(alloc, used_up(alloc)?);
    let (site, mut pass, _) = opened_over(alloc, number, book)?;
    follow(rt, alloc, &site, &mut pass, lines);
    Some(())
}

#[test]
fn a_site_with_no_counter_left_is_worn_in_that_heap(rt: HostRuntime) -> Result<(), Fail> {
    follow_over_used_up(&rt, rt.alloc(), 0, &USED_UP).ok_or("memory")?;
    follow_over_used_up(&rt, rt.alloc(), 1, &FRESH).ok_or("memory")?;
    Ok(())
}

/// A book over heap 0 of which the count is at its last value.
#[tactic(auto, unfolding(zq_journal::specs::Books::LAST_STAMP))]
fn counted_out(alloc: Global, shard: Shard) -> Book
    requires { (shard.heap ≡ 0) × (shard.heaps ≡ 2) × (shard.rule ≡ Greatest) }
    ensures { (result.heap ≡ 0) × (result.heaps ≡ 2) × (result.rule ≡ Greatest) }
{
    Book::new_at(alloc, shard, 7, LAST)
}

/// What a site answers over such a book of an empty heap.
const COUNTED_OUT: [Line; 5] = [
    ("ZADD q 1 a", (0, 0), WORN),
    ("ZADD q 1 b 2 a", (0, 0), "-ERR worn after 1\r\n"),
    ("ZSCORE q a", (0, 0), "$-1\r\n"),
    ("ZADD q 3 b", (0, 0), ":0\r\n"),
    ("ZCARD q", (0, 0), ":1\r\n"),
];

/// What becomes of an operation and of a merge.
type Outcome = (Result<Taken, TakeFault>, Result<(), MergeFault>);

/// What a site over such a book of an empty heap, asked the lines, makes of an operation of site 5,
/// and of a heap that has taken it.
fn handed<R: Wait + Abort>(rt: &R, alloc: Global) -> Option<Outcome> {
    let mut shard = Shard::new(alloc, 0, 2);
    let op = shard
        .make(alloc, SiteNo::new(5)?, b"q", b"a", Act::Drop)
        .ok()?;
    let book = counted_out(alloc, Shard::new(alloc, 0, 2));
    let (site, mut pass, _) = opened_over(alloc, 0, book)?;
    follow(rt, alloc, &site, &mut pass, &COUNTED_OUT);
    let taken = site.take(rt, alloc, &mut pass, &op);
    let merged = site.merge(rt, alloc, &mut pass, &shard);
    Some((taken, merged))
}

/// What a site over such a book of a heap that has taken the operation makes of it.
fn handed_again<R: Wait>(rt: &R, alloc: Global) -> Option<Result<Taken, TakeFault>> {
    let mut shard = Shard::new(alloc, 0, 2);
    let op = shard
        .make(alloc, SiteNo::new(5)?, b"q", b"a", Act::Drop)
        .ok()?;
    let (site, mut pass, _) = opened_over(alloc, 0, counted_out(alloc, shard))?;
    Some(site.take(rt, alloc, &mut pass, &op))
}

#[test]
fn a_heap_that_cannot_count_on_is_worn(rt: HostRuntime) -> Result<(), Fail> {
    let worn = (Err(TakeFault::Worn), Err(MergeFault::Worn));
    assert_eq!(rt; handed(&rt, rt.alloc()), Some(worn));
    assert_eq!(rt; handed_again(&rt, rt.alloc()), Some(Ok(Taken::Known)));
    Ok(())
}
