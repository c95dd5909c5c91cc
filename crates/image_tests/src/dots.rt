//! Hash values and places known from outside, the limits as numbers, and a call of each.

use crate::rows::row_holds;
use std::alloc::Global;
use zq_dots::{
    Act, Dot, GREATEST, LAST_COUNTER, LONGEST, Op, SITES, Score, SiteNo, Vector, Worn, fnv1a64,
    heap_of,
};

/// A key and a member, a number of heaps, and in which of so many the member lies.
type Placed = (&'static [u8], &'static [u8], u8, u8);

const PLACED: [Placed; 17] = [
    (b"q", b"a", 2, 0),
    (b"q", b"c", 2, 0),
    (b"q", b"y", 2, 0),
    (b"q", b"m", 2, 0),
    (b"q", b"b", 2, 1),
    (b"q", b"d", 2, 1),
    (b"q", b"x", 2, 1),
    (b"q", b"a", 3, 1),
    (b"q", b"b", 3, 1),
    (b"q", b"c", 3, 0),
    (b"q", b"d", 3, 0),
    (b"q", b"a", 4, 0),
    (b"q", b"b", 4, 1),
    (b"q", b"c", 4, 2),
    (b"q", b"d", 4, 3),
    // Only the key's length tells these apart.
    (b"pq", b"a", 15, 9),
    (b"p", b"qa", 15, 7),
];

fn lies_there(row: &Placed) -> bool {
    let (key, member, heaps, heap) = *row;
    let is_number = 1 <= heaps && heaps <= 16 && key.len() <= LONGEST;
    is_number && heap_of(key, member, heaps) == heap
}

#[test]
fn hashes_are_those_of_fnv_1a(rt: HostRuntime) {
    assert!(rt; fnv1a64(b"") == 0xcbf2_9ce4_8422_2325);
    assert!(rt; fnv1a64(b"a") == 0xaf63_dc4c_8601_ec8c);
}

#[test]
fn members_lie_where_their_hash_says(rt: HostRuntime) {
    for (row, placed) in PLACED.iter().enumerate() {
        row_holds(&rt, "places", row, lies_there(placed));
    }
}

/// Numbers, and the score of each, or none.
const SCORES: [(i64, Option<i64>); 4] = [
    (-9_007_199_254_740_992, Some(-9_007_199_254_740_992)),
    (9_007_199_254_740_992, Some(9_007_199_254_740_992)),
    (9_007_199_254_740_993, None),
    (-9_007_199_254_740_993, None),
];

fn is_score(number: i64, value: Option<i64>) -> bool {
    match Score::new(number) {
        Some(score) => value == Some(score.value()),
        None => value.is_none(),
    }
}

#[test]
fn numbers_out_of_range_are_refused(rt: HostRuntime) {
    assert!(rt; SITES == 64);
    assert!(rt; GREATEST == 9_007_199_254_740_992);
    assert!(rt; LAST_COUNTER == 281_474_976_710_655);
    assert!(rt; LONGEST == 1_048_576);
    assert!(rt; SiteNo::new(63).expect(&rt, "a site").value() == 63);
    assert!(rt; SiteNo::new(64).is_none());
    for (row, (number, value)) in SCORES.iter().enumerate() {
        row_holds(&rt, "scores", row, is_score(*number, *value));
    }
}

/// Whether the site's next dot in the vector has this counter, or it has none.
fn is_next(vector: &Vector, site: SiteNo, n: Option<u64>) -> bool {
    match vector.next(site) {
        Ok(dot) => dot.site == site && n == Some(dot.n),
        Err(Worn) => n.is_none(),
    }
}

/// A vector that knows so many operations of two sites.
#[tactic(auto, unfolding(zq_model::specs::Sets::LAST))]
fn vector_of(a: SiteNo, of_a: u32, b: SiteNo, of_b: u32) -> Vector {
    let mut vector = Vector::new();
    vector.set(a, u64::from(of_a));
    vector.set(b, u64::from(of_b));
    vector
}

/// Whether one comes to cover another that it does not cover.
fn joins(mine: &mut Vector, other: &Vector) -> bool {
    let covered = mine.covers(other);
    mine.join_with(other);
    !covered && mine.covers(other)
}

/// Whether the last dot of a site is followed by none.
#[tactic(auto, unfolding(zq_model::specs::Sets::LAST))]
fn wears(mine: &mut Vector, site: SiteNo) -> bool {
    mine.set(site, 281_474_976_710_654);
    let is_last_next = is_next(mine, site, Some(281_474_976_710_655));
    mine.set(site, 281_474_976_710_655);
    is_last_next && is_next(mine, site, None)
}

#[test]
fn vectors_join_and_cover(rt: HostRuntime) {
    let a = SiteNo::new(0).expect(&rt, "a site");
    let b = SiteNo::new(63).expect(&rt, "a site");
    let mut mine = vector_of(a, 3, b, 0);
    assert!(rt; mine.has(Dot { site: a, n: 3 }));
    assert!(rt; !mine.has(Dot { site: b, n: 1 }));
    assert!(rt; joins(&mut mine, &vector_of(a, 2, b, 5)));
    assert!(rt; mine.get(a) == 3);
    assert!(rt; mine.get(b) == 5);
    assert!(rt; is_next(&mine, b, Some(6)));
    assert!(rt; wears(&mut mine, b));
}

/// The first operation of site 1, which puts d of the key q at -3.
fn first_op(alloc: Global) -> Option<Op> {
    let dot = Vector::new().next(SiteNo::new(1)?).ok()?;
    let act = Act::Put(Score::new(-3)?);
    let key = Vec::from_slice(alloc, b"q").ok()?;
    let member = Vec::from_slice(alloc, b"d").ok()?;
    Some(Op::new(1, 2, dot, Vector::new(), key, member, act))
}

/// Whether these are the parts of that operation.
fn has_its_parts(op: &Op) -> bool {
    op.heap() == 1
        && op.heaps() == 2
        && op.dot().site.value() == 1
        && op.dot().n == 1
        && *op.seen() == Vector::new()
        && op.key() == b"q".as_slice()
        && op.member() == b"d".as_slice()
        && matches!(op.act(), Act::Put(score) if score.value() == -3)
}

#[test]
fn an_operation_has_its_parts(rt: HostRuntime) {
    let op = first_op(rt.alloc()).expect(&rt, "an operation");
    let copy = op.copy(rt.alloc()).expect(&rt, "a copy");
    assert!(rt; has_its_parts(&copy));
}
