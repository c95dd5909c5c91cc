//! Two sites that make, deliver and merge, step by step, and what is refused.

mod comparison;
mod keys;
mod steps;
mod walks;

use crate::deed::Deed;
use crate::rows::row_holds;
use std::alloc::{AllocError, Global};
use steps::{Site, Step, Table, follow, make};
use zq_dots::{Act, Op, Rule, SiteNo};
use zq_posheap::Seeded;
use zq_shard::{MakeFault, MergeFault, RowRef, Shard, TakeFault, Taken};

const TABLES: &[Table] = &[
    Table {
        name: "what_is_made_stands",
        numbers: [0, 1],
        rule: Rule::High,
        steps: &[
            Step::Count(Site::A, 0),
            Step::Top(Site::A, None),
            Step::Order(Site::A, b""),
            Step::Put(Site::A, b'x', 3),
            Step::Put(Site::A, b'b', -4),
            Step::Bump(Site::A, b'y', 7),
            Step::Score(Site::A, b'x', Some(3)),
            Step::Score(Site::A, b'b', Some(-4)),
            Step::Score(Site::A, b'y', None),
            Step::Count(Site::A, 2),
            Step::Drop(Site::A, b'x'),
            Step::Score(Site::A, b'x', None),
            Step::Count(Site::A, 1),
        ],
    },
    Table {
        name: "a_queue_is_read_in_order",
        numbers: [7, 63],
        rule: Rule::High,
        steps: &[
            Step::Put(Site::A, b'd', 4),
            Step::Put(Site::A, b'b', 2),
            Step::Put(Site::B, b'c', 2),
            Step::Put(Site::B, b'a', 7),
            Step::Merge(Site::A),
            Step::Top(Site::A, Some((2, b'b'))),
            Step::Order(Site::A, b"bcda"),
            Step::First(Site::A, 2, b"bc"),
            Step::First(Site::A, 9, b"bcda"),
            Step::Slice(Site::A, 1, 3, b"cd"),
            Step::Slice(Site::A, 3, 9, b"a"),
            Step::Slice(Site::A, 3, 1, b""),
            Step::Turned(Site::A, 0, 2, b"ad"),
            Step::Turned(Site::A, 3, 9, b"b"),
            Step::Ranks(Site::A, b'd', Some(2), Some(1)),
            Step::Ranks(Site::A, b'z', None, None),
            Step::Around(Site::A, 2, b'c', 1, 2),
            Step::Around(Site::A, 3, b'a', 2, 2),
            Step::Below(Site::A, 2, 0, 2),
            Step::Below(Site::A, 5, 3, 3),
            Step::Bump(Site::A, b'a', -9),
            Step::Top(Site::A, Some((-2, b'a'))),
            Step::Order(Site::A, b"abcd"),
            Step::Drop(Site::A, b'a'),
            Step::Top(Site::A, Some((2, b'b'))),
        ],
    },
    Table {
        name: "a_merge_that_takes_the_first_away_leaves_the_next",
        numbers: [7, 63],
        rule: Rule::High,
        steps: &[
            Step::Put(Site::A, b'x', 1),
            Step::Put(Site::A, b'y', 2),
            Step::Merge(Site::B),
            Step::Top(Site::B, Some((1, b'x'))),
            Step::Drop(Site::A, b'x'),
            Step::Merge(Site::B),
            Step::Top(Site::B, Some((2, b'y'))),
            Step::Count(Site::B, 1),
            Step::Same(true),
            Step::Drop(Site::B, b'y'),
            Step::Merge(Site::A),
            Step::Top(Site::A, None),
            Step::Count(Site::A, 0),
            Step::Same(true),
        ],
    },
    Table {
        name: "bumps_made_apart_add_up",
        numbers: [7, 63],
        rule: Rule::Low,
        steps: &[
            Step::Put(Site::A, b'x', 10),
            Step::Give(Site::B, 0, Taken::New),
            Step::Bump(Site::A, b'x', 5),
            Step::Bump(Site::B, b'x', 7),
            Step::Merge(Site::A),
            Step::Score(Site::A, b'x', Some(22)),
            Step::Give(Site::B, 1, Taken::New),
            Step::Give(Site::B, 1, Taken::Known),
            Step::Score(Site::B, b'x', Some(22)),
            Step::Give(Site::A, 2, Taken::Known),
            Step::Same(true),
        ],
    },
    Table {
        name: "a_removal_keeps_what_it_had_not_seen",
        numbers: [0, 1],
        rule: Rule::High,
        steps: &[
            Step::Put(Site::A, b'x', 3),
            Step::Give(Site::B, 0, Taken::New),
            Step::Drop(Site::A, b'x'),
            Step::Put(Site::B, b'x', 4),
            Step::Give(Site::A, 2, Taken::New),
            Step::Give(Site::B, 1, Taken::New),
            Step::Score(Site::A, b'x', Some(4)),
            Step::Score(Site::B, b'x', Some(4)),
        ],
    },
    Table {
        name: "of_additions_made_apart_the_greatest_counts",
        numbers: [0, 1],
        rule: Rule::High,
        steps: &[
            Step::Put(Site::A, b'x', 5),
            Step::Put(Site::B, b'x', 9),
            Step::Give(Site::A, 1, Taken::New),
            Step::Give(Site::B, 0, Taken::New),
            Step::Score(Site::A, b'x', Some(9)),
            Step::Score(Site::B, b'x', Some(9)),
        ],
    },
    Table {
        name: "by_the_other_rule_the_least_counts",
        numbers: [0, 1],
        rule: Rule::Low,
        steps: &[
            Step::Put(Site::A, b'x', 5),
            Step::Put(Site::B, b'x', 9),
            Step::Merge(Site::A),
            Step::Merge(Site::B),
            Step::Score(Site::A, b'x', Some(5)),
            Step::Top(Site::B, Some((5, b'x'))),
        ],
    },
    Table {
        name: "an_early_operation_waits_for_its_past",
        numbers: [7, 63],
        rule: Rule::High,
        steps: &[
            Step::Put(Site::A, b'a', 1),
            Step::Put(Site::A, b'y', 2),
            Step::Give(Site::B, 1, Taken::Early),
            Step::Count(Site::B, 0),
            Step::Give(Site::B, 0, Taken::New),
            Step::Give(Site::B, 1, Taken::New),
            Step::Give(Site::B, 1, Taken::Known),
            Step::Count(Site::B, 2),
            Step::Same(true),
        ],
    },
    Table {
        name: "what_was_put_and_dropped_leaves_no_trace_but_in_the_vector",
        numbers: [5, 5],
        rule: Rule::High,
        steps: &[
            Step::Same(true),
            Step::Put(Site::A, b'x', 3),
            Step::Same(false),
            Step::Drop(Site::A, b'x'),
            Step::Drop(Site::B, b'y'),
            Step::Same(false),
            Step::Drop(Site::B, b'z'),
            Step::Same(true),
        ],
    },
];

#[test]
fn sites_follow_the_tables(rt: HostRuntime) {
    for table in TABLES {
        follow(&rt, rt.alloc(), table, usize::MAX);
        follow(&rt, rt.alloc(), table, 2);
    }
}

/// Whether a heap is the same as its copy, of one member, and alone has one more then.
fn goes_on(shard: &mut Shard, alloc: Global, copy: &Shard) -> bool {
    copy.same(shard)
        && make(shard, alloc, 0, b'y', Deed::Put(4)).is_some()
        && copy.count(b"q") == 1
        && shard.count(b"q") == 2
}

#[test]
fn a_copy_goes_on_alone(rt: HostRuntime) {
    let alloc = rt.alloc();
    let mut shard = Shard::new(alloc, 0, 1);
    assert!(rt; make(&mut shard, alloc, 0, b'x', Deed::Put(3)).is_some());
    let copy = shard.copy(alloc).expect(&rt, "a copy");
    assert!(rt; goes_on(&mut shard, alloc, &copy));
}

/// Whether a site cannot make an operation on the member a of the key q, which lies in another
/// heap.
fn refuses_a(shard: &Shard, alloc: Global, site: SiteNo) -> bool {
    match shard.draft(alloc, site, b"q", b"a", Act::Drop) {
        Err(fault) => fault == MakeFault::WrongHeap,
        Ok(_) => false,
    }
}

/// Whether heap 0 refuses an operation.
fn is_refused(alloc: Global, op: &Op) -> bool {
    Shard::new(alloc, 0, 2).judge(op) == Err(TakeFault::WrongHeap)
}

/// Whether site 0 makes its first operation on the member x, which heap 0 refuses.
fn makes_x(shard: &mut Shard, alloc: Global, site: SiteNo) -> bool {
    match make(shard, alloc, 0, b'x', Deed::Put(3)) {
        Some(op) => op.dot().n == 1 && shard.vector().get(site) == 1 && is_refused(alloc, &op),
        None => false,
    }
}

#[test]
fn a_member_of_another_heap_is_refused(rt: HostRuntime) {
    let alloc = rt.alloc();
    let mut shard = Shard::new(alloc, 1, 2);
    let site = SiteNo::new(0).expect(&rt, "a site");
    assert!(rt; shard.heap() == 1);
    assert!(rt; shard.heaps() == 2);
    assert!(rt; shard.rule() == Rule::High);
    assert!(rt; refuses_a(&shard, alloc, site));
    assert!(rt; makes_x(&mut shard, alloc, site));
}

/// Whether a heap refuses to merge another with this fault.
fn refuses(shard: &mut Shard, alloc: Global, other: Shard, fault: MergeFault) -> bool {
    shard.merge(alloc, &other) == Err(fault)
}

#[test]
fn what_is_not_of_one_kind_is_not_merged(rt: HostRuntime) {
    let alloc = rt.alloc();
    let mut shard = Shard::new(alloc, 0, 2);
    assert!(rt;
        refuses(
            &mut shard,
            alloc,
            Shard::new(alloc, 1, 2),
            MergeFault::WrongHeap
        )
    );
    assert!(rt;
        refuses(
            &mut shard,
            alloc,
            Shard::new(alloc, 0, 3),
            MergeFault::WrongHeap
        )
    );
    let low = Shard::new_ruled(alloc, 0, 2, Rule::Low, Seeded::new(0));
    assert!(rt; refuses(&mut shard, alloc, low, MergeFault::WrongRule));
}

/// Keys and members of one byte each, as they are put,
const PLACES: [(u8, u8); 5] = [
    (b'q', b'x'),
    (b'p', b'z'),
    (b'q', b'a'),
    (b'r', b'b'),
    (b'p', b'c'),
];

/// and as they are listed, without the one that is dropped.
const SORTED: [(u8, u8); 4] = [(b'p', b'c'), (b'p', b'z'), (b'q', b'a'), (b'q', b'x')];

/// Whether these rows are of these keys and members.
fn are_rows(rows: Result<Vec<RowRef<'_>>, AllocError>, places: &[(u8, u8)]) -> bool {
    match rows {
        Ok(rows) => are_rows_of(&rows, places),
        Err(AllocError) => false,
    }
}

fn are_rows_of(rows: &[RowRef<'_>], places: &[(u8, u8)]) -> bool {
    let mut same = rows.len() == places.len();
    for (row, (key, member)) in rows.iter().zip(places) {
        same = same
            && row.key == [*key].as_slice()
            && row.member == [*member].as_slice()
            && !row.entry.is_bare();
    }
    same
}

/// Whether an act of site 63 on a member of a key could be made.
fn acts(shard: &mut Shard, alloc: Global, (key, member): (u8, u8), deed: Deed) -> bool {
    match (SiteNo::new(63), deed.act()) {
        (Some(site), Some(act)) => shard.make(alloc, site, &[key], &[member], act).is_ok(),
        _ => false,
    }
}

#[test]
fn rows_come_by_key_and_then_by_member(rt: HostRuntime) {
    let mut shard = Shard::new(rt.alloc(), 0, 1);
    for (row, place) in PLACES.iter().enumerate() {
        row_holds(
            &rt,
            "places",
            row,
            acts(&mut shard, rt.alloc(), *place, Deed::Put(1)),
        );
    }
    assert!(rt; acts(&mut shard, rt.alloc(), (b'r', b'b'), Deed::Drop));
    assert!(rt; are_rows(shard.rows(rt.alloc()), &SORTED));
}

/// Whether the heap of no rows and of another's vector has that vector and nothing else.
fn is_of_no_rows(alloc: Global, made: &Shard) -> bool {
    match Shard::of_rows(alloc, 0, 1, made.vector(), &[], Rule::Low, Seeded::new(1)) {
        Ok(shard) => shard.vector() == made.vector()
            && shard.rule() == Rule::Low
            && shard.count(b"q") == 0,
        Err(_) => false,
    }
}

#[test]
fn of_no_rows_is_the_heap_of_the_vector(rt: HostRuntime) {
    let alloc = rt.alloc();
    let mut made = Shard::new(alloc, 0, 1);
    assert!(rt; make(&mut made, alloc, 7, b'x', Deed::Drop).is_some());
    assert!(rt; is_of_no_rows(alloc, &made));
}
