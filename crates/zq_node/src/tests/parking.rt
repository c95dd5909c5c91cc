//! Operations that are parked, by a table of steps.

use super::making::{Heard, drop_of, frame_of, site_of};
use super::nodes::{Has, hear, look_at, opened};
use crate::{Node, Parked};
use std::alloc::Global;
use std::process::Abort;
use zq_dots::{Op, Vector};

/// What is done, and what comes of it.
enum Step {
    /// The operation of this site and counter is parked, which has seen so many of site 9: then so
    /// many are.
    Park(u8, u64, u64, usize),
    /// So many operations of the site are known.
    Know(u8, u64),
    /// The operation of this site and counter is ready, and leaves; or none is.
    Ready(Option<(u8, u64)>),
}

const STEPS: [Step; 13] = [
    Step::Ready(None),
    // It follows one of site 9, and the second one its own site's first.
    Step::Park(1, 1, 1, 1),
    Step::Park(1, 2, 1, 2),
    Step::Park(1, 2, 1, 2),
    Step::Park(0, 2, 0, 3),
    Step::Ready(None),
    Step::Know(9, 1),
    Step::Ready(Some((1, 1))),
    Step::Ready(None),
    // Both are there: the least site's comes first, which is known by now.
    Step::Know(1, 1),
    Step::Know(0, 2),
    Step::Ready(Some((0, 2))),
    Step::Ready(Some((1, 2))),
];

/// The operation of this site and counter, in heap 0 of 1.
fn op_of(rt: &impl Abort, alloc: Global, site: u8, n: u64, others: u64) -> Op {
    drop_of(rt, alloc, (0, 1), (site, n), others)
}

/// The site and the counter of the one that is ready, which leaves.
fn next_ready(parked: &mut Parked, vector: &Vector) -> Option<(u8, u64)> {
    let dot = parked.ready(0, vector)?.dot();
    parked.leave(0, dot);
    Some((dot.site.value(), dot.n))
}

#[tactic(auto, unfolding(zq_model::specs::Sets::LAST))]
fn check_step(
    rt: &impl Abort,
    alloc: Global,
    parked: &mut Parked,
    vector: &mut Vector,
    step: &Step,
) {
    match step {
        Step::Park(site, n, others, count) => {
            let op = op_of(rt, alloc, *site, *n, *others);
            assert!(rt; parked.park(op).expect(rt, "memory") && parked.len() == *count);
        }
        Step::Know(site, n) => vector.set(site_of(rt, *site), (*n).min(2)),
        Step::Ready(wanted) => assert!(rt; next_ready(parked, vector) == *wanted),
    }
}

#[test]
fn an_operation_waits_for_what_it_has_seen(rt: HostRuntime) {
    let mut parked = Parked::new(rt.alloc());
    let mut vector = Vector::new();
    for step in &STEPS {
        check_step(&rt, rt.alloc(), &mut parked, &mut vector, step);
    }
    assert!(rt; parked.len() == 0);
}

#[test]
fn one_too_many_is_not_parked(rt: HostRuntime) {
    let mut parked = Parked::new(rt.alloc());
    for n in 0..1024 {
        let op = op_of(&rt, rt.alloc(), 1, n + 2, 0);
        assert!(rt; parked.park(op).expect(&rt, "memory"));
    }
    let op = op_of(&rt, rt.alloc(), 2, 2, 0);
    assert!(rt; !parked.park(op).expect(&rt, "memory"));
    assert!(rt; parked.len() == 1024);
}

#[test]
fn a_place_for_two_holds_two(rt: HostRuntime) {
    let mut parked = Parked::up_to(rt.alloc(), 2);
    for n in 0..3 {
        let op = op_of(&rt, rt.alloc(), 1, n + 2, 0);
        let kept = parked.park(op).expect(&rt, "memory");
        assert!(rt; kept == (n < 2));
    }
    assert!(rt; parked.len() == 2 && parked.is_full());
}

#[test]
fn a_node_parks_as_many_as_it_is_made_for(rt: HostRuntime) {
    let (site, pass) = opened(&rt, rt.alloc(), site_of(&rt, 1), 2);
    let mut node = Node::new_up_to(rt.alloc(), &site, pass, 2);
    let later = frame_of(&rt, rt.alloc(), Heard::Ops(1, 4, 1));
    assert!(rt; hear(&rt, rt.alloc(), &mut node, &later).is_empty());
    assert!(rt; look_at(&rt, rt.alloc(), &mut node) == Has(2, 0, 0));
    let first = frame_of(&rt, rt.alloc(), Heard::Ops(0, 1, 1));
    assert!(rt; hear(&rt, rt.alloc(), &mut node, &first).is_empty());
    assert!(rt; look_at(&rt, rt.alloc(), &mut node) == Has(0, 2, 3));
}
