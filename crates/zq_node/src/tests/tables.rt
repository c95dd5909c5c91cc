//! What nodes do, step by step. Members a and y of queue q lie in heap 0 of 2, and b in heap 1. Of
//! 16 heaps each has one of the members a to p.

use super::making::Heard;
use super::nodes::Has;
use super::playing::Deed::{Each, Hear, Look, Put, Refuse, Run, Take, Tell};
use super::playing::Side::{One, Zero};
use super::playing::Step::{Ask, At, Late, Same};
use super::playing::{Step, Told, play};
use crate::NodeFault::{WrongHeap, WrongRule};
use zq_dots::Rule::{High, Low};

const MEETING: [Step; 12] = [
    At(Zero, Run("ZADD q 1 a")),
    At(Zero, Run("ZADD q 2 y")),
    At(Zero, Run("ZADD q 3 b")),
    At(One, Run("ZADD q 4 b")),
    Ask(One, 0, 1, &[Told::Ops(2)], &[]),
    // Each lacks something that the other one has.
    Ask(One, 1, 2, &[Told::Ops(1), Told::Have], &[Told::Ops(1)]),
    Ask(One, 0, 2, &[], &[]),
    Ask(Zero, 0, 2, &[], &[]),
    // The one that is asked lacks something itself.
    At(Zero, Run("ZREM q a")),
    Ask(Zero, 0, 1, &[Told::Have], &[Told::Ops(1)]),
    Ask(One, 0, 1, &[], &[]),
    Same(0, 2, 1),
];

#[test]
fn two_nodes_tell_what_the_other_lacks_and_no_more(rt: HostRuntime) {
    play(&rt, rt.alloc(), 2, &MEETING);
}

const SIXTEEN: [Step; 7] = [
    At(
        Zero,
        Run("ZADD q 1 a 1 b 1 c 1 d 1 e 1 f 1 g 1 h 1 i 1 j 1 k 1 l 1 m 1 n 1 o 1 p"),
    ),
    // The one that is asked lacks something in each heap, and then the one that asks.
    Ask(Zero, 0, 16, &[Told::Have], &[Told::Ops(1)]),
    Same(0, 16, 1),
    At(
        One,
        Run("ZADD q 2 a 2 b 2 c 2 d 2 e 2 f 2 g 2 h 2 i 2 j 2 k 2 l 2 m 2 n 2 o 2 p"),
    ),
    Ask(Zero, 0, 16, &[Told::Ops(1)], &[]),
    Ask(One, 0, 16, &[], &[]),
    Same(0, 16, 1),
];

#[test]
fn nodes_of_16_heaps_tell_of_each(rt: HostRuntime) {
    play(&rt, rt.alloc(), 16, &SIXTEEN);
}

/// At the last Put the tail is cut to 2,048 records, and then has one more.
const BEHIND: [Step; 7] = [
    At(Zero, Put(4097)),
    At(Zero, Tell(0, &[Told::State])),
    At(Zero, Tell(2047, &[Told::State])),
    At(Zero, Tell(2048, &[Told::Ops(2049)])),
    At(Zero, Tell(4097, &[])),
    Late(4097, Has(1, 0, 0), Has(0, 1, 4098)),
    Same(0, 1, 1),
];

#[test]
fn a_peer_too_far_behind_is_told_the_whole_heap(rt: HostRuntime) {
    play(&rt, rt.alloc(), 2, &BEHIND);
}

const TWICE: [Step; 4] = [
    At(Zero, Each(100, 1)),
    At(One, Each(100, 2)),
    Same(0, 1, 2),
    At(One, Look(Has(0, 2, 100))),
];

#[test]
fn frames_heard_twice_do_what_they_do_once(rt: HostRuntime) {
    play(&rt, rt.alloc(), 2, &TWICE);
}

/// The first and the third of three operations are heard before the frames that are refused, and
/// the second one after them. The number of heaps is judged before the rule.
const REFUSED: [Step; 12] = [
    At(One, Hear(Heard::Ops(0, 3, 2), Has(1, 1, 1))),
    At(One, Refuse(Heard::Have(0, 3, High, 0), WrongHeap)),
    At(One, Refuse(Heard::Have(2, 2, High, 0), WrongHeap)),
    At(One, Refuse(Heard::Have(0, 3, Low, 0), WrongHeap)),
    At(One, Refuse(Heard::Have(0, 2, Low, 0), WrongRule)),
    At(One, Refuse(Heard::Op(0, 4), WrongHeap)),
    At(One, Refuse(Heard::Op(1, 2), WrongHeap)),
    At(One, Refuse(Heard::Empty(0, 3, High), WrongHeap)),
    At(One, Refuse(Heard::Empty(0, 1, High), WrongHeap)),
    At(One, Refuse(Heard::Empty(0, 3, Low), WrongHeap)),
    At(One, Refuse(Heard::Empty(1, 2, Low), WrongRule)),
    At(One, Hear(Heard::Ops(1, 2, 1), Has(0, 2, 3))),
];

#[test]
fn a_frame_that_is_refused_changes_nothing(rt: HostRuntime) {
    play(&rt, rt.alloc(), 2, &REFUSED);
}

/// The second operation follows the first.
const IN_TURN: [Step; 5] = [
    At(One, Hear(Heard::Ops(1, 2, 1), Has(1, 0, 0))),
    At(One, Hear(Heard::Ops(1, 2, 1), Has(1, 0, 0))),
    At(One, Hear(Heard::Ops(0, 1, 1), Has(0, 2, 2))),
    At(One, Hear(Heard::Ops(1, 2, 1), Has(0, 2, 2))),
    At(One, Hear(Heard::Ops(0, 1, 1), Has(0, 2, 2))),
];

#[test]
fn the_second_operation_waits_for_the_first(rt: HostRuntime) {
    play(&rt, rt.alloc(), 2, &IN_TURN);
}

const HEAP_FIRST: [Step; 4] = [
    At(One, Hear(Heard::Heap(2), Has(0, 2, 2))),
    At(One, Hear(Heard::Ops(1, 2, 1), Has(0, 2, 2))),
    At(One, Hear(Heard::Ops(0, 1, 1), Has(0, 2, 2))),
    At(One, Hear(Heard::Heap(2), Has(0, 2, 2))),
];

#[test]
fn what_a_heap_had_is_known(rt: HostRuntime) {
    play(&rt, rt.alloc(), 2, &HEAP_FIRST);
}

/// All of so many operations but the first, then one more, then the first, then the one more again.
/// 1,024 are parked, as many as may be, so that the one more is dropped where it is heard first.
const CROWD: [Step; 4] = [
    At(One, Hear(Heard::Ops(1, 1025, 1), Has(1024, 0, 0))),
    At(One, Hear(Heard::Ops(1025, 1026, 1), Has(1024, 0, 0))),
    At(One, Hear(Heard::Ops(0, 1, 1), Has(0, 2, 1025))),
    At(One, Hear(Heard::Ops(1025, 1026, 1), Has(0, 2, 1026))),
];

#[test]
fn a_full_node_drops_one_more_and_takes_the_others_in_the_end(rt: HostRuntime) {
    play(&rt, rt.alloc(), 2, &CROWD);
}

const MANY: [Step; 1] = [At(One, Hear(Heard::Ops(0, 2049, 1), Has(0, 2, 2049)))];

#[test]
fn a_frame_of_more_than_may_be_parked_is_heard_whole(rt: HostRuntime) {
    play(&rt, rt.alloc(), 2, &MANY);
}

const MANY_AT_ONCE: [Step; 1] = [At(One, Take(Heard::Ops(0, 2049, 1), Has(0, 2, 2049)))];

#[test]
fn a_list_of_more_than_one_hold_is_heard_whole(rt: HostRuntime) {
    play(&rt, rt.alloc(), 2, &MANY_AT_ONCE);
}

/// The first, third and fifth operation, of which the latter two wait; then the second, after which
/// the third is tried; then all five, of which three are known and the fifth comes again.
const GAPS: [Step; 3] = [
    At(One, Take(Heard::Ops(0, 6, 2), Has(2, 1, 1))),
    At(One, Take(Heard::Ops(1, 2, 1), Has(1, 2, 3))),
    At(One, Take(Heard::Ops(0, 5, 1), Has(0, 2, 5))),
];

#[test]
fn what_is_early_in_a_list_waits(rt: HostRuntime) {
    play(&rt, rt.alloc(), 2, &GAPS);
}

/// As in `CROWD`; and then a list of the first and of the one more, before which what is parked is
/// tried.
const CROWD_AT_ONCE: [Step; 3] = [
    At(One, Take(Heard::Ops(1, 1025, 1), Has(1024, 0, 0))),
    At(One, Take(Heard::Ops(1025, 1026, 1), Has(1024, 0, 0))),
    At(One, Take(Heard::Ops(0, 1026, 1025), Has(0, 2, 1026))),
];

#[test]
fn a_full_node_tries_what_it_parked_before_it_drops_one(rt: HostRuntime) {
    play(&rt, rt.alloc(), 2, &CROWD_AT_ONCE);
}
