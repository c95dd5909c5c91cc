//! What is pushed over a link, and how often.

use crate::scenes::Step::{
    Beats, Cut, Differ, Hear, Link, Lose, Push, Put, Run, Same, Sent, Settle, Went,
};
use crate::scenes::{ROOMY, Step, play};
use crate::traffic::Kind::{At, Ops, Routes};

const ONCE: [Step; 11] = [
    Link(0, 1),
    Settle,
    Run(0, "ZADD q 1 a"),
    Settle,
    Same(1),
    Run(1, "ZADD q 2 b 3 c"),
    Run(0, "ZREM q a"),
    Settle,
    Same(2),
    Beats(20),
    Went(4, 0),
];

#[test]
fn an_operation_goes_over_a_link_once(rt: HostRuntime) {
    play(&rt, rt.alloc(), 2, ROOMY, &ONCE);
}

const LATE: [Step; 6] = [
    Put(0, 1000),
    Link(0, 1),
    Settle,
    Same(1000),
    Went(1000, 0),
    Same(1000),
];

#[test]
fn a_site_that_comes_later_gets_all_from_the_logs(rt: HostRuntime) {
    play(&rt, rt.alloc(), 2, ROOMY, &LATE);
}

/// What is lost is sent again after two calms.
const LOST: [Step; 10] = [
    Link(0, 1),
    Settle,
    Run(0, "ZADD q 1 a 2 b"),
    Push,
    Lose(0, 1),
    Settle,
    Differ(0, 1),
    Beats(15),
    Same(2),
    Went(4, 0),
];

#[test]
fn what_was_lost_is_sent_again(rt: HostRuntime) {
    play(&rt, rt.alloc(), 2, ROOMY, &LOST);
}

/// What is under way when a link is cut is lost. The next link begins anew: its sites tell each
/// other routes, and what they have.
const CUT: [Step; 13] = [
    Link(0, 1),
    Settle,
    Sent(&[(Routes, 2), (At, 8)]),
    Run(0, "ZADD q 1 a"),
    Push,
    Sent(&[(Ops, 1)]),
    Cut(0, 1),
    Run(0, "ZADD q 2 a"),
    Link(0, 1),
    Settle,
    Same(1),
    Sent(&[(Routes, 2), (At, 8), (Ops, 1)]),
    Went(3, 0),
];

#[test]
fn what_a_cut_took_goes_over_the_next_link(rt: HostRuntime) {
    play(&rt, rt.alloc(), 2, ROOMY, &CUT);
}

/// Of 900 members each heap has some 450: a full window, and then less than another one. Of both
/// batches more comes than the quarter of a window, so that each is acknowledged.
const WINDOWS: [Step; 7] = [
    Link(0, 1),
    Settle,
    Sent(&[(Routes, 2), (At, 8)]),
    Put(0, 900),
    Settle,
    Same(900),
    Sent(&[(Ops, 4), (At, 4)]),
];

#[test]
fn an_acknowledgement_makes_room_in_the_window(rt: HostRuntime) {
    play(&rt, rt.alloc(), 2, ROOMY, &WINDOWS);
}

/// Both acknowledgements are lost: what is left goes once the window was full for a second.
const FULL: [Step; 12] = [
    Link(0, 1),
    Settle,
    Put(0, 900),
    Push,
    Hear(2),
    Lose(1, 0),
    Settle,
    Beats(1),
    Differ(0, 1),
    Beats(1),
    Same(900),
    Went(900, 0),
];

#[test]
fn a_window_that_stays_full_is_widened(rt: HostRuntime) {
    play(&rt, rt.alloc(), 2, ROOMY, &FULL);
}

/// Of each heap some 100 operations come, more than the quarter of a window, and are acknowledged.
/// From then on sites tell each other what they have of each heap every 5 seconds, and no more.
const REST: [Step; 12] = [
    Link(0, 1),
    Settle,
    Put(0, 200),
    Settle,
    Same(200),
    Sent(&[(Routes, 2), (At, 10), (Ops, 2)]),
    Beats(4),
    Sent(&[]),
    Beats(1),
    Sent(&[(At, 4)]),
    Beats(20),
    Sent(&[(At, 16)]),
];

#[test]
fn a_peer_that_has_all_is_told_so_in_calms_alone(rt: HostRuntime) {
    play(&rt, rt.alloc(), 2, ROOMY, &REST);
}

/// Each site has links to both others: nothing is passed on.
const MESH: [Step; 9] = [
    Link(0, 1),
    Link(1, 2),
    Link(0, 2),
    Settle,
    Put(0, 100),
    Settle,
    Same(100),
    Beats(20),
    Went(200, 0),
];

#[test]
fn where_all_are_linked_nothing_is_passed_on(rt: HostRuntime) {
    play(&rt, rt.alloc(), 3, ROOMY, &MESH);
}
