//! What sites pass on.

use crate::scenes::Step::{Beats, Cut, Link, Run, Same, Settle, Went};
use crate::scenes::{ROOMY, Step, play};

/// Site 2 has no link to site 0: site 1 passes on what it asks for.
const RELAYED: [Step; 9] = [
    Link(0, 1),
    Link(1, 2),
    Settle,
    Run(0, "ZADD q 1 a"),
    Run(2, "ZADD q 2 b"),
    Settle,
    Same(2),
    Beats(20),
    Went(4, 0),
];

#[test]
fn operations_are_passed_on_once_to_who_has_no_link(rt: HostRuntime) {
    play(&rt, rt.alloc(), 3, ROOMY, &RELAYED);
}

/// The link between 0 and 2 is cut while both make operations, and site 1 passes them on.
const DETOUR: [Step; 14] = [
    Link(0, 1),
    Link(1, 2),
    Link(0, 2),
    Settle,
    Run(0, "ZADD q 1 a"),
    Settle,
    Cut(0, 2),
    Run(0, "ZADD q 2 b"),
    Run(2, "ZADD q 3 c"),
    Settle,
    Same(3),
    Link(0, 2),
    Beats(10),
    Same(3),
];

#[test]
fn a_link_that_is_cut_is_gone_around(rt: HostRuntime) {
    play(&rt, rt.alloc(), 3, ROOMY, &DETOUR);
}

/// Sites 1 and 3 have links to 0 and 2, which have none to each other. Site 0 asks 3 for the
/// operations of 2, as 3 is the next one after 2; site 1 where the link to 3 is down; and nobody
/// where it has a link to 2.
const ANOTHER: [Step; 26] = [
    Link(0, 1),
    Link(0, 3),
    Link(1, 2),
    Link(2, 3),
    Settle,
    Run(2, "ZADD q 1 a"),
    Settle,
    Same(1),
    Went(3, 0),
    Cut(0, 3),
    Run(2, "ZADD q 2 b"),
    Settle,
    Same(2),
    Went(3, 0),
    Link(0, 3),
    Settle,
    Run(2, "ZADD q 3 c"),
    Settle,
    Same(3),
    Went(3, 0),
    Link(0, 2),
    Settle,
    Run(2, "ZADD q 4 d"),
    Settle,
    Same(4),
    Went(3, 0),
];

#[test]
fn another_peer_is_asked_where_a_link_is_down(rt: HostRuntime) {
    play(&rt, rt.alloc(), 4, ROOMY, &ANOTHER);
}

/// Sites 2, 3 and 4 are linked with each other. Whoever of them hears of a far site passes that on
/// to the two others, and these leave it to that one.
const FAR: [Step; 13] = [
    Link(0, 1),
    Link(1, 2),
    Link(2, 3),
    Link(2, 4),
    Link(3, 4),
    Settle,
    Run(0, "ZADD q 1 a"),
    Settle,
    Same(1),
    Went(4, 0),
    Run(0, "ZADD q 2 a"),
    Settle,
    Went(4, 0),
];

#[test]
fn what_comes_from_afar_is_passed_on_by_one(rt: HostRuntime) {
    play(&rt, rt.alloc(), 5, ROOMY, &FAR);
}
