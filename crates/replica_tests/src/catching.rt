//! Sites that lack more than the logs have.

use crate::scenes::Step::{
    Beats, Cut, Differ, Hear, Link, Lose, Pieces, Push, Put, Run, Same, Sent, Settle, Tick, Went,
};
use crate::scenes::{Step, play, play_whole};
use crate::traffic::Kind::{At, Behind, Fetch, Piece, Routes};

/// A log of so many bytes has fewer than 100 operations: each takes more than 50.
const SHORT: u64 = 5_000;

/// A site that was away lacks more than the logs have, and is given both heaps. Of 1,000 members
/// 500 lie in each, as the lowest bits of their digits say.
const BEHIND: [Step; 16] = [
    Link(0, 1),
    Settle,
    Put(0, 10),
    Settle,
    Same(10),
    Went(10, 0),
    Cut(0, 1),
    Put(0, 1000),
    Settle,
    Link(0, 1),
    Settle,
    Same(1000),
    Pieces(10),
    Run(0, "ZADD q 1 new 2 newer"),
    Settle,
    Same(1002),
];

#[test]
fn a_site_far_behind_is_given_heaps_in_pieces(rt: HostRuntime) {
    play(&rt, rt.alloc(), 2, SHORT, &BEHIND);
}

/// The same of sites that know no pieces.
const WHOLE: [Step; 7] = [
    Put(0, 1000),
    Link(0, 1),
    Settle,
    Same(1000),
    Went(0, 2),
    Pieces(0),
    Same(1000),
];

#[test]
fn a_site_that_knows_no_pieces_is_given_whole_heaps(rt: HostRuntime) {
    play_whole(&rt, rt.alloc(), 2, SHORT, &WHOLE);
}

/// The link is cut when two pieces came, and both sites make something. The stream goes on behind
/// them over the next link: of both heaps 10 pieces go, and none twice.
const RESUMED: [Step; 19] = [
    Put(0, 1000),
    Link(0, 1),
    Hear(10),
    Push,
    Hear(2),
    Hear(1),
    Push,
    Hear(1),
    Push,
    Hear(1),
    Pieces(2),
    Cut(0, 1),
    Run(0, "ZREM q m0 m1 m2 m3"),
    Run(0, "ZADD q 1 new"),
    Run(1, "ZADD q 2 newer"),
    Link(0, 1),
    Settle,
    Same(998),
    Pieces(8),
];

#[test]
fn a_stream_that_broke_off_goes_on(rt: HostRuntime) {
    play(&rt, rt.alloc(), 2, SHORT, &RESUMED);
}

/// A piece is lost on a link that stays up: the one behind it does not follow, and the heap is
/// asked for from its beginning.
const LOST: [Step; 14] = [
    Put(0, 1000),
    Link(0, 1),
    Hear(10),
    Push,
    Hear(2),
    Hear(1),
    Push,
    Hear(1),
    Push,
    Lose(0, 1),
    Pieces(2),
    Settle,
    Same(1000),
    Went(0, 2),
];

#[test]
fn a_heap_of_which_a_piece_was_lost_comes_anew(rt: HostRuntime) {
    play(&rt, rt.alloc(), 2, SHORT, &LOST);
}

/// Site 1 is told twice of each heap that it is behind, the second time while one is on its way to
/// it. It asks for each of the two once, and for the second when it has the first.
const ONCE: [Step; 13] = [
    Put(0, 1000),
    Link(0, 1),
    Hear(10),
    Push,
    Hear(1),
    Sent(&[(Routes, 2), (At, 8), (Behind, 2), (Fetch, 1)]),
    Tick(5),
    Hear(6),
    Push,
    Sent(&[(At, 4), (Piece, 1), (Behind, 1)]),
    Settle,
    Same(1000),
    Sent(&[(Piece, 9), (Fetch, 1), (At, 4)]),
];

#[test]
fn a_heap_on_its_way_is_not_asked_for_again(rt: HostRuntime) {
    play(&rt, rt.alloc(), 2, SHORT, &ONCE);
}

/// A calm of site 1 is under way when all pieces of heap 1 go to it, and members v of that heap and
/// w of the other one are put behind them: site 0 hears what site 1 had before these pieces came.
/// The heap does not go again: of both 5 pieces go, and v and w as operations.
const STALE: [Step; 27] = [
    Put(0, 1000),
    Link(0, 1),
    Hear(10),
    Push,
    Hear(2),
    Hear(1),
    Push,
    Push,
    Push,
    Push,
    Push,
    Hear(5),
    Hear(3),
    Tick(5),
    Push,
    Push,
    Push,
    Push,
    Push,
    Pieces(10),
    Run(0, "ZADD q 1 v 2 w"),
    Hear(4),
    Push,
    Settle,
    Same(1002),
    Pieces(0),
    Went(2, 2),
];

#[test]
fn a_heap_on_its_way_does_not_go_again(rt: HostRuntime) {
    play(&rt, rt.alloc(), 2, SHORT, &STALE);
}

/// Site 2 is behind both others, and is given each heap by one of them.
const JOINER: [Step; 10] = [
    Put(0, 1000),
    Put(1, 1000),
    Link(0, 1),
    Settle,
    Went(0, 4),
    Link(0, 2),
    Link(1, 2),
    Settle,
    Same(1000),
    Went(0, 2),
];

#[test]
fn a_new_site_is_given_each_heap_by_one_peer(rt: HostRuntime) {
    play(&rt, rt.alloc(), 3, SHORT, &JOINER);
}

/// What site 1 makes while a heap is on its way to it goes to 0 as operations. Two of the members,
/// w and y, lie in heap 0, of which a piece is on its way by then: they come back in front of the
/// next one.
const MEANWHILE: [Step; 9] = [
    Put(0, 1000),
    Link(0, 1),
    Hear(10),
    Push,
    Hear(1),
    Run(1, "ZADD q 1 v 2 w 3 x 4 y 5 z"),
    Settle,
    Same(1005),
    Went(7, 2),
];

#[test]
fn what_is_made_while_a_heap_comes_is_pushed(rt: HostRuntime) {
    play(&rt, rt.alloc(), 2, SHORT, &MEANWHILE);
}

/// What asks for a heap is lost. It is asked for again when it was waited for 15 seconds.
const UNANSWERED: [Step; 12] = [
    Put(0, 1000),
    Link(0, 1),
    Hear(10),
    Push,
    Hear(1),
    Lose(1, 0),
    Settle,
    Beats(14),
    Differ(0, 1),
    Beats(2),
    Same(1000),
    Went(0, 2),
];

#[test]
fn a_heap_that_does_not_come_is_asked_for_again(rt: HostRuntime) {
    play(&rt, rt.alloc(), 2, SHORT, &UNANSWERED);
}
