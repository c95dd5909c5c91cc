//! One heap of one peer: each rule by a table of steps, and what stands after each.

use super::{set_of, vector_of};
use crate::{AtHead, Follow, HeardAt};
use zq_dots::{Dot, LAST_COUNTER, SiteNo};

/// The counters of three sites.
type Counters = [u64; 3];

/// What is done.
#[derive(Clone, Copy, Debug)]
enum Step {
    /// An At that is open comes, with these counters, its turn and its echo, where the log begins
    /// at this place.
    Open(Counters, u64, u64, u64),
    /// The same, of one that is not open.
    Shut(Counters, u64, u64, u64),
    /// An operation of this site and counter comes.
    Dot(u8, u64),
    /// The operations of these sites are to be pushed, where the log begins at this place.
    Prepare(&'static [u8], u64),
    /// These counters were pushed, up to this place.
    Push(Counters, u64),
    /// These counters are told, in a calm or not.
    Tell(Counters, bool),
    /// The peer is told that the log does not reach back.
    Behind,
    /// The peer is being given the whole heap.
    Serve,
    /// The window is widened.
    Widen(u64),
}

/// What every At grants.
const WINDOW: u64 = 8;

/// An At with these counters and numbers, open or not.
fn at_of(counters: &Counters, turn: u64, echo: u64, open: bool) -> HeardAt {
    HeardAt {
        vector: vector_of(counters),
        turn,
        echo,
        open,
        window: WINDOW,
    }
}

/// What stands then: what counts as sent, the place, how many may be pushed, whether any may, and
/// the number of the At with the probe that is out.
type Shown = (Option<Counters>, u64, u64, bool, Option<u64>);

/// Does a step.
#[tactic(auto, unfolding(zq_model::specs::Sets::LAST))]
fn take(follow: &mut Follow, step: &Step) {
    match step {
        Step::Open(counters, turn, echo, first) => {
            follow.hear_at(&at_of(counters, *turn, *echo, true), *first);
        }
        Step::Shut(counters, turn, echo, first) => {
            follow.hear_at(&at_of(counters, *turn, *echo, false), *first);
        }
        Step::Dot(site, n) => {
            if let Some(site) = SiteNo::new(*site)
                && *n <= LAST_COUNTER
            {
                follow.hear_dot(Dot { site, n: *n });
            }
        }
        Step::Prepare(sites, first) => follow.prepare(set_of(sites), *first),
        Step::Push(counters, next) => follow.note_pushed(vector_of(counters), *next),
        Step::Tell(counters, is_calm) => {
            let _ = follow.tell(&vector_of(counters), *is_calm);
        }
        Step::Behind => follow.tell_behind(),
        Step::Serve => follow.serve(),
        Step::Widen(by) => follow.widen(*by),
    }
}

/// Whether this stands.
fn shows(follow: &Follow, shown: &Shown) -> bool {
    let sent = match &shown.0 {
        Some(counters) => Some(vector_of(counters)),
        None => None,
    };
    let probe = match &follow.probe {
        Some(probe) => Some(probe.turn),
        None => None,
    };
    follow.sent == sent
        && follow.place() == shown.1
        && follow.allowance() == shown.2
        && follow.may_push() == shown.3
        && probe == shown.4
}

/// Takes the steps from the beginning: the number of the first after which something else stands.
fn differs_at(rows: &[(Step, Shown)]) -> Option<usize> {
    let mut follow = Follow::deaf();
    for (number, (step, shown)) in rows.iter().enumerate() {
        take(&mut follow, step);
        if !shows(&follow, shown) {
            return Some(number);
        }
    }
    None
}

/// A link begins shut, opens, and fills its window.
const OPENS: [(Step, Shown); 8] = [
    (Step::Dot(1, 2), (None, 0, 0, false, None)),
    (Step::Tell([0, 0, 0], true), (None, 0, 0, false, None)),
    (
        Step::Shut([3, 0, 1], 1, 0, 5),
        (Some([3, 0, 1]), 5, 8, false, None),
    ),
    (
        Step::Open([3, 0, 1], 2, 1, 5),
        (Some([3, 0, 1]), 5, 8, true, None),
    ),
    (
        Step::Prepare(&[0, 2], 6),
        (Some([3, 0, 1]), 6, 8, true, None),
    ),
    (
        Step::Push([5, 0, 1], 9),
        (Some([5, 0, 1]), 9, 6, true, None),
    ),
    (
        Step::Open([4, 0, 1], 3, 1, 6),
        (Some([5, 0, 1]), 9, 7, true, None),
    ),
    (
        Step::Push([12, 0, 1], 20),
        (Some([12, 0, 1]), 20, 0, true, None),
    ),
];

/// A probe that is answered, one by a peer that lost something, and one that is never answered.
const PROBES: [(Step, Shown); 12] = [
    (
        Step::Open([0, 4, 0], 1, 0, 0),
        (Some([0, 4, 0]), 0, 8, true, None),
    ),
    (
        Step::Prepare(&[0, 1], 0),
        (Some([0, 4, 0]), 0, 8, true, None),
    ),
    (
        Step::Push([3, 4, 0], 3),
        (Some([3, 4, 0]), 3, 5, true, None),
    ),
    (
        Step::Tell([3, 0, 0], false),
        (Some([3, 4, 0]), 3, 5, true, None),
    ),
    (
        Step::Tell([3, 0, 0], true),
        (Some([3, 4, 0]), 3, 5, true, Some(2)),
    ),
    (
        Step::Push([5, 4, 0], 5),
        (Some([5, 4, 0]), 5, 3, true, Some(2)),
    ),
    (
        Step::Open([1, 4, 0], 2, 1, 0),
        (Some([5, 4, 0]), 5, 4, true, Some(2)),
    ),
    (
        Step::Open([3, 6, 0], 3, 2, 0),
        (Some([5, 6, 0]), 5, 6, true, None),
    ),
    (
        Step::Tell([5, 0, 0], true),
        (Some([5, 6, 0]), 5, 6, true, Some(3)),
    ),
    (
        Step::Push([6, 6, 0], 6),
        (Some([6, 6, 0]), 6, 5, true, Some(3)),
    ),
    (
        Step::Open([4, 6, 2], 4, 3, 1),
        (Some([4, 6, 2]), 1, 8, true, None),
    ),
    (
        Step::Tell([6, 0, 0], true),
        (Some([4, 6, 2]), 1, 8, true, Some(4)),
    ),
];

/// What comes from the peer is not sent back; what it has, where nothing was lost, is not lowered.
const DOTS: [(Step, Shown); 4] = [
    (
        Step::Open([2, 2, 0], 1, 0, 4),
        (Some([2, 2, 0]), 4, 8, true, None),
    ),
    (Step::Dot(1, 5), (Some([2, 5, 0]), 4, 8, true, None)),
    (Step::Dot(0, 1), (Some([2, 5, 0]), 4, 8, true, None)),
    (
        Step::Open([1, 1, 1], 2, 0, 4),
        (Some([2, 5, 1]), 4, 8, true, None),
    ),
];

/// A heap that is shut and opened again, one that is given whole, and a peer that was told that the
/// log does not reach back.
const REOPENS: [(Step, Shown); 11] = [
    (
        Step::Open([0, 0, 0], 1, 0, 2),
        (Some([0, 0, 0]), 2, 8, true, None),
    ),
    (Step::Prepare(&[0], 2), (Some([0, 0, 0]), 2, 8, true, None)),
    (
        Step::Push([4, 0, 0], 6),
        (Some([4, 0, 0]), 6, 4, true, None),
    ),
    (
        Step::Tell([4, 0, 0], true),
        (Some([4, 0, 0]), 6, 4, true, Some(1)),
    ),
    (
        Step::Shut([1, 0, 0], 2, 0, 2),
        (Some([4, 0, 0]), 6, 5, false, Some(1)),
    ),
    (
        Step::Open([1, 0, 0], 3, 0, 3),
        (Some([1, 0, 0]), 3, 8, true, None),
    ),
    (Step::Behind, (Some([1, 0, 0]), 3, 8, false, None)),
    (
        Step::Open([2, 0, 0], 4, 0, 3),
        (Some([2, 0, 0]), 3, 8, true, None),
    ),
    (Step::Serve, (Some([2, 0, 0]), 3, 8, false, None)),
    (
        Step::Push([9, 9, 9], 7),
        (Some([9, 9, 9]), 7, 8, false, None),
    ),
    (
        Step::Open([7, 7, 7], 5, 0, 8),
        (Some([7, 7, 7]), 8, 8, true, None),
    ),
];

/// The class gains a site, loses one, and the log's beginning passes the place.
const CLASSES: [(Step, Shown); 7] = [
    (
        Step::Open([0, 0, 0], 1, 0, 0),
        (Some([0, 0, 0]), 0, 8, true, None),
    ),
    (Step::Prepare(&[0], 0), (Some([0, 0, 0]), 0, 8, true, None)),
    (
        Step::Push([2, 0, 0], 9),
        (Some([2, 0, 0]), 9, 6, true, None),
    ),
    (Step::Prepare(&[0], 4), (Some([2, 0, 0]), 9, 6, true, None)),
    (
        Step::Prepare(&[0, 2], 4),
        (Some([2, 0, 0]), 4, 6, true, None),
    ),
    (
        Step::Push([2, 0, 3], 9),
        (Some([2, 0, 3]), 9, 3, true, None),
    ),
    (
        Step::Prepare(&[2], 11),
        (Some([2, 0, 3]), 11, 5, true, None),
    ),
];

/// A window that is full, and wider until the next At.
const WINDOWS: [(Step, Shown); 7] = [
    (
        Step::Open([0, 0, 0], 1, 0, 0),
        (Some([0, 0, 0]), 0, 8, true, None),
    ),
    (
        Step::Prepare(&[0, 1], 0),
        (Some([0, 0, 0]), 0, 8, true, None),
    ),
    (Step::Widen(5), (Some([0, 0, 0]), 0, 8, true, None)),
    (
        Step::Push([6, 2, 0], 8),
        (Some([6, 2, 0]), 8, 0, true, None),
    ),
    (Step::Widen(5), (Some([6, 2, 0]), 8, 5, true, None)),
    (
        Step::Push([9, 7, 0], 16),
        (Some([9, 7, 0]), 16, 0, true, None),
    ),
    (
        Step::Open([1, 2, 0], 2, 0, 0),
        (Some([9, 7, 0]), 16, 0, true, None),
    ),
];

#[test]
fn each_rule_does_as_it_says(rt: HostRuntime) {
    assert!(rt; differs_at(&OPENS) == None, "opens");
    assert!(rt; differs_at(&PROBES) == None, "probes");
    assert!(rt; differs_at(&DOTS) == None, "dots");
    assert!(rt; differs_at(&REOPENS) == None, "reopens");
    assert!(rt; differs_at(&CLASSES) == None, "classes");
    assert!(rt; differs_at(&WINDOWS) == None, "windows");
}

/// A probe stays out for twelve Ats in calms, and then gives way.
#[test]
fn an_old_probe_gives_way(rt: HostRuntime) {
    let mut follow = Follow::deaf();
    take(&mut follow, &Step::Open([1, 0, 0], 1, 0, 0));
    for turn in 1..30u64 {
        let head = follow.tell(&vector_of(&[turn]), true);
        let first = if turn < 14 {
            1
        } else if turn < 27 {
            14
        } else {
            27
        };
        let probe = match &follow.probe {
            Some(probe) => probe.turn,
            None => 0,
        };
        assert!(rt;
            head == AtHead {
                turn,
                echo: 1,
                open: false
            }
        );
        assert!(rt; probe == first, "{turn}");
    }
    follow.open_up();
    assert!(rt; follow.is_open() && follow.tell(&vector_of(&[7]), false).open);
    follow.close();
    assert!(rt; !follow.is_open());
}

/// A base, whether something of the class {0, 2} was not sent and lies below it.
const BASES: [(Counters, bool); 4] = [
    ([3, 9, 4], false),
    ([4, 0, 0], true),
    ([0, 0, 5], true),
    ([3, 9, 9], true),
];

/// Sites and a grant, and whether an At is owed where [1, 1, 0] was told and [4, 1, 9] is known.
const OWED: [(&[u8], u64, bool); 7] = [
    (&[0], 8, true),
    (&[0], 15, true),
    (&[0], 16, false),
    (&[0, 2], 48, true),
    (&[0, 2], 52, false),
    (&[1], 0, false),
    (&[0], 0, true),
];

#[test]
fn what_lies_below_and_what_is_owed(rt: HostRuntime) {
    let mut follow = Follow::deaf();
    assert!(rt; !follow.is_below(&vector_of(&[1])));
    take(&mut follow, &Step::Open([3, 0, 4], 1, 0, 0));
    take(&mut follow, &Step::Prepare(&[0, 2], 0));
    take(&mut follow, &Step::Tell([1, 1, 0], false));
    for (base, is_below) in BASES {
        assert!(rt; follow.is_below(&vector_of(&base)) == is_below, "{base:?}");
    }
    for (sites, granted, owed) in OWED {
        let owes = follow.owes_at(&vector_of(&[4, 1, 9]), &set_of(sites), granted);
        assert!(rt; owes == owed, "{sites:?} {granted}");
    }
    assert!(rt; *follow.class() == set_of(&[0, 2]));
    assert!(rt; follow.sent() == Some(&vector_of(&[3, 0, 4])));
}
