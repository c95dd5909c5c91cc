//! By what a site is fenced: by frames of one peer, which are made by hand.

use crate::scenes::{ROOMY, WINDOW};
use crate::world::number;
use mesh_sites::Saying::{At, Behind, Fetch, FetchOn, Have, Ops, Piece};
use mesh_sites::{Saying, SitePlan, Station, open_all, seat_all};
use std::alloc::Global;
use std::process::Abort;
use std::sync::Wait;
use zq_replica::Fenced;

/// The number of the link between the two sites.
const LINK: u64 = 7;

/// Members of queue q that lie in heap 0 of two, as the lowest bit of their FNV-1a hash says.
const MADE: [&str; 3] = ["ZADD q 1 a", "ZADD q 2 c", "ZADD q 3 e"];

/// What site 1 says to site 0, which has made nothing, and of how many operations of site 0 in heap
/// 0 site 0 learns by that, if it is fenced.
const BEFORE: [(Saying, Option<u64>); 17] = [
    (At(0), None),
    (At(1), Some(1)),
    (Behind(0), None),
    (Behind(1), Some(1)),
    (Behind(9), Some(9)),
    (Fetch, None),
    (FetchOn(0), None),
    (FetchOn(1), Some(1)),
    (Have(0), None),
    (Have(2), Some(2)),
    (Piece(0), None),
    (Piece(2), Some(2)),
    (Ops(&[]), None),
    (Ops(&[1]), Some(1)),
    (Ops(&[3, 2, 1]), Some(3)),
    (Ops(&[2, 3, 1]), Some(3)),
    (Ops(&[1, 2, 3]), Some(3)),
];

/// The same, where site 0 has made three operations of heap 0.
const AFTER: [(Saying, Option<u64>); 15] = [
    (At(3), None),
    (At(4), Some(4)),
    (Behind(2), None),
    (Behind(3), None),
    (Behind(4), Some(4)),
    (FetchOn(3), None),
    (FetchOn(4), Some(4)),
    (Have(3), None),
    (Have(4), Some(4)),
    (Piece(3), None),
    (Piece(4), Some(4)),
    (Ops(&[3, 2, 1]), None),
    (Ops(&[4, 3]), Some(4)),
    (Ops(&[5, 4]), Some(5)),
    (Ops(&[4, 5, 1]), Some(5)),
];

/// Two sites, 0 and 1.
fn plans(rt: &impl Abort) -> [SitePlan; 2] {
    [0, 1].map(|site| SitePlan {
        number: number(rt, site),
        window: WINDOW,
        log: ROOMY,
        piece: Some(1),
    })
}

/// Site 0 makes what these lines say. Its link to site 1 is up.
fn begin<R: Wait + Abort>(rt: &R, alloc: Global, station: &mut Station<'_>, lines: &[&str]) {
    for line in lines {
        station.ask(rt, alloc, line).expect(rt, "a command");
    }
    let mut out = Vec::new(alloc);
    let raised = station.raise(rt, alloc, number(rt, 1), LINK, &mut out);
    raised.expect(rt, "a link");
}

/// Site 0 hears this of site 1, and answers by so many frames.
fn hear<R: Wait + Abort>(
    rt: &R,
    alloc: Global,
    station: &mut Station<'_>,
    saying: Saying,
) -> usize {
    let peer = number(rt, 1);
    let frame = saying.frame(alloc, peer, number(rt, 0));
    let bytes = frame.expect(rt, "a frame");
    let mut out = Vec::new(alloc);
    let heard = station.hear(rt, alloc, peer, LINK, &bytes, &mut out);
    heard.expect(rt, "what is heard");
    out.len()
}

/// Site 0, which has made what these lines say, hears this, and is fenced or not. Where it is, it
/// answers nothing, and hears nothing more.
fn judge<R: Wait + Abort>(
    rt: &R,
    alloc: Global,
    lines: &[&str],
    saying: Saying,
    known: Option<u64>,
) {
    let plans = plans(rt);
    let mut opened = open_all(alloc, &plans).expect(rt, "sites");
    let mut stations = seat_all(alloc, &mut opened, &plans).expect(rt, "stations");
    let station = stations.first_mut().expect(rt, "a station");
    begin(rt, alloc, station, lines);
    let answers = hear(rt, alloc, station, saying);
    let fenced = known.map(|known| Fenced {
        heap: 0,
        peer: number(rt, 1),
        known,
        own: lines.len() as u64,
    });
    assert!(rt;
        station.fenced() == fenced,
        "{saying:?}: {:?}",
        station.fenced()
    );
    if fenced.is_some() {
        assert_eq!(rt; answers, 0, "{saying:?}");
        assert_eq!(rt; hear(rt, alloc, station, At(0)), 0, "{saying:?}");
    }
}

#[test]
fn a_site_that_made_nothing_is_fenced_by_any_of_its_operations(rt: HostRuntime) {
    for (saying, known) in BEFORE {
        judge(&rt, rt.alloc(), &[], saying, known);
    }
}

#[test]
fn a_site_is_fenced_by_more_than_it_made(rt: HostRuntime) {
    for (saying, known) in AFTER {
        judge(&rt, rt.alloc(), &MADE, saying, known);
    }
}

/// A site that is not fenced answers the first At of a heap by its own.
#[test]
fn a_site_that_is_not_fenced_answers(rt: HostRuntime) {
    let alloc = rt.alloc();
    let plans = plans(&rt);
    let mut opened = open_all(alloc, &plans).expect(&rt, "sites");
    let mut stations = seat_all(alloc, &mut opened, &plans).expect(&rt, "stations");
    let station = stations.first_mut().expect(&rt, "a station");
    begin(&rt, alloc, station, &[]);
    assert_eq!(rt; hear(&rt, alloc, station, At(0)), 1);
}
