//! Scenes that sites play.

use crate::traffic::Kind;
use crate::world::{World, number};
use mesh_sites::{SitePlan, open_all, seat_all};
use std::alloc::Global;
use std::process::Abort;
use std::sync::Wait;

/// How many operations of a heap may be under way to a site. It acknowledges a quarter of them.
pub const WINDOW: u64 = 256;

/// More bytes than a log takes of all that a scene makes.
pub const ROOMY: u64 = 1_000_000;

/// How many members of a heap go at once.
const PIECE: usize = 100;

/// What is done in a scene.
#[derive(Clone, Copy)]
pub enum Step {
    /// A client of a site sends this.
    Run(u8, &'static str),
    /// A client of a site puts so many members into queue q.
    Put(u8, u32),
    /// A link between two sites is up.
    Link(u8, u8),
    /// It is down, and what was under way is lost.
    Cut(u8, u8),
    /// What is under way from one site to another is lost.
    Lose(u8, u8),
    /// What was made goes into the logs, and is pushed, but not heard. Something was.
    Push,
    /// So many frames are heard, in the order in which they were sent.
    Hear(u32),
    /// All comes to rest: what was made is pushed, and what is pushed is heard.
    Settle,
    /// So many seconds go by at all sites, and nothing is pushed or heard.
    Tick(u32),
    /// So many seconds go by at all sites, and all comes to rest after each.
    Beats(u32),
    /// So many operations went over links since the last such step, and so many heaps, at once or
    /// to their last piece.
    Went(u64, u64),
    /// So many pieces of heaps went over links since the last such step.
    Pieces(u64),
    /// So many frames of each of these kinds went over links since the last such step, and no
    /// others.
    Sent(&'static [(Kind, usize)]),
    /// All sites have the same, and so many members of queue q.
    Same(usize),
    /// Two sites have not the same.
    Differ(u8, u8),
}

/// Plays the steps at so many sites, which have done nothing. Their logs have at most so many bytes
/// each. They give each other heaps in pieces.
pub fn play<R: Wait + Abort>(rt: &R, alloc: Global, sites: u8, log: u64, steps: &[Step]) {
    play_at(rt, alloc, sites, log, Some(PIECE), steps);
}

/// The same where the sites know no pieces.
pub fn play_whole<R: Wait + Abort>(rt: &R, alloc: Global, sites: u8, log: u64, steps: &[Step]) {
    play_at(rt, alloc, sites, log, None, steps);
}

/// Plays the steps at so many sites, which give each other so many members of a heap at once, or
/// know no pieces.
fn play_at<R: Wait + Abort>(
    rt: &R,
    alloc: Global,
    sites: u8,
    log: u64,
    piece: Option<usize>,
    steps: &[Step],
) {
    let plans = plans(rt, alloc, sites, log, piece);
    let mut opened = open_all(alloc, &plans).expect(rt, "sites");
    let stations = seat_all(alloc, &mut opened, &plans).expect(rt, "stations");
    let mut world = World::new(alloc, stations, sites);
    for (at, step) in steps.iter().enumerate() {
        assert!(rt; does(rt, alloc, &mut world, *step), "step {at}, from 0 on");
    }
}

/// What so many sites are to be, with the numbers from 0 on.
fn plans(
    rt: &impl Abort,
    alloc: Global,
    sites: u8,
    log: u64,
    piece: Option<usize>,
) -> Vec<SitePlan> {
    let mut plans = Vec::new(alloc);
    for site in 0..sites {
        let plan = SitePlan {
            number: number(rt, site),
            window: WINDOW,
            log,
            piece,
        };
        plans.push(plan).expect(rt, "memory");
    }
    plans
}

/// Does a step, and says whether it comes to what is said of it.
fn does<R: Wait + Abort>(rt: &R, alloc: Global, world: &mut World<'_>, step: Step) -> bool {
    match step {
        Step::Run(site, line) => world.run(rt, alloc, site, line),
        Step::Put(site, count) => put_all(rt, alloc, world, site, count),
        Step::Link(one, other) => world.link(rt, alloc, one, other),
        Step::Cut(one, other) => world.cut(rt, alloc, one, other),
        Step::Lose(from, to) => world.lose(rt, alloc, from, to),
        Step::Push => return world.push(rt, alloc),
        Step::Hear(count) => return hear_all(rt, alloc, world, count),
        Step::Settle => world.settle(rt, alloc),
        Step::Tick(count) => pass(rt, alloc, world, count, false),
        Step::Beats(count) => pass(rt, alloc, world, count, true),
        Step::Went(operations, heaps) => return world.traffic.take_went(operations, heaps),
        Step::Pieces(pieces) => return world.traffic.take_pieces(pieces),
        Step::Sent(frames) => return world.traffic.take_frames(frames),
        Step::Same(members) => return are_same(rt, alloc, world, members),
        Step::Differ(one, other) => return !world.is_same(rt, alloc, one, other),
    }
    true
}

/// A client of a site puts so many members.
fn put_all<R: Wait + Abort>(rt: &R, alloc: Global, world: &mut World<'_>, site: u8, count: u32) {
    for member in 0..count {
        let line = format!(in alloc; "ZADD q {member} m{member}").expect(rt, "memory");
        world.run(rt, alloc, site, &line);
    }
}

/// So many frames are heard. It says whether so many were under way.
fn hear_all<R: Wait + Abort>(rt: &R, alloc: Global, world: &mut World<'_>, count: u32) -> bool {
    let mut all = true;
    for _frame in 0..count {
        all &= world.hear(rt, alloc);
    }
    all
}

/// So many seconds go by, and all comes to rest after each or not.
fn pass<R: Wait + Abort>(rt: &R, alloc: Global, world: &mut World<'_>, count: u32, settles: bool) {
    for _beat in 0..count {
        world.beat(rt, alloc);
        if settles {
            world.settle(rt, alloc);
        }
    }
}

/// Whether all sites have the same, and so many members of queue q.
fn are_same<R: Wait + Abort>(rt: &R, alloc: Global, world: &mut World<'_>, members: usize) -> bool {
    let mut same = world.count(rt, alloc, 0) == members;
    for site in 1..world.sites() {
        same &= world.is_same(rt, alloc, 0, site);
    }
    same
}
