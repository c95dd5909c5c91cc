//! Steps by a table, drawn ones against a plain list, and batches that are read again.

mod chunks;
mod plain;

use crate::{Backlog, Batch};
use plain::{Counters, FEW, Plain, at, put};
use rand_core::{Rng, SeedableRng};
use rand_pcg::Pcg64;
use std::alloc::Global;
use std::process::Abort;
use std::test::Fail;
use zq_dots::{Act, Dot, LAST_COUNTER, Op, SITES, SiteNo, Vector};
use zq_links::{Frame, read_frame};
use zq_posheap::Seeded;

/// The most bytes of a member.
const LONG: usize = 131_072;

/// A site of this number.
fn site(number: u8) -> Result<SiteNo, Fail> {
    Ok(SiteNo::new(number).ok_or("a site")?)
}

/// The operation of this dot that drops a member of so many bytes of the key `k`, and has seen
/// those of its own site alone. It is written in 15 bytes more than the member has, and in nine
/// more where it is not the first.
#[tactic(auto, unfolding(zq_model::specs::Sets::LAST))]
fn op_of(alloc: Global, number: u8, n: u64, len: usize) -> Result<Op, Fail> {
    let site = site(number)?;
    let mut seen = Vector::new();
    seen.set(site, n.min(LAST_COUNTER).saturating_sub(1));
    let Ok(dot) = seen.next(site) else {
        return Err(Fail::from("a counter"));
    };
    let key = Vec::from_slice(alloc, b"k")?;
    let mut member = Vec::new(alloc);
    member.resize(len.min(LONG), b'm')?;
    Ok(Op::new(0, 1, dot, seen, key, member, Act::Drop))
}

/// A vector that knows so many of the operations of sites 0 and 1.
#[tactic(auto, unfolding(zq_model::specs::Sets::LAST))]
fn vector(counters: (u64, u64)) -> Result<Vector, Fail> {
    let mut v = Vector::new();
    v.set(site(0)?, counters.0.min(LAST_COUNTER));
    v.set(site(1)?, counters.1.min(LAST_COUNTER));
    Ok(v)
}

/// The counters of sites 0 and 1.
fn counters(v: &Vector) -> Result<(u64, u64), Fail> {
    Ok((v.get(site(0)?), v.get(site(1)?)))
}

/// What comes to a log.
#[derive(Clone, Copy, Debug)]
enum Step {
    /// An operation of a site, with this counter.
    Add(u8, u64),
    /// What knows so many of the operations of sites 0 and 1.
    Skip(u64, u64),
}

/// What a log shows then.
#[derive(Clone, Copy, Debug, PartialEq, Eq)]
struct Shown {
    base: (u64, u64),
    last: (u64, u64),
    first: u64,
    end: u64,
    bytes: u64,
}

fn shows(base: (u64, u64), last: (u64, u64), first: u64, end: u64, bytes: u64) -> Shown {
    Shown {
        base,
        last,
        first,
        end,
        bytes,
    }
}

/// Does the step, and gives what the log shows.
fn done(alloc: Global, log: &mut Backlog, step: Step) -> Result<Shown, Fail> {
    match step {
        Step::Add(number, n) => {
            let op = op_of(alloc, number, n, 1)?;
            log.add(&op)?;
        }
        Step::Skip(first, second) => log.skip(&vector((first, second))?),
    }
    let base = counters(log.base())?;
    let last = counters(log.last())?;
    Ok(shows(base, last, log.first(), log.end(), log.bytes()))
}

#[test]
fn a_log_of_a_hundred_bytes(rt: HostRuntime) -> Result<(), Fail> {
    let rows = [
        (Step::Add(0, 1), shows((0, 0), (1, 0), 0, 1, 40)),
        (Step::Add(1, 1), shows((0, 0), (1, 1), 0, 2, 80)),
        (Step::Add(0, 2), shows((1, 0), (2, 1), 1, 3, 89)),
        (Step::Add(0, 2), shows((1, 0), (2, 1), 1, 3, 89)),
        (Step::Add(0, 1), shows((1, 0), (2, 1), 1, 3, 89)),
        (Step::Add(0, 5), shows((4, 1), (5, 1), 2, 4, 98)),
        (Step::Skip(3, 7), shows((4, 7), (5, 7), 2, 4, 98)),
        (Step::Skip(6, 7), shows((6, 7), (6, 7), 2, 4, 98)),
        (Step::Add(1, 8), shows((6, 7), (6, 8), 3, 5, 98)),
        (Step::Add(0, 7), shows((6, 7), (7, 8), 4, 6, 98)),
        (Step::Add(0, 8), shows((6, 8), (8, 8), 5, 7, 98)),
    ];
    let mut log = Backlog::new(rt.alloc(), Vector::new(), 100);
    for (step, want) in rows {
        let found = done(rt.alloc(), &mut log, step)?;
        assert!(rt; found == want, "after {step:?}: {found:?}");
    }
    Ok(())
}

#[test]
fn the_newest_stays_where_it_has_too_many_bytes(rt: HostRuntime) -> Result<(), Fail> {
    let mut log = Backlog::new(rt.alloc(), vector((3, 0))?, 10);
    let rows = [
        (Step::Add(0, 3), shows((3, 0), (3, 0), 0, 0, 0)),
        (Step::Add(0, 4), shows((3, 0), (4, 0), 0, 1, 49)),
        (Step::Add(1, 1), shows((4, 0), (4, 1), 1, 2, 40)),
    ];
    for (step, want) in rows {
        let found = done(rt.alloc(), &mut log, step)?;
        assert!(rt; found == want, "after {step:?}: {found:?}");
    }
    assert!(rt; log.len() == 1 && !log.is_empty());
    Ok(())
}

/// The dots of the operations of a batch's frame, as it is read again.
fn dots_of(alloc: Global, batch: &Batch) -> Result<Vec<(u8, u64)>, Fail> {
    let mut dots = Vec::new(alloc);
    if let Some(bytes) = &batch.frame {
        let Ok(Frame::Ops(ops)) = read_frame(alloc, bytes, Seeded::new(1)) else {
            return Err(Fail::from("operations"));
        };
        for op in &ops {
            dots.push((op.dot().site.value(), op.dot().n))?;
        }
    }
    Ok(dots)
}

/// Sites 0 and 1, where the flags say so.
fn class_of(first: bool, second: bool) -> [bool; SITES] {
    let mut class = [false; SITES];
    class[0] = first;
    class[1] = second;
    class
}

/// A batch that is asked for, and what comes of it.
struct Row {
    place: u64,
    class: (bool, bool),
    sent: (u64, u64),
    allow: u64,
    dots: &'static [(u8, u64)],
    after: (u64, u64),
    next: u64,
}

const ROWS: [Row; 7] = [
    Row {
        place: 0,
        class: (true, false),
        sent: (0, 0),
        allow: 2,
        dots: &[(0, 1), (0, 2)],
        after: (2, 0),
        next: 3,
    },
    Row {
        place: 3,
        class: (true, false),
        sent: (2, 0),
        allow: 2,
        dots: &[(0, 3)],
        after: (3, 0),
        next: 5,
    },
    Row {
        place: 0,
        class: (true, true),
        sent: (1, 1),
        allow: 9,
        dots: &[(0, 2), (1, 2), (0, 3)],
        after: (3, 2),
        next: 5,
    },
    Row {
        place: 1,
        class: (false, true),
        sent: (0, 2),
        allow: 9,
        dots: &[],
        after: (0, 2),
        next: 5,
    },
    Row {
        place: 0,
        class: (true, true),
        sent: (0, 0),
        allow: 0,
        dots: &[],
        after: (0, 0),
        next: 0,
    },
    Row {
        place: 5,
        class: (true, true),
        sent: (0, 0),
        allow: 9,
        dots: &[],
        after: (0, 0),
        next: 5,
    },
    Row {
        place: 8,
        class: (true, true),
        sent: (0, 0),
        allow: 9,
        dots: &[],
        after: (0, 0),
        next: 8,
    },
];

fn batch_of(alloc: Global, log: &Backlog, row: &Row) -> Result<Batch, Fail> {
    let class = class_of(row.class.0, row.class.1);
    let sent = vector(row.sent)?;
    Ok(log.batch(alloc, row.place, &class, &sent, row.allow)?)
}

fn check_row(rt: &impl Abort, alloc: Global, log: &Backlog, row: &Row) -> Result<(), Fail> {
    let batch = batch_of(alloc, log, row)?;
    let dots = dots_of(alloc, &batch)?;
    assert!(rt; dots.as_slice() == row.dots, "from {}", row.place);
    assert!(rt; batch.count == row.dots.len() as u64);
    assert!(rt; batch.next == row.next, "next {}", batch.next);
    assert!(rt; counters(&batch.sent)? == row.after);
    Ok(())
}

#[test]
fn batches_for_two_peers(rt: HostRuntime) -> Result<(), Fail> {
    let alloc = rt.alloc();
    let mut log = Backlog::new(alloc, Vector::new(), 1000);
    let mut ops = Vec::new(alloc);
    for (number, n) in [(0, 1), (1, 1), (0, 2), (1, 2), (0, 3)] {
        ops.push(op_of(alloc, number, n, 1)?)?;
    }
    log.add_all(&ops)?;
    for row in &ROWS {
        check_row(&rt, alloc, &log, row)?;
    }
    Ok(())
}

/// A vector of these counters.
#[tactic(auto, unfolding(zq_model::specs::Sets::LAST))]
fn vector_of(counters: &Counters) -> Result<Vector, Fail> {
    let mut v = Vector::new();
    for number in 0..FEW as u8 {
        v.set(site(number)?, at(counters, number).min(LAST_COUNTER));
    }
    Ok(v)
}

/// The counters of a vector.
fn counters_of(v: &Vector) -> Result<Counters, Fail> {
    let mut counters = [0; FEW];
    for number in 0..FEW as u8 {
        put(&mut counters, number, v.get(site(number)?));
    }
    Ok(counters)
}

/// An operation of a drawn site comes to both: the next one, a known one, or one after a gap.
fn add_drawn(alloc: Global, log: &mut Backlog, plain: &mut Plain, word: u64) -> Result<(), Fail> {
    let number = (word % 4) as u8;
    let rise = [0, 1, 1, 1, 1, 1, 1, 3][((word >> 2) % 8) as usize];
    let n = at(&plain.last, number).saturating_add(rise).max(1);
    let len = ((word >> 8) % 4096) as usize;
    let op = op_of(alloc, number, n, len)?;
    if log.add(&op).is_err() {
        // Memory was refused: nothing has changed, and the call goes well once there is some.
        if !shows_same(log, plain)? {
            return Err(Fail::from("a change"));
        }
        log.add(&op)?;
    }
    let head = if n > 1 { 24 } else { 15 };
    plain.add(number, n, head + len as u64)?;
    Ok(())
}

/// Operations of a drawn site are skipped in both.
fn skip_drawn(log: &mut Backlog, plain: &mut Plain, word: u64) -> Result<(), Fail> {
    let number = (word % 4) as u8;
    let mut known = plain.base;
    let n = at(&plain.last, number).saturating_add((word >> 2) % 2);
    put(&mut known, number, n);
    log.skip(&vector_of(&known)?);
    plain.skip(&known);
    Ok(())
}

/// Where a peer stands.
#[derive(Clone, Copy)]
struct Peer {
    place: u64,
    sent: Counters,
}

/// Cuts a batch for a peer from both: whether they are the same.
fn cuts_same(
    alloc: Global,
    log: &Backlog,
    plain: &Plain,
    peer: &mut Peer,
    word: u64,
) -> Result<bool, Fail> {
    let few = [word % 2 > 0, word % 4 > 1, word % 8 > 3, word % 16 > 7];
    let mut class = [false; SITES];
    for number in 0..FEW {
        class[number] = few[number];
    }
    let allow = (word >> 4) % 64;
    let sent = vector_of(&peer.sent)?;
    let batch = log.batch(alloc, peer.place, &class, &sent, allow)?;
    let (dots, after, next) = plain.batch(alloc, peer.place, &few, &peer.sent, allow)?;
    let is_same = dots_of(alloc, &batch)?.as_slice() == dots.as_slice()
        && counters_of(&batch.sent)? == after
        && batch.next == next
        && batch.count == dots.len() as u64;
    peer.place = if (word >> 12) % 8 == 0 { 0 } else { next };
    peer.sent = after;
    Ok(is_same)
}

/// Whether both show the same.
fn shows_same(log: &Backlog, plain: &Plain) -> Result<bool, Fail> {
    Ok(
        counters_of(log.base())? == plain.base
            && counters_of(log.last())? == plain.last
            && log.first() == plain.first
            && log.end() == plain.end()
            && log.bytes() == plain.bytes(),
    )
}

/// Does what is drawn in both: whether they are the same then.
fn follows(
    alloc: Global,
    log: &mut Backlog,
    plain: &mut Plain,
    peers: &mut [Peer; 2],
    word: u64,
) -> Result<bool, Fail> {
    match (word >> 60) % 16 {
        0..=9 => add_drawn(alloc, log, plain, word)?,
        10 => skip_drawn(log, plain, word)?,
        11..=13 => {
            if !cuts_same(alloc, log, plain, &mut peers[0], word)? {
                return Ok(false);
            }
        }
        _ => {
            if !cuts_same(alloc, log, plain, &mut peers[1], word)? {
                return Ok(false);
            }
        }
    }
    shows_same(log, plain)
}

#[test]
fn drawn_steps_are_those_of_a_plain_list(rt: HostRuntime) -> Result<(), Fail> {
    let alloc = rt.alloc();
    let most = 200_000;
    let mut log = Backlog::new(alloc, Vector::new(), most);
    let mut plain = Plain::new(alloc, most);
    let mut peers = [
        Peer {
            place: 0,
            sent: [0; FEW],
        },
        Peer {
            place: 0,
            sent: [0; FEW],
        },
    ];
    let mut draws = Pcg64::seed_from_u64(1);
    for step in 0..2_000 {
        let word = draws.next_u64();
        let is_same = follows(alloc, &mut log, &mut plain, &mut peers, word)?;
        assert!(rt; is_same, "step {step}");
    }
    assert!(rt; log.first() > 100 && log.len() > 10, "some went");
    Ok(())
}
