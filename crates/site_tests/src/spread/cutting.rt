//! How a long tail is cut. With key q and 2 heaps the member a lies in heap 0.
ghost use Rattle.std.specs.Prelude.{◌<◌, IfSome, length};
ghost use Rattle.zq_spread.specs.Passes.{IsPassOf};

use super::asking::{Line, ask, follow};
use super::opened;
use std::alloc::Global;
use std::process::Abort;
use std::sync::Wait;
use std::test::Fail;
use zq_dots::{SiteNo, Vector};
use zq_journal::Since;
use zq_spread::{Pass, Site};

/// Puts the member a at this score.
pub(super) fn put<R: Wait>(
    rt: &R,
    alloc: Global,
    site: &Site,
    pass: &mut Pass,
    score: u64,
) -> Option<Vec<u8>>
    requires { IsPassOf site.now pass.old }
    ensures { IsPassOf site.now pass.new }
{
    let line = format!(in alloc; "ZADD q {score} a").ok()?;
    ask(rt, alloc, site, pass, line.as_str(), (0, 0))
}

/// Puts the member a, which stands, at the scores from 2 up to the last.
fn put_up_to<R: Wait + Abort>(rt: &R, alloc: Global, site: &Site, pass: &mut Pass, last: u64)
    requires { IsPassOf site.now pass.old }
    ensures { IsPassOf site.now pass.new }
{
    for score in 2..=last {
        let answer = put(rt, alloc, site, pass, score);
        assert!(rt;
            answer.as_deref() == Some(b":0\r\n".as_slice()),
            "score {score}"
        );
    }
}

/// The records of heap 0, as a pass sees them that holds it, and whether they are sound, as an
/// audit says. `None` where the heap was not free.
fn tail_of(alloc: Global, site: &Site, pass: Pass) -> Option<(usize, bool, Pass)>
    requires heaps { 0 < length site.now.slots.items }
    requires pass { IsPassOf site.now pass }
    ensures pass { IfSome result (λ seen. IsPassOf site.now seen.2) }
{
    let Ok(holding) = site.hold(pass, 0) else {
        return None;
    };
    let tail = holding.book().tail_len();
    let audit = holding.book().audit(alloc);
    let pass = site.release(holding);
    Some((tail, audit == Ok(true), pass))
}

/// The vector of a peer that has so many operations of site 0.
#[tactic(auto, unfolding(zq_model::specs::Sets::LAST))]
pub(super) fn peer(operations: u64) -> Option<Vector> {
    if operations > 9999 {
        return None;
    }
    let mut vector = Vector::new();
    vector.set(SiteNo::new(0)?, operations);
    Some(vector)
}

/// What such a peer is given of heap 0.
#[derive(Clone, Copy, PartialEq, Eq, Debug)]
enum Answer {
    TooOld,
    Ops(usize),
}

fn given<R: Wait>(
    rt: &R,
    alloc: Global,
    site: &Site,
    pass: &mut Pass,
    operations: u64,
) -> Option<Answer>
    requires heaps { 0 < length site.now.slots.items }
    requires pass { IsPassOf site.now pass.old }
    ensures pass { IsPassOf site.now pass.new }
{
    let vector = peer(operations)?;
    match site.since(rt, alloc, pass, 0, &vector).ok()? {
        Since::TooOld => Some(Answer::TooOld),
        Since::Ops(ops) => Some(Answer::Ops(ops.len())),
    }
}

const GIVEN: [(u64, Answer); 4] = [
    (0, Answer::TooOld),
    (2047, Answer::TooOld),
    (2048, Answer::Ops(2049)),
    (4097, Answer::Ops(0)),
];

/// Looks at what each peer is given.
fn look_at_given<R: Wait + Abort>(rt: &R, alloc: Global, site: &Site, pass: &mut Pass)
    requires heaps { 0 < length site.now.slots.items }
    requires pass { IsPassOf site.now pass.old }
    ensures pass { IsPassOf site.now pass.new }
{
    for (operations, says) in &GIVEN {
        let found = given(rt, alloc, site, pass, *operations);
        assert!(rt; found == Some(*says), "{operations} operations");
    }
}

const FIRST: [Line; 1] = [("ZADD q 1 a", (0, 0), ":1\r\n")];

const LAST: [Line; 2] = [
    ("ZADD q 4097 a", (0, 0), ":0\r\n"),
    ("ZSCORE q a", (0, 0), "$4\r\n4097\r\n"),
];

#[test]
fn a_long_tail_is_cut(rt: HostRuntime) -> Result<(), Fail> {
    let alloc = rt.alloc();
    let (site, mut pass, _) = opened(alloc, 0, 2).ok_or("memory")?;
    follow(&rt, alloc, &site, &mut pass, &FIRST);
    put_up_to(&rt, alloc, &site, &mut pass, 4096);
    let (long, is_sound, mut pass) = tail_of(alloc, &site, pass).ok_or("not free")?;
    assert_eq!(rt; (long, is_sound), (4096, true));
    follow(&rt, alloc, &site, &mut pass, &LAST);
    look_at_given(&rt, alloc, &site, &mut pass);
    let (short, is_sound, _) = tail_of(alloc, &site, pass).ok_or("not free")?;
    assert_eq!(rt; (short, is_sound), (2049, true));
    Ok(())
}
