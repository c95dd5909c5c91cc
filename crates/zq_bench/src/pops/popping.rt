//! Pops by several passes at the same time.
ghost use Rattle.std.specs.Prelude.{All, IfSome, length, ◌<◌, ◌≡◌};
ghost use Rattle.zq_spread.specs.Passes.{IsPassOf};

use crate::clock::{now, since};
use crate::pops::Plan;
use crate::requests::request;
use std::alloc::Global;
use std::sync::{Mutex, Wait};
use std::thread::{Threads, for_each_mut};
use std::time::Clock;
use zq_dots::SiteNo;
use zq_resp::{Reply, Request};
use zq_spread::{Draws, Pass, Site};
use zq_words::Command;

/// A pop: the stamp of its call, and the score of the member that it took.
#[derive(Clone, Copy, Debug, Drop)]
pub struct Pop {
    pub stamp: u64,
    pub score: i128,
}

/// What each pass popped, at the place of the pass.
pub type Popped = Vec<Mutex<Vec<Pop>>>;

/// Pops half of the members of a key by passes that each take their part, and says what each of
/// them popped, and the nanoseconds that all took. `None` where the plan can't be followed: a site
/// has 2 to 16 heaps and at most 128 passes, of which one adds the members.
pub fn pop_half<R: Clock + Threads + Wait + Sync>(
    rt: &R,
    alloc: Global,
    plan: Plan,
) -> Option<(Popped, u128)> {
    let line = format!(in alloc; "{} q", plan.pop).ok()?;
    let request = request(alloc, &line)?;
    let (site, mut passes, mut filler) = opened(alloc, plan)?;
    add_members(rt, alloc, &site, &mut filler, plan.members)?;
    let popped = nothing_popped(alloc, passes.len())?;
    if passes.is_empty() {
        return None;
    }
    let calls = plan.members as usize / 2 / passes.len();
    let time = time_pops(rt, alloc, &site, &mut passes, &request, calls, &popped)?;
    Some((popped, time))
}

/// A site that has done nothing, with the passes of the plan and one to add members by.
fn opened(alloc: Global, plan: Plan) -> Option<(Site, Vec<Pass>, Pass)>
    ensures passes { IfSome result (λ made. All (IsPassOf made.0) made.1.items) }
    ensures filler { IfSome result (λ made. IsPassOf made.0 made.2) }
{
    let number = SiteNo::new(0)?;
    let passes = plan.passes.saturating_add(1);
    let Ok((site, mut passes)) = Site::new(alloc, number, plan.heaps, passes) else {
        return None;
    };
    let filler = passes.pop()?;
    Some((site, passes, filler))
}

/// So many places where nothing was popped.
fn nothing_popped(alloc: Global, passes: usize) -> Option<Popped> {
    let mut popped = Vec::new(alloc);
    for _pass in 0..passes {
        popped.push(Mutex::new(Vec::new(alloc))).ok()?;
    }
    Some(popped)
}

/// Adds members with the scores 0, 1, 2 and so on.
fn add_members<R: Wait>(
    rt: &R,
    alloc: Global,
    site: &Site,
    pass: &mut Pass,
    members: u32,
) -> Option<()>
    requires { IsPassOf site.now pass.old }
    ensures { IsPassOf site.now pass.new }
{
    for member in 0..members {
        let line = format!(in alloc; "ZADD q {member} member:{member}").ok()?;
        add_member(rt, alloc, site, pass, &line)?;
    }
    Some(())
}

/// Calls a site with the command of a line.
fn add_member<R: Wait>(
    rt: &R,
    alloc: Global,
    site: &Site,
    pass: &mut Pass,
    line: &str,
) -> Option<()>
    requires { IsPassOf site.now pass.old }
    ensures { IsPassOf site.now pass.new }
{
    let request = request(alloc, line)?;
    let command = Command::read(alloc, &request).ok()?;
    match site.call(rt, alloc, pass, &command, 0, 0) {
        Reply::Integer(1) => Some(()),
        _ => None,
    }
}

/// Pops so many times by each of the passes, in a thread of its own, and says how many nanoseconds
/// all of it took.
fn time_pops<R: Clock + Threads + Wait + Sync>(
    rt: &R,
    alloc: Global,
    site: &Site,
    passes: &mut [Pass],
    request: &Request,
    calls: usize,
    popped: &[Mutex<Vec<Pop>>],
) -> Option<u128>
    requires some { 0 < length passes.old }
    requires passes { All (IsPassOf site.now) passes.old }
{
    let command = Command::read(alloc, request).ok()?;
    let began = now(rt);
    pop_side_by_side(rt, alloc, site, passes, &command, calls, popped);
    Some(since(rt, began))
}

fn pop_side_by_side<R: Threads + Wait + Sync>(
    rt: &R,
    alloc: Global,
    site: &Site,
    passes: &mut [Pass],
    command: &Command<'_>,
    calls: usize,
    popped: &[Mutex<Vec<Pop>>],
)
    requires some { 0 < length passes.old }
    requires passes { All (IsPassOf site.now) passes.old }
{
    let threads = passes.len();
    for_each_mut(
        rt,
        passes,
        threads,
        &|at: usize, pass: &mut Pass|
            requires { IsPassOf site.now pass.now }
            ensures { IsPassOf site.entry.now pass.exit.now }
        {
            if let Some(own) = popped.get(at) {
                let draws = Draws::new(at as u64);
                let mut own = own.lock(rt);
                pop_in_turn(rt, alloc, site, pass, &mut own, command, draws, calls);
            }
        },
    );
}

/// Pops so many times, and keeps what was popped.
fn pop_in_turn<R: Wait>(
    rt: &R,
    alloc: Global,
    site: &Site,
    pass: &mut Pass,
    popped: &mut Vec<Pop>,
    command: &Command<'_>,
    mut draws: Draws,
    calls: usize,
)
    requires { IsPassOf site.now pass.old }
    ensures { IsPassOf site.now pass.new }
{
    for _call in 0..calls {
        if let Some(score) = pop_one(rt, alloc, site, pass, command, &mut draws) {
            let stamp = pass.stamp();
            if popped.push(Pop { stamp, score }).is_err() {
                return;
            }
        }
    }
}

/// Pops, and says what the score of the member was, if there was one.
fn pop_one<R: Wait>(
    rt: &R,
    alloc: Global,
    site: &Site,
    pass: &mut Pass,
    command: &Command<'_>,
    draws: &mut Draws,
) -> Option<i128>
    requires { IsPassOf site.now pass.old }
    ensures { IsPassOf site.now pass.new }
{
    let (w1, w2) = draws.next();
    match site.call(rt, alloc, pass, command, w1, w2) {
        Reply::Pair(_, score) => Some(score),
        _ => None,
    }
}
