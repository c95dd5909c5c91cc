//! Calls of a site by its passes.
ghost use Rattle.std.specs.Prelude.{All, IfSome, ◌<◌, ◌≡◌, length};
ghost use Rattle.zq_spread.specs.Passes.{IsPassOf};

use std::alloc::Global;
use std::sync::Wait;
use std::sync::atomic::AtomicU64;
use std::sync::atomic::Ordering::SeqCst;
use std::thread::{Threads, for_each_mut};
use zq_dots::SiteNo;
use zq_resp::{Reply, Request};
use zq_spread::{Draws, Pass, Site};
use zq_words::{Command, Kind};

/// How many heaps the site has.
const HEAPS: u8 = 16;

/// A site that has done nothing, with so many passes.
pub fn opened(alloc: Global, passes: usize) -> Option<(Site, Vec<Pass>)>
    ensures number { IfSome result (λ made. length made.1.items ≡ passes) }
    ensures passes { IfSome result (λ made. All (IsPassOf made.0) made.1.items) }
{
    let number = SiteNo::new(0)?;
    Site::new(alloc, number, HEAPS, passes).ok()
}

/// The commands of requests.
pub fn read<'a>(alloc: Global, requests: &'a [Request]) -> Option<Vec<Command<'a>>> {
    let mut commands = Vec::new(alloc);
    for request in requests {
        let command = Command::read(alloc, request).ok()?;
        commands.push(command).ok()?;
    }
    Some(commands)
}

/// A pass's part of the calls: so many, which go round the commands from a place on, with the draws
/// of a seed.
#[derive(Clone, Copy, Drop)]
pub struct Turns {
    pub from: usize,
    pub calls: usize,
    pub seed: u64,
}

/// The words that a command is called with.
fn words_for(draws: &mut Draws, command: &Command<'_>) -> (u64, u64) {
    match command.kind() {
        Kind::Zpopnear { .. } => draws.next(),
        _ => (0, 0),
    }
}

/// Makes calls by a pass, and says how many of them answered an error.
pub fn call_in_turn<R: Wait>(
    rt: &R,
    alloc: Global,
    site: &Site,
    pass: &mut Pass,
    commands: &[Command<'_>],
    turns: Turns,
) -> u64
    requires { IsPassOf site.now pass.old }
    ensures { IsPassOf site.now pass.new }
{
    let mut errors = 0u64;
    let mut place = turns.from;
    let mut draws = Draws::new(turns.seed);
    for _call in 0..turns.calls {
        if place >= commands.len() {
            place = 0;
        }
        let Some(command) = commands.get(place) else {
            return errors;
        };
        let (w1, w2) = words_for(&mut draws, command);
        if let Reply::Error { .. } = site.call(rt, alloc, pass, command, w1, w2) {
            errors = errors.wrapping_add(1);
        }
        place = place.wrapping_add(1);
    }
    errors
}

/// Makes so many calls by each of the passes, in a thread of its own, and says how many of them
/// answered an error.
pub fn call_side_by_side<R: Threads + Wait + Sync>(
    rt: &R,
    alloc: Global,
    site: &Site,
    passes: &mut [Pass],
    commands: &[Command<'_>],
    calls: usize,
) -> u64
    requires some { 0 < length passes.old }
    requires passes { All (IsPassOf site.now) passes.old }
    ensures number { length passes.new ≡ length passes.old }
    ensures passes { All (IsPassOf site.now) passes.new }
{
    let threads = passes.len();
    let apart = commands.len() / threads;
    let errors = AtomicU64::new(0);
    let shared = &errors;
    for_each_mut(
        rt,
        passes,
        threads,
        &|at: usize, pass: &mut Pass|
            requires { IsPassOf site.now pass.now }
            ensures { IsPassOf site.entry.now pass.exit.now }
        {
            let turns = Turns {
                from: at.wrapping_mul(apart),
                calls,
                seed: at as u64,
            };
            let refused = call_in_turn(rt, alloc, site, pass, commands, turns);
            shared.fetch_add(refused, SeqCst);
        },
    );
    errors.load(SeqCst)
}
