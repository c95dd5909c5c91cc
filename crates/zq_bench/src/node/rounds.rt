//! Operations that are made at one site and caught up by another one, round by round.
ghost use Rattle.zq_node.specs.Node.{IsNode};
ghost use Rattle.zq_spread.specs.Passes.{IsPassOf};

use crate::clock::{now, since};
use crate::node::catching::{catch_up, have_equal_vectors};
use crate::node::making::{add_members, number_of};
use crate::node::sites::{HEAPS, opened};
use crate::node::traffic::Traffic;
use std::alloc::Global;
use std::rt::Clock;
use std::sync::Wait;
use zq_dots::{Rule, SiteNo};
use zq_node::Node;
use zq_spread::{Pass, Site};

/// How many operations are made, and after how many each the other site catches up.
#[derive(Clone, Copy)]
pub struct Plan {
    pub operations: u32,
    pub round: u32,
}

/// Nanoseconds of the operations, and of the catching up.
#[derive(Clone, Copy)]
pub struct Times {
    pub make: u128,
    pub catch_up: u128,
}

/// What was done, and what the two sites have after it.
#[derive(Clone, Copy)]
pub struct Outcome {
    pub members: [i64; 2],
    pub are_equal: bool,
    pub times: Times,
    pub traffic: Traffic,
}

/// The greater node asks after each round what the lesser one made, and answers the time and the
/// traffic of it all.
fn run_rounds<R: Wait + Clock>(
    rt: &R,
    alloc: Global,
    plan: Plan,
    site: &Site,
    pass: &mut Pass,
    asked: &mut Node,
    asker: &mut Node,
) -> Option<(Times, Traffic)>
    requires pass { IsPassOf site.now pass.old }
    requires asked { IsNode asked.old }
    requires asker { IsNode asker.old }
    ensures pass { IsPassOf site.now pass.new }
    ensures asked { IsNode asked.new }
    ensures asker { IsNode asker.new }
{
    let round = plan.round.max(1);
    let mut times = Times {
        make: 0,
        catch_up: 0,
    };
    let mut traffic = Traffic::new();
    for turn in 0..plan.operations.div_ceil(round) {
        let first = turn.saturating_mul(round);
        let end = first.saturating_add(round).min(plan.operations);
        let began = now(rt);
        add_members(rt, alloc, site, pass, first, end)?;
        times.make = times.make.saturating_add(since(rt, began));
        let began = now(rt);
        catch_up(rt, alloc, asker, asked, &mut traffic)?;
        times.catch_up = times.catch_up.saturating_add(since(rt, began));
    }
    Some((times, traffic))
}

/// What came of the rounds, and whether both nodes have the same vectors then.
#[derive(Clone, Copy)]
struct Met {
    times: Times,
    traffic: Traffic,
    are_equal: bool,
}

/// Runs the rounds, and compares the vectors of the nodes.
fn meet<R: Wait + Clock>(
    rt: &R,
    alloc: Global,
    plan: Plan,
    site: &Site,
    pass: &mut Pass,
    asked: &mut Node,
    asker: &mut Node,
) -> Option<Met>
    requires pass { IsPassOf site.now pass.old }
    requires asked { IsNode asked.old }
    requires asker { IsNode asker.old }
    ensures pass { IsPassOf site.now pass.new }
{
    let (times, traffic) = run_rounds(rt, alloc, plan, site, pass, asked, asker)?;
    let are_equal = have_equal_vectors(rt, alloc, asker, asked)?;
    Some(Met {
        times,
        traffic,
        are_equal,
    })
}

/// How many members the board has at a site.
fn members_at<R: Wait>(rt: &R, alloc: Global, site: &Site, pass: &mut Pass) -> Option<i64>
    requires { IsPassOf site.now pass.old }
{
    number_of(rt, alloc, site, pass, "ZCARD board")
}

/// The outcome, where all of it is there.
fn outcome_of(met: Option<Met>, first: Option<i64>, second: Option<i64>) -> Option<Outcome> {
    let Met {
        times,
        traffic,
        are_equal,
    } = met?;
    Some(Outcome {
        members: [first?, second?],
        are_equal,
        times,
        traffic,
    })
}

/// Site 0 makes the operations, and site 1 catches up with it.
pub fn catch_up_in_rounds<R: Wait + Clock>(rt: &R, alloc: Global, plan: Plan) -> Option<Outcome> {
    let numbers = [SiteNo::new(0)?, SiteNo::new(1)?];
    let (zero, zero_pass, mut maker) = opened(alloc, numbers[0])?;
    let (one, one_pass, mut reader) = opened(alloc, numbers[1])?;
    let mut asked = Node::new(alloc, &zero, zero_pass);
    let mut asker = Node::new(alloc, &one, one_pass);
    let met = meet(rt, alloc, plan, &zero, &mut maker, &mut asked, &mut asker);
    let first = members_at(rt, alloc, &zero, &mut maker);
    let second = members_at(rt, alloc, &one, &mut reader);
    outcome_of(met, first, second)
}
