//! Workers of which a growth is refused.
ghost use Rattle.std.specs.Prelude.{◌≡◌, All, IfSome, length};
ghost use Rattle.zq_spread.specs.Calls.{heaps_of};
ghost use Rattle.zq_spread.specs.Passes.{IsPassOf};

use std::alloc::Global;
use std::sync::Wait;
use std::thread::Threads;
use zq_dots::SiteNo;
use zq_node::{Gate, Job, WorkFault, work};
use zq_resp::{Reply, Request};
use zq_spread::{Pass, Site};
use zq_trials::{Ended, REFUSED, answer, last_pass, made, opened_with, request};
use zq_words::Command;

/// A gate that holds no call.
struct Open;

impl Gate for Open {
    fn before(&self, _call: u64) {}

    fn after(&self, _call: u64) {}
}

/// The requests of a worker.
fn requests(alloc: Global, lines: &[&str]) -> Option<Vec<Request>> {
    let mut requests = Vec::new(alloc);
    for line in lines {
        let request = request(alloc, line)?;
        requests.push(request).ok()?;
    }
    Some(requests)
}

/// A job that asks a request, if it is a command.
fn job(alloc: Global, request: &Request) -> Option<Job<'_>> {
    match Command::read(alloc, request) {
        Ok(command) => Some(Job {
            number: 0,
            command,
            w1: 0,
            w2: 0,
        }),
        Err(_) => None,
    }
}

/// A job of each request.
fn jobs<'a>(alloc: Global, requests: &'a [Request]) -> Option<Vec<Job<'a>>> {
    let mut jobs = Vec::new(alloc);
    for request in requests {
        let job = job(alloc, request)?;
        jobs.push(job).ok()?;
    }
    Some(jobs)
}

/// Two lists of jobs.
fn lists<'a>(alloc: Global, one: &'a [Request], other: &'a [Request]) -> Option<Vec<Vec<Job<'a>>>>
    ensures { IfSome result (λ lists. length lists.items ≡ 2) }
{
    let mut lists = Vec::new(alloc);
    let first = jobs(alloc, one)?;
    lists.push(first).ok()?;
    let second = jobs(alloc, other)?;
    lists.push(second).ok()?;
    Some(lists)
}

/// How many of these replies say that a member was added.
fn added(replies: &[Reply]) -> usize {
    let mut count: usize = 0;
    for reply in replies {
        if matches!(reply, Reply::Integer(1)) {
            count = count.saturating_add(1);
        }
    }
    count
}

/// How many replies of the workers say so.
fn all_added(done: &[(Vec<Reply>, Pass)]) -> usize {
    let mut count: usize = 0;
    for worker in done {
        count = count.saturating_add(added(&worker.0));
    }
    count
}

/// The lines of the workers.
const LINES: [&str; 4] = ["ZADD q 1 a", "ZADD q 2 b", "ZADD q 3 c", "ZADD q 4 d"];

/// So many lines are the first worker's, the others the second one's.
const FIRST: usize = 2;

/// What ZCARD says by how many members were added.
const COUNTS: [&str; 5] = [":0\r\n", ":1\r\n", ":2\r\n", ":3\r\n", ":4\r\n"];

/// What ZRANGE says in the end.
const ALL: &str = "*4\r\n$1\r\na\r\n$1\r\nb\r\n$1\r\nc\r\n$1\r\nd\r\n";

/// How many calls stand, of which so many say that they added a member: those that the records
/// have, if the queue has as many members. Else five. Where no call lacked memory and ZCARD does,
/// there is nothing to say.
fn count<R: Wait>(
    rt: &R,
    alloc: Global,
    site: &Site,
    looks: &mut Pass,
    added: Option<usize>,
) -> Option<usize>
    requires pass { IsPassOf site.now looks.old }
    requires heaps { heaps_of site.now ≡ 2 }
    ensures { IsPassOf site.now looks.new }
{
    let done = made(rt, alloc, site, looks)?;
    let told = answer(rt, alloc, site, looks, "ZCARD q")?;
    if added == Some(4) && told.as_slice() == REFUSED.as_bytes() {
        return None;
    }
    match COUNTS.get(done) {
        Some(owed) if told.as_slice() == owed.as_bytes() => Some(done),
        _ => Some(5),
    }
}

/// What ZRANGE says once the calls were made that are lacking.
fn last_of<R: Wait>(rt: &R, alloc: Global, site: &Site, looks: &mut Pass) -> Option<Vec<u8>>
    requires { IsPassOf site.now looks.old }
    ensures { IsPassOf site.now looks.new }
{
    for line in &LINES {
        answer(rt, alloc, site, looks, line)?;
    }
    answer(rt, alloc, site, looks, "ZRANGE q 0 -1")
}

/// How many calls of two workers say that they added a member, `None` within where the work was not
/// done to its end.
fn worked<R: Threads + Wait + Sync>(
    rt: &R,
    alloc: Global,
    site: &Site,
    passes: Vec<Pass>,
    one: &[Request],
    other: &[Request],
) -> Option<Option<usize>>
    requires count { length passes.items ≡ 2 }
    requires passes { All (IsPassOf site.now) passes.items }
{
    let lists = lists(alloc, one, other)?;
    Some(match work(rt, alloc, site, passes, lists, &Open) {
        Ok(done) => Some(all_added(&done)),
        Err(WorkFault::NoMemory | WorkFault::Start) => None,
    })
}

/// How the workers end of which so many calls say that they added a member, where so many stand and
/// ZRANGE says this in the end. Where the work was not done to its end any of its calls may stand.
fn in_the_end(added: Option<usize>, done: usize, last: &[u8]) -> Option<Ended> {
    let all = last == ALL.as_bytes();
    match added {
        Some(4) if last == REFUSED.as_bytes() => None,
        Some(4) if all && done == 4 => Some(Ended::Owed(1)),
        Some(added) if all && done == added => Some(Ended::Refused(done)),
        None if all && done < 5 => Some(Ended::Refused(done)),
        _ => Some(Ended::Wrong),
    }
}

/// How the workers end, of which so many calls say that they added a member.
fn looked_at<R: Wait>(
    rt: &R,
    alloc: Global,
    site: &Site,
    looks: &mut Pass,
    added: Option<usize>,
) -> Option<Ended>
    requires pass { IsPassOf site.now looks.old }
    requires heaps { heaps_of site.now ≡ 2 }
{
    let done = count(rt, alloc, site, looks, added)?;
    let last = last_of(rt, alloc, site, looks)?;
    in_the_end(added, done, &last)
}

/// How the workers of a new site end that have these requests, of which a third pass looks at what
/// they did.
fn at_site<R: Threads + Wait + Sync>(
    rt: &R,
    alloc: Global,
    one: &[Request],
    other: &[Request],
) -> Option<Ended> {
    let (site, mut passes) = opened_with(alloc, SiteNo::new(0)?, 3)?;
    let mut looks = last_pass(&site, &mut passes)?;
    let added = worked(rt, alloc, &site, passes, one, other)?;
    looked_at(rt, alloc, &site, &mut looks, added)
}

/// Two workers add two members each. Where one has no memory the calls that were made stand.
pub fn workers<R: Threads + Wait + Sync>(rt: &R, alloc: Global) -> Option<Ended> {
    let one = requests(alloc, &LINES[..FIRST])?;
    let other = requests(alloc, &LINES[FIRST..])?;
    at_site(rt, alloc, &one, &other)
}
