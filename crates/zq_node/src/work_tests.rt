//! Workers of a site of two heaps.
ghost use Rattle.std.specs.Prelude.{◌≡◌, All, length};
ghost use Rattle.zq_spread.specs.Passes.{IsPassOf};

use crate::{Gate, Job, work};
use std::alloc::Global;
use std::process::Abort;
use std::sync::Wait;
use std::sync::atomic::AtomicBool;
use std::sync::atomic::Ordering::SeqCst;
use std::thread::{Threads, yield_now};
use zq_dots::SiteNo;
use zq_resp::{Reader, Reply, Request};
use zq_spread::{Pass, Site};
use zq_words::Command;

/// A call is held for at most so many turns.
const MOST_TURNS: u32 = 10_000_000;

/// A gate that holds no call.
struct Open;

impl Gate for Open {
    fn before(&self, _call: u64) {}

    fn after(&self, _call: u64) {}
}

/// A gate that holds call 1 until call 2 was answered.
#[derive(Drop)]
struct OneAfterTwo {
    answered: AtomicBool,
    missed: AtomicBool,
}

impl Gate for OneAfterTwo {
    fn before(&self, call: u64) {
        if call != 1 {
            return;
        }
        for _ in 0..MOST_TURNS {
            if self.answered.load(SeqCst) {
                return;
            }
            yield_now();
        }
        self.missed.store(true, SeqCst);
    }

    fn after(&self, call: u64) {
        if call == 2 {
            self.answered.store(true, SeqCst);
        }
    }
}

/// Site 0 of two heaps, with so many passes.
fn opened(rt: &impl Abort, alloc: Global, passes: usize) -> (Site, Vec<Pass>)
    ensures all { All (IsPassOf result.0) result.1.items }
    ensures number { length result.1.items ≡ passes }
{
    let number = SiteNo::new(0).expect(rt, "a number");
    Site::new(alloc, number, 2, passes).expect(rt, "a site")
}

/// The requests `ZADD q N M` for each N from 10 up to `end`, where M is the letter with N, or with
/// 10 if it is to be the same.
fn puts(rt: &impl Abort, alloc: Global, letter: char, is_same: bool, end: u8) -> Vec<Request> {
    let mut bytes = Vec::new(alloc);
    for n in 10..end.min(100) {
        let member = if is_same { 10 } else { n };
        let text = format!(in alloc;
            "*4\r\n$4\r\nZADD\r\n$1\r\nq\r\n$2\r\n{n}\r\n$3\r\n{letter}{member}\r\n"
        );
        bytes
            .extend_from_slice(text.expect(rt, "memory").as_bytes())
            .expect(rt, "memory");
    }
    Reader::new()
        .feed(alloc, bytes.as_slice())
        .expect(rt, "requests")
}

/// A job of each request, numbered from `first`.
fn jobs_of<'a>(
    rt: &impl Abort,
    alloc: Global,
    requests: &'a [Request],
    first: u64,
) -> Vec<Job<'a>> {
    let mut jobs = Vec::new(alloc);
    let mut number = first;
    for request in requests {
        let command = Command::read(alloc, request).expect(rt, "a command");
        let job = Job {
            number,
            command,
            w1: 0,
            w2: 0,
        };
        jobs.push(job).expect(rt, "memory");
        number = number.wrapping_add(1);
    }
    jobs
}

/// Two lists of jobs, the first numbered from 1, the second from 2.
fn lists_of<'a>(
    rt: &impl Abort,
    alloc: Global,
    one: &'a [Request],
    other: &'a [Request],
) -> Vec<Vec<Job<'a>>>
    ensures { length result.items ≡ 2 }
{
    let mut lists = Vec::new(alloc);
    lists.push(jobs_of(rt, alloc, one, 1)).expect(rt, "memory");
    lists
        .push(jobs_of(rt, alloc, other, 2))
        .expect(rt, "memory");
    lists
}

/// What two workers give for these requests, on a new site.
fn worked<G: Gate, R: Threads + Wait + Sync + Abort>(
    rt: &R,
    alloc: Global,
    one: &[Request],
    other: &[Request],
    gate: &G,
) -> Vec<(Vec<Reply>, Pass)> {
    let lists = lists_of(rt, alloc, one, other);
    let (site, passes) = opened(rt, alloc, 2);
    work(rt, alloc, &site, passes, lists, gate).expect(rt, "work")
}

/// How many of the replies are 1.
fn ones(replies: &[Reply]) -> usize {
    let mut ones = 0usize;
    for reply in replies {
        if let Reply::Integer(1) = reply {
            ones = ones.wrapping_add(1);
        }
    }
    ones
}

#[test]
fn each_list_has_its_replies_and_its_pass(rt: HostRuntime) {
    let one = puts(&rt, rt.alloc(), 'a', false, 30);
    let other = puts(&rt, rt.alloc(), 'b', true, 30);
    let done = worked(&rt, rt.alloc(), &one, &other, &Open);
    assert!(rt; done.len() == 2);
    for ((replies, pass), added) in done.iter().zip([20usize, 1]) {
        assert!(rt; replies.len() == 20 && ones(replies) == added);
        assert!(rt; pass.steps(0).wrapping_add(pass.steps(1)) == 20);
    }
}

#[test]
fn two_calls_are_under_way_at_once(rt: HostRuntime) {
    let gate = OneAfterTwo {
        answered: AtomicBool::new(false),
        missed: AtomicBool::new(false),
    };
    let one = puts(&rt, rt.alloc(), 'a', false, 11);
    let other = puts(&rt, rt.alloc(), 'b', false, 11);
    let done = worked(&rt, rt.alloc(), &one, &other, &gate);
    assert!(rt; done.len() == 2);
    assert!(rt; gate.answered.load(SeqCst) && !gate.missed.load(SeqCst));
}

#[test]
fn no_lists_give_an_empty_list(rt: HostRuntime) {
    let (site, _) = opened(&rt, rt.alloc(), 1);
    let lists = Vec::new(rt.alloc());
    let done = work(&rt, rt.alloc(), &site, Vec::new(rt.alloc()), lists, &Open);
    assert!(rt; done.expect(&rt, "work").is_empty());
}
