//! The threads of a drill.

use crate::calling::call_rounds;
use crate::drill_site::SITES;
use crate::fault::DrillFault;
use crate::linking::run_link;
use crate::site_handle::SiteHandle;
use std::alloc::{AllocError, Global};
use std::sync::{Mutex, Wait};
use std::thread;
use std::thread::Threads;
use zq_peers::{Incoming, Mailbox};

/// How many messages wait for a link thread.
const MOST_WAITING: usize = 1024;

/// What a drill is to do: its seed, and how often each site is called.
#[derive(Clone, Copy)]
pub struct DrillOptions {
    pub seed: u64,
    pub rounds: u32,
}

/// Keeps the first fault.
fn note<R: Wait>(rt: &R, first: &Mutex<Option<DrillFault>>, fault: DrillFault) {
    let mut kept = first.lock(rt);
    if kept.is_none() {
        *kept = Some(fault);
    }
}

/// An empty mailbox for each site.
fn open_inboxes(alloc: Global) -> Result<Vec<Mailbox>, AllocError> {
    let mut inboxes = Vec::new(alloc);
    for _ in 0..SITES {
        inboxes.push(Mailbox::new(alloc, MOST_WAITING)?)?;
    }
    Ok(inboxes)
}

/// Runs each caller in a thread of its own, and returns when all are done.
fn call_all<R: Threads + Wait + Sync>(
    rt: &R,
    alloc: Global,
    callers: Vec<SiteHandle>,
    inboxes: &[Mailbox],
    plan: DrillOptions,
    first: &Mutex<Option<DrillFault>>,
) {
    thread::scope(thread::scope_env(), rt, move |scope| {
        for (handle, inbox) in callers.into_iter().zip(inboxes) {
            let work = move || {
                let mut handle = handle;
                let called = call_rounds(rt, alloc, &mut handle, inbox, plan.seed, plan.rounds);
                if let Err(fault) = called {
                    note(rt, first, fault);
                }
            };
            if scope.spawn(work).is_err() {
                note(rt, first, DrillFault::Device);
            }
        }
    });
}

/// Runs each caller and each link in a thread of its own. When all callers are done the links are
/// stopped, and when all links have stopped it returns.
pub fn run_all<R: Threads + Wait + Sync>(
    rt: &R,
    alloc: Global,
    callers: Vec<SiteHandle>,
    links: Vec<SiteHandle>,
    plan: DrillOptions,
) -> Result<(), DrillFault> {
    let inboxes = open_inboxes(alloc)?;
    let fault = Mutex::new(None);
    let (inboxes, first) = (inboxes.as_slice(), &fault);
    thread::scope(thread::scope_env(), rt, move |scope| {
        for (handle, inbox) in links.into_iter().zip(inboxes) {
            let work = move || {
                let mut incoming = Incoming::new(rt, inbox);
                if run_link(rt, alloc, handle, &mut incoming, inboxes, plan.seed).is_err() {
                    note(rt, first, DrillFault::NoMemory);
                }
            };
            if scope.spawn(work).is_err() {
                note(rt, first, DrillFault::Device);
            }
        }
        call_all(rt, alloc, callers, inboxes, plan, first);
        for inbox in inboxes {
            inbox.stop(rt);
        }
    });
    match fault.into_inner() {
        None => Ok(()),
        Some(fault) => Err(fault),
    }
}
