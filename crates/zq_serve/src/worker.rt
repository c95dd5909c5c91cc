//! What serves a site's connections, many of them by turns.

use crate::answerer::attending_of;
use crate::inboxes::Inboxes;
use crate::warning::Warner;
use log::Log;
use std::alloc::Global;
use std::sync::{Mutex, Wait};
use std::time::Clock;
use zq_loop::{Attended, Poller, Port};
use zq_metrics::WorkerCounters;
use zq_session::SitePass;
use zq_spread::Draws;

/// A worker of a site's port, with one of the site's passes.
#[derive(Drop)]
pub struct Worker<'b, 'a> {
    pub(crate) own: &'b mut SitePass<'a>,
    pub(crate) port: &'b Port,
    pub(crate) poller: &'b mut Poller,
}

impl<'b> Worker<'b, '_> {
    /// Serves the connections that it is handed, once the gate is open, until all have come and are
    /// served. A gate that was never opened ends it at once. After each call a Tick goes to the
    /// site's mailbox, where it has one.
    pub(crate) fn run<L: Log + Wait + Clock>(
        self,
        log: &'b L,
        alloc: Global,
        gate: &Mutex<bool>,
        inboxes: Inboxes<'b>,
        seed: u64,
    ) {
        if !*gate.lock(log) {
            return;
        }
        let Worker { own, port, poller } = self;
        let counters = own_counters(inboxes);
        let watch = Warner::new(
            log,
            own.site.number(),
            inboxes.counters(),
            counters,
            inboxes.durable(),
        );
        let answerer = attending_of(log, own, Draws::new(seed), inboxes, port, counters);
        let mut attending = Attended::new(answerer);
        poller.run(log, alloc, port, &mut attending, &watch);
    }
}

/// The counters of one more worker, where there are some.
fn own_counters<'b>(inboxes: Inboxes<'b>) -> Option<&'b WorkerCounters> {
    match inboxes.counters() {
        Some(counters) => counters.give(),
        None => None,
    }
}
