//! What accepts a site's connections.

use crate::inboxes::Inboxes;
use crate::warning::Warner;
use log::Log;
use std::sync::{Mutex, Wait};
use std::time::Clock;
use zq_loop::{Acceptor, Port};
use zq_spread::Site;

/// What accepts the connections of a site's port, and hands them to its workers.
#[derive(Drop)]
pub struct ClientAcceptor<'b> {
    pub(crate) site: &'b Site,
    pub(crate) port: &'b Port,
    pub(crate) acceptor: &'b mut Acceptor,
}

impl<'b> ClientAcceptor<'b> {
    /// The port.
    pub fn port(&self) -> &'b Port {
        self.port
    }
}

impl ClientAcceptor<'_> {
    /// Accepts connections, once the gate is open, until all have come. A gate that was never
    /// opened ends it at once.
    pub(crate) fn run<L: Log + Wait + Clock>(
        self,
        log: &L,
        gate: &Mutex<bool>,
        inboxes: Inboxes<'_>,
    ) {
        if !*gate.lock(log) {
            return;
        }
        let ClientAcceptor {
            site,
            port,
            acceptor,
        } = self;
        let watch = Warner::new(log, site.number(), inboxes.counters(), None, None);
        acceptor.run(log, port, &watch);
    }
}
