//! Running what serves the clients of sites.

use crate::fault::{Cause, ServeFault};
use crate::inboxes::Inboxes;
use crate::threads::ClientThreads;
use log::Log;
use std::alloc::Global;
use std::sync::{Mutex, Wait};
use std::thread;
use std::thread::Threads;
use std::time::Clock;

/// Runs all that serves clients, each in a thread of its own, and waits until all connections have
/// come and are served. Nobody begins before all threads have started: where one does not start,
/// nobody is served.
///
/// `Device` where a thread did not start.
pub fn run_clients<L: Log + Clock + Threads + Wait + Sync>(
    log: &L,
    alloc: Global,
    clients: ClientThreads<'_, '_>,
    inboxes: Inboxes<'_>,
    seed: u64,
) -> Result<(), ServeFault> {
    let ClientThreads { workers, acceptors } = clients;
    let gate = Mutex::new(false);
    let gate = &gate;
    thread::scope(
        thread::scope_env(),
        log,
        move |scope| -> Result<(), ServeFault> {
            let mut open = gate.lock(log);
            for worker in workers {
                if scope
                    .spawn(move || worker.run(log, alloc, gate, inboxes, seed))
                    .is_err()
                {
                    return Err(ServeFault::Device(Cause::Thread));
                }
            }
            for client_acceptor in acceptors {
                if scope
                    .spawn(move || client_acceptor.run(log, gate, inboxes))
                    .is_err()
                {
                    return Err(ServeFault::Device(Cause::Thread));
                }
            }
            *open = true;
            Ok(())
        },
    )
}
