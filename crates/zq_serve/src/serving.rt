//! Serving all sites.

ghost use Rattle.zq_serve.specs.Plans.{ArePlanned};

use crate::announcing::announce;
use crate::descriptors::most_clients;
use crate::fault::{Cause, ServeFault};
use crate::hashing::draw_hasher;
use crate::inboxes::Inboxes;
use crate::limits::{limits_of, warn_few};
use crate::linker::Linker;
use crate::links::open_links;
use crate::mailboxes::open_mailboxes;
use crate::plans::plans_of;
use crate::ports::open_ports;
use crate::running::run_clients;
use crate::threads::{SiteThreads, threads_of};
use log::Log;
use std::alloc::{AllocError, Global};
use std::io::Write;
use std::net::{Net, TcpListener, TcpStream};
use std::random::RandomSource;
use std::sync::Wait;
use std::thread;
use std::thread::Threads;
use std::time::Clock;
use zq_peers::{Mailbox, Silent, Straight};
use zq_posheap::Seeded;
use zq_session::{LentSite, close_sites, end_loan, lend_sites, open_sites};
use zq_settings::Settings;

/// Serves the sites of the settings in this process, each on its port on loopback: the connections
/// of a site by `workers` threads, up to so many connections at once as the limits and the
/// descriptors of the process allow. When all ports are listened on it writes `site N port P` for
/// each site to `out`, and only then accepts. It ends when each port has accepted and served as
/// many connections as `connections` says.
///
/// A connection past the greatest number gets an error, and is closed. One that is silent, or takes
/// no replies, for longer than the limits say is closed, and so is the one that is owed most where
/// too many bytes of replies wait.
///
/// Where there are several sites they are linked: after each call of a connection its site's link
/// thread tells the other sites what it has, and those that lack something are sent it. Calls that
/// were made while it did so are told of together. When all connections are done the link threads
/// are told to stop, and are waited for.
///
/// A connection that breaks the protocol, or whose device fails, ends alone, and is warned of in
/// the log as `site N protocol fault` or `site N device fault`. One that took no replies is warned
/// of as `site N unread replies`, one that was owed most as `site N output limit`. One for which
/// there is no memory ends alone too, with no warning.
///
/// # Errors
///
/// `Device`, with what failed, or `NoMemory`, before any connection was accepted.
pub fn serve<L, W>(
    log: &L,
    alloc: Global,
    settings: &Settings,
    out: &mut W,
) -> Result<(), ServeFault>
where
    L: Log
        + Net<Listener = TcpListener, Stream = TcpStream>
        + RandomSource
        + Clock
        + Threads
        + Wait
        + Sync,
    W: Write,
{
    let hasher = draw_hasher(log)?;
    let plans = plans_of(alloc, settings)?;
    let mut made = open_sites(alloc, &plans, hasher)?;
    let ended = match lend_sites(alloc, &plans, &mut made) {
        Ok(mut lent) => {
            let ended = serve_lent(log, alloc, settings, out, hasher, &mut lent);
            end_loan(lent);
            ended
        }
        Err(AllocError) => Err(ServeFault::NoMemory),
    };
    close_sites(made);
    ended
}

/// Serves the sites of the settings, which these are.
fn serve_lent<'a, L, W>(
    log: &L,
    alloc: Global,
    settings: &Settings,
    out: &mut W,
    hasher: Seeded,
    sites: &mut [LentSite<'a>],
) -> Result<(), ServeFault>
where
    L: Log + Net<Listener = TcpListener, Stream = TcpStream> + Clock + Threads + Wait + Sync,
    W: Write,
    requires { ArePlanned settings.now sites.old }
{
    let listened = settings.ports.as_slice();
    let most = most_clients(listened.len() as u64, settings.workers, 0);
    let limits = limits_of(settings.connections, &settings.limits, most);
    let mut ports = open_ports(log, alloc, listened, settings.workers, limits)?;
    let mailboxes = open_mailboxes(alloc, settings)?;
    let links = open_links(alloc, sites, hasher)?;
    announce(listened, out)?;
    for site in 0..listened.len() {
        warn_few(log, site as u64, settings.limits.clients, most);
    }
    let threads = threads_of(alloc, settings, sites, &mut ports, &links)?;
    run_all(log, alloc, threads, &mailboxes, settings.seed.value())
}

/// Runs each linker and each worker in a thread of its own. When all workers are done it sends Stop
/// to each mailbox, and waits for the linkers.
fn run_all<L: Log + Clock + Threads + Wait + Sync>(
    log: &L,
    alloc: Global,
    threads: SiteThreads<'_, '_>,
    mailboxes: &[Mailbox],
    seed: u64,
) -> Result<(), ServeFault> {
    let SiteThreads { clients, linkers } = threads;
    thread::scope(
        thread::scope_env(),
        log,
        move |scope| -> Result<(), ServeFault> {
            let mut ended = Ok(());
            for linker in linkers {
                if scope
                    .spawn(move || link_one(log, alloc, linker, mailboxes))
                    .is_err()
                {
                    ended = Err(ServeFault::Device(Cause::Thread));
                }
            }
            if ended.is_ok() {
                ended = run_clients(log, alloc, clients, Inboxes::Each(mailboxes), seed);
            }
            for mailbox in mailboxes {
                mailbox.stop(log);
            }
            ended
        },
    )
}

/// Links a site to the others, whose mailboxes these are, until it is to stop. Site N's is at place
/// N.
fn link_one<R: Wait>(rt: &R, alloc: Global, linker: Linker<'_, '_>, mailboxes: &[Mailbox]) {
    let Some(number) = linker.number() else {
        return;
    };
    let mut carrier = Straight::new(rt, number, mailboxes);
    if let Some(inbox) = mailboxes.get(usize::from(number.value())) {
        linker.run(rt, alloc, inbox, &mut carrier, &mut Silent);
    }
}
