//! Serving a site.

ghost use Rattle.std.specs.List.{AllZip};
ghost use Rattle.std.specs.Prelude.{◌≡◌, IfSome, List, None, Some, ◌≤◌};
ghost use Rattle.zq_journal.specs.Limits.{limits_of};
ghost use Rattle.zq_model.specs.Limits.{standard};
ghost use Rattle.zq_serve.specs.Plans.{IsManned};
ghost use Rattle.zq_session.specs.LentSites.{IsLentBy};
ghost use Rattle.zq_session.specs.declared.site_plan.SitePlan.{SitePlan as Plans};
ghost use Rattle.zq_site.specs.Site.{IsPlanOf, ended_by};

use crate::administering::open_admin;
use crate::announcing::clients_address;
use crate::begun::Begun;
use crate::ending::Ending;
use crate::front::Front;
use crate::halt::Halt;
use crate::hiring::Hiring;
use crate::meters::Meters;
use crate::note::Note;
use crate::opening::draw_run;
use crate::peer_links::{dialers_of, open_peer_links, others_of};
use crate::peer_listener::PeerListener;
use crate::post::Post;
use crate::profile::desk_of;
use crate::running::{Seeds, acceptors, run_site};
use crate::shared::Shared;
use crate::warning_log::note_of;
use log::Log;
use std::alloc::{AllocError, Global};
use std::fs::File;
use std::io::Write;
use std::net::{Net, TcpListener, TcpStream};
use std::random::RandomSource;
use std::rt::Files;
use std::sync::Wait;
use std::sync::atomic::AtomicU64;
use std::thread::{Threads, available_parallelism};
use std::time::Clock;
use zq_client::Password;
use zq_journal::TailLimits;
use zq_peers::{Link, Mailbox};
use zq_posheap::Seeded;
use zq_replica::Logs;
use zq_serve::{
    Admission, Commits, Gate, Linker, Memory, ServeFault, SiteThreads, draw_hasher, guarded,
    limits_of, listen, most_clients, most_waiting, open_port, plan_of, warn_few,
};
use zq_session::{LentSite, close_sites, end_loan, lend_sites, open_sites};
use zq_settings::{SiteSettings, WorkerCount};
use zq_store::Started;

// At most so many workers are taken where the settings do not say how many.
const MOST_WORKERS: usize = 4;

// Peers are served by the logs, so that a heap's tail keeps so many bytes of names at most beyond
// what is not in them yet.
const MOST_TAIL: u64 = 1_048_576;

// How many descriptors an admin port takes at most.
const ADMIN_CONNECTIONS: u64 = 36;

/// Serves the site of the settings in this process: the connections of its port by `workers`
/// threads, as `zq_serve::serve` does. When it listens on its port and for its peers it writes
/// `site N port P peers A` to `out`, and only then accepts. It ends when the port has accepted and
/// served as many connections as `connections` says.
///
/// It dials its peers of a smaller number, and sites of a greater number dial it: its peers, or
/// where it accepts any all that agree. After a break a peer is dialled again, after a pause that
/// doubles from 100 milliseconds to 5 seconds, and is the first one again once a frame came over a
/// link. A peer that is not expected, has another number of heaps or another rule, or does not know
/// the secret, is let go and told so, and so is another run of a number of which a link is up.
///
/// Commands that write are refused until each peer that it dials has said what it has of each heap,
/// or until it has waited for as many seconds as `alone` says. Where a peer has more operations of
/// this site's number than this run made, or has a link to another run of it, the site answers PING
/// alone, sends nothing more and ends, whatever its clients are owed. `ending` tells who waits for
/// the site as soon as that is found, since it returns once the commands that are being answered
/// are done and the system has looked up the names that it is looking up. After each call of a
/// connection the peers are told what the site has, and those that lack something are sent it. A
/// link over which nothing came for 20 seconds is given up.
///
/// Where the settings bound the memory of the process, it is looked each second how much is
/// resident. While that is more than `max_memory` commands that add are refused, and all else is
/// served.
///
/// Clients have to show this password, if there is one, before a command of theirs is answered.
/// Those that have not are a quarter of the connections at once at most, and each has ten seconds,
/// 65,536 bytes and ten attempts. What is no key's business each connection answers itself.
///
/// Where the settings have an admin port the site says there how ready it is. Told so there it takes
/// no connection any more, answers what was read, waits until its peers have what it made, for as
/// many seconds as `drain` says, and ends.
///
/// Where the settings have a folder the site keeps a log there, and begins with what it had: the
/// line to `out` is written behind that. Where the log has operations of the site's own it waits for
/// no peer before it takes writes. No frame that tells of an operation goes to a peer before that is
/// on the disk, and no reply to a client unless the settings say so; what the admin port shows does
/// not wait. Where the disk fails no frame and no reply leaves the site any more, `ending` tells who
/// waits for it at once, and this call may not return.
///
/// What goes wrong at a connection, with a peer or on a link ends that alone, and is warned of in
/// the log. The log's own handle does not connect within a time, so the net is passed beside it. How
/// many lines the log dropped is shown at the admin port.
///
/// # Errors
///
/// `Device`, with what failed, or `NoMemory`, before any connection was accepted. `Fenced` where another run used the
/// site's number.
pub fn serve_site<N, L, W>(
    net: &N,
    log: &L,
    alloc: Global,
    settings: &SiteSettings,
    password: Option<Password>,
    out: &mut W,
    ending: &Ending,
    dropped_lines: &AtomicU64,
) -> Result<(), ServeFault>
where
    N: Net<Listener = TcpListener, Stream = TcpStream> + Files<File = File> + Memory + Sync,
    N::Dir: Send,
    L: Log + RandomSource + Clock + Threads + Wait + Sync,
    W: Write,
{
    let hasher = draw_hasher(log)?;
    let workers = workers_of(log, settings.workers);
    let plans = [plan_of(
        settings.site,
        settings.heaps,
        settings.rule,
        workers,
        tails(),
    )];
    let mut made = open_sites(alloc, &plans, hasher)?;
    let ended = match lend_sites(alloc, &plans, &mut made) {
        Ok(mut lent) => {
            let ended = serve_lent(
                net,
                log,
                alloc,
                settings,
                password,
                out,
                ending,
                dropped_lines,
                workers,
                hasher,
                &mut lent,
            );
            end_loan(lent);
            ended
        }
        Err(AllocError) => Err(ServeFault::NoMemory),
    };
    close_sites(made);
    ended
}

/// Serves the site of the settings, the only one of these, by so many workers.
fn serve_lent<'a, N, L, W>(
    net: &N,
    log: &L,
    alloc: Global,
    settings: &SiteSettings,
    password: Option<Password>,
    out: &mut W,
    ending: &Ending,
    dropped_lines: &AtomicU64,
    workers: WorkerCount,
    hasher: Seeded,
    sites: &mut [LentSite<'a>],
) -> Result<(), ServeFault>
where
    N: Net<Listener = TcpListener, Stream = TcpStream> + Files<File = File> + Memory + Sync,
    N::Dir: Send,
    L: Log + RandomSource + Clock + Threads + Wait + Sync,
    W: Write,
    requires { (plans : List Plans) × IsPlanOf settings.now workers plans
        × AllZip IsLentBy plans sites.old }
{
    let Some(site) = sites.first_mut() else {
        unreachable!()
    };
    serve_one(
        net,
        log,
        alloc,
        settings,
        password,
        out,
        ending,
        dropped_lines,
        workers,
        hasher,
        site,
    )
}

/// Serves the site, which is that of the settings.
fn serve_one<'a, N, L, W>(
    net: &N,
    log: &L,
    alloc: Global,
    settings: &SiteSettings,
    password: Option<Password>,
    out: &mut W,
    ending: &Ending,
    dropped_lines: &AtomicU64,
    workers: WorkerCount,
    hasher: Seeded,
    site: &mut LentSite<'a>,
) -> Result<(), ServeFault>
where
    N: Net<Listener = TcpListener, Stream = TcpStream> + Files<File = File> + Memory + Sync,
    N::Dir: Send,
    L: Log + RandomSource + Clock + Threads + Wait + Sync,
    W: Write,
    requires { IsManned workers site.old }
{
    let listener = PeerListener::new(listen(net, settings.listen)?);
    let others = others_of(alloc, settings)?;
    let most = most_clients(1, workers, links_of(settings, others.len()));
    let limits = limits_of(settings.connections, &settings.limits, most);
    let limits = guarded(limits, password.is_some());
    let address = clients_address(settings);
    let mut port = open_port(net, alloc, address, workers, limits)?;
    let link = Link { others, hasher };
    let mut threads = SiteThreads::new(alloc);
    let other = threads.add(site, &mut port, &link)?;
    let mut drainers = Vec::new(alloc);
    let drainer = Linker::new(other, &link);
    drainers.push(drainer).map_err(AllocError::from)?;
    let logs = open_logs(alloc, settings)?;
    let heaps = settings.heaps.value() as u8;
    let peer_links = open_peer_links(alloc, &link.others, heaps)?;
    let dialers = dialers_of(alloc, settings.site, &link.others)?;
    let mailbox = open_mailbox(alloc, settings)?;
    let gate = Gate::new();
    let commits = Commits::new();
    let post = Post::new(alloc);
    let begun = Begun::new();
    let Started { run, .. } = Started::anew(draw_run(log)?);
    let admin = open_admin(net, log, alloc, settings.admin.heard_at())?;
    let number = u64::from(settings.site.value());
    warn_few(log, number, settings.limits.clients, most);
    let halt = Halt::new();
    let front = Front::new();
    let meters = open_meters(alloc, settings, workers)?;
    let hiring = Hiring::new(alloc, acceptors(dialers.len()));
    let waits = settings.alone.value() > 0 && !link.others.is_empty();
    let admission = Admission::new(settings.site, waits);
    let desk = desk_of(log, settings, password);
    let shared = Shared {
        alloc,
        settings,
        run,
        begun: &begun,
        peer_links: &peer_links,
        dialers: &dialers,
        admission: &admission,
        desk: &desk,
        hiring: &hiring,
        mailbox: &mailbox,
        logs: &logs,
        gate: &gate,
        commits: &commits,
        post: &post,
        halt: &halt,
        ending,
        front: &front,
        meters: &meters,
        dropped_lines,
    };
    let seeds = Seeds {
        hasher,
        draws: settings.seed.value(),
    };
    let ended = run_site(
        net, log, shared, &listener, threads, drainers, admin, seeds, out,
    );
    note_of(log, settings.site, Note::Stopped);
    ended_by(admission.is_fenced(), ended)
}

/// How a site ends whose threads ended so, and whose number another run may have used.
fn ended_by(is_fenced: bool, ended: Result<(), ServeFault>) -> Result<(), ServeFault>
    ensures { result ≡ ended_by is_fenced ended }
{
    if is_fenced {
        Err(ServeFault::Fenced)
    } else {
        ended
    }
}

/// How many connections the site's links take at most, where so many sites may have one: one or an
/// older one for each of these, for each peer of the settings another that is dialled or that comes
/// and its older one, and the address where peers come; and those of its admin port.
fn links_of(settings: &SiteSettings, others: usize) -> u64 {
    let peers = settings.peers.as_slice().len() as u64;
    let all = peers.saturating_add(others as u64);
    let asked = match settings.admin.address {
        Some(_) => ADMIN_CONNECTIONS,
        None => 0,
    };
    all.saturating_mul(2)
        .saturating_add(2)
        .saturating_add(asked)
}

/// So many workers as are given, and where none are as many as there are processors, 4 at most.
fn workers_of<R: Threads>(rt: &R, given: Option<WorkerCount>) -> WorkerCount
    ensures given { IfSome given (λ workers. result ≡ workers) }
    ensures few { given ≡ None → result ≤ 4 }
{
    if let Some(workers) = given {
        return workers;
    }
    let processors = match available_parallelism(rt) {
        Ok(count) => count.get().min(MOST_WORKERS) as i64,
        Err(_) => MOST_WORKERS as i64,
    };
    match WorkerCount::new(processors) {
        Some(workers) => workers,
        None => unreachable!(),
    }
}

/// The limits of the tails of the site's heaps.
fn tails() -> TailLimits
    ensures { limits_of result ≡ record standard { bytes = Some 1048576 } }
{
    TailLimits {
        bytes: Some(MOST_TAIL),
        ..TailLimits::standard()
    }
}

/// The logs of the site's heaps, which have as many bytes together as the settings say.
fn open_logs(alloc: Global, settings: &SiteSettings) -> Result<Logs, AllocError> {
    let heaps = settings.heaps.value() as u8;
    let most = settings.link_backlog.value() as u64 / u64::from(heaps.max(1));
    match &settings.disk.path {
        Some(_) => Logs::kept(alloc, heaps, most),
        None => Logs::new(alloc, heaps, most),
    }
}

/// Where it is noted what is shown of the site.
fn open_meters(
    alloc: Global,
    settings: &SiteSettings,
    workers: WorkerCount,
) -> Result<Meters, AllocError> {
    Meters::new(
        alloc,
        workers.value() as usize,
        settings.heaps.value() as u8,
    )
}

/// Where calls are told of.
fn open_mailbox(alloc: Global, settings: &SiteSettings) -> Result<Mailbox, ServeFault> {
    let peers = settings.peers.as_slice().len();
    let mailbox = Mailbox::new(alloc, most_waiting(peers, settings.heaps))?;
    Ok(mailbox)
}
