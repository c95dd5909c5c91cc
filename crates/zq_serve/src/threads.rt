//! What works for sites.

ghost use Rattle.std.specs.Prelude.{All, IfOk, OnOk, [], length, map, ◌++◌, ◌≡◌};
ghost use Rattle.zq_serve.specs.Plans.{ArePlanned, IsManned};
ghost use Rattle.zq_serve.specs.Ports.{IsOpen};
ghost use Rattle.zq_serve.specs.SiteThreads.{AreLinksOf, HasThreads, HaveThreads, link_to, links_of, served, served_at, served_by, served_lent};
ghost use Rattle.zq_session.specs.LentSites.{sites_of};

use crate::client_acceptor::ClientAcceptor;
use crate::linker::Linker;
use crate::ports::OpenPort;
use crate::worker::Worker;
use std::alloc::{AllocError, Global};
use zq_loop::{Poller, Port as ClientPort};
use zq_peers::Link;
use zq_session::{LentSite, SitePass};
use zq_settings::Settings;

/// What serves the clients of sites.
#[derive(Drop)]
pub struct ClientThreads<'b, 'a> {
    /// The workers of each site.
    pub workers: Vec<Worker<'b, 'a>>,
    /// What accepts the connections of each site.
    pub acceptors: Vec<ClientAcceptor<'b>>,
}

/// What works for sites: what serves their clients, and a linker for each site that is not alone.
#[derive(Drop)]
pub struct SiteThreads<'b, 'a> {
    /// What serves clients.
    pub clients: ClientThreads<'b, 'a>,
    /// The linkers.
    pub linkers: Vec<Linker<'b, 'a>>,
}

impl<'b, 'a> SiteThreads<'b, 'a> {
    /// Nobody. It takes no memory.
    pub fn new(alloc: Global) -> SiteThreads<'b, 'a>
        ensures workers { result.clients.workers.items ≡ [] }
        ensures acceptors { result.clients.acceptors.items ≡ [] }
        ensures linkers { result.linkers.items ≡ [] }
    {
        let clients = ClientThreads {
            workers: Vec::new(alloc),
            acceptors: Vec::new(alloc),
        };
        SiteThreads {
            clients,
            linkers: Vec::new(alloc),
        }
    }

    /// Appends what works for a site at a port: an acceptor, a worker for each of its passes, and a
    /// linker with the spare pass where the site has others beside it. It gives the other spare pass.
    ///
    /// `NoMemory`: then some may have been appended.
    pub fn add(
        &mut self,
        site: &'b mut LentSite<'a>,
        opened: &'b mut OpenPort,
        link: &'b Link,
    ) -> Result<&'b mut Option<SitePass<'a>>, AllocError>
        requires site { IsManned (length opened.old.pollers.items) site.old }
        ensures threads { OnOk result (HasThreads (served_lent site.old)
            (length opened.old.pollers.items) link.now.others.items self.old self.new) }
        ensures other { IfOk result (λ other. other.now ≡ site.old.other) }
    {
        let OpenPort {
            port,
            acceptor,
            pollers,
        } = opened;
        let own = site.site;
        add_linker(&mut site.spare, link, &mut self.linkers)?;
        add_workers(&mut site.passes, port, pollers, &mut self.clients.workers)?;
        let client_acceptor = ClientAcceptor {
            site: own,
            port,
            acceptor,
        };
        self.clients.acceptors.push(client_acceptor)?;
        Ok(&mut site.other)
    }
}

/// Appends a linker with this pass where the site has others beside it.
fn add_linker<'b, 'a>(
    spare: &'b mut Option<SitePass<'a>>,
    link: &'b Link,
    linkers: &mut Vec<Linker<'b, 'a>>,
) -> Result<(), AllocError>
    ensures { OnOk result (links_of linkers.new.items ≡ links_of linkers.old.items
        ++ link_to (served_at spare.old) link.now.others.items) }
{
    if link.others.is_empty() {
        return Ok(());
    }
    linkers.push(Linker { spare, link })?;
    Ok(())
}

/// Appends a worker for each of the passes, each with a poller of its own.
fn add_workers<'b, 'a>(
    passes: &'b mut [SitePass<'a>],
    port: &'b ClientPort,
    pollers: &'b mut [Poller],
    workers: &mut Vec<Worker<'b, 'a>>,
) -> Result<(), AllocError>
    requires { length pollers.old ≡ length passes.old }
    ensures { OnOk result (served_by workers.new.items ≡ served_by workers.old.items
        ++ map served (sites_of passes.old)) }
{
    let mut pollers = pollers.iter_mut();
    let rest = passes.iter_mut();
    for own in rest {
        let Some(poller) = pollers.next() else {
            unreachable!()
        };
        let worker = Worker { own, port, poller };
        workers.push(worker)?;
    }
    Ok(())
}

/// Gives what works for the sites of the settings, each at the port and with the link of its place.
pub fn threads_of<'b, 'a>(
    alloc: Global,
    settings: &Settings,
    sites: &'b mut [LentSite<'a>],
    ports: &'b mut [OpenPort],
    links: &'b [Link],
) -> Result<SiteThreads<'b, 'a>, AllocError>
    requires sites { ArePlanned settings.now sites.old }
    requires number { length ports.old ≡ length settings.now.ports }
    requires ports { All (IsOpen settings.now.workers) ports.old }
    requires links { AreLinksOf sites.old links.now }
    ensures { IfOk result (HaveThreads settings.now) }
{
    let mut threads = SiteThreads::new(alloc);
    let mut ports = ports.iter_mut();
    let mut links = links.iter();
    let rest = sites.iter_mut();
    for site in rest {
        let Some(opened) = ports.next() else {
            unreachable!()
        };
        let Some(link) = links.next() else {
            unreachable!()
        };
        let _ = threads.add(site, opened, link)?;
    }
    Ok(threads)
}
