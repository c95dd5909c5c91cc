//! The admin port of a site.

use crate::metrics_page::metrics_page;
use crate::note::Note;
use crate::peers_shown::peers_shown;
use crate::shared::Shared;
use crate::times::draining;
use crate::warning::Warning;
use crate::warning_log::{note_of, warn_of};
use log::Log;
use std::alloc::{AllocError, Global};
use std::net::{Net, SocketAddr, TcpListener, TcpStream};
use std::random::RandomSource;
use std::sync::Wait;
use std::time::Clock;
use zq_admin::{AdminPort, Desk, PAGE, Page, Readiness, peers_page};
use zq_loop::Port;
use zq_serve::{ServeFault, fault_of};

/// What the admin port of a site stands before.
#[derive(Drop)]
pub struct SiteDesk<'a, L: Log + Clock + Wait> {
    pub log: &'a L,
    pub shared: Shared<'a>,
    /// The port of the site's clients.
    pub port: Option<&'a Port>,
}

impl<L: Log + Clock + Wait> Desk for SiteDesk<'_, L> {
    // What is shown changes by itself.
    ghost gives = { λ _ _ _. Unit {0} };

    fn token(&self) -> Option<&str> {
        match &self.shared.settings.admin.token {
            Some(token) => Some(token.as_str()),
            None => None,
        }
    }

    fn readiness(&self) -> Readiness {
        let admission = self.shared.admission;
        let front = self.shared.front;
        front.readiness(admission.is_fenced(), admission.waits())
    }

    fn show(&self, page: Page) -> Option<Vec<u8>> {
        page_of(self.log, self.shared, page, self.readiness()).ok()
    }

    fn stop(&self) {
        if !self.shared.front.stop() {
            note_of(self.log, self.shared.settings.site, Note::Stopping);
        }
        if let Some(port) = self.port {
            port.stop();
        }
    }

    fn goes_on(&self) -> bool {
        !self.shared.halt.is_over(self.log)
    }
}

/// The site is told to end, where a connection asked for that.
pub fn heed_shutdown<L: Log>(log: &L, shared: Shared<'_>) {
    if shared.desk.is_ended() && !shared.front.stop() {
        note_of(log, shared.settings.site, Note::Stopping);
    }
}

/// The text of a page of a site that is so ready. Where the largest keys are asked for they may be
/// looked for from now on.
fn page_of<L: Clock + Wait>(
    log: &L,
    shared: Shared<'_>,
    page: Page,
    readiness: Readiness,
) -> Result<Vec<u8>, AllocError> {
    match page {
        Page::Front => Vec::from_slice(shared.alloc, PAGE.as_bytes()).map_err(AllocError::from),
        Page::Metrics => metrics_page(log, shared, readiness.is_ready()),
        Page::Peers => {
            let site = shared.settings.site.value();
            peers_page(shared.alloc, site, &peers_shown(log, shared)?)
        }
        Page::Keys(count) => {
            let shown = shared.front.survey.show(log, shared.alloc, count);
            shared.mailbox.tick(log);
            shown
        }
    }
}

/// Listens for who asks, where the settings say where.
pub fn open_admin<N, R>(
    net: &N,
    rt: &R,
    alloc: Global,
    address: Option<SocketAddr>,
) -> Result<Option<AdminPort>, ServeFault>
where
    N: Net<Listener = TcpListener, Stream = TcpStream>,
    R: RandomSource,
{
    let Some(address) = address else {
        return Ok(None);
    };
    match AdminPort::open(net, rt, alloc, address) {
        Ok(port) => Ok(Some(port)),
        Err(error) => Err(fault_of(address, error.kind())),
    }
}

/// Answers who asks, until the site ends.
pub fn serve_admin<L: Log + Clock + Wait>(
    log: &L,
    shared: Shared<'_>,
    port: Option<&Port>,
    mut admin: AdminPort,
) {
    admin.run(log, &SiteDesk { log, shared, port });
}

/// Waits until its peers have what a site made that was told to end and serves no client any more,
/// for as long as the settings say. One that may have no peer waits for none.
pub fn pass_on<L: Log + Clock + Wait>(log: &L, shared: Shared<'_>) {
    if shared.peer_links.is_empty() {
        return;
    }
    shared.front.leave();
    shared.post.call(log);
    let most = draining(shared.settings.drain.value());
    if !shared.front.wait(log, most) {
        warn_of(log, shared.settings.site, Warning::Leaves);
    }
}
