//! What is counted of a site, as Prometheus reads it.

use crate::peer_link::PeerLink;
use crate::shared::Shared;
use std::alloc::AllocError;
use std::sync::Wait;
use std::sync::atomic::Ordering;
use std::time::Clock;
use zq_metrics::{Figures, PeerFigures, SiteFigures, write_page};

/// What is counted of a site, in the text format of Prometheus. Most of it is counted as it happens;
/// memory, connections that are open, operations and how far peers are behind are those of the last
/// second, and how large the heaps are is found by a walk over them, which begins where the last one
/// is a minute old.
pub fn metrics_page<R: Wait + Clock>(
    rt: &R,
    shared: Shared<'_>,
    is_ready: bool,
) -> Result<Vec<u8>, AllocError> {
    let alloc = shared.alloc;
    let figures = Figures {
        site: site_figures(rt, shared, is_ready),
        clients: shared.meters.clients(),
        counts: shared.meters.counters.counts(),
        heaps: shared.meters.heaps(alloc)?,
        walk: shared.front.sizes.show(rt, alloc)?,
        disk: shared.meters.disk(rt, alloc)?,
        peers: peer_figures(rt, shared)?,
    };
    let mut out = String::new(alloc);
    write_page(&mut out, &figures)?;
    Ok(out.into_bytes())
}

/// The figures of a site as a whole.
fn site_figures<R: Wait>(rt: &R, shared: Shared<'_>, is_ready: bool) -> SiteFigures {
    let mut figures = SiteFigures {
        uptime: shared.meters.uptime.get(),
        memory: shared.meters.memory.get(),
        is_ready,
        is_full: shared.admission.is_full(),
        backlog_bytes: 0,
        backlog_operations: 0,
        parked: shared.meters.parked.get(),
        dropped: shared.meters.dropped.get(),
        dropped_lines: shared.dropped_lines.load(Ordering::SeqCst),
    };
    for heap in 0..shared.logs.heaps() {
        let size = shared.logs.size(rt, heap);
        figures.backlog_bytes = figures.backlog_bytes.saturating_add(size.bytes);
        figures.backlog_operations = figures.backlog_operations.saturating_add(size.operations);
    }
    figures
}

/// The figures of the peers of the settings, and of all others that were ever linked.
fn peer_figures<R: Wait>(rt: &R, shared: Shared<'_>) -> Result<Vec<PeerFigures>, AllocError> {
    let mut all = Vec::new(shared.alloc);
    for peer_link in shared.peer_links {
        if is_shown(shared, peer_link) {
            let is_up = peer_link.is_up(rt);
            all.push(peer_link.traffic.figures(peer_link.site.value(), is_up))?;
        }
    }
    Ok(all)
}

/// Whether a peer is one of the settings, or was ever linked.
fn is_shown(shared: Shared<'_>, peer_link: &PeerLink) -> bool {
    let peers = shared.settings.peers.as_slice();
    peers.iter().any(|peer| peer.site == peer_link.site) || peer_link.traffic.is_used()
}
