//! What writes to the log of a site.

use crate::happening::Happening;
use crate::note::Note;
use crate::report::Report;
use crate::unreached::Unreached;
use crate::warning::Warning;
use log::{Log, Metadata, Record, log, target_or};
use zq_dots::SiteNo;
use zq_settings::Peer;

/// Writes a warning of a site to the log.
pub fn warn_of<L: Log>(log: &L, site: SiteNo, warning: Warning) {
    say(log, site, warning.report());
}

/// Writes a note of a site to the log.
pub fn note_of<L: Log>(log: &L, site: SiteNo, note: Note) {
    say(log, site, note.report());
}

/// Writes a report of a site to the log: the number of the site, what happened, and pairs.
fn say<L: Log>(log: &L, site: SiteNo, report: Report) {
    let metadata = Metadata::new(report.what.level(), target_or(log, module_path!()));
    if log.enabled(&metadata) {
        let (site, words) = (site.value(), report.what.words());
        let args = format_args!("site={site} {words}");
        log.log(&Record::new(metadata, args, report, ()));
    }
}

/// Writes to the log that a site cannot dial a peer, and why.
pub fn warn_unreached<L: Log>(log: &L, site: SiteNo, peer: &Peer, why: Unreached) {
    say_of_peer(log, site, Happening::PeerUnreachable, peer, Some(why));
}

/// Writes to the log that a site cannot dial a peer, as before, and why.
pub fn tell_failed_dial<L: Log>(log: &L, site: SiteNo, peer: &Peer, why: Unreached) {
    say_of_peer(log, site, Happening::DialFailed, peer, Some(why));
}

/// Writes to the log that a site reaches a peer again.
pub fn note_reached<L: Log>(log: &L, site: SiteNo, peer: &Peer) {
    say_of_peer(log, site, Happening::PeerReachable, peer, None);
}

/// Writes to the log what happened with a peer at its address of the settings, and why, where that
/// is said.
fn say_of_peer<L: Log>(
    log: &L,
    site: SiteNo,
    what: Happening,
    peer: &Peer,
    why: Option<Unreached>,
) {
    let (site, words) = (site.value(), what.words());
    let number = peer.site.value();
    let address = &peer.address;
    match why {
        Some(why) => {
            log!(log; what.level(), peer = number, address:% = address, reason:% = why; "site={site} {words}");
        }
        None => {
            log!(log; what.level(), peer = number, address:% = address; "site={site} {words}");
        }
    }
}
