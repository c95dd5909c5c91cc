//! What the threads of a site's links share.

use crate::begun::Begun;
use crate::ending::Ending;
use crate::front::Front;
use crate::halt::Halt;
use crate::hiring::Hiring;
use crate::meters::Meters;
use crate::peer_link::PeerLink;
use crate::post::{Event, Post};
use std::alloc::Global;
use std::sync::Wait;
use std::sync::atomic::AtomicU64;
use zq_dots::SiteNo;
use zq_peers::Mailbox;
use zq_replica::Logs;
use zq_serve::{Admission, Commits, Desk, Durable, Gate};
use zq_settings::{SiteSettings, SyncMode};
use zq_wire::Run;

/// What the threads of a site's links share.
#[derive(Clone, Copy)]
pub struct Shared<'a> {
    pub alloc: Global,
    pub settings: &'a SiteSettings,
    /// The run of the site; before it has begun, as it is where it keeps no log on disk.
    pub run: Run,
    /// Where it is told how the site begins.
    pub begun: &'a Begun,
    pub peer_links: &'a [PeerLink],
    /// The sites that may dial this one.
    pub dialers: &'a [SiteNo],
    /// Which commands of clients are answered.
    pub admission: &'a Admission,
    /// What clients are told that ask for no key.
    pub desk: &'a Desk,
    /// Where threads are asked for as links come.
    pub hiring: &'a Hiring,
    /// Where calls are told of.
    pub mailbox: &'a Mailbox,
    /// Where what calls made goes, for the peers.
    pub logs: &'a Logs,
    /// Where calls wait while the logs lack too much of what was made.
    pub gate: &'a Gate,
    /// Where it is told what is on the disk, where the site keeps a log there.
    pub commits: &'a Commits,
    /// Where the link thread is told what to do.
    pub post: &'a Post,
    pub halt: &'a Halt,
    /// Where who waits for the site is told how it ends.
    pub ending: &'a Ending,
    /// What is shown of the site, and how it is told to end.
    pub front: &'a Front,
    /// What is noted for those who ask.
    pub meters: &'a Meters,
    /// How many lines of the log were dropped.
    pub dropped_lines: &'a AtomicU64,
}

impl<'a> Shared<'a> {
    /// What stands before what leaves the site, where it keeps a log on disk.
    pub fn durable(self) -> Option<Durable<'a>> {
        self.settings.disk.path.as_ref()?;
        Some(Durable {
            commits: self.commits,
            mailbox: self.mailbox,
            replies_wait: self.settings.disk.sync == SyncMode::Always,
        })
    }
}

impl Shared<'_> {
    /// The link of this number to a peer is down.
    pub fn down<R: Wait>(&self, rt: &R, peer: SiteNo, link: u64) {
        let _ = self.post.leave(rt, Event::Down { peer, link });
    }

    /// The site ends: who waits for a pause or a frame is woken, and all streams are shut down.
    pub fn halt_all<R: Wait>(&self, rt: &R) {
        self.halt.tell(rt);
        for peer_link in self.peer_links {
            peer_link.halt(rt);
        }
    }
}
