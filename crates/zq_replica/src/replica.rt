//! A site among its peers.

ghost use Rattle.std.specs.Prelude.{IfOk, IsTrue, ◌≡◌};
ghost use Rattle.zq_links.specs.Control.{IsHeapOf};
ghost use Rattle.zq_replica.specs.Joined.{IsNewSite};
ghost use Rattle.zq_replica.specs.Sites.{is_up, place_of};

use crate::catching::Catching;
use crate::end::End;
use crate::fence::Fenced;
use crate::gathering::Gathering;
use crate::joining::Joining;
use crate::lives::{Portioning, lives};
use crate::logs::Logs;
use crate::spelling::Spelling;
use std::alloc::{AllocError, Global};
use zq_dots::{Rule, SITES, SiteNo};
use zq_follow::SiteSet;
use zq_posheap::Seeded;
use zq_stage::PortionLimits;

/// How many operations of a heap a peer may have under way to a site at least.
pub const LEAST_WINDOW: u64 = 256;

/// How many operations of a heap a peer may have under way to a site which parks so many, and has
/// so many peers and heaps: together no more than are parked, but at least [`LEAST_WINDOW`] each.
pub fn window_for(parked: usize, peers: usize, heaps: u8) -> u64 {
    let shares = (peers as u64).saturating_mul(u64::from(heaps)).max(1);
    (parked as u64 / shares).max(LEAST_WINDOW)
}

/// What a site knows of its peers: what each has, and will have once it has heard what is under
/// way.
#[derive(Drop)]
pub struct Replica<'l> {
    pub(crate) own: SiteNo,
    pub(crate) heaps: u8,
    pub(crate) rule: Rule,
    /// By what states lie that are heard.
    pub(crate) hasher: Seeded,
    /// How many operations of a heap each peer may have under way to this site.
    pub(crate) window: u64,
    /// The logs of the heaps.
    pub(crate) logs: &'l Logs,
    pub(crate) ends: Vec<End>,
    /// For each heap, from which peer the last new operation of each site came.
    pub(crate) sources: Vec<[Option<SiteNo>; SITES]>,
    /// For each heap, how the last frame of operations was spelt.
    pub(crate) spellings: Vec<Option<Spelling>>,
    /// The heap that is fetched from a peer, if one is.
    pub(crate) catching: Option<Catching>,
    /// The heap that comes in pieces, as far as it came: the one that is fetched, or one that broke
    /// off and may go on.
    pub(crate) gathering: Option<Gathering>,
    /// The life of each heap.
    pub(crate) lives: Vec<u64>,
    /// How much of a heap goes at once.
    pub(crate) limits: PortionLimits,
    /// How many beats there were since the last calm.
    pub(crate) beats: u8,
    /// What was heard since the site began.
    pub(crate) joining: Joining,
    /// What proves that another run used the site's number, if anything does.
    pub(crate) fenced: Option<Fenced>,
}

impl<'l> Replica<'l> {
    /// The site of this number, with so many heaps and this rule, none of whose links to these
    /// peers is up. Each peer may have so many operations of a heap under way to it. What the heaps
    /// make is in these logs, one for each heap. They go to peers in pieces so.
    pub fn new(
        alloc: Global,
        own: SiteNo,
        heaps: u8,
        rule: Rule,
        hasher: Seeded,
        window: u64,
        logs: &'l Logs,
        portioning: Portioning,
        peers: &[SiteNo],
    ) -> Result<Replica<'l>, AllocError>
        ensures { IfOk result (IsNewSite own heaps) }
    {
        let mut ends = Vec::new(alloc);
        for peer in peers {
            ends.push(End::new(alloc, *peer, heaps)?)?;
        }
        let mut sources = Vec::new(alloc);
        let mut spellings = Vec::new(alloc);
        for _heap in 0..heaps {
            sources.push([None; SITES])?;
            spellings.push(None)?;
        }
        Ok(Replica {
            own,
            heaps,
            rule,
            hasher,
            window,
            logs,
            ends,
            sources,
            spellings,
            catching: None,
            gathering: None,
            lives: lives(alloc, heaps, portioning.life)?,
            limits: portioning.limits,
            beats: 0,
            joining: Joining::new(alloc, heaps)?,
            fenced: None,
        })
    }

    /// Ends it. What was known of the peers goes here, so that its owner drops no part of it.
    pub fn close(self) {
        drop(self);
    }

    /// Whether this is one of the site's heaps, of which there are 16 at most.
    pub(crate) fn has_heap(&self, heap: u8) -> bool
        ensures { IsTrue result → IsHeapOf self.now.heaps heap }
    {
        1 <= self.heaps && self.heaps <= 16 && heap < self.heaps
    }

    /// The place of the end of the link of this number to this peer, where that link is up.
    pub(crate) fn place_of(&self, peer: SiteNo, link: u64) -> Option<usize>
        ensures { result ≡ place_of peer link self.now }
    {
        self.ends.iter().position(|end| end.is_of(peer, link))
    }

    /// Whether the link of this number to a peer is up, by what was told last.
    pub fn is_up(&self, peer: SiteNo, link: u64) -> bool
        ensures { result ≡ is_up peer link self.now }
    {
        self.place_of(peer, link).is_some()
    }

    /// From now on each peer may have so many operations of a heap under way to this site. It is told
    /// with what this site has.
    pub fn set_window(&mut self, window: u64) {
        self.window = window;
    }

    /// How many peers this site has links to.
    pub fn links(&self) -> usize {
        self.ends
            .iter()
            .filter(|end| end.protocol.is_some())
            .count()
    }

    /// The peers that this site has links to.
    pub(crate) fn linked(&self) -> SiteSet {
        let mut linked = SiteSet::empty();
        for end in self.ends.iter() {
            if end.protocol.is_some() {
                linked = linked.with(end.peer);
            }
        }
        linked
    }
}
