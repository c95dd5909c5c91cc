//! This site's end of the link to a peer.

ghost use Rattle.std.specs.Prelude.{◌≡◌};
ghost use Rattle.zq_replica.specs.Passing.{is_pushed};
ghost use Rattle.zq_replica.specs.Sites.{is_end_of};

use crate::protocol::Protocol;
use crate::serving::Serving;
use std::alloc::{AllocError, Global};
use zq_dots::{SiteNo, Vector};
use zq_follow::{Follow, SiteSet};

/// What this site knows of a peer, and told it.
#[derive(Drop)]
pub(crate) struct End {
    /// The peer.
    pub(crate) peer: SiteNo,
    /// What goes over the link; `None` where it is down.
    pub(crate) protocol: Option<Protocol>,
    /// The number of the link that is up, or was last.
    pub(crate) link: u64,
    /// Whom the peer has links to; `None` until it said so.
    pub(crate) reach: Option<SiteSet>,
    /// The sites whose operations the peer asked for.
    pub(crate) asked: SiteSet,
    /// The sites that are far to the peer: no peer of its own has a link to them.
    pub(crate) far: SiteSet,
    /// What the peer was told of routes.
    pub(crate) told: ToldRoutes,
    /// The sites that this site asks of the peer since operations of theirs are overdue, and for
    /// how many calms it goes on to.
    pub(crate) overdue: SiteSet,
    pub(crate) overdue_for: u8,
    /// The heaps.
    pub(crate) heaps: Vec<HeapEnd>,
}

/// What a peer was told of routes: whom this site has links to, the sites whose operations it asks
/// of the peer, and those that are far to it.
#[derive(Clone, Copy, Debug, PartialEq, Eq)]
pub(crate) struct ToldRoutes {
    pub(crate) reach: SiteSet,
    pub(crate) ask: SiteSet,
    pub(crate) far: SiteSet,
}

/// What this site knows of a heap of a peer's.
#[derive(Drop)]
pub(crate) struct HeapEnd {
    pub(crate) follow: Follow,
    /// What the peer was known to have at the last calm.
    pub(crate) earlier: Vector,
    /// Whether the window was full at the last beat, and no At has come since.
    pub(crate) was_full: bool,
    /// What the peer had where it said that this site is behind, and could not be asked then.
    pub(crate) noted: Option<Vector>,
    /// The stream in which the peer is given the heap, if it is.
    pub(crate) serving: Option<Serving>,
}

impl ToldRoutes {
    /// Nothing was told.
    pub(crate) fn nothing() -> ToldRoutes {
        ToldRoutes {
            reach: SiteSet::empty(),
            ask: SiteSet::empty(),
            far: SiteSet::empty(),
        }
    }
}

impl HeapEnd {
    /// Nothing is known.
    fn unknown() -> HeapEnd {
        HeapEnd {
            follow: Follow::deaf(),
            earlier: Vector::new(),
            was_full: false,
            noted: None,
            serving: None,
        }
    }
}

impl End {
    /// The end of a link that is down, of a site of so many heaps.
    pub(crate) fn new(alloc: Global, peer: SiteNo, heaps: u8) -> Result<End, AllocError> {
        Ok(End {
            peer,
            protocol: None,
            link: 0,
            reach: None,
            asked: SiteSet::empty(),
            far: SiteSet::empty(),
            told: ToldRoutes::nothing(),
            overdue: SiteSet::empty(),
            overdue_for: 0,
            heaps: (0..heaps).map(|_heap| HeapEnd::unknown()).collect(alloc)?,
        })
    }

    /// The link of this number is up with this protocol, or down: all that was known of the peer is
    /// forgotten.
    pub(crate) fn begin(&mut self, link: u64, protocol: Option<Protocol>) {
        self.protocol = protocol;
        self.link = link;
        self.reach = None;
        self.asked = SiteSet::empty();
        self.far = SiteSet::empty();
        self.told = ToldRoutes::nothing();
        self.overdue = SiteSet::empty();
        self.overdue_for = 0;
        for heap in self.heaps.iter_mut() {
            *heap = HeapEnd::unknown();
        }
    }

    /// Whether it is that of the link of this number to this peer, and the link is up.
    pub(crate) fn is_of(&self, peer: SiteNo, link: u64) -> bool
        ensures { result ≡ is_end_of peer link self.now }
    {
        self.peer == peer && self.link == link && self.protocol.is_some()
    }

    /// Whether the peer pushes, and is pushed to.
    pub(crate) fn pushes(&self) -> bool
        ensures { result ≡ is_pushed self.now.protocol }
    {
        match self.protocol {
            Some(Protocol::Pushing | Protocol::Streaming) => true,
            Some(Protocol::Asking) | None => false,
        }
    }

    /// Whether the peer is given heaps in pieces.
    pub(crate) fn streams(&self) -> bool {
        self.protocol == Some(Protocol::Streaming)
    }
}
