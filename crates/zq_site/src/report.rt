//! What a line of a site's log says.

ghost use Rattle.std.specs.List.{FoldsTo};
ghost use Rattle.std.specs.Prelude.{IfSome, OnOk, ◌≡◌};
ghost use Rattle.zq_site.specs.Fields.{field};
ghost use Rattle.zq_site.specs.Reports as wanted;

use crate::caller::Caller;
use crate::happening::Happening;
use crate::why::Why;
use log::kv;
use log::kv::{Source, Value, VisitSource};
use std::fmt;
use std::net::SocketAddr;
use zq_dots::SiteNo;
use zq_wire::RUN;

/// What names a run of a site. It shows as 32 digits to the base 16.
#[derive(Clone, Copy, Debug, PartialEq, Eq)]
pub struct RunName(pub [u8; RUN]);

impl fmt::Display for RunName {
    fn fmt<W: fmt::Write>(&self, f: &mut fmt::Formatter<W>) -> fmt::Result {
        for byte in self.0 {
            write!(f, "{byte:02x}")?;
        }
        Ok(())
    }
}

/// What a line of a site's log says: what happened, and of what. What is none is not written.
#[derive(Clone, Copy)]
pub struct Report {
    pub what: Happening,
    /// The number of a peer.
    pub peer: Option<SiteNo>,
    /// Where it is.
    pub address: Option<SocketAddr>,
    /// The version of a link.
    pub version: Option<u8>,
    /// The run of the peer.
    pub run: Option<RunName>,
    /// Why it happened.
    pub reason: Option<Why>,
    /// A heap in which a peer knows more of this site's operations than this run made.
    pub heap: Option<u8>,
    /// How many the peer knows.
    pub known: Option<u64>,
    /// How many this run made.
    pub made: Option<u64>,
    /// Which start of the site it is, of those that its log on disk has.
    pub start: Option<u64>,
    /// How many bytes that log has.
    pub bytes: Option<u64>,
    /// How many it had before.
    pub was: Option<u64>,
    /// How many records of it were read.
    pub records: Option<u64>,
    /// How many milliseconds that took.
    pub milliseconds: Option<u64>,
    /// Where this site listens for clients.
    pub clients: Option<SocketAddr>,
    /// Where it listens for peers.
    pub links: Option<SocketAddr>,
    /// Where it is asked how it is.
    pub admin: Option<SocketAddr>,
}

impl Report {
    /// This happened, of which nothing else is said.
    pub fn of(what: Happening) -> Report
        ensures { result ≡ wanted.of what }
    {
        Report {
            what,
            peer: None,
            address: None,
            version: None,
            run: None,
            reason: None,
            heap: None,
            known: None,
            made: None,
            start: None,
            bytes: None,
            was: None,
            records: None,
            milliseconds: None,
            clients: None,
            links: None,
            admin: None,
        }
    }

    /// This happened with this peer.
    pub fn with(what: Happening, peer: SiteNo) -> Report
        ensures { result ≡ wanted.with_peer what peer }
    {
        Report {
            peer: Some(peer),
            ..Report::of(what)
        }
    }

    /// This happened with a peer at this address.
    pub fn at(what: Happening, caller: Caller) -> Report
        ensures { result ≡ wanted.at what caller }
    {
        Report {
            peer: caller.site,
            address: Some(caller.address),
            ..Report::of(what)
        }
    }

    /// The same, for this reason.
    pub fn since(self, reason: Why) -> Report
        ensures { result ≡ wanted.since self reason }
    {
        Report {
            reason: Some(reason),
            ..self
        }
    }
}

impl Source for Report {
    ghost use Rattle.zq_site.specs.Fields.{pairs_of};

    ghost pairs = { pairs_of };

    /// Gives what it says as pairs, whose keys are the names of the fields.
    fn visit<V: VisitSource>(&self, visitor: &mut V) -> Result<(), kv::Error> {
        self.visit_peer(visitor)?;
        self.visit_link(visitor)?;
        self.visit_counts(visitor)?;
        self.visit_disk(visitor)?;
        self.visit_places(visitor)
    }
}

impl Report {
    ghost use Rattle.std.specs.List.{FoldsTo};
    ghost use Rattle.std.specs.Prelude.{IfSome, OnOk};
    ghost use Rattle.zq_site.specs.Fields.{
      count_pairs,
      disk_pairs,
      link_pairs,
      peer_pairs,
      place_pairs,
    };

    /// Of whom it is.
    fn visit_peer<V: VisitSource>(&self, visitor: &mut V) -> Result<(), kv::Error>
        ensures { OnOk result (IfSome (peer_pairs self.now)
            (λ ps. FoldsTo V.visit_pair_gives visitor.old ps visitor.new)) }
    {
        visit_some(visitor, "peer", number_of(self.peer))?;
        visit_some(visitor, "address", self.address)
    }

    /// Of which link, and why.
    fn visit_link<V: VisitSource>(&self, visitor: &mut V) -> Result<(), kv::Error>
        ensures { OnOk result (IfSome (link_pairs self.now)
            (λ ps. FoldsTo V.visit_pair_gives visitor.old ps visitor.new)) }
    {
        visit_some(visitor, "version", self.version)?;
        visit_some(visitor, "run", self.run)?;
        visit_some(visitor, "reason", self.reason)
    }

    /// What is counted.
    fn visit_counts<V: VisitSource>(&self, visitor: &mut V) -> Result<(), kv::Error>
        ensures { OnOk result (IfSome (count_pairs self.now)
            (λ ps. FoldsTo V.visit_pair_gives visitor.old ps visitor.new)) }
    {
        visit_some(visitor, "heap", self.heap)?;
        visit_some(visitor, "known", self.known)?;
        visit_some(visitor, "made", self.made)
    }

    /// How it stands with the log on disk.
    fn visit_disk<V: VisitSource>(&self, visitor: &mut V) -> Result<(), kv::Error>
        ensures { OnOk result (IfSome (disk_pairs self.now)
            (λ ps. FoldsTo V.visit_pair_gives visitor.old ps visitor.new)) }
    {
        visit_some(visitor, "start", self.start)?;
        visit_some(visitor, "bytes", self.bytes)?;
        visit_some(visitor, "was", self.was)?;
        visit_some(visitor, "records", self.records)?;
        visit_some(visitor, "milliseconds", self.milliseconds)
    }

    /// Where the site listens.
    fn visit_places<V: VisitSource>(&self, visitor: &mut V) -> Result<(), kv::Error>
        ensures { OnOk result (IfSome (place_pairs self.now)
            (λ ps. FoldsTo V.visit_pair_gives visitor.old ps visitor.new)) }
    {
        visit_some(visitor, "clients", self.clients)?;
        visit_some(visitor, "links", self.links)?;
        visit_some(visitor, "admin", self.admin)
    }
}

/// The number of a site, where there is one.
fn number_of(site: Option<SiteNo>) -> Option<u8>
    ensures { result ≡ site }
{
    match site {
        Some(site) => Some(site.value()),
        None => None,
    }
}

/// Gives a pair, where there is a value.
fn visit_some<V: VisitSource, T: fmt::Display + Drop>(
    visitor: &mut V,
    key: &str,
    value: Option<T>,
) -> Result<(), kv::Error>
    ensures { OnOk result (IfSome (field key.now T.output value)
        (λ ps. FoldsTo V.visit_pair_gives visitor.old ps visitor.new)) }
{
    match value {
        Some(value) => visitor.visit_pair(key, Value::Display(&value)),
        None => Ok(()),
    }
}
