//! What is warned of.

ghost use Rattle.std.specs.Prelude.{◌≡◌};
ghost use Rattle.zq_site.specs.Reports as wanted;

use crate::caller::Caller;
use crate::happening::Happening;
use crate::loss::Loss;
use crate::notice::Reason;
use crate::report::Report;
use crate::standing::Ending;
use crate::why::Why;
use std::net::SocketAddr;
use zq_dots::SiteNo;
use zq_peers::Unheard;
use zq_replica::Fenced;
use zq_wire::Refusal;

/// What a site warns of.
#[derive(Clone, Copy)]
pub enum Warning {
    /// A peer was not welcome.
    Refuses(Caller, Refusal),
    /// A peer lets this site go.
    Unwelcome(Caller, Reason),
    /// A link to a peer that was reached was not opened.
    Unopened(Caller, Ending),
    /// A peer was let go since a link to another run of its number is up.
    OtherRun(Caller),
    /// A run of this peer's number is not heard since operations of an earlier run are known.
    Reused(SiteNo),
    /// This peer let this run go since it has a link to another run of this site's number, or
    /// operations of one.
    Dismissed(SiteNo),
    /// This peer let another run of this site's number go.
    Kept(SiteNo),
    /// Another run used this site's number.
    Fenced(Fenced),
    /// This peer was not heard before the site took writes.
    Missed(SiteNo),
    /// No peer was.
    Alone,
    /// The link to this peer is down, which was at this address.
    Loses(SiteNo, Option<SocketAddr>, Loss),
    /// A frame of this peer was not heard.
    Drops(SiteNo, Unheard),
    /// A frame for this peer is too long to be sent.
    Keeps(SiteNo),
    /// The site ends, and a peer lacks something that it made.
    Leaves,
    /// The disk is full on which the site keeps its log.
    DiskFull,
}

impl Warning {
    /// What the log says of it.
    pub fn report(self) -> Report
        ensures { result ≡ wanted.of_warning self }
    {
        match self {
            Warning::Refuses(caller, refusal) => {
                Report::at(Happening::PeerRefused, caller).since(Why::Refusal(refusal))
            }
            Warning::Unwelcome(caller, reason) => {
                Report::at(Happening::RefusedByPeer, caller).since(Why::Reason(reason))
            }
            Warning::Unopened(caller, ending) => {
                Report::at(Happening::LinkNotOpened, caller).since(Why::Ending(ending))
            }
            Warning::OtherRun(caller) => {
                Report::at(Happening::PeerRefused, caller).since(Why::OtherRun)
            }
            Warning::Reused(peer) => Report::with(Happening::PeerRefused, peer).since(Why::Reused),
            Warning::Dismissed(peer) => Report::with(Happening::Fenced, peer).since(Why::Known),
            Warning::Kept(peer) => Report::with(Happening::NumberUsedTwice, peer),
            Warning::Fenced(fenced) => report_of_fence(fenced),
            Warning::Missed(peer) => Report::with(Happening::PeerNotHeard, peer),
            Warning::Alone => Report::of(Happening::NoPeerHeard),
            Warning::Loses(peer, address, loss) => report_of_loss(peer, address, loss),
            Warning::Drops(peer, why) => {
                Report::with(Happening::FrameDropped, peer).since(Why::Unheard(why))
            }
            Warning::Keeps(peer) => Report::with(Happening::FrameTooLong, peer),
            Warning::Leaves => Report::of(Happening::DrainUnfinished).since(Why::Lacking),
            Warning::DiskFull => Report::of(Happening::DiskFull),
        }
    }
}

/// What the log says where another run used this site's number.
fn report_of_fence(fenced: Fenced) -> Report
    ensures { result ≡ wanted.of_fence fenced }
{
    Report {
        heap: Some(fenced.heap),
        known: Some(fenced.known),
        made: Some(fenced.own),
        ..Report::with(Happening::Fenced, fenced.peer).since(Why::Used)
    }
}

/// What the log says of a link that is down.
fn report_of_loss(peer: SiteNo, address: Option<SocketAddr>, loss: Loss) -> Report
    ensures { result ≡ wanted.of_loss peer address loss }
{
    Report {
        address,
        ..Report::with(Happening::LinkLost, peer).since(Why::Loss(loss))
    }
}
