//! What can happen to a site, as its log says it.

ghost use Rattle.std.specs.Prelude.{◌≡◌};
ghost use Rattle.zq_site.specs.Happenings.{level_of, words_of};

use log::Level;

/// What can happen to a site, as its log says it.
#[derive(Clone, Copy, Debug, PartialEq, Eq)]
pub enum Happening {
    /// Somebody who dialled this site, or was dialled, was let go.
    PeerRefused,
    /// A peer lets this site go.
    RefusedByPeer,
    /// A link to a peer that was reached was not opened.
    LinkNotOpened,
    /// Another run used this site's number: it ends.
    Fenced,
    /// Another run uses this site's number, and a peer let that one go.
    NumberUsedTwice,
    /// A peer was not heard before the site took writes.
    PeerNotHeard,
    /// No peer was.
    NoPeerHeard,
    /// A link that was up is down.
    LinkLost,
    /// A frame of a peer was not heard.
    FrameDropped,
    /// A frame for a peer is too long to be sent.
    FrameTooLong,
    /// A peer cannot be dialled.
    PeerUnreachable,
    /// The site ends before its peers have what it made.
    DrainUnfinished,
    /// The disk is full on which the site keeps its log: changes are refused.
    DiskFull,
    /// The site listens for clients, for peers, and for who asks how it is.
    Listening,
    /// The log on disk is read, which takes long.
    LogReading,
    /// The log on disk was read, and the site goes on with what it has.
    LogRead,
    /// The log on disk was switched to another file, which begins with copies of the heaps.
    LogSwitched,
    /// The disk has room again.
    DiskFree,
    /// A link is up, and a frame of the peer came.
    LinkUp,
    /// A peer can be dialled again.
    PeerReachable,
    /// A peer that had let this site go takes it again.
    AcceptedByPeer,
    /// The site has heard what its peers have, and takes writes.
    Joined,
    /// It has what they had then.
    CaughtUp,
    /// It was told to end.
    Stopping,
    /// It has ended.
    Stopped,
    /// Somebody who dialled this site went before a link was open.
    CallerLeft,
    /// A peer cannot be dialled, as before.
    DialFailed,
}

impl Happening {
    /// Which lines say it: a warning where an operator may have to do something, a note where the
    /// state of the site changes, and for the rest what helps to find out why.
    pub fn level(self) -> Level
        ensures { result ≡ level_of self }
    {
        match self {
            Happening::PeerRefused
            | Happening::RefusedByPeer
            | Happening::LinkNotOpened
            | Happening::Fenced
            | Happening::NumberUsedTwice
            | Happening::PeerNotHeard
            | Happening::NoPeerHeard
            | Happening::LinkLost
            | Happening::FrameDropped
            | Happening::FrameTooLong
            | Happening::PeerUnreachable
            | Happening::DrainUnfinished
            | Happening::DiskFull => Level::Warn,
            Happening::Listening
            | Happening::LogReading
            | Happening::LogRead
            | Happening::LogSwitched
            | Happening::DiskFree
            | Happening::LinkUp
            | Happening::PeerReachable
            | Happening::AcceptedByPeer
            | Happening::Joined
            | Happening::CaughtUp
            | Happening::Stopping
            | Happening::Stopped => Level::Info,
            Happening::CallerLeft | Happening::DialFailed => Level::Debug,
        }
    }

    /// The words that say it. With the number of the site before them the first two make the kind
    /// of the line, and no two happenings share them.
    pub fn words(self) -> &'static str
        ensures { result.now ≡ words_of self }
    {
        match self {
            Happening::PeerRefused => "peer refused",
            Happening::RefusedByPeer => "refused by peer",
            Happening::LinkNotOpened => "link not opened",
            Happening::Fenced => "fenced",
            Happening::NumberUsedTwice => "number used twice",
            Happening::PeerNotHeard => "peer not heard",
            Happening::NoPeerHeard => "no peer heard",
            Happening::LinkLost => "link lost",
            Happening::FrameDropped => "frame dropped",
            Happening::FrameTooLong => "frame too long",
            Happening::PeerUnreachable => "peer unreachable",
            Happening::DrainUnfinished => "drain unfinished",
            Happening::DiskFull => "disk full",
            Happening::Listening => "listening",
            Happening::LogReading => "log reading",
            Happening::LogRead => "log read",
            Happening::LogSwitched => "log switched",
            Happening::DiskFree => "disk free",
            Happening::LinkUp => "link up",
            Happening::PeerReachable => "peer reachable",
            Happening::AcceptedByPeer => "accepted by peer",
            Happening::Joined => "joined",
            Happening::CaughtUp => "caught up",
            Happening::Stopping => "stopping",
            Happening::Stopped => "stopped",
            Happening::CallerLeft => "caller left",
            Happening::DialFailed => "dial failed",
        }
    }
}
