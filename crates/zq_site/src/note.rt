//! What a site notes: its changes of state that are no trouble.

ghost use Rattle.std.specs.Prelude.{◌≡◌};
ghost use Rattle.zq_site.specs.Reports as wanted;

use crate::caller::Caller;
use crate::happening::Happening;
use crate::report::{Report, RunName};
use crate::standing::Ending;
use crate::why::Why;
use std::net::SocketAddr;

/// What a site notes.
#[derive(Clone, Copy)]
pub enum Note {
    /// It listens.
    Listening(Listening),
    /// The log on disk is read, of which so many bytes were by now.
    LogReading(u64),
    /// The log on disk was read.
    LogRead(LogRead),
    /// The log on disk was switched to another file.
    LogSwitched(LogSwitched),
    /// The disk has room again.
    DiskFree,
    /// A link is up.
    LinkUp(LinkUp),
    /// A peer takes this site again.
    Accepted(Caller),
    /// The site has heard what its peers have, and takes writes.
    Joined,
    /// It has what they had then.
    CaughtUp,
    /// It was told to end.
    Stopping,
    /// It has ended.
    Stopped,
    /// Somebody who dialled this site went before a link was open.
    Left(Caller, Ending),
}

/// Where a site listens.
#[derive(Clone, Copy)]
pub struct Listening {
    /// For clients.
    pub clients: SocketAddr,
    /// For peers.
    pub links: SocketAddr,
    /// For who asks how it is.
    pub admin: Option<SocketAddr>,
}

/// A log on disk that was read.
#[derive(Clone, Copy)]
pub struct LogRead {
    /// What names its folder.
    pub folder: RunName,
    /// The number of this start.
    pub start: u64,
    /// How long the log is.
    pub bytes: u64,
    /// How many records were read.
    pub records: u64,
    /// How many milliseconds it took until the site had its heaps again.
    pub milliseconds: u64,
}

/// A log on disk that was switched to another file.
#[derive(Clone, Copy, Debug, PartialEq, Eq)]
pub struct LogSwitched {
    /// How long it was.
    pub was: u64,
    /// How long it is.
    pub bytes: u64,
}

/// A link that is up.
#[derive(Clone, Copy)]
pub struct LinkUp {
    /// The peer.
    pub caller: Caller,
    /// The version that is spoken.
    pub version: u8,
    /// What names the peer's run, where it said so.
    pub run: Option<RunName>,
}

impl Note {
    /// What the log says of it.
    pub fn report(self) -> Report
        ensures { result ≡ wanted.of_note self }
    {
        match self {
            Note::Listening(listening) => report_of_listening(listening),
            Note::LogReading(bytes) => report_of_reading(bytes),
            Note::LogRead(read) => report_of_read(read),
            Note::LogSwitched(switched) => report_of_switch(switched),
            Note::DiskFree => Report::of(Happening::DiskFree),
            Note::LinkUp(link) => report_of_link(link),
            Note::Accepted(caller) => Report::at(Happening::AcceptedByPeer, caller),
            Note::Joined => Report::of(Happening::Joined),
            Note::CaughtUp => Report::of(Happening::CaughtUp),
            Note::Stopping => Report::of(Happening::Stopping),
            Note::Stopped => Report::of(Happening::Stopped),
            Note::Left(caller, ending) => {
                Report::at(Happening::CallerLeft, caller).since(Why::Ending(ending))
            }
        }
    }
}

/// What the log says of a site that listens.
fn report_of_listening(listening: Listening) -> Report
    ensures { result ≡ wanted.of_listening listening }
{
    Report {
        clients: Some(listening.clients),
        links: Some(listening.links),
        admin: listening.admin,
        ..Report::of(Happening::Listening)
    }
}

/// What the log says of a log on disk of which so many bytes were read.
fn report_of_reading(bytes: u64) -> Report
    ensures { result ≡ wanted.of_reading bytes }
{
    Report {
        bytes: Some(bytes),
        ..Report::of(Happening::LogReading)
    }
}

/// What the log says of a log on disk that was read.
fn report_of_read(read: LogRead) -> Report
    ensures { result ≡ wanted.of_read read }
{
    Report {
        run: Some(read.folder),
        start: Some(read.start),
        bytes: Some(read.bytes),
        records: Some(read.records),
        milliseconds: Some(read.milliseconds),
        ..Report::of(Happening::LogRead)
    }
}

/// What the log says of one that was switched.
fn report_of_switch(switched: LogSwitched) -> Report
    ensures { result ≡ wanted.of_switch switched }
{
    Report {
        bytes: Some(switched.bytes),
        was: Some(switched.was),
        ..Report::of(Happening::LogSwitched)
    }
}

/// What the log says of a link that is up.
fn report_of_link(link: LinkUp) -> Report
    ensures { result ≡ wanted.of_link link }
{
    Report {
        version: Some(link.version),
        run: link.run,
        ..Report::at(Happening::LinkUp, link.caller)
    }
}
