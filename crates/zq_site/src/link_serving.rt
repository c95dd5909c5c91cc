//! A link over a stream, from its opening to its end.

ghost use Rattle.std.specs.Prelude.{◌≡◌};
ghost use Rattle.zq_site.specs.Meetings.{protocol_for};
ghost use Rattle.zq_site.specs.Standings.{sign_at_end};

use crate::caller::Caller;
use crate::loss::Loss;
use crate::note::{LinkUp, Note};
use crate::notice::{Notice, Reason, write_notice};
use crate::opening::{PUSHING, STREAMING, Told, Way, open_link};
use crate::parting::{part, reason_for};
use crate::peer_link::{PeerLink, Raised};
use crate::peer_links::peer_link_of;
use crate::post::Event;
use crate::reading::{Ear, read_link};
use crate::reception::Reception;
use crate::report::RunName;
use crate::shared::Shared;
use crate::standing::{Ending, Sign, Standing};
use crate::times;
use crate::upkeep::{Upkeep, keep_up};
use crate::warning::Warning;
use crate::warning_log::{note_of, warn_of};
use log::Log;
use std::net::TcpStream;
use std::random::RandomSource;
use std::sync::{Arc, Wait};
use std::time::Clock;
use zq_dots::SiteNo;
use zq_replica::Protocol;
use zq_wire::{Opened, Refusal, Unopened};

/// How a peer was met.
#[derive(Clone, Copy, Debug, PartialEq, Eq)]
pub enum Met {
    /// A link was up, and a frame of the peer was heard. A greeting that agrees is no sign that
    /// this site is welcome there.
    Heard,
    /// Nothing was heard, or nothing that agrees.
    Silent,
    /// The peer asks to be greeted in the old form.
    Old,
    /// Nobody accepted.
    Unreached,
}

/// Opens a link to one of these peers over the stream, which was dialled or accepted, and reads it
/// until it ends. It says how the peer was met. Who was refused is warned of, and so is what there
/// is to say of how the peer takes this site, of which this was said last.
pub fn serve_link<L: Log + RandomSource + Clock + Wait>(
    log: &L,
    shared: Shared<'_>,
    stream: TcpStream,
    caller: Caller,
    peers: &[SiteNo],
    way: Way,
    standing: &mut Standing,
) -> Met {
    let _ = stream.set_nodelay(true);
    let mut told = Told::nothing();
    match open_link(log, shared, &stream, peers, way, &mut told) {
        Ok(opened) => follow(log, shared, stream, caller, &opened, standing),
        Err(Unopened::Refused(refusal)) => {
            refuse(log, shared, &stream, named(caller, told.site), refusal);
            Met::Silent
        }
        Err(Unopened::Old) => Met::Old,
        Err(Unopened::Lost) => {
            let is_dialled = matches!(way, Way::Dials(_));
            let caller = named(caller, told.site);
            match sign_at_end(is_dialled, told.reason, told.ending) {
                Some(sign) => see(log, shared, caller, sign, standing),
                None => note_of(log, shared.settings.site, Note::Left(caller, told.ending)),
            }
            Met::Silent
        }
    }
}

/// The caller, with the number that it told where none was known.
fn named(caller: Caller, told: Option<SiteNo>) -> Caller {
    Caller {
        site: caller.site.or(told),
        address: caller.address,
    }
}

/// Lets a peer go that is not welcome, which is warned of. It is told why where it may not see that
/// by itself.
fn refuse<L: Log + Clock + Wait>(
    log: &L,
    shared: Shared<'_>,
    stream: &TcpStream,
    caller: Caller,
    refusal: Refusal,
) {
    warn_of(log, shared.settings.site, Warning::Refuses(caller, refusal));
    if let Some(reason) = reason_for(refusal) {
        part(log, shared, stream, Notice::Unwelcome(reason));
    }
}

/// What is seen of a link that was not opened, of which this came at the end, where anything is.
fn sign_at_end(is_dialled: bool, reason: Option<Reason>, ending: Ending) -> Option<Sign>
    ensures { result ≡ sign_at_end is_dialled reason ending }
{
    match (reason, is_dialled) {
        (Some(reason), _) => Some(Sign::Refusal(reason)),
        (None, true) => Some(Sign::Unopened(ending)),
        (None, false) => None,
    }
}

/// Says what there is to say as this is seen of a peer, unless the site ends.
fn see<L: Log + Wait>(
    log: &L,
    shared: Shared<'_>,
    caller: Caller,
    sign: Sign,
    standing: &mut Standing,
) {
    if shared.halt.is_over(log) {
        return;
    }
    let mut reception = Reception {
        log,
        site: shared.settings.site,
        caller,
        standing: *standing,
    };
    reception.see(sign);
    *standing = reception.standing;
}

/// What goes over a link of this version.
fn protocol_of(version: u8) -> Protocol
    ensures { result ≡ protocol_for version }
{
    if version < PUSHING {
        Protocol::Asking
    } else if version < STREAMING {
        Protocol::Pushing
    } else {
        Protocol::Streaming
    }
}

/// Puts a link that was opened in the place of an older one, and keeps it until it ends. Where a
/// link to another run of the peer's number is up, both runs are told. It says how the peer was
/// met.
fn follow<L: Log + Clock + Wait>(
    log: &L,
    shared: Shared<'_>,
    stream: TcpStream,
    caller: Caller,
    opened: &Opened,
    standing: &mut Standing,
) -> Met {
    let peer = opened.peer;
    let Some(peer_link) = peer_link_of(shared.peer_links, peer) else {
        return Met::Silent;
    };
    let _ = stream.set_read_timeout(Some(times::silence()));
    let Ok(stream) = Arc::new(shared.alloc, stream) else {
        return Met::Silent;
    };
    let Ok(other) = Arc::try_clone(&stream) else {
        return Met::Silent;
    };
    let protocol = protocol_of(opened.version);
    let number = match peer_link.raise(log, other, protocol, opened.run) {
        Raised::Up(number) => number,
        Raised::OtherRun => {
            refuse_run(log, shared, &stream, named(caller, Some(peer)), peer_link);
            return Met::Silent;
        }
        Raised::Over => return Met::Silent,
    };
    if peer_link.wants_writer() && !shared.hiring.ask_writer(log, peer) {
        peer_link.lacks_writer();
    }
    let mut kept = LinkUpkeep {
        log,
        shared,
        peer_link,
        number,
        protocol,
        stream: &stream,
        opened,
        caller: named(caller, Some(peer)),
        standing: *standing,
        heard: false,
        refused: false,
    };
    keep_up(&mut kept);
    *standing = kept.standing;
    if kept.heard { Met::Heard } else { Met::Silent }
}

/// What there is to say of a link to this peer that is up.
fn up_of(caller: Caller, opened: &Opened) -> LinkUp {
    let run = match opened.run {
        Some(run) => Some(RunName(run.name)),
        None => None,
    };
    LinkUp {
        caller,
        version: opened.version,
        run,
    }
}

/// Tells a run of a peer's number, and the other one, that the one is let go since the other is
/// linked.
fn refuse_run<L: Log + Clock + Wait>(
    log: &L,
    shared: Shared<'_>,
    stream: &TcpStream,
    caller: Caller,
    peer_link: &PeerLink,
) {
    warn_of(log, shared.settings.site, Warning::OtherRun(caller));
    if let Ok(frame) = write_notice(shared.alloc, Notice::Kept) {
        peer_link.send(log, frame);
    }
    part(log, shared, stream, Notice::Refused);
}

/// A link that is up.
#[derive(Drop)]
struct LinkUpkeep<'a, L: Log + Wait> {
    log: &'a L,
    shared: Shared<'a>,
    peer_link: &'a PeerLink,
    number: u64,
    protocol: Protocol,
    stream: &'a TcpStream,
    opened: &'a Opened,
    caller: Caller,
    /// What was said last of how the peer takes this site.
    standing: Standing,
    /// Whether a frame of the peer was heard.
    heard: bool,
    /// Whether the peer said that it lets this site go.
    refused: bool,
}

impl<L: Log + Wait> Upkeep for LinkUpkeep<'_, L> {
    ghost use Rattle.std.specs.Prelude.{◌≡◌};

    ghost does = { λ old deed new. new.number ≡ old.number };

    fn tell(&mut self) {
        let up = Event::Up {
            peer: self.opened.peer,
            link: self.number,
            protocol: self.protocol,
        };
        let _ = self.shared.post.leave(self.log, up);
    }

    fn hear(&mut self) -> Loss {
        let mut reader = self.stream;
        let reception = Reception {
            log: self.log,
            site: self.shared.settings.site,
            caller: self.caller,
            standing: self.standing,
        };
        let mut ear = Ear {
            reception,
            up: up_of(self.caller, self.opened),
            post: self.shared.post,
            quota: &self.peer_link.quota,
            traffic: &self.peer_link.traffic,
            peer: self.opened.peer,
            link: self.number,
            heard: false,
            refused: false,
        };
        let first = self.opened.first.as_slice();
        let loss = read_link(self.log, self.shared.alloc, &mut reader, &mut ear, first);
        self.standing = ear.reception.standing;
        self.heard = ear.heard;
        self.refused = ear.refused;
        loss
    }

    fn lower(&mut self) -> bool {
        let was_up = self.peer_link.lower(self.log, self.number);
        if was_up {
            self.shared.down(self.log, self.opened.peer, self.number);
        }
        was_up
    }

    /// Where the peer let this site go that was said, and is no loss.
    fn warn(&mut self, loss: Loss) {
        if self.refused {
            return;
        }
        let address = Some(self.caller.address);
        let warning = Warning::Loses(self.opened.peer, address, loss);
        warn_of(self.log, self.shared.settings.site, warning);
    }
}
