//! What hears a peer.

ghost use Rattle.std.specs.Io.KnownBytes.{Consumes};
ghost use Rattle.std.specs.Prelude.{IfErr, IfOk, IfSome, List, OnErr, [], ℕ, ◌≡◌, ◌≢◌};
ghost use Rattle.zq_site.specs.Heard.{AreHeard, IsOfStream, end_of};
ghost use Rattle.zq_site.specs.Standings.{sign_of};
ghost use Rattle.zq_site.specs.Standings.{sign_of};
ghost use Rattle.zq_wire.specs.StreamLaws.{given_by};
ghost use Rattle.zq_wire.specs.Stream.{answered, frames_in};

use crate::loss::Loss;
use crate::note::{LinkUp, Note};
use crate::notice::{Notice, read_notice};
use crate::post::{Event, Post};
use crate::quota::Quota;
use crate::reception::Reception;
use crate::standing::Sign;
use crate::times::{PIECE, most_frame};
use crate::traffic::Traffic;
use crate::warning_log::note_of;
use log::Log;
use std::alloc::Global;
use std::io::{ErrorKind, Read};
use std::sync::Wait;
use zq_dots::SiteNo;
use zq_wire::{Reader, StreamError};

/// What hears frames.
pub trait Hear {
    /// What stands before, the frame's bytes, and what stands after.
    ghost hears: { Self → List ℕ → Self → Type 0 };

    /// Hears a frame.
    fn hear(&mut self, frame: Vec<u8>)
        ensures { hears self.old frame.items self.new };
}

/// Leaves the frames of a peer at the site's post, and says how the peer takes this site.
#[derive(Drop)]
pub struct Ear<'a, L: Log + Wait> {
    pub reception: Reception<'a, L>,
    /// What is said of the link as the first frame comes.
    pub up: LinkUp,
    pub post: &'a Post,
    /// How much of what the peer sent may wait.
    pub quota: &'a Quota,
    /// What went over the links to the peer.
    pub traffic: &'a Traffic,
    pub peer: SiteNo,
    /// The number of the link.
    pub link: u64,
    /// Whether a frame came.
    pub heard: bool,
    /// Whether the peer said that it lets this site go.
    pub refused: bool,
}

impl<L: Log + Wait> Hear for Ear<'_, L> {
    ghost use Rattle.std.specs.Prelude.{◌≡◌};
    ghost use Rattle.zq_site.specs.Standings.{has_heard, is_refused, sign_of, standing_after};

    ghost hears = { λ old frame new. (new.peer ≡ old.peer) × (new.link ≡ old.link)
        × (new.reception.standing ≡ standing_after old.reception.standing (sign_of frame))
        × (new.heard ≡ has_heard old.heard (sign_of frame))
        × (new.refused ≡ is_refused old.refused (sign_of frame)) };

    fn hear(&mut self, frame: Vec<u8>) {
        self.traffic.come(frame.len() as u64);
        let sign = sign_of(&frame);
        self.reception.see(sign);
        match sign {
            Sign::Refusal(_) => self.refused = true,
            Sign::Unopened(_) => {}
            Sign::Frame => {
                self.note_up();
                self.heard = true;
                let log = self.reception.log;
                leave_frame(log, self.post, self.quota, self.peer, self.link, frame);
            }
        }
    }
}

impl<L: Log + Wait> Ear<'_, L> {
    /// Says that the link is up, where no frame came before.
    fn note_up(&self) {
        if !self.heard {
            let (log, site) = (self.reception.log, self.reception.site);
            note_of(log, site, Note::LinkUp(self.up));
        }
    }
}

/// What is seen by a frame of a peer: that the peer lets this site go, or that it takes it.
fn sign_of(frame: &[u8]) -> Sign
    ensures { result ≡ sign_of frame.now }
{
    match read_notice(frame) {
        Some(Notice::Unwelcome(reason)) => Sign::Refusal(reason),
        Some(Notice::Refused | Notice::Kept) | None => Sign::Frame,
    }
}

/// Leaves a frame at the site's post, once as much may wait of what the peer sent.
fn leave_frame<R: Wait>(
    rt: &R,
    post: &Post,
    quota: &Quota,
    peer: SiteNo,
    link: u64,
    frame: Vec<u8>,
) {
    let length = frame.len() as u64;
    quota.enter(rt, length);
    let event = Event::Frame {
        peer,
        link,
        bytes: frame,
    };
    if post.leave(rt, event).is_err() {
        // There was no memory: it is lost, and what the peer tells from time to time shows it.
        quota.leave(rt, length);
    }
}

/// Reads the frames of a peer, which begin with these bytes, and has them heard in their order,
/// until the link ends. It says why.
pub fn read_link<W: Wait, R: Read, H: Hear>(
    rt: &W,
    alloc: Global,
    source: &mut R,
    ear: &mut H,
    first: &[u8],
) -> Loss {
    let mut reader = Reader::new(alloc, most_frame());
    if let Err(loss) = hear_on(ear, reader.feed(alloc, first)) {
        return loss;
    }
    let Ok(mut piece) = vec![in alloc; 0u8; PIECE] else {
        return Loss::NoMemory;
    };
    for _ in rt.forever() {
        let fed = match read_piece(source, &mut piece) {
            Ok(bytes) => reader.feed(alloc, bytes),
            Err(loss) => return loss,
        };
        if let Err(loss) = hear_on(ear, fed) {
            return loss;
        }
    }
    unreachable!()
}

/// The bytes that come next. There may be none where a signal came.
fn read_piece<'a, R: Read>(source: &mut R, piece: &'a mut [u8]) -> Result<&'a [u8], Loss>
    ensures read { IfOk result
        (λ bytes. Consumes (R.remaining source.old) (R.remaining source.new) bytes.now) }
    ensures ended { IfErr result IsOfStream }
    ensures none { OnErr result (Consumes (R.remaining source.old) (R.remaining source.new) []) }
{
    match source.read(piece) {
        Ok(0) => Err(Loss::Closed),
        Ok(count) => Ok(&piece[..count]),
        Err(error) => match stopped_by(error.kind()) {
            Some(loss) => Err(loss),
            None => Ok(&[]),
        },
    }
}

/// Why a link ends whose stream failed so, if it does: a signal ends nothing.
fn stopped_by(kind: ErrorKind) -> Option<Loss>
    ensures signal { kind ≡ ErrorKind.Interrupted → result ≡ None }
    ensures silent { kind ≡ ErrorKind.WouldBlock → result ≡ Some Loss.Silent }
    ensures broken { kind ≢ ErrorKind.Interrupted → kind ≢ ErrorKind.WouldBlock
        → result ≡ Some Loss.Broken }
    ensures stream { IfSome result IsOfStream }
{
    match kind {
        ErrorKind::Interrupted => None,
        ErrorKind::WouldBlock => Some(Loss::Silent),
        _ => Some(Loss::Broken),
    }
}

/// Has the frames heard that end in a piece, in their order, and says why the link ends, if it
/// does: the frames before a fault are heard.
fn hear_on<H: Hear>(ear: &mut H, fed: Result<Vec<Vec<u8>>, StreamError>) -> Result<(), Loss>
    ensures heard { AreHeard H.hears ear.old ear.new (given_by (answered fed)) }
    ensures ended { result ≡ end_of (answered fed) }
{
    match fed {
        Ok(frames) => {
            hear_all(ear, frames);
            Ok(())
        }
        Err(StreamError { fault, before }) => {
            hear_all(ear, before);
            Err(Loss::from(fault))
        }
    }
}

/// Has the frames heard in their order.
fn hear_all<H: Hear>(ear: &mut H, frames: Vec<Vec<u8>>)
    ensures { AreHeard H.hears ear.old ear.new (frames_in frames) }
{
    for frame in frames {
        ear.hear(frame);
    }
}
