//! The link to a peer, which threads share.

ghost use Rattle.std.specs.Arc.{arc_value};
ghost use Rattle.std.specs.Prelude.{IfOk, IfSome, IsNone, [], is_some, ◌≡◌, ◌≢◌};
ghost use Rattle.zq_site.specs.FrameQueues.{frames_of};
ghost use Rattle.zq_site.specs.LinkStates.{IsHeartbeat, IsTaken, IsTurn};

use crate::link_state::{Connection, LinkState};
use crate::quota::Quota;
use crate::run_order::Runs;
use crate::times::heartbeat;
use crate::traffic::Traffic;
use std::alloc::{AllocError, Global};
use std::net::{Shutdown, TcpStream};
use std::sync::atomic::{AtomicBool, Ordering};
use std::sync::{Arc, Condvar, Mutex, Wait};
use std::time::Clock;
use zq_dots::SiteNo;
use zq_replica::Protocol;
use zq_wire::Run;

/// The link to a peer, and what waits for it.
#[derive(Drop)]
pub struct PeerLink {
    /// The peer.
    pub site: SiteNo,
    /// How much of what the peer sent waits for the link thread.
    pub quota: Quota,
    /// What went over the links.
    pub traffic: Traffic,
    alloc: Global,
    state: Mutex<LinkState<Arc<TcpStream>>>,
    changed: Condvar,
    /// What is known of the runs of the peer's number.
    runs: Mutex<Runs>,
    /// Whether a thread writes the links, or is asked for.
    is_written: AtomicBool,
    /// Whether it is waited for that the link takes more.
    is_awaited: AtomicBool,
}

/// What became of a link that was opened.
#[derive(Clone, Copy, Debug, PartialEq, Eq)]
pub enum Raised {
    /// It is up, and has this number.
    Up(u64),
    /// A link to another run of the peer's number is up, and stays.
    OtherRun,
    /// The site ends.
    Over,
}

/// Frames that go over a link.
#[derive(Drop)]
pub struct QueuedFrames {
    /// The link's number.
    pub number: u64,
    /// Its stream.
    pub stream: Arc<TcpStream>,
    /// The frames, in their order.
    pub frames: Vec<Vec<u8>>,
}

impl PeerLink {
    /// No link to this peer, of a site of so many heaps.
    pub fn new(alloc: Global, site: SiteNo, heaps: u8) -> Result<PeerLink, AllocError>
        ensures { IfOk result (λ peer_link. peer_link.site ≡ site) }
    {
        Ok(PeerLink {
            site,
            quota: Quota::new(),
            traffic: Traffic::new(),
            alloc,
            state: Mutex::new(LinkState::new(alloc, heaps)?),
            changed: Condvar::new(),
            runs: Mutex::new(Runs::none()),
            is_written: AtomicBool::new(false),
            is_awaited: AtomicBool::new(false),
        })
    }

    /// The run of the latest link, where it is another one than those whose operations this site
    /// may have.
    pub fn newcomer<R: Wait>(&self, rt: &R) -> Option<Run> {
        self.runs.lock(rt).newcomer()
    }

    /// This site may have operations of the run of the latest link from now on.
    pub fn know<R: Wait>(&self, rt: &R) {
        self.runs.lock(rt).know();
    }

    /// Whether a thread that writes the links has to be asked for. It counts as asked for then.
    pub fn wants_writer(&self) -> bool {
        !self.is_written.swap(true, Ordering::SeqCst)
    }

    /// The thread that was asked for did not start.
    pub fn lacks_writer(&self) {
        self.is_written.store(false, Ordering::SeqCst);
    }

    /// The frame waits for the link: behind all others where the peer is pushed to, and in the
    /// place of an older one of its topic where it asks. Where there is no link, or too much waits
    /// for it, it is dropped, and so it is where there is no memory for it.
    pub fn send<R: Wait>(&self, rt: &R, frame: Vec<u8>) {
        let _ = self.state.lock(rt).send(frame);
        self.changed.notify_all();
    }

    /// The same where the link of this number is up. Elsewhere the frame was made for another link,
    /// and is dropped: what a peer is told over a link begins with that link.
    pub fn send_over<R: Wait>(&self, rt: &R, number: u64, frame: Vec<u8>) {
        self.leave_over(rt, number, frame);
        self.wake();
    }

    /// The same, but who writes the link is not woken: [`PeerLink::wake`] does that, once for all
    /// the frames that were left, so that they go in one write.
    pub fn leave_over<R: Wait>(&self, rt: &R, number: u64, frame: Vec<u8>) {
        let _ = self.state.lock(rt).send_over(number, frame);
    }

    /// Wakes who writes the link.
    pub fn wake(&self) {
        self.changed.notify_all();
    }

    /// The number of the link that is up.
    pub fn number<R: Wait>(&self, rt: &R) -> Option<u64> {
        let state = self.state.lock(rt);
        let Connection { number, .. } = state.link.as_ref()?;
        Some(*number)
    }

    /// Whether a link is up.
    pub fn is_up<R: Wait>(&self, rt: &R) -> bool {
        self.state.lock(rt).link.is_some()
    }

    /// Whether a link is up for which nothing waits, and to which nothing is being written. Where
    /// that is not so it is waited for, as [`PeerLink::written`] says then.
    pub fn has_room<R: Wait>(&self, rt: &R) -> bool {
        // (noted before it is looked, so that nothing is written between both unseen)
        self.is_awaited.store(true, Ordering::SeqCst);
        let has_room = self.state.lock(rt).has_room();
        if has_room {
            self.is_awaited.store(false, Ordering::SeqCst);
        }
        has_room
    }

    /// A link is up over this stream, with this protocol, to the run of the peer that it told, in
    /// the place of an older link to the same run or to an earlier start, whose stream is shut
    /// down. Where a link to a run of another name or to a later start is up, that one stays.
    pub fn raise<R: Wait>(
        &self,
        rt: &R,
        stream: Arc<TcpStream>,
        protocol: Protocol,
        run: Option<Run>,
    ) -> Raised {
        let mut runs = self.runs.lock(rt);
        let is_up = self.state.lock(rt).link.is_some();
        if !runs.come(run, is_up) {
            return Raised::OtherRun;
        }
        let raised = self.state.lock(rt).raise(self.alloc, stream, protocol);
        let Some((number, older)) = raised else {
            return Raised::Over;
        };
        shut(older);
        self.changed.notify_all();
        Raised::Up(number)
    }

    /// The link of this number is down, and its stream is shut down. It says whether that link was
    /// up.
    pub fn lower<R: Wait>(&self, rt: &R, number: u64) -> bool {
        let stream = self.state.lock(rt).lower(self.alloc, number);
        shut(stream)
    }

    /// The site ends: the link is down for good, and who waits is woken.
    pub fn halt<R: Wait>(&self, rt: &R) {
        let stream = self.state.lock(rt).halt(self.alloc);
        shut(stream);
        self.changed.notify_all();
        self.quota.halt(rt);
    }

    /// Waits for frames that can be sent, and takes them. Where a link is up and nothing came to be
    /// sent for some time, that is a heartbeat. Where the site ends there are none.
    pub fn next<R: Wait + Clock>(&self, rt: &R) -> Option<QueuedFrames>
        ensures { IfSome result (λ queued. frames_of queued.frames.items ≢ []) }
    {
        let mut state = self.state.lock(rt);
        for _ in rt.forever() {
            if state.over {
                return None;
            }
            if let Some(queued) = take_frames(self.alloc, &mut state) {
                return Some(queued);
            }
            let (woken, waited) = self.changed.wait_timeout(rt, state, heartbeat());
            state = woken;
            if waited.timed_out()
                && let Some(queued) = take_heartbeat(self.alloc, &mut state)
            {
                return Some(queued);
            }
        }
        unreachable!()
    }

    /// What was taken for the link of this number is written. It says whether that was waited for:
    /// whether who asked for room last found none.
    pub fn written<R: Wait>(&self, rt: &R, number: u64) -> bool {
        self.state.lock(rt).written(number);
        self.is_awaited.swap(false, Ordering::SeqCst)
    }
}

/// The frames that wait one behind the other, or else the one of a topic that waits first, and the
/// link over which they go. Where there is no link or nothing waits there are none, and nothing
/// changes.
fn take_frames(alloc: Global, state: &mut LinkState<Arc<TcpStream>>) -> Option<QueuedFrames>
    ensures queued { IfSome result (λ queued. IsTurn IsTaken queued.number
        (λ stream. arc_value stream ≡ arc_value queued.stream) (frames_of queued.frames.items)
        state.old state.new) }
    ensures some { IfSome result (λ queued. frames_of queued.frames.items ≢ []) }
    ensures none { IsNone result → state.new ≡ state.old }
{
    let Connection { number, stream, .. } = state.link.as_ref()?;
    let (number, stream) = (*number, Arc::try_clone(stream).ok()?);
    let frames = state.take_next(alloc)?;
    Some(QueuedFrames {
        number,
        stream,
        frames,
    })
}

/// What keeps the link up where nothing waits and nothing is being written, and the link. Elsewhere
/// there is none, and nothing changes.
fn take_heartbeat(alloc: Global, state: &mut LinkState<Arc<TcpStream>>) -> Option<QueuedFrames>
    ensures queued { IfSome result (λ queued. IsTurn IsHeartbeat queued.number
        (λ stream. arc_value stream ≡ arc_value queued.stream) (frames_of queued.frames.items)
        state.old state.new) }
    ensures none { IsNone result → state.new ≡ state.old }
{
    let Connection { number, stream, .. } = state.link.as_ref()?;
    let (number, stream) = (*number, Arc::try_clone(stream).ok()?);
    let frames = state.take_heartbeat(alloc)?;
    Some(QueuedFrames {
        number,
        stream,
        frames,
    })
}

/// Shuts a stream down, so that who reads or writes it ends, and says whether there was one.
fn shut(stream: Option<Arc<TcpStream>>) -> bool
    ensures { result ≡ is_some stream }
{
    match stream {
        Some(stream) => {
            let stream: &TcpStream = &stream;
            let _ = stream.shutdown(Shutdown::Both);
            true
        }
        None => false,
    }
}
