//! What is known of the link to a peer, and what waits for it.

ghost use Rattle.std.specs.Prelude.{◌≡◌, ◌≢◌, ℕ, IfOk, IfSome, IsNone, IsSome, None, OnErr, OnOk, Option, Some, [], if◌then◌else◌, option_map};
ghost use Rattle.zq_site.specs.FrameQueues.{frames_of};
ghost use Rattle.zq_site.specs.LinkStates.{IsHeartbeat, IsTaken, append_to, cleared_all, fresh, halted, has_room, is_up, lowered, most_before, next_number, protocol_of as link_protocol, put_on, raised, sent, stream_of as link_stream, written_on};

use crate::frame_queue::FrameQueue;
use crate::heartbeat::heartbeat;
use std::alloc::{AllocError, Global};
use std::mem;
use zq_links::topic_of;
use zq_replica::Protocol;
use zq_wire::{Outbox, Topic};

/// The first byte of a frame that is a whole heap.
const STATE: u8 = 3;

/// A whole heap waits where no more bytes wait before it than these: so a second one waits only
/// behind one that is small.
const MOST_BEFORE_STATE: u64 = 1_048_576;

/// Any other frame waits where no more bytes wait before it than these. What is pushed to a peer at
/// once, a batch of each heap, has fewer before its last frame: a batch has 65,536 bytes and one
/// operation more, whose names have up to a mebibyte each.
const MOST_BEFORE: u64 = 33_554_432;

/// A link that is up.
#[derive(Drop)]
pub struct Connection<S> {
    /// Its number: that of the link before it, and 1.
    pub number: u64,
    /// What goes over it.
    pub protocol: Protocol,
    /// Its stream.
    pub stream: S,
}

/// The link to a peer, if it is up, and the frames that wait for it.
#[derive(Drop)]
pub struct LinkState<S> {
    /// What waits where the peer asks: of each topic the newest.
    pub outbox: Outbox,
    /// What waits where the peer is pushed to.
    pub queue: FrameQueue,
    /// Whether frames are being written.
    pub is_busy: bool,
    /// The link.
    pub link: Option<Connection<S>>,
    /// The number of the latest link, and 0 before the first.
    pub last: u64,
    /// Whether the site ends.
    pub over: bool,
}

impl<S> LinkState<S> {
    /// No link, and nothing waits, of a site of this many heaps.
    pub fn new(alloc: Global, heaps: u8) -> Result<LinkState<S>, AllocError>
        ensures { IfOk result (λ state. state ≡ fresh heaps) }
    {
        Ok(LinkState {
            outbox: Outbox::new(alloc, heaps)?,
            queue: FrameQueue::new(alloc),
            is_busy: false,
            link: None,
            last: 0,
            over: false,
        })
    }

    /// Whether the link of this number is up.
    fn is_up(&self, number: u64) -> bool
        ensures { result ≡ is_up number self.now.link }
    {
        match &self.link {
            Some(up) => up.number == number,
            None => false,
        }
    }

    /// What goes over the link, if it is up.
    fn protocol(&self) -> Option<Protocol>
        ensures { result ≡ option_map link_protocol self.now.link }
    {
        match &self.link {
            Some(up) => Some(up.protocol),
            None => None,
        }
    }

    /// Whether a link is up for which nothing waits, and to which nothing is being written.
    pub fn has_room(&self) -> bool
        ensures { result ≡ has_room self.now }
    {
        self.link.is_some() && self.queue.is_empty() && !self.is_busy
    }

    /// The frame waits for the link: behind all others where the peer is pushed to, and in the
    /// place of an older one of its topic where it asks. Where there is no link, or too much waits
    /// before it, or it is about nothing that a peer which asks is told, it is dropped. Where there
    /// is no memory for it nothing changes.
    pub fn send(&mut self, frame: Vec<u8>) -> Result<(), AllocError>
        ensures waits { OnOk result (self.new ≡ sent frame.items self.old) }
        ensures refused { OnErr result (self.new ≡ self.old) }
    {
        match self.protocol() {
            Some(Protocol::Pushing | Protocol::Streaming) => self.append(frame),
            Some(Protocol::Asking) => {
                if let Some(topic) = topic_of(&frame) {
                    self.put(topic, frame);
                }
                Ok(())
            }
            None => Ok(()),
        }
    }

    /// The same where the link of this number is up. Elsewhere it was made for another link, and is
    /// dropped.
    pub fn send_over(&mut self, number: u64, frame: Vec<u8>) -> Result<(), AllocError>
        ensures waits { OnOk result (self.new
            ≡ (if is_up number self.old.link then sent frame.items self.old else self.old)) }
        ensures refused { OnErr result (self.new ≡ self.old) }
    {
        if self.is_up(number) {
            self.send(frame)
        } else {
            Ok(())
        }
    }

    /// The frame waits, in the place of an older one of its topic. Where there is no link, or the
    /// site has no such heap, it is dropped.
    fn put(&mut self, topic: Topic, frame: Vec<u8>)
        ensures { self.new ≡ put_on topic frame.items self.old }
    {
        if self.link.is_some() && topic.heap() < self.outbox.heaps() {
            self.outbox.put(topic, frame);
        }
    }

    /// The frame waits behind all others. Where there is no link, or too much waits before it, it
    /// is dropped: what waits for a peer that takes nothing does not grow for ever.
    fn append(&mut self, frame: Vec<u8>) -> Result<(), AllocError>
        ensures appended { OnOk result (self.new ≡ append_to frame.items self.old) }
        ensures refused { OnErr result (self.new ≡ self.old) }
    {
        if self.link.is_none() || self.queue.bytes() > most_before(&frame) {
            return Ok(());
        }
        self.queue.append(frame)
    }

    /// What is to be written next: all frames that wait one behind the other, or else the one of a
    /// topic that waits first. It then waits no more, but is being written. `None` where nothing
    /// waits, or there was no memory: then nothing changes.
    pub fn take_next(&mut self, alloc: Global) -> Option<Vec<Vec<u8>>>
        ensures taken { IfSome result
            (λ frames. IsTaken (frames_of frames.items) self.old self.new) }
        ensures some { IfSome result (λ frames. frames_of frames.items ≢ []) }
        ensures queued { self.old.queue ≢ [] → IsSome result }
        ensures none { IsNone result → self.new ≡ self.old }
    {
        if !self.queue.is_empty() {
            self.is_busy = true;
            return Some(self.queue.take_all(alloc));
        }
        if self.outbox.len() == 0 {
            return None;
        }
        let mut frames = Vec::with_capacity(alloc, 1).ok()?;
        let parcel = self.outbox.take()?;
        frames.push_reserved(parcel.frame);
        self.is_busy = true;
        Some(frames)
    }

    /// What keeps the link up where nothing waits and nothing is being written. It then is being
    /// written. `None` elsewhere, or where there was no memory: then nothing changes.
    pub fn take_heartbeat(&mut self, alloc: Global) -> Option<Vec<Vec<u8>>>
        ensures taken { IfSome result
            (λ frames. IsHeartbeat (frames_of frames.items) self.old self.new) }
        ensures none { IsNone result → self.new ≡ self.old }
    {
        if !self.has_room() || self.outbox.len() != 0 {
            return None;
        }
        let mut frames = Vec::with_capacity(alloc, 1).ok()?;
        let frame = heartbeat(alloc).ok()?;
        frames.push_reserved(frame);
        self.is_busy = true;
        Some(frames)
    }

    /// What was being written over the link of this number is written.
    pub fn written(&mut self, number: u64)
        ensures { self.new ≡ written_on number self.old }
    {
        if self.is_up(number) {
            self.is_busy = false;
        }
    }

    /// Nothing waits any more, and nothing is being written.
    fn clear(&mut self, alloc: Global)
        ensures { self.new ≡ cleared_all self.old }
    {
        self.outbox.clear();
        self.queue = FrameQueue::new(alloc);
        self.is_busy = false;
    }
}

impl<S: Drop> LinkState<S> {
    /// A link is up over this stream, with this protocol: its number, and the stream of the older
    /// link, which it replaces. What waited for the older link waits no more, and the older link's
    /// end does not take this one down. Where the site ends the link is not up, and its stream is
    /// dropped.
    pub fn raise(
        &mut self,
        alloc: Global,
        stream: S,
        protocol: Protocol,
    ) -> Option<(u64, Option<S>)>
        ensures there { result
            ≡ (if self.old.over then None else Some
            (next_number self.old, option_map link_stream self.old.link)) }
        ensures up { self.new
            ≡ (if self.old.over then self.old else raised stream protocol self.old) }
        ensures alone { IsSome result → (number : ℕ) → number ≢ next_number self.old →
            lowered number self.new ≡ self.new }
    {
        if self.over {
            return None;
        }
        self.clear(alloc);
        let number = self.last.wrapping_add(1);
        self.last = number;
        let connection = Connection {
            number,
            protocol,
            stream,
        };
        let older = mem::replace(&mut self.link, Some(connection));
        Some((number, stream_of(older)))
    }

    /// The link of this number is down: its stream. Where it was replaced, or was down before,
    /// nothing happens.
    pub fn lower(&mut self, alloc: Global, number: u64) -> Option<S>
        ensures stream { result
            ≡ (if is_up number self.old.link then option_map link_stream self.old.link else None) }
        ensures down { self.new ≡ lowered number self.old }
    {
        if !self.is_up(number) {
            return None;
        }
        self.clear(alloc);
        stream_of(self.link.take())
    }

    /// The site ends: the link is down, and none is up again. It gives the link's stream.
    pub fn halt(&mut self, alloc: Global) -> Option<S>
        ensures stream { result ≡ option_map link_stream self.old.link }
        ensures over { self.new ≡ halted self.old }
    {
        self.over = true;
        self.clear(alloc);
        stream_of(self.link.take())
    }
}

/// How many bytes may wait before a frame, so that it is not dropped.
fn most_before(frame: &[u8]) -> u64
    ensures { result ≡ most_before frame.now }
{
    match frame.first() {
        Some(&STATE) => MOST_BEFORE_STATE,
        _ => MOST_BEFORE,
    }
}

/// The stream of a link.
fn stream_of<S: Drop>(link: Option<Connection<S>>) -> Option<S>
    ensures { result ≡ option_map link_stream link }
{
    match link {
        Some(Connection { stream, .. }) => Some(stream),
        None => None,
    }
}
