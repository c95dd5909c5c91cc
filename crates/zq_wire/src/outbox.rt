//! What waits to be sent.
ghost use Rattle.std.specs.Prelude.{◌≡◌, ◌≤◌, ◌<◌, ◌*◌, ◌++◌, [], length, position, slice_set, IfOk, option_map, option_to_list};
ghost use Rattle.std.specs.VecDeque.{deque_capacity};
ghost use Rattle.zq_wire.specs.Outbox.{parcel_of, put_in};
ghost use Rattle.zq_wire.specs.Topic.{heap_of, same_topic};

use crate::parcel::Parcel;
use crate::topic::Topic;
use std::alloc::{AllocError, Global};
use std::collections::VecDeque;
use std::marker::Model;

/// What waits to be sent to one peer, in the order in which it will be sent: of each topic at most
/// one frame. It has memory for as many from the beginning, and takes none later.
#[derive(Drop)]
pub struct Outbox {
    heaps: u8,
    waiting: VecDeque<Parcel>,
}

impl Model for Outbox {
    ghost use Rattle.zq_wire.specs.Outbox.{Waiting};

    ghost Value = { Waiting };

    ghost use Rattle.zq_wire.specs.Inside.{IsOutbox, waiting_of};

    ghost view = { waiting_of };

    ghost invariant = { IsOutbox };
}

impl Outbox {
    /// Nothing waits, of a site of this many heaps.
    pub fn new(alloc: Global, heaps: u8) -> Result<Outbox, AllocError>
        ensures heaps { IfOk result (λ o. o.heaps ≡ heaps) }
        ensures nothing { IfOk result (λ o. o.parcels ≡ []) }
    {
        let waiting = VecDeque::with_capacity(alloc, 2 * usize::from(heaps))?;
        Ok(Outbox { heaps, waiting })
    }

    /// The number of the site's heaps.
    pub fn heaps(&self) -> u8
        ensures { result ≡ self.now.heaps }
    {
        self.heaps
    }

    /// The frame waits, in the place of an older one of its topic, or else behind all others.
    pub fn put(&mut self, topic: Topic, frame: Vec<u8>)
        requires { heap_of topic < self.old.heaps }
        ensures heaps { self.new.heaps ≡ self.old.heaps }
        ensures put { self.new.parcels ≡ put_in topic frame.items self.old.parcels }
    {
        let parcel = Parcel { topic, frame };
        match place_of(&self.waiting, topic) {
            Some(place) => replace(&mut self.waiting, place, parcel),
            None => self.waiting.push_back_reserved(parcel),
        }
    }

    /// The frame that waits first, which then waits no more, if one does.
    pub fn take(&mut self) -> Option<Parcel>
        ensures heaps { self.new.heaps ≡ self.old.heaps }
        ensures first { self.old.parcels ≡ option_to_list (option_map parcel_of result)
            ++ self.new.parcels }
    {
        self.waiting.pop_front()
    }

    /// Nothing waits any more.
    pub fn clear(&mut self)
        ensures heaps { self.new.heaps ≡ self.old.heaps }
        ensures nothing { self.new.parcels ≡ [] }
    {
        self.waiting.clear();
    }

    /// How many frames wait: at most two of each heap.
    pub fn len(&self) -> usize
        ensures len { result ≡ length self.now.parcels }
        ensures most { result ≤ 2 * self.now.heaps }
    {
        self.waiting.len()
    }
}

/// The place of the frame of this topic, if one waits.
fn place_of(waiting: &VecDeque<Parcel>, topic: Topic) -> Option<usize>
    ensures { result ≡ position (λ p. same_topic p.topic topic) waiting.now.items }
{
    waiting.iter().position(|parcel| parcel.topic.is(topic))
}

/// Puts a frame in the place of another.
fn replace(waiting: &mut VecDeque<Parcel>, place: usize, parcel: Parcel)
    requires { place < length waiting.old.items }
    ensures items { waiting.new.items ≡ slice_set waiting.old.items place parcel }
    ensures capacity { deque_capacity waiting.new ≡ deque_capacity waiting.old }
{
    waiting[place] = parcel;
}
