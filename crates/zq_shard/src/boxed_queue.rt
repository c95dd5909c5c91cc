//! `BoxedQueue`.

ghost use Rattle.std.specs.Prelude.{◌≡◌, IfOk};
ghost use Rattle.std.specs.Borrow.{sem};
ghost use Rattle.zq_shard.specs.Lending.{LendsQueue};

use std::alloc::{AllocError, Global};
use std::marker::Model;
use zq_queue::Queue;

/// The queue of a key in memory of its own: the table of keys holds a pointer to it, so a slot that
/// is free takes little. Contracts see the queue.
#[derive(Drop)]
pub(crate) struct BoxedQueue {
    queue: Box<Queue>,
}

impl Model for BoxedQueue {
    ghost use Rattle.zq_queue.specs.Queued.{Queued, queued_code};

    ghost Value = { Queued };

    ghost coded = { queued_code };

    ghost view = { λ b. b.queue.value };
}

impl BoxedQueue {
    /// The queue, moved to memory of its own.
    pub fn new(alloc: Global, queue: Queue) -> Result<BoxedQueue, AllocError>
        ensures { IfOk result (λ boxed. boxed ≡ queue) }
    {
        let queue = Box::new(alloc, queue)?;
        Ok(BoxedQueue { queue })
    }

    /// The queue.
    pub fn get(&self) -> &Queue
        ensures { result.now ≡ self.now }
    {
        self.queue.as_ref()
    }

    /// The queue, to be changed. When the borrow ends, it is what was written through it.
    pub fn get_mut(&mut self) -> &mut Queue
        ensures* writes_back { sem 𝓛 (LendsQueue self.entry result) }
        ensures value { result.now ≡ self.old }
    {
        self.queue.as_mut()
    }
}
