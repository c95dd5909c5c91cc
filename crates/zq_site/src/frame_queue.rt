//! Frames that wait for a peer, in their order.

ghost use Rattle.std.specs.Prelude.{◌≡◌, ◌≤◌, ◌^◌, ◌++◌, ◌∷◌, OnErr, OnOk, []};
ghost use Rattle.zq_site.specs.FrameQueues.{bytes_of, frames_of, is_empty};

use std::alloc::{AllocError, Global};
use std::marker::Model;
use std::mem;

/// Frames that wait for a peer, the oldest first.
#[derive(Drop)]
pub struct FrameQueue {
    frames: Vec<Vec<u8>>,
    /// How many bytes they have together.
    bytes: u64,
}

impl Model for FrameQueue {
    ghost use Rattle.std.specs.Prelude.{List, ℕ, ◌≡◌};
    ghost use Rattle.zq_site.specs.FrameQueues.{bytes_of, frames_of};

    ghost Value = { List (List ℕ) };

    ghost view = { λ queue. frames_of queue.frames.items };

    ghost invariant = { λ queue. queue.bytes ≡ bytes_of (frames_of queue.frames.items) };
}

impl FrameQueue {
    /// None. It takes no memory.
    pub fn new(alloc: Global) -> FrameQueue
        ensures { result ≡ [] }
    {
        FrameQueue {
            frames: Vec::new(alloc),
            bytes: 0,
        }
    }

    /// Whether none waits.
    pub fn is_empty(&self) -> bool
        ensures { result ≡ is_empty self.now }
    {
        self.frames.is_empty()
    }

    /// How many bytes they have together.
    pub fn bytes(&self) -> u64
        ensures { result ≡ bytes_of self.now }
    {
        self.bytes
    }

    /// A frame waits behind all others. Where there is no memory for it nothing changes.
    pub fn append(&mut self, frame: Vec<u8>) -> Result<(), AllocError>
        requires { bytes_of self.old ≤ 2 ^ 63 }
        ensures appended { OnOk result (self.new ≡ self.old ++ frame.items ∷ []) }
        ensures refused { OnErr result (self.new ≡ self.old) }
    {
        let bytes = frame.len() as u64;
        self.frames.push(frame)?;
        self.bytes += bytes;
        Ok(())
    }

    /// All that wait, which then wait no more.
    pub fn take_all(&mut self, alloc: Global) -> Vec<Vec<u8>>
        ensures taken { frames_of result.items ≡ self.old }
        ensures nothing { self.new ≡ [] }
    {
        self.bytes = 0;
        mem::replace(&mut self.frames, Vec::new(alloc))
    }
}
