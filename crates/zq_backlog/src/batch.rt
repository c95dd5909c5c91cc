//! The next operations for a peer.
ghost use Rattle.std.specs.Prelude.{◌≡◌, ◌-◌, ◌≤◌, IfOk, length};
ghost use Rattle.zq_backlog.specs.Batch as batch;
ghost use Rattle.zq_backlog.specs.Batch.{IsLooked, sent_after, start_of, taken_of, window};
ghost use Rattle.zq_backlog.specs.Frame.{IsFrameOf};

use crate::backlog::Backlog;
use std::alloc::{AllocError, Global};
use zq_dots::{SITES, Vector};

/// The bytes of operations after which a batch takes no further one; the last may pass it.
pub const MOST_BATCH: usize = 65_536;

/// The operations that are looked at for a batch.
pub const MOST_LOOKED: usize = 1_024;

/// The next operations for a peer.
#[derive(Debug, Drop)]
pub struct Batch {
    /// The bytes of a frame of these operations; `None` where there are none.
    pub frame: Option<Vec<u8>>,
    /// How many there are.
    pub count: u64,
    /// What was sent, with these.
    pub sent: Vector,
    /// The place behind what was looked at.
    pub next: u64,
}

impl Backlog {
    /// The next operations for a peer to whom `sent` was sent, of the sites of a class.
    ///
    /// From the place on, or from the oldest where that is later, it looks at the operations in
    /// their order, at most [`MOST_LOOKED`] of them, and stops before one where it has taken as
    /// many as are allowed, or [`MOST_BATCH`] bytes. It takes those of the class whose counter is
    /// above what was sent of their site; what is taken is sent for the next. Where memory is
    /// refused there is no batch.
    pub fn batch(
        &self,
        alloc: Global,
        place: u64,
        class: &[bool; SITES],
        sent: &Vector,
        allow: u64,
    ) -> Result<Batch, AllocError>
        ensures start { IfOk result (λ b. start_of self.now place ≤ b.next) }
        ensures looked { IfOk result (λ b. IsLooked class.now sent.now allow
            (window self.now place) (b.next - start_of self.now place)) }
        ensures count { IfOk result
            (λ b. b.count ≡ length (taken_of self.now place class.now sent.now b.next)) }
        ensures sent { IfOk result
            (λ b. b.sent ≡ sent_after self.now place class.now sent.now b.next) }
        ensures frame { IfOk result
            (λ b. IsFrameOf (taken_of self.now place class.now sent.now b.next) b.frame) }
        ensures few { IfOk result (λ b. b.count ≤ allow) }
        ensures most { IfOk result (λ b. b.count ≤ batch.MOST_LOOKED) }
    {
        let start = place.max(self.first);
        let from = (start - self.first).min(self.len() as u64) as usize;
        let choice = self.choose(from, class, sent, allow);
        let frame = self.copy(alloc, from, class, sent, &choice)?;
        Ok(Batch {
            frame,
            count: choice.count as u64,
            sent: choice.sent,
            next: start + choice.looked as u64,
        })
    }
}
