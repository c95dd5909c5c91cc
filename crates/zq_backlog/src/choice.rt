//! What is chosen for a batch, and its frame.
ghost use Rattle.std.specs.Prelude.{◌≡◌, ◌<◌, ◌≤◌, ◌+◌, ◌^◌, ◌&&◌, ◌⊎◌, IfOk, MatchBool, flat_map, length, nat_lt, slice_index, take, drop};
ghost use Rattle.zq_backlog.specs.Batch as batch;
ghost use Rattle.zq_backlog.specs.Batch.{IsLooked, is_of, looked_in, picked};
ghost use Rattle.zq_backlog.specs.Frame.{IsFrameOf};
ghost use Rattle.zq_backlog.specs.Log.{raised};
ghost use Rattle.zq_backlog.specs.Written.{spelling};

use crate::backlog::Backlog;
use crate::batch::{MOST_BATCH, MOST_LOOKED};
use crate::frame::begin_frame;
use std::alloc::{AllocError, Global};
use zq_dots::{Dot, SITES, SiteNo, Vector};

/// What is chosen for a batch.
#[derive(Clone, Copy, Debug)]
pub(crate) struct Choice {
    /// How many operations were looked at.
    pub(crate) looked: usize,
    /// How many of them are taken.
    pub(crate) count: usize,
    /// The bytes of these.
    pub(crate) bytes: usize,
    /// What was sent, with these.
    pub(crate) sent: Vector,
}

impl Choice {
    /// Whether no further operation is taken.
    fn is_full(&self, allow: u64) -> bool
        ensures { MatchBool result
            ((allow ≤ self.now.count) ⊎ (batch.MOST_BATCH ≤ self.now.bytes))
            ((self.now.count < allow) × (self.now.bytes < batch.MOST_BATCH)) }
    {
        self.count as u64 >= allow || self.bytes >= MOST_BATCH
    }
}

impl Backlog {
    /// Chooses from the operation of this number on, the oldest having number 0.
    pub(crate) fn choose(
        &self,
        from: usize,
        class: &[bool; SITES],
        sent: &Vector,
        allow: u64,
    ) -> Choice
        requires { from ≤ length self.now.ops }
        ensures looked { IsLooked class.now sent.now allow
            (take batch.MOST_LOOKED (drop from self.now.ops)) result.looked }
        ensures count { result.count
            ≡ length (picked class.now sent.now (looked_in self.now.ops from result.looked)) }
        ensures bytes { result.bytes ≡ length (flat_map spelling
            (picked class.now sent.now (looked_in self.now.ops from result.looked))) }
        ensures sent { result.sent ≡ raised sent.now
            (picked class.now sent.now (looked_in self.now.ops from result.looked)) }
        ensures few { result.bytes < 2 ^ 63 + batch.MOST_BATCH }
        ensures most { result.count ≤ batch.MOST_LOOKED }
    {
        let until = (self.len() - from).min(MOST_LOOKED);
        let mut choice = Choice {
            looked: 0,
            count: 0,
            bytes: 0,
            sent: *sent,
        };
        for number in 0..until {
            if choice.is_full(allow) {
                return choice;
            }
            let Dot { site, n } = self.dot_at(from + number);
            if is_wanted(class, &choice.sent, site, n) {
                choice.count += 1;
                choice.bytes += self.len_at(from + number);
                choice.sent.set(site, n);
            }
            choice.looked += 1;
        }
        choice
    }

    /// The frame of what was chosen.
    pub(crate) fn copy(
        &self,
        alloc: Global,
        from: usize,
        class: &[bool; SITES],
        sent: &Vector,
        choice: &Choice,
    ) -> Result<Option<Vec<u8>>, AllocError>
        requires within { from + choice.now.looked ≤ length self.now.ops }
        requires small { from + choice.now.looked < 2 ^ 64 }
        requires looked { choice.now.looked ≤ batch.MOST_LOOKED }
        requires most { choice.now.count ≤ batch.MOST_LOOKED }
        requires count { choice.now.count
            ≡ length (picked class.now sent.now (looked_in self.now.ops from choice.now.looked)) }
        requires few { choice.now.bytes < 2 ^ 63 + batch.MOST_BATCH }
        ensures { IfOk result (IsFrameOf
            (picked class.now sent.now (looked_in self.now.ops from choice.now.looked))) }
    {
        if choice.count == 0 {
            return Ok(None);
        }
        let mut frame = begin_frame(alloc, choice.count as u32, choice.bytes)?;
        let mut after = *sent;
        for number in 0..choice.looked {
            let Dot { site, n } = self.dot_at(from + number);
            if is_wanted(class, &after, site, n) {
                self.copy_at(from + number, &mut frame)?;
                after.set(site, n);
            }
        }
        Ok(Some(frame))
    }
}

/// Whether a batch of this class takes the operation of this dot, where so much was sent.
#[tactic(auto, unfolding(zq_model::specs::Sets::SITES))]
fn is_wanted(class: &[bool; SITES], sent: &Vector, site: SiteNo, n: u64) -> bool
    ensures { result ≡ (is_of class.now site && nat_lt (slice_index sent.now site) n) }
{
    class[site.value() as usize] && sent.get(site) < n
}
