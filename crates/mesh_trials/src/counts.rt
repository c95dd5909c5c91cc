//! What was counted in worlds.

use crate::news::News;

/// What was counted in worlds.
#[derive(Clone, Copy, Debug, PartialEq, Eq)]
pub struct Counts {
    /// The worlds.
    pub worlds: u64,
    /// Operations that were made.
    pub operations: u64,
    /// Frames of operations that were sent.
    pub frames: u64,
    /// Operations in these.
    pub sent: u64,
    /// Whole heaps that were sent.
    pub heaps: u64,
    /// Pieces of heaps that were sent.
    pub pieces: u64,
    /// Links that were cut.
    pub cuts: u64,
    /// Frames that were lost, where a link was cut or on one that stayed up.
    pub lost: u64,
    /// Frames that came twice.
    pub doubled: u64,
    /// Frames that overtook others.
    pub overtaken: u64,
    /// Sites that died.
    pub died: u64,
    /// Worlds that were the same everywhere only after some beats.
    pub late: u64,
    /// Those of them in which no link that was up lost a frame.
    pub late_sound: u64,
    /// The most beats that a world took for that.
    pub beats: u64,
}

/// One more.
pub fn count(number: &mut u64, by: u64) {
    *number = number.saturating_add(by);
}

impl Counts {
    /// Nothing was counted.
    pub fn none() -> Counts {
        Counts {
            worlds: 0,
            operations: 0,
            frames: 0,
            sent: 0,
            heaps: 0,
            pieces: 0,
            cuts: 0,
            lost: 0,
            doubled: 0,
            overtaken: 0,
            died: 0,
            late: 0,
            late_sound: 0,
            beats: 0,
        }
    }

    /// A frame is sent.
    pub fn note(&mut self, news: &News) {
        match news {
            News::Ops { dots, .. } => {
                count(&mut self.frames, 1);
                count(&mut self.sent, dots.len() as u64);
            }
            News::Heap(_) => count(&mut self.heaps, 1),
            News::Piece { .. } => count(&mut self.pieces, 1),
            News::At(_) | News::Rest { .. } | News::Other => {}
        }
    }

    /// What was counted in other worlds comes to this.
    pub fn add(&mut self, other: &Counts) {
        count(&mut self.worlds, other.worlds);
        count(&mut self.operations, other.operations);
        count(&mut self.frames, other.frames);
        count(&mut self.sent, other.sent);
        count(&mut self.heaps, other.heaps);
        count(&mut self.pieces, other.pieces);
        count(&mut self.cuts, other.cuts);
        count(&mut self.lost, other.lost);
        count(&mut self.doubled, other.doubled);
        count(&mut self.overtaken, other.overtaken);
        count(&mut self.died, other.died);
        count(&mut self.late, other.late);
        count(&mut self.late_sound, other.late_sound);
        self.beats = self.beats.max(other.beats);
    }
}
