//! Frames that go from one node to another as bytes.
ghost use Rattle.zq_links.specs.Frame.{IsWritable};

use std::alloc::Global;
use zq_links::{Frame, read_frame, write_frame};
use zq_posheap::Seeded;

/// How many frames went over, and their bytes.
#[derive(Clone, Copy)]
pub struct Traffic {
    pub frames: u64,
    pub bytes: u64,
}

impl Traffic {
    /// Nothing went over.
    pub fn new() -> Traffic {
        Traffic {
            frames: 0,
            bytes: 0,
        }
    }

    /// Writes a frame, and reads it from its bytes.
    pub fn carry(&mut self, alloc: Global, frame: &Frame) -> Option<Frame>
        requires { IsWritable frame.now }
    {
        let bytes = write_frame(alloc, frame).ok()?;
        self.frames = self.frames.saturating_add(1);
        self.bytes = self.bytes.saturating_add(bytes.len() as u64);
        read_frame(alloc, &bytes, Seeded::new(0)).ok()
    }
}
