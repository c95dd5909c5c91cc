//! What goes over links.

use std::alloc::Global;
use std::process::Abort;

/// What a frame is.
#[derive(Clone, Copy, Debug, PartialEq, Eq)]
pub enum Kind {
    /// Operations of a heap.
    Ops,
    /// A whole heap.
    State,
    /// Some members of a heap.
    Piece,
    /// Whom the sender has links to, and what it asks for.
    Routes,
    /// What the sender has of a heap.
    At,
    /// The receiver lacks what the log has no more.
    Behind,
    /// The sender asks for a heap, or for the rest of it.
    Fetch,
    /// Something else.
    Other,
}

/// What went over links.
#[derive(Drop)]
pub struct Traffic {
    /// What each frame was, in the order in which they went.
    frames: Vec<Kind>,
    /// How many operations went, and how many heaps, at once or to their last piece.
    operations: u64,
    heaps: u64,
    /// How many pieces of heaps went.
    pieces: u64,
}

impl Kind {
    /// What a frame of these bytes is.
    fn of(bytes: &[u8]) -> Kind {
        match bytes.first() {
            Some(2 | 11) => Kind::Ops,
            Some(3) => Kind::State,
            Some(6) => Kind::Routes,
            Some(7) => Kind::At,
            Some(8) => Kind::Behind,
            Some(9) => Kind::Fetch,
            Some(10) => Kind::Piece,
            _ => Kind::Other,
        }
    }
}

/// How many operations a frame has, where it has some.
fn operations_in(bytes: &[u8]) -> u64 {
    match bytes {
        [2, first, second, third, fourth, ..] => {
            u64::from(u32::from_be_bytes([*first, *second, *third, *fourth]))
        }
        // Their number stands behind the heap, in groups of seven bits.
        [11, _, _, count, ..] if *count < 128 => u64::from(*count),
        [11, _, _, low, high, ..] => u64::from(*low % 128) + 128 * u64::from(*high),
        _ => 0,
    }
}

/// Whether no piece follows this one: behind kind, life and number both its places are 0.
fn is_last(bytes: &[u8]) -> bool {
    bytes.iter().skip(13).take(16).all(|byte| *byte == 0)
}

impl Traffic {
    /// Nothing went.
    pub fn none(alloc: Global) -> Traffic {
        Traffic {
            frames: Vec::new(alloc),
            operations: 0,
            heaps: 0,
            pieces: 0,
        }
    }

    /// A frame goes.
    pub fn note(&mut self, rt: &impl Abort, bytes: &[u8]) {
        let kind = Kind::of(bytes);
        self.frames.push(kind).expect(rt, "memory");
        self.operations = self.operations.saturating_add(operations_in(bytes));
        let ends = kind == Kind::State || (kind == Kind::Piece && is_last(bytes));
        self.heaps = self.heaps.saturating_add(u64::from(ends));
        let pieces = u64::from(kind == Kind::Piece);
        self.pieces = self.pieces.saturating_add(pieces);
    }

    /// Whether so many pieces of heaps went since this was asked last.
    pub fn take_pieces(&mut self, pieces: u64) -> bool {
        let went = self.pieces == pieces;
        self.pieces = 0;
        went
    }

    /// Whether so many operations went, and so many heaps, since this was asked last.
    pub fn take_went(&mut self, operations: u64, heaps: u64) -> bool {
        let went = self.operations == operations && self.heaps == heaps;
        self.operations = 0;
        self.heaps = 0;
        went
    }

    /// Whether so many frames of each of these kinds went, and no others, since this was asked
    /// last.
    pub fn take_frames(&mut self, wanted: &[(Kind, usize)]) -> bool {
        let mut all: usize = 0;
        let mut are_so = true;
        for (kind, count) in wanted {
            are_so &= self.count(*kind) == *count;
            all = all.saturating_add(*count);
        }
        are_so &= self.frames.len() == all;
        self.frames.clear();
        are_so
    }

    /// How many frames of a kind went.
    fn count(&self, kind: Kind) -> usize {
        self.frames.iter().filter(|each| **each == kind).count()
    }
}
