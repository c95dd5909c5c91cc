//! What is looked at of a frame.

use crate::wrong::Wrong;
use std::alloc::{AllocError, Global};
use zq_dots::{Dot, Op, Vector};
use zq_links::{
    Control, Fetch, Frame, is_batch, is_control, is_piece, read_batch_frame, read_control,
    read_frame, read_piece,
};
use zq_posheap::Seeded;

/// What is looked at of a frame.
#[derive(Drop)]
pub enum News {
    /// These operations of a heap go.
    Ops { heap: u8, dots: Vec<Dot> },
    /// The sender has this of a heap.
    At(Told),
    /// A whole heap goes.
    Heap(u8),
    /// Some members of a heap go, with what the sender has of it.
    Piece { heap: u8, vector: Vector },
    /// The sender asks for the rest of a heap, of which it has gathered this.
    Rest { heap: u8, vector: Vector },
    /// Something else is said.
    Other,
}

/// What a site says that it has.
#[derive(Clone, Copy, Debug)]
pub struct Told {
    /// The heap.
    pub heap: u8,
    /// The operations that it has taken there.
    pub vector: Vector,
    /// Whether it takes more.
    pub is_open: bool,
    /// Whether some came early to it, which it has not taken yet.
    pub has_parked: bool,
}

impl News {
    /// What is looked at of a frame whose sender has parked operations, or none.
    pub fn of(alloc: Global, bytes: &[u8], has_parked: bool) -> Result<News, Wrong> {
        if is_control(bytes) {
            return of_control(bytes, has_parked);
        }
        if is_batch(bytes) {
            return of_frame(alloc, read_batch_frame(alloc, bytes)?);
        }
        if is_piece(bytes) {
            return of_piece(alloc, bytes);
        }
        of_frame(alloc, read_frame(alloc, bytes, Seeded::new(0))?)
    }

    /// A copy.
    pub fn copy(&self, alloc: Global) -> Result<News, AllocError> {
        Ok(match self {
            News::Ops { heap, dots } => News::Ops {
                heap: *heap,
                dots: Vec::from_slice(alloc, dots)?,
            },
            News::At(told) => News::At(*told),
            News::Heap(heap) => News::Heap(*heap),
            News::Piece { heap, vector } => News::Piece {
                heap: *heap,
                vector: *vector,
            },
            News::Rest { heap, vector } => News::Rest {
                heap: *heap,
                vector: *vector,
            },
            News::Other => News::Other,
        })
    }
}

/// What is looked at of a control frame.
fn of_control(bytes: &[u8], has_parked: bool) -> Result<News, Wrong> {
    match read_control(bytes) {
        Ok(control) => Ok(told_by(&control, has_parked)),
        Err(fault) => Err(Wrong::Unread(fault)),
    }
}

/// What the sender of a control frame says that it has, where it says so.
fn told_by(control: &Control, has_parked: bool) -> News {
    match control {
        Control::At(at) => News::At(Told {
            heap: at.heap,
            vector: at.vector,
            is_open: at.open,
            has_parked,
        }),
        Control::Fetch(fetch) => rest_of(fetch),
        Control::Routes(_) | Control::Behind(_) => News::Other,
    }
}

/// What the sender of a Fetch has gathered, where it has gathered some.
fn rest_of(fetch: &Fetch) -> News {
    match &fetch.resume {
        Some(resume) => News::Rest {
            heap: fetch.heap,
            vector: resume.vector,
        },
        None => News::Other,
    }
}

/// What is looked at of a frame of operations or of a heap.
fn of_frame(alloc: Global, frame: Frame) -> Result<News, Wrong> {
    match frame {
        Frame::Ops(ops) => of_ops(alloc, &ops),
        Frame::State(shard) => Ok(News::Heap(shard.heap())),
        Frame::Have(_) => Ok(News::Other),
    }
}

/// What is looked at of a piece.
fn of_piece(alloc: Global, bytes: &[u8]) -> Result<News, Wrong> {
    let piece = read_piece(alloc, bytes, Seeded::new(0))?;
    Ok(News::Piece {
        heap: piece.part.heap(),
        vector: *piece.part.vector(),
    })
}

/// What is looked at of operations.
fn of_ops(alloc: Global, ops: &[Op]) -> Result<News, Wrong> {
    let mut dots = Vec::new(alloc);
    let mut heap = 0;
    for op in ops {
        heap = op.heap();
        dots.reserve(1)?;
        dots.push_reserved(op.dot());
    }
    Ok(News::Ops { heap, dots })
}
