//! Frames of a peer that are made by hand.

use crate::fault::StationFault;
use crate::plan::HEAPS;
use std::alloc::{AllocError, Global};
use zq_dots::{Act, LAST_COUNTER, Op, Rule, SiteNo, Vector};
use zq_links::{
    At, Behind, Control, Fetch, Frame, Have, Piece, Resume, Routes, Spot, write_control,
    write_frame, write_piece,
};
use zq_posheap::Seeded;
use zq_shard::Shard;

/// How many operations a frame that is made by hand may have.
const MOST_OPS: usize = 1_000;

/// What a peer says of operations of one site in heap 0. It knows so many of them, and none of
/// other sites.
#[derive(Clone, Copy, Debug)]
pub enum Saying {
    /// It has them, as an At says.
    At(u64),
    /// The other is behind, as a Behind says.
    Behind(u64),
    /// It asks for the heap, and has no part of it.
    Fetch,
    /// It asks for the rest of the heap, and its stage has so many.
    FetchOn(u64),
    /// It has them, as a Have says.
    Have(u64),
    /// It gives a piece of the heap, which has no member and them.
    Piece(u64),
    /// It sends those of these numbers, in this order.
    Ops(&'static [u64]),
}

/// So many operations of a site, and none of others.
#[tactic(auto, using(zq_dots::proofs::Counters::last_is))]
fn vector_of(site: SiteNo, known: u64) -> Vector {
    let mut vector = Vector::new();
    vector.set(site, known.min(LAST_COUNTER));
    vector
}

/// The operation of a site with this number, from 1 on, which takes a member away.
fn op_of(alloc: Global, site: SiteNo, number: u64) -> Result<Op, StationFault> {
    let seen = vector_of(site, number.saturating_sub(1));
    let Ok(dot) = seen.next(site) else {
        return Err(StationFault::NoPlace);
    };
    let key = Vec::from_slice(alloc, b"q")?;
    let member = Vec::from_slice(alloc, b"m")?;
    Ok(Op::new(0, HEAPS, dot, seen, key, member, Act::Drop))
}

/// The operations of a site with these numbers.
fn ops_of(alloc: Global, site: SiteNo, numbers: &[u64]) -> Result<Vec<Op>, StationFault> {
    let mut ops = Vec::new(alloc);
    for number in numbers {
        let op = op_of(alloc, site, *number)?;
        ops.reserve(1)?;
        ops.push_reserved(op);
    }
    Ok(ops)
}

/// What the stage of a peer stands at, with so many operations.
fn resume_of(site: SiteNo, known: u64) -> Resume {
    Resume {
        life: 1,
        number: 0,
        next: Spot { key: 1, member: 1 },
        vector: vector_of(site, known),
    }
}

impl Saying {
    /// The frame by which a peer says this of a site.
    pub fn frame(
        &self,
        alloc: Global,
        peer: SiteNo,
        site: SiteNo,
    ) -> Result<Vec<u8>, StationFault> {
        let bytes = match self {
            Saying::At(known) => at(alloc, vector_of(site, *known))?,
            Saying::Behind(known) => behind(alloc, vector_of(site, *known))?,
            Saying::Fetch => fetch(alloc, None)?,
            Saying::FetchOn(known) => fetch(alloc, Some(resume_of(site, *known)))?,
            Saying::Have(known) => have(alloc, peer, vector_of(site, *known))?,
            Saying::Piece(known) => piece(alloc, vector_of(site, *known))?,
            Saying::Ops(numbers) => ops(alloc, site, numbers)?,
        };
        Ok(bytes)
    }
}

fn at(alloc: Global, vector: Vector) -> Result<Vec<u8>, AllocError> {
    let at = At {
        heaps: HEAPS,
        heap: 0,
        rule: Rule::High,
        open: true,
        turn: 1,
        echo: 0,
        window: 1,
        routes: Routes {
            reach: 0,
            ask: 0,
            far: 0,
        },
        vector,
    };
    write_control(alloc, &Control::At(at))
}

fn behind(alloc: Global, vector: Vector) -> Result<Vec<u8>, AllocError> {
    let behind = Behind {
        heaps: HEAPS,
        heap: 0,
        vector,
    };
    write_control(alloc, &Control::Behind(behind))
}

fn fetch(alloc: Global, resume: Option<Resume>) -> Result<Vec<u8>, AllocError> {
    let fetch = Fetch {
        heaps: HEAPS,
        heap: 0,
        resume,
    };
    write_control(alloc, &Control::Fetch(fetch))
}

fn have(alloc: Global, from: SiteNo, vector: Vector) -> Result<Vec<u8>, AllocError> {
    let have = Have {
        from,
        heap: 0,
        heaps: HEAPS,
        rule: Rule::High,
        vector,
    };
    write_frame(alloc, &Frame::Have(have))
}

fn piece(alloc: Global, vector: Vector) -> Result<Vec<u8>, AllocError> {
    let part = Shard::of_vector(alloc, 0, HEAPS, Rule::High, &vector, Seeded::new(0));
    let piece = Piece {
        life: 1,
        number: 0,
        next: Spot { key: 0, member: 0 },
        part,
    };
    write_piece(alloc, &piece)
}

fn ops(alloc: Global, site: SiteNo, numbers: &[u64]) -> Result<Vec<u8>, StationFault> {
    let ops = ops_of(alloc, site, numbers)?;
    if ops.len() > MOST_OPS {
        return Err(StationFault::NoPlace);
    }
    Ok(write_frame(alloc, &Frame::Ops(ops))?)
}
