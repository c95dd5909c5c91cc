//! A state as a frame: written, copied, read, and written again.
use crate::clock::{now, since};
use crate::image::members::{KEY, Members, put_all};
use std::alloc::Global;
use std::rt::Clock;
use zq_merge::{read_state, write_state};
use zq_posheap::Seeded;
use zq_shard::Shard;

/// What was timed, in nanoseconds, the bytes of the frame, and the members that were read.
#[derive(Clone, Copy)]
pub struct FrameTimes {
    /// Of the state as it was filled, in no order of its members.
    pub write: u128,
    /// Of the frame, to memory that was written before.
    pub copy: u128,
    pub read: u128,
    /// Of the state as it was read, by rising members.
    pub rewrite: u128,
    pub bytes: usize,
    pub members: usize,
}

/// Times over the state of so many members.
pub fn time_frame(rt: &impl Clock, alloc: Global, count: u32) -> Option<FrameTimes> {
    let (write, frame) = write_filled(rt, alloc, count)?;
    let copy = time_copy(rt, alloc, &frame);
    let began = now(rt);
    let shard = read_state(alloc, &frame, Seeded::new(0)).ok()?;
    let read = since(rt, began);
    let (rewrite, _) = time_write(rt, alloc, &shard)?;
    Some(FrameTimes {
        write,
        copy,
        read,
        rewrite,
        bytes: frame.len(),
        members: shard.count(KEY),
    })
}

/// Fills a shard, and writes its state.
fn write_filled(rt: &impl Clock, alloc: Global, count: u32) -> Option<(u128, Vec<u8>)> {
    let mut shard = Shard::new(alloc, 0, 1);
    let members = Members {
        site: 0,
        first: 0,
        count,
    };
    put_all(alloc, &mut shard, members);
    time_write(rt, alloc, &shard)
}

/// Nanoseconds in which a state is written, and its frame.
fn time_write(rt: &impl Clock, alloc: Global, shard: &Shard) -> Option<(u128, Vec<u8>)> {
    let began = now(rt);
    let frame = write_state(alloc, shard).ok()?;
    Some((since(rt, began), frame))
}

/// Nanoseconds of a copy of the frame, to memory that was written before.
fn time_copy(rt: &impl Clock, alloc: Global, frame: &[u8]) -> u128 {
    let Ok(mut copy) = Vec::from_slice(alloc, frame) else {
        return 0;
    };
    let began = now(rt);
    copy.copy_from_slice(frame);
    since(rt, began)
}
