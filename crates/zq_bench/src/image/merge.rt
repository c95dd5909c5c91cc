//! A merge of two shards, of whose members they share half, beside a copy of one.
use crate::clock::{now, since};
use crate::image::members::{KEY, Members, put_all};
use std::alloc::Global;
use std::rt::Clock;
use zq_shard::Shard;

/// What was timed, in nanoseconds, and the members after the merge.
#[derive(Clone, Copy)]
pub struct MergeTimes {
    pub copy: u128,
    pub merge: u128,
    pub members: usize,
}

/// Times over two shards of so many members each: a half that both have, and for each a half of its
/// own.
pub fn time_half_shared(rt: &impl Clock, alloc: Global, members: u32) -> Option<MergeTimes> {
    let mut one = Shard::new(alloc, 0, 1);
    put_half(alloc, &mut one, 0, members / 2);
    let mut other = one.copy(alloc).ok()?;
    put_half(alloc, &mut one, 1, members / 2);
    put_half(alloc, &mut other, 2, members / 2);
    time_both(rt, alloc, &one, &other)
}

/// Puts the half of the members that is a site's.
fn put_half(alloc: Global, shard: &mut Shard, site: u8, count: u32) {
    let first = u32::from(site).wrapping_mul(count);
    put_all(alloc, shard, Members { site, first, count });
}

/// Times a copy of one shard, and a merge of the other into the copy.
fn time_both(rt: &impl Clock, alloc: Global, one: &Shard, other: &Shard) -> Option<MergeTimes> {
    let began = now(rt);
    let mut both = one.copy(alloc).ok()?;
    let copy = since(rt, began);
    let merge = time_merge(rt, alloc, &mut both, other);
    Some(MergeTimes {
        copy,
        merge,
        members: both.count(KEY),
    })
}

/// Nanoseconds of a merge, and 0 where there was no memory for it.
fn time_merge(rt: &impl Clock, alloc: Global, both: &mut Shard, other: &Shard) -> u128 {
    let began = now(rt);
    match both.merge(alloc, other) {
        Ok(()) => since(rt, began),
        Err(_) => 0,
    }
}
