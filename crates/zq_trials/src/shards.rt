//! Heap 0 of two, in which the members a, c, m and y of key q lie.

use std::alloc::Global;
use zq_dots::{Act, Op, Score, SiteNo};
use zq_merge::write_state;
use zq_shard::{Shard, Taken};

/// What site 0 puts there: members of one letter, with their scores.
pub const OURS: [(u8, i64); 2] = [(b'a', 1), (b'c', 2)];

/// What site 1 puts there.
pub const THEIRS: [(u8, i64); 3] = [(b'y', 3), (b'a', 5), (b'm', 4)];

/// The operation of a site that puts a member of key q there.
fn put(alloc: Global, shard: &mut Shard, site: SiteNo, member: u8, score: i64) -> Option<Op> {
    let score = Score::new(score)?;
    shard
        .make(alloc, site, b"q", &[member], Act::Put(score))
        .ok()
}

/// The operations of a site that puts these members there, in their order.
pub fn operations(alloc: Global, site: u8, members: &[(u8, i64)]) -> Option<Vec<Op>> {
    let number = SiteNo::new(site)?;
    let mut shard = Shard::new(alloc, 0, 2);
    let mut ops = Vec::new(alloc);
    for (member, score) in members {
        let op = put(alloc, &mut shard, number, *member, *score)?;
        ops.push(op).ok()?;
    }
    Some(ops)
}

/// The heap of one that has taken these operations, each of which is new to it.
pub fn taken(alloc: Global, ops: &[Op]) -> Option<Shard> {
    let mut shard = Shard::new(alloc, 0, 2);
    if take_all(alloc, &mut shard, ops) {
        Some(shard)
    } else {
        None
    }
}

/// Takes these operations, and says whether each was new and had its memory.
fn take_all(alloc: Global, shard: &mut Shard, ops: &[Op]) -> bool {
    for op in ops {
        if !matches!(shard.take(alloc, op), Ok(Taken::New)) {
            return false;
        }
    }
    true
}

/// The heap of a site that has put these members there.
pub fn put_by(alloc: Global, site: u8, members: &[(u8, i64)]) -> Option<Shard> {
    let ops = operations(alloc, site, members)?;
    taken(alloc, &ops)
}

/// The bytes of the heap of one that has taken what both sites have made there. No merge has a part
/// in it.
pub fn together(alloc: Global) -> Option<Vec<u8>> {
    let mut shard = put_by(alloc, 0, &OURS)?;
    let theirs = operations(alloc, 1, &THEIRS)?;
    if take_all(alloc, &mut shard, &theirs) {
        written(alloc, &shard)
    } else {
        None
    }
}

/// The bytes of a heap.
pub fn written(alloc: Global, shard: &Shard) -> Option<Vec<u8>> {
    write_state(alloc, shard).ok()
}

/// Whether a heap has these bytes.
pub fn is_written(alloc: Global, shard: &Shard, bytes: &[u8]) -> Option<bool> {
    let written = written(alloc, shard)?;
    Some(written.as_slice() == bytes)
}
