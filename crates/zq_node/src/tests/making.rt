//! What a site makes, and frames of it.

use std::alloc::Global;
use std::process::Abort;
use zq_dots::{Act, Dot, Op, Rule, Score, SiteNo, Vector};
use zq_links::{Frame, Have};
use zq_posheap::Seeded;
use zq_shard::Shard;

/// The site that makes what others hear.
pub const MAKER: u8 = 0;

/// A frame to be heard.
#[derive(Clone, Copy)]
pub enum Heard {
    /// Operations of the maker in heap 0 of 2, which puts members a and y in turn: from this one
    /// on, the first being 0, up to before that one, each so many further on.
    Ops(u32, u32, u32),
    /// The maker's heap 0 of 2 after so many of these.
    Heap(u32),
    /// What site 9 has of this heap, of so many, by this rule: so many of the maker's operations.
    Have(u8, u8, Rule, u32),
    /// An operation on member a of queue q, as if it lay in this heap of so many.
    Op(u8, u8),
    /// This heap of so many, by this rule, with nothing in it.
    Empty(u8, u8, Rule),
}

/// The site of this number.
pub fn site_of(rt: &impl Abort, number: u8) -> SiteNo {
    SiteNo::new(number).expect(rt, "a site")
}

/// The removal of member a of queue q, in this heap of so many, which has this dot, and has seen
/// the operations of its site before it and so many of site 9.
#[tactic(auto, unfolding(zq_model::specs::Sets::LAST))]
pub fn drop_of(rt: &impl Abort, alloc: Global, at: (u8, u8), dot: (u8, u64), others: u64) -> Op {
    let site = site_of(rt, dot.0);
    let mut seen = Vector::new();
    seen.set(site_of(rt, 9), others.min(1));
    seen.set(site, dot.1.clamp(1, 2000) - 1);
    let dot = Dot {
        site,
        n: seen.get(site) + 1,
    };
    let heaps = at.1.clamp(1, 16);
    let heap = at.0.min(heaps - 1);
    let key = Vec::from_slice(alloc, b"q").expect(rt, "memory");
    let member = Vec::from_slice(alloc, b"a").expect(rt, "memory");
    Op::new(heap, heaps, dot, seen, key, member, Act::Drop)
}

/// The maker puts a member of queue q.
fn put(rt: &impl Abort, alloc: Global, heap: &mut Shard, member: u8, score: u32) -> Op {
    let score = Score::new(i64::from(score)).expect(rt, "a score");
    heap.make(alloc, site_of(rt, MAKER), b"q", &[member], Act::Put(score))
        .expect(rt, "an operation")
}

/// The maker's heap after so many Puts, and of these from this one on each so many further on.
fn made(rt: &impl Abort, alloc: Global, from: u32, to: u32, by: u32) -> (Shard, Vec<Op>) {
    let mut heap = Shard::new(alloc, 0, 2);
    let mut ops = Vec::new(alloc);
    for round in 0..to {
        let member = if round % 2 == 0 { b'a' } else { b'y' };
        let op = put(rt, alloc, &mut heap, member, round);
        if round >= from && (round - from) % by.max(1) == 0 {
            ops.push(op).expect(rt, "memory");
        }
    }
    (heap, ops)
}

#[tactic(auto, unfolding(zq_model::specs::Sets::LAST))]
fn have(rt: &impl Abort, heap: u8, heaps: u8, rule: Rule, count: u32) -> Have {
    let mut vector = Vector::new();
    vector.set(site_of(rt, MAKER), u64::from(count));
    Have {
        from: site_of(rt, 9),
        heap,
        heaps,
        rule,
        vector,
    }
}

fn only(rt: &impl Abort, alloc: Global, op: Op) -> Vec<Op> {
    let mut ops = Vec::new(alloc);
    ops.push(op).expect(rt, "memory");
    ops
}

fn empty(alloc: Global, heap: u8, heaps: u8, rule: Rule) -> Shard {
    let heaps = heaps.clamp(1, 16);
    let heap = heap.min(heaps - 1);
    Shard::new_ruled(alloc, heap, heaps, rule, Seeded::new(0))
}

/// The frame.
pub fn frame_of(rt: &impl Abort, alloc: Global, heard: Heard) -> Frame {
    match heard {
        Heard::Ops(from, to, by) => Frame::Ops(made(rt, alloc, from, to, by).1),
        Heard::Heap(count) => Frame::State(made(rt, alloc, count, count, 1).0),
        Heard::Have(heap, heaps, rule, count) => Frame::Have(have(rt, heap, heaps, rule, count)),
        Heard::Op(heap, heaps) => {
            let op = drop_of(rt, alloc, (heap, heaps), (9, 1), 0);
            Frame::Ops(only(rt, alloc, op))
        }
        Heard::Empty(heap, heaps, rule) => Frame::State(empty(alloc, heap, heaps, rule)),
    }
}
