//! The two ends of a stream of pieces, with drawn operations between the pieces. The link breaks
//! where it is drawn, and the stream goes on.

use crate::stream::{LIFE, Stream};
use rand_core::{Rng, SeedableRng};
use rand_pcg::Pcg64;
use std::alloc::Global;
use zq_dots::{Act, Score, SiteNo};
use zq_links::write_piece;
use zq_posheap::Seeded;
use zq_shard::Shard;
use zq_stage::{Portion, PortionLimits};
use zq_transfer::Sending;

/// Three members at once.
const LIMITS: PortionLimits = PortionLimits {
    rows: 3,
    bytes: 1_000_000,
};

/// What is drawn for a member.
fn act_of(drawn: u8) -> Option<Act> {
    let number = Score::new(i64::from(drawn / 4))?;
    match drawn % 4 {
        0 | 1 => Some(Act::Put(number)),
        2 => Some(Act::Bump(number)),
        _ => Some(Act::Drop),
    }
}

/// Does what is drawn.
fn follows(stream: &mut Stream, alloc: Global, drawn: [u8; 8]) -> Option<()> {
    match drawn[0] % 8 {
        0 | 1 => stream.hands(alloc),
        2 => stream.breaks(),
        3 => stream.flushes(alloc),
        _ => {
            let (key, member) = (u32::from(drawn[1] % 3), u32::from(drawn[1] % 20));
            stream.makes(alloc, key, member, act_of(drawn[2])?)
        }
    }
}

/// Whether the other end comes to have the heap.
fn ends(mut stream: Stream, alloc: Global) -> Option<bool> {
    for _piece in 0..20u8 {
        stream.flushes(alloc)?;
        stream.hands(alloc)?;
    }
    stream.ends(alloc)
}

/// Whether a stream of so many drawn steps goes as it should.
fn goes(alloc: Global, seed: u64) -> Option<bool> {
    let mut draws = Pcg64::seed_from_u64(seed);
    let mut stream = Stream::new(alloc, Shard::new(alloc, 0, 1), LIMITS);
    for _step in 0..120u8 {
        follows(&mut stream, alloc, draws.next_u64().to_le_bytes())?;
    }
    ends(stream, alloc)
}

#[test]
fn a_heap_goes_in_pieces(rt: HostRuntime) {
    for seed in 1..40 {
        assert!(rt; goes(rt.alloc(), seed) == Some(true), "seed {seed}");
    }
}

/// A heap of one member that has an addition of each site, each with a sum of each site.
fn heaviest(alloc: Global) -> Option<Shard> {
    let mut heap = Shard::new(alloc, 0, 1);
    for site in 0..64u8 {
        let mut own = Shard::new(alloc, 0, 1);
        own.make(alloc, SiteNo::new(site)?, b"p", b"a", act_of(0)?)
            .ok()?;
        heap.merge(alloc, &own).ok()?;
    }
    for site in 0..64u8 {
        heap.make(alloc, SiteNo::new(site)?, b"p", b"a", act_of(6)?)
            .ok()?;
    }
    Some(heap)
}

/// How many bytes a piece takes that has all of a heap.
fn bytes_of(alloc: Global, heap: &Shard) -> Option<usize> {
    let mut sending = Sending::anew(LIFE);
    let portion = Portion::of(heap, alloc, sending.spot, LIMITS, Seeded::new(1)).ok()?;
    let piece = sending.piece(portion).ok()?;
    Some(write_piece(alloc, &piece).ok()?.len())
}

/// A piece takes 640 bytes more at most, for its front and a vector of all sites.
#[test]
fn a_member_takes_no_more_than_it_counts_for(rt: HostRuntime) {
    let heap = heaviest(rt.alloc()).expect(&rt, "memory");
    let bytes = bytes_of(rt.alloc(), &heap).expect(&rt, "memory");
    let most = 1 + 1 + 32 + 64 * 1_106;
    assert!(rt; 64 * 1_106 <= bytes && bytes <= most + 640, "{bytes} bytes");
}
