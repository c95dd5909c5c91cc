//! A heap of 100,000 members goes in pieces while it changes: before each piece members are put,
//! raised and taken out, whole keys are popped, and new ones come.

ghost use Rattle.std.specs.Prelude.{◌<◌};

use crate::stream::Stream;
use rand_core::{Rng, SeedableRng};
use rand_pcg::Pcg64;
use std::alloc::Global;
use zq_dots::{Act, Score};
use zq_shard::Shard;
use zq_stage::PortionLimits;

/// What a site sends at once: some 780 of the members, since a name has four bytes.
const LIMITS: PortionLimits = PortionLimits {
    rows: 1_000,
    bytes: 900_000,
};

/// How many keys there are at first, and how many of them are large or of a thousand members.
const KEYS: u32 = 10_028;

const LARGE: u32 = 8;

const GREAT: u32 = 28;

/// How many changes come before each piece.
const CHANGES: u8 = 20;

/// After so many pieces each time the other end gives up what came.
const GIVEN_UP: [u32; 3] = [1, 15, 30];

/// How many members a key has at first. All have 100,000.
fn size_of(key: u32) -> u32
    ensures { 0 < result }
{
    if key < LARGE {
        5_000
    } else if key < GREAT {
        1_000
    } else {
        4
    }
}

fn put(score: i64) -> Option<Act> {
    Some(Act::Put(Score::new(score)?))
}

/// A heap with all members of the keys, of which nothing went.
fn filled(alloc: Global) -> Option<Stream> {
    let mut stream = Stream::new(alloc, Shard::new(alloc, 0, 1), LIMITS);
    for key in 0..KEYS {
        fill(&mut stream, alloc, key)?;
    }
    stream.flushes(alloc)?;
    Some(stream)
}

/// All members of a key are put.
fn fill(stream: &mut Stream, alloc: Global, key: u32) -> Option<()> {
    for member in 0..size_of(key) {
        stream.makes(alloc, key, member, put(i64::from(member % 97))?)?;
    }
    Some(())
}

/// The first member of a key.
fn top_of(heap: &Shard, key: u32) -> Option<u32> {
    match heap.top(&key.to_be_bytes())?.1 {
        [first, second, third, fourth] => {
            Some(u32::from_be_bytes([*first, *second, *third, *fourth]))
        }
        _ => None,
    }
}

/// All members of a key are popped.
fn pop(stream: &mut Stream, alloc: Global, key: u32) -> Option<()> {
    for _member in 0..stream.heap.count(&key.to_be_bytes()) {
        let member = top_of(&stream.heap, key)?;
        stream.makes(alloc, key, member, Act::Drop)?;
    }
    Some(())
}

/// A key that is drawn: each second time one of the larger ones.
fn key_of(drawn: [u8; 8]) -> u32 {
    let number = u32::from_le_bytes([drawn[2], drawn[3], 0, 0]);
    if drawn[1] < 128 {
        number % GREAT
    } else {
        number % KEYS
    }
}

/// What is drawn is done: a key is popped, unless it is a large one; a new key comes; or a member is
/// new, taken out, raised or put.
fn change(stream: &mut Stream, alloc: Global, drawn: [u8; 8]) -> Option<()> {
    let key = key_of(drawn);
    let number = u32::from_le_bytes([drawn[4], drawn[5], drawn[6], 0]) % 1_000_000;
    let member = number % size_of(key);
    let score = i64::from(drawn[7]);
    match drawn[0] % 8 {
        0 if key >= LARGE => pop(stream, alloc, key),
        1 => stream.makes(alloc, KEYS + number, 0, put(score)?),
        2 => stream.makes(alloc, key, 5_000 + number, put(score)?),
        3 => stream.makes(alloc, key, member, Act::Drop),
        4 => stream.makes(alloc, key, member, Act::Bump(Score::new(score)?)),
        _ => stream.makes(alloc, key, member, put(score)?),
    }
}

/// Many changes are made.
fn changes(stream: &mut Stream, alloc: Global, draws: &mut Pcg64) -> Option<()> {
    for _change in 0..CHANGES {
        change(stream, alloc, draws.next_u64().to_le_bytes())?;
    }
    Some(())
}

/// Changes are made and the next piece goes. The link breaks before it and after it.
fn goes_on(stream: &mut Stream, alloc: Global, draws: &mut Pcg64) -> Option<()> {
    changes(stream, alloc, draws)?;
    stream.hands(alloc)?;
    stream.breaks()?;
    stream.flushes(alloc)?;
    stream.hands(alloc)?;
    stream.breaks()
}

/// How many pieces go until the last one came, where so many at most go.
fn goes(stream: &mut Stream, alloc: Global, draws: &mut Pcg64, most: u32) -> Option<u32> {
    for pieces in 0..most {
        if stream.is_whole() {
            return Some(pieces);
        }
        goes_on(stream, alloc, draws)?;
    }
    Some(most)
}

/// How many pieces went of a heap of which the other end gave up what came before, and then has all.
fn walk(alloc: Global, seed: u64) -> Option<u32> {
    let mut draws = Pcg64::seed_from_u64(seed);
    let mut stream = filled(alloc)?;
    for most in GIVEN_UP {
        goes(&mut stream, alloc, &mut draws, most)?;
        stream.gives_up();
    }
    let pieces = goes(&mut stream, alloc, &mut draws, 1_000)?;
    if stream.ends(alloc)? {
        Some(pieces)
    } else {
        None
    }
}

#[test]
fn a_large_heap_goes_in_pieces_while_it_changes(rt: HostRuntime) {
    let pieces = walk(rt.alloc(), 1).expect(&rt, "a heap that came");
    assert!(rt; 100 <= pieces && pieces < 1_000, "{pieces} pieces");
}
