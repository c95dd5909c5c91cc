//! Drawn steps against a plain list, a table of ranks, bounds and values, and look-ups by a guess.

use crate::plain::{Plain, are_all, find, has_score, is_at, place_of, put_at, take_at};
use crate::rows::row_holds;
use indexmap::IndexMap;
use rand_core::{Rng, SeedableRng};
use rand_pcg::Pcg64;
use std::alloc::{AllocError, Global};
use std::process::Abort;
use zq_posheap::{Guess, Name, PosHeap, Seeded};

/// More than 64 bits hold.
const FAR: i128 = 1 << 70;

/// A small score, or one that far below or above it.
fn drawn_score(word: u64) -> i128 {
    let score = i128::from(word & 15) - 8;
    match word >> 4 & 3 {
        0 => score - FAR,
        1 => score + FAR,
        _ => score,
    }
}

/// Takes a member out of both, where it is there: whether the heap answers what it had.
fn removes(heap: &mut PosHeap<u32>, plain: &mut Plain, member: &[u8]) -> bool {
    match (heap.remove(member), find(plain, member)) {
        (Some((score, _)), Some(place)) => {
            let had = is_at(plain, place, score, member);
            take_at(plain, place);
            had
        }
        (None, None) => true,
        _ => false,
    }
}

/// Sets a member's score in both: whether there is memory.
fn sets(
    heap: &mut PosHeap<u32>,
    plain: &mut Plain,
    member: &[u8],
    score: i128,
    value: u32,
) -> bool {
    if let Some(place) = find(plain, member) {
        take_at(plain, place);
    }
    let place = place_of(plain, score, member);
    put_at(plain, place, score, member) && heap.set(member, score, value).is_ok()
}

/// Whether both have the same of a member, the same first pair and as many.
fn shows_same(heap: &PosHeap<u32>, plain: &Plain, member: &[u8]) -> bool {
    let score = match heap.get(member) {
        Some((score, _)) => Some(score),
        None => None,
    };
    let is_first = match heap.top() {
        Some((score, member)) => is_at(plain, 0, score, member),
        None => plain.is_empty(),
    };
    is_first && has_score(plain, member, score) && heap.len() == plain.len()
}

/// Does what is drawn in the step with this number: whether both have the same then.
fn follows(heap: &mut PosHeap<u32>, plain: &mut Plain, number: u32, word: u64) -> bool {
    let bytes = (word & 0x0303_0303).to_le_bytes();
    let member = &bytes[..(word >> 60) as usize % 4];
    let done = if word >> 32 & 3 == 0 {
        removes(heap, plain, member)
    } else {
        sets(heap, plain, member, drawn_score(word >> 40), number)
    };
    done && shows_same(heap, plain, member)
}

/// What a heap lists.
type Listed<'a> = Result<Vec<(i128, &'a [u8])>, AllocError>;

/// Whether the pairs are those of the plain list.
fn lists_all(listed: Listed<'_>, plain: &Plain) -> bool {
    match listed {
        Ok(pairs) => are_all(plain, &pairs),
        Err(AllocError) => false,
    }
}

#[test]
fn follows_an_ordered_map(rt: HostRuntime) {
    let mut draws = Pcg64::seed_from_u64(1);
    let mut heap = PosHeap::with_hasher(rt.alloc(), Seeded::new(7));
    let mut plain: Plain = Vec::new(rt.alloc());
    for number in 0..1000 {
        let holds = follows(&mut heap, &mut plain, number, draws.next_u64());
        let agrees = number % 100 != 99 || lists_all(heap.in_order(rt.alloc()), &plain);
        row_holds(&rt, "drawn steps", number as usize, holds && agrees);
    }
}

/// A member, its score and its value; how many pairs go before it, how many scores are below its
/// own, and how many are at most its own, once all are there.
struct Case {
    member: &'static [u8],
    score: i128,
    value: u32,
    before: usize,
    below: usize,
    at_most: usize,
}

const CASES: &[Case] = &[
    Case {
        member: b"b",
        score: 1,
        value: 10,
        before: 4,
        below: 2,
        at_most: 5,
    },
    Case {
        member: b"ab",
        score: 1,
        value: 11,
        before: 3,
        below: 2,
        at_most: 5,
    },
    Case {
        member: b"c",
        score: 0,
        value: 12,
        before: 1,
        below: 1,
        at_most: 2,
    },
    Case {
        member: b"",
        score: 1,
        value: 13,
        before: 2,
        below: 2,
        at_most: 5,
    },
    Case {
        member: b"d",
        score: -2,
        value: 14,
        before: 0,
        below: 0,
        at_most: 1,
    },
];

/// The first three pairs of the cases.
const FIRSTS: [(i128, &[u8]); 3] = [(-2, b"d"), (0, b"c"), (1, b"")];

/// Sets a case's member twice: whether the heap answers what it had.
fn sets_twice(heap: &mut PosHeap<u32>, case: &Case) -> bool {
    matches!(heap.set(case.member, 9, 0), Ok(None))
        && matches!(heap.set(case.member, case.score, case.value), Ok(Some(0)))
}

fn shows_case(heap: &PosHeap<u32>, case: &Case) -> bool {
    let has = match heap.get(case.member) {
        Some((score, value)) => score == case.score && *value == case.value,
        None => false,
    };
    has && heap.count_before(case.score, case.member) == case.before
        && heap.count_below(case.score, false) == case.below
        && heap.count_below(case.score, true) == case.at_most
}

/// Whether these pairs are listed.
fn are(listed: Listed<'_>, expected: &[(i128, &[u8])]) -> bool {
    match listed {
        Ok(pairs) => pairs.as_slice() == expected,
        Err(AllocError) => false,
    }
}

fn sum_of_values(heap: &PosHeap<u32>) -> u32 {
    let mut sum = 0u32;
    for (_, value) in heap.iter() {
        sum = sum.wrapping_add(*value);
    }
    sum
}

/// Whether a heap of the cases lists the first three pairs, and the second and the third of them,
/// and has their values.
fn shows_rest(heap: &PosHeap<u32>, alloc: Global) -> bool {
    are(heap.first(alloc, 3), &FIRSTS)
        && are(heap.slice(alloc, 1, 3), &FIRSTS[1..])
        && sum_of_values(heap) == 60
}

/// Sets the cases in an empty heap.
fn fill(rt: &impl Abort, heap: &mut PosHeap<u32>) {
    assert!(rt; heap.is_empty());
    assert!(rt; heap.reserve(CASES.len()).is_ok());
    for (row, case) in CASES.iter().enumerate() {
        row_holds(rt, "cases set", row, sets_twice(heap, case));
    }
}

#[test]
fn counts_what_goes_before(rt: HostRuntime) {
    let mut heap = PosHeap::new(rt.alloc());
    fill(&rt, &mut heap);
    for (row, case) in CASES.iter().enumerate() {
        row_holds(&rt, "cases", row, shows_case(&heap, case));
    }
    assert!(rt; shows_rest(&heap, rt.alloc()));
}

/// Names by which a map finds numbers.
type Names = IndexMap<Name, u8, Seeded>;

/// The names one and two.
fn named(alloc: Global) -> Option<Names> {
    let mut names = IndexMap::with_hasher(alloc, Seeded::new(7));
    names.insert(Name::copied(alloc, b"one").ok()?, 1).ok()?;
    names.insert(Name::copied(alloc, b"two").ok()?, 2).ok()?;
    Some(names)
}

/// Whether names are found that are sought at a place first.
fn finds(guess: &Guess, names: &Names, place: usize) -> bool {
    guess.note(place);
    guess.find(names, b"two") == Some(1)
        && guess.find(names, b"two") == Some(1)
        && guess.find(names, b"three").is_none()
        && matches!(guess.get(names, b"one"), Some(1))
}

const PLACES: [usize; 4] = [0, 1, 2, usize::MAX];

#[test]
fn finds_names_wherever_it_guesses(rt: HostRuntime) {
    let names = named(rt.alloc()).expect(&rt, "names");
    let guess = Guess::new();
    for (row, place) in PLACES.iter().enumerate() {
        row_holds(&rt, "places", row, finds(&guess, &names, *place));
    }
}
