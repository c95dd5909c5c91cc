//! Drawn steps against a plain list, and filling and emptying at each length.

use crate::plain::{Plain, is_at, place_of, put_at, take_at};
use crate::rows::row_holds;
use rand_core::{Rng, SeedableRng};
use rand_pcg::Pcg64;
use std::alloc::Global;
use std::process::Abort;
use zq_ranked::Ranked;

/// Puts a pair into both, where it is not there: whether the ranked list answers as it should.
fn puts(ranked: &mut Ranked, plain: &mut Plain, score: i128, member: &[u8]) -> bool {
    let place = place_of(plain, score, member);
    let there = is_at(plain, place, score, member);
    let ranks = ranked.rank(score, member) == place;
    let inserts = ranked.insert(score, member) == Ok(!there);
    ranks && inserts && (there || put_at(plain, place, score, member))
}

/// The same of taking a pair out.
fn takes(ranked: &mut Ranked, plain: &mut Plain, score: i128, member: &[u8]) -> bool {
    let place = place_of(plain, score, member);
    let there = is_at(plain, place, score, member);
    if there {
        take_at(plain, place);
    }
    ranked.rank(score, member) == place && ranked.remove(score, member) == there
}

/// Whether both have the same pairs, by their places and onward.
fn same_onward(ranked: &Ranked, plain: &Plain) -> bool {
    let mut onward = ranked.iter_from(0);
    for (place, pair) in plain.iter().enumerate() {
        let pair = Some((pair.0, pair.1.as_slice()));
        if onward.next() != pair || ranked.at(place) != pair {
            return false;
        }
    }
    onward.next().is_none()
}

/// Whether both have the same pairs backward.
fn same_backward(ranked: &Ranked, plain: &Plain) -> bool {
    let mut backward = ranked.iter_back_from(plain.len());
    for pair in plain.iter().rev() {
        if backward.next() != Some((pair.0, pair.1.as_slice())) {
            return false;
        }
    }
    backward.next().is_none()
}

fn same(ranked: &Ranked, plain: &Plain) -> bool {
    ranked.len() == plain.len() && same_onward(ranked, plain) && same_backward(ranked, plain)
}

/// Does what is drawn in the step with this number. Pairs are taken out more and more often.
fn follows(ranked: &mut Ranked, plain: &mut Plain, number: u32, word: u64) -> bool {
    let bytes = (word & 0x0303_0303).to_le_bytes();
    let member = &bytes[..(word >> 60) as usize % 4];
    let score = i128::from(word >> 40 & 63) - 8;
    if word >> 32 & 3 < u64::from(number / 20_000) {
        takes(ranked, plain, score, member)
    } else {
        puts(ranked, plain, score, member)
    }
}

#[test]
fn follows_a_sorted_list(rt: HostRuntime) {
    let mut draws = Pcg64::seed_from_u64(1);
    let mut ranked = Ranked::new(rt.alloc());
    let mut plain: Plain = Vec::new(rt.alloc());
    for number in 0..100_000 {
        let holds = follows(&mut ranked, &mut plain, number, draws.next_u64());
        let agrees = number % 1000 != 999 || same(&ranked, &plain);
        row_holds(&rt, "drawn steps", number as usize, holds && agrees);
    }
}

/// An order in which pairs come.
#[derive(Clone, Copy)]
enum Turn {
    Rising,
    Falling,
    InTurns,
}

/// The score of the pair that comes at a number below another.
fn score_at(turn: Turn, number: u32, count: u32) -> u32 {
    match turn {
        Turn::Rising => number,
        Turn::Falling => count.saturating_sub(number),
        Turn::InTurns => number % 7,
    }
}

/// Puts the pair that comes at a number in, or takes it out.
fn turns(ranked: &mut Ranked, plain: &mut Plain, takes_out: bool, number: u32, score: u32) -> bool {
    let (score, member) = (i128::from(score), number.to_be_bytes());
    if takes_out {
        takes(ranked, plain, score, &member)
    } else {
        puts(ranked, plain, score, &member)
    }
}

/// Puts 300 pairs in, takes them out in the same order, and compares at each length.
fn fill_and_empty(rt: &impl Abort, alloc: Global, turn: Turn) {
    let mut ranked = Ranked::new(alloc);
    let mut plain: Plain = Vec::new(alloc);
    for step in 0..600u32 {
        let number = step % 300;
        let score = score_at(turn, number, 300);
        let holds = turns(&mut ranked, &mut plain, step >= 300, number, score);
        row_holds(
            rt,
            "in and out",
            step as usize,
            holds && same(&ranked, &plain),
        );
    }
}

#[test]
fn fills_and_empties_at_each_length(rt: HostRuntime) {
    for turn in [Turn::Rising, Turn::Falling, Turn::InTurns] {
        fill_and_empty(&rt, rt.alloc(), turn);
    }
}

const LONG: &[u8] = b"a member of more than sixteen bytes";

/// Pairs as they are put in, the last one for the second time,
const GIVEN: [(i128, &[u8]); 6] = [
    (1, b"b"),
    (1, b"ab"),
    (i128::MAX, LONG),
    (1, b""),
    (0, b"z"),
    (1, b"ab"),
];

/// and as they then stand.
const ORDER: [(i128, &[u8]); 5] = [
    (0, b"z"),
    (1, b""),
    (1, b"ab"),
    (1, b"b"),
    (i128::MAX, LONG),
];

/// Puts pairs in: whether there is memory.
fn fill(ranked: &mut Ranked, pairs: &[(i128, &[u8])]) -> bool {
    for (score, member) in pairs {
        if ranked.insert(*score, member).is_err() {
            return false;
        }
    }
    true
}

fn has_at(ranked: &Ranked, place: usize, pair: &(i128, &[u8])) -> bool {
    ranked.at(place) == Some(*pair)
}

#[test]
fn equal_scores_go_by_bytes(rt: HostRuntime) {
    let mut ranked = Ranked::new(rt.alloc());
    assert!(rt; ranked.first().is_none());
    assert!(rt; ranked.last().is_none());
    assert!(rt; fill(&mut ranked, &GIVEN));
    for (row, pair) in ORDER.iter().enumerate() {
        row_holds(&rt, "order", row, has_at(&ranked, row, pair));
    }
    assert!(rt; ranked.last() == Some((i128::MAX, LONG)));
}

const TWICE: [(i128, &[u8]); 10] = [
    (i128::MIN, b"a"),
    (i128::MIN, b""),
    (3, b"a"),
    (3, b""),
    (3, b"a"),
    (3, b""),
    (5, b"a"),
    (5, b""),
    (i128::MAX, b"a"),
    (i128::MAX, b""),
];

/// A score, how many are below it, and how many below it or at it.
const COUNTS: [(i128, usize, usize); 5] = [
    (i128::MIN, 0, 2),
    (2, 2, 2),
    (3, 2, 4),
    (4, 4, 4),
    (i128::MAX, 6, 8),
];

fn counts(ranked: &Ranked, row: &(i128, usize, usize)) -> bool {
    let (score, below, with_equal) = *row;
    ranked.count_below(score, false) == below && ranked.count_below(score, true) == with_equal
}

#[test]
fn counts_scores_below(rt: HostRuntime) {
    let mut ranked = Ranked::new(rt.alloc());
    assert!(rt; fill(&mut ranked, &TWICE));
    for (row, count) in COUNTS.iter().enumerate() {
        row_holds(&rt, "counts", row, counts(&ranked, count));
    }
}
