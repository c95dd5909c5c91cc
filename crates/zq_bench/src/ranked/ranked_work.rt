//! The steps of a `Ranked` that are timed.
use crate::checksum::folded;
use crate::draws::{draw_below, draw_score};
use crate::members::{LENGTH, member_of};
use rand_pcg::Pcg64;
use std::alloc::AllocError;
use zq_ranked::Ranked;

/// Puts in a pair for each score, with a member of its own.
pub fn insert_all(ranked: &mut Ranked, scores: &[i128]) -> Result<(), AllocError> {
    let mut number = 0u32;
    for score in scores {
        ranked.insert(*score, &member_of(number))?;
        number = number.wrapping_add(1);
    }
    Ok(())
}

/// A checksum of the ranks of drawn pairs.
pub fn sum_ranks(ranked: &Ranked, scores: &[i128], draws: &mut Pcg64, steps: u32) -> usize {
    let mut sum = 0usize;
    for _ in 0..steps {
        let number = draws_number(draws, scores.len());
        if let Some(score) = scores.get(number as usize) {
            sum = sum.wrapping_add(ranked.rank(*score, &member_of(number)));
        }
    }
    sum
}

/// A checksum of the scores of the ten pairs from drawn places.
pub fn sum_tens(ranked: &Ranked, draws: &mut Pcg64, steps: u32, pairs: u32) -> i128 {
    let mut sum = 0i128;
    for _ in 0..steps {
        let place = draw_below(draws, pairs);
        for (score, _) in ranked.iter_from(place as usize).take(10) {
            sum = sum.wrapping_add(score);
        }
    }
    sum
}

/// Gives the members of drawn pairs drawn scores.
pub fn change(
    ranked: &mut Ranked,
    scores: &mut [i128],
    draws: &mut Pcg64,
    steps: u32,
) -> Result<(), AllocError> {
    for _ in 0..steps {
        let number = draws_number(draws, scores.len());
        let score = draw_score(draws);
        if (number as usize) < scores.len() {
            let member = member_of(number);
            ranked.remove(scores[number as usize], &member);
            ranked.insert(score, &member)?;
            scores[number as usize] = score;
        }
    }
    Ok(())
}

/// Takes out the pairs of the first half of the members.
pub fn remove_half(ranked: &mut Ranked, scores: &[i128]) {
    let mut number = 0u32;
    for score in &scores[..scores.len() / 2] {
        ranked.remove(*score, &member_of(number));
        number = number.wrapping_add(1);
    }
}

/// Takes the first out so often, and answers a checksum of what was taken.
pub fn pop_all(ranked: &mut Ranked, pairs: u32) -> u64 {
    let mut checksum = 0;
    for _ in 0..pairs {
        let Some((score, first)) = ranked.first() else {
            return checksum;
        };
        let Ok(member) = <[u8; LENGTH]>::try_from(first) else {
            return checksum;
        };
        checksum = folded(checksum, score, &member);
        ranked.remove(score, &member);
    }
    checksum
}

/// The number of a drawn score of a list.
fn draws_number(draws: &mut Pcg64, scores: usize) -> u32 {
    draw_below(draws, u32::try_from(scores).unwrap_or(u32::MAX))
}
