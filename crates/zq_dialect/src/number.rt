//! The texts of numbers.

ghost use Rattle.std.specs.Prelude.{◌≡◌, ◌≤◌, ◌+◌, ◌-◌, ◌*◌, ◌^◌, ◌&&◌, ◌++◌, min, drop, length, slice_index_or};
ghost use Rattle.std.specs.Option.{option_and_then, option_map};
ghost use Rattle.zq_dialect.specs.Numbers.{amount_at, moved, no_shift, number_at, number_in, shift_of, with_digits};
ghost use Rattle.zq_dialect.specs.Rounded.{capped, rounded};
ghost use Rattle.zq_words.specs.Words.{number_of};

use crate::digits::{
    amount_of, are_digits, has_only_digits, has_only_zeros, is_negative, mark_of, point_of,
    unsigned, with_digit,
};
use crate::rounded::Rounded;

/// A number's text has at most so many bytes.
const LONGEST: usize = 64;

/// An exponent has at most so many digits.
const EXPONENT_DIGITS: usize = 4;

/// An exponent's amount is at most this.
const GREATEST_EXPONENT: u64 = 400;

/// By how many places an exponent moves the point, and where to.
#[derive(Clone, Copy, Debug)]
pub struct Shift {
    /// To the left, so that the number gets smaller.
    pub is_down: bool,
    pub places: u16,
}

/// The number that a text writes, rounded towards 0, where an amount above 2^64 - 1 counts as that:
/// a sign or none, one or more digits, of which a point may stand before, behind or between, and an
/// exponent or none. `None` for another text, for one of more than 64 bytes, and for an exponent of
/// more than four digits or beyond 400.
#[tactic(auto, using(crate::proofs::Splitting::unsplit, crate::proofs::Splitting::split_at))]
pub fn parse_number(text: &[u8]) -> Option<Rounded>
    ensures { result ≡ option_map (λ n. capped (rounded n)) (number_in text.now) }
{
    if text.len() > LONGEST {
        return None;
    }
    match mark_of(text) {
        None => parse_at(text, not_shifted()),
        Some(mark) => {
            let (number, marked) = text.split_at(mark);
            parse_marked(number, marked)
        }
    }
}

/// The number of a text and of the exponent behind it, whose mark stands first.
fn parse_marked(text: &[u8], marked: &[u8]) -> Option<Rounded>
    requires { 1 ≤ length marked.now }
    ensures { result ≡ option_map (λ n. capped (rounded n))
        (option_and_then (number_at text.now) (shift_of (drop 1 marked.now))) }
{
    match parse_exponent(&marked[1..]) {
        Some(shift) => parse_at(text, shift),
        None => None,
    }
}

fn not_shifted() -> Shift
    ensures { result ≡ no_shift }
{
    Shift {
        is_down: false,
        places: 0,
    }
}

/// What the text behind the mark says.
fn parse_exponent(text: &[u8]) -> Option<Shift>
    ensures { result ≡ shift_of text.now }
{
    let digits = unsigned(text);
    if !are_digits(digits) || digits.len() > EXPONENT_DIGITS {
        return None;
    }
    let places = amount_of(digits);
    if places > GREATEST_EXPONENT {
        return None;
    }
    Some(Shift {
        is_down: is_negative(text),
        places: places as u16,
    })
}

/// The number of a text without exponent, with its point moved.
#[tactic(auto, using(crate::proofs::Splitting::unsplit, crate::proofs::Splitting::split_at))]
fn parse_at(text: &[u8], shift: Shift) -> Option<Rounded>
    ensures { result ≡ option_map (λ n. capped (rounded n)) (number_at text.now shift) }
{
    let minus = is_negative(text);
    let digits = unsigned(text);
    match point_of(digits) {
        None => round_digits(minus, digits, b"", shift),
        Some(point) => round_digits(minus, &digits[..point], &digits[point + 1..], shift),
    }
}

/// The number of these texts before and behind the point, if they are digits.
#[tactic(auto, using(crate::proofs::Splitting::zeros_behind))]
fn round_digits(is_negative: bool, whole: &[u8], fraction: &[u8], shift: Shift) -> Option<Rounded>
    ensures { result ≡ option_map (λ n. capped (rounded n))
        (with_digits is_negative whole.now fraction.now shift) }
{
    if whole.is_empty() && fraction.is_empty() {
        return None;
    }
    if !has_only_digits(whole) || !has_only_digits(fraction) {
        return None;
    }
    let point = moved_point(whole, shift);
    Some(Rounded {
        is_negative,
        amount: amount_before(whole, fraction, point),
        is_whole: has_only_zeros(behind(whole, point))
            && has_only_zeros(behind(fraction, point.saturating_sub(whole.len()))),
    })
}

/// How many digits stand before the point once it is moved.
fn moved_point(whole: &[u8], shift: Shift) -> usize
    ensures { result ≡ moved (length whole.now) shift }
{
    if shift.is_down {
        whole.len().saturating_sub(usize::from(shift.places))
    } else {
        whole.len() + usize::from(shift.places)
    }
}

/// The number that so many of the digits write, with zeros where they end, or 2^64 - 1 where it is
/// greater.
#[tactic(auto, using(crate::proofs::Places::one_place, crate::proofs::Places::no_place))]
fn amount_before(whole: &[u8], fraction: &[u8], point: usize) -> u64
    ensures { result ≡ min (amount_at (whole.now ++ fraction.now) point) (2 ^ 64 - 1) }
{
    let mut amount = 0u64;
    for place in 0..point {
        amount = with_digit(amount, digit_at(whole, fraction, place));
    }
    amount
}

/// The digit at this place of the two texts, and a zero behind them.
fn digit_at(whole: &[u8], fraction: &[u8], place: usize) -> u8
    ensures { result ≡ slice_index_or (whole.now ++ fraction.now) place 48 }
{
    if place < whole.len() {
        whole[place]
    } else {
        let place = place - whole.len();
        if place < fraction.len() {
            fraction[place]
        } else {
            b'0'
        }
    }
}

/// The text behind so many bytes, or nothing where it has fewer.
fn behind(text: &[u8], count: usize) -> &[u8]
    ensures { result.now ≡ drop count text.now }
{
    if count < text.len() {
        &text[count..]
    } else {
        b""
    }
}
