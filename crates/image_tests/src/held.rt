//! Forty members with their scores, by number, which the tests compare with.
ghost use Rattle.std.specs.Prelude.{length, ◌≤◌};

use std::alloc::AllocError;

/// How many members there are.
pub const MEMBERS: usize = 40;

/// The first letters of the members' names, by number, and the letters that follow these.
const LETTERS: &[u8; 80] =
    b"0123456789abcdefghijklmnopqrstuvwxyzABCD0123456789abcdefghijklmnopqrstuvwxyzABCD";

/// What is known of a member: its score, where it stands, and the step that changed it last.
#[derive(Clone, Copy)]
pub struct Known {
    score: Option<i64>,
    step: usize,
}

/// What is known of each member, by its number.
pub type Held = [Known; MEMBERS];

/// No member stands.
pub const NONE: Held = [Known {
    score: None,
    step: 0,
}; MEMBERS];

/// The name of a member: one letter, and of every second member forty, which take memory of their
/// own.
pub fn name_of(number: usize) -> &'static [u8]
    ensures { length result.now ≤ 40 }
{
    let letters: &[u8] = LETTERS;
    let at = number % MEMBERS;
    let len = if at % 2 == 0 { 1 } else { MEMBERS };
    &letters[at..at + len]
}

/// The letter with which the name of a member begins.
pub fn letter_of(number: usize) -> u8 {
    LETTERS[number % MEMBERS]
}

/// The same, alone in a list.
pub fn alone(number: usize) -> &'static [u8] {
    let letters: &[u8] = LETTERS;
    let at = number % MEMBERS;
    &letters[at..at + 1]
}

/// The number of the member whose name begins with a letter.
pub fn number_of(letter: u8) -> usize {
    let number = match letter {
        b'a'..=b'z' => letter - b'a' + 10,
        b'A'..=b'D' => letter - b'A' + 36,
        _ => letter.saturating_sub(b'0'),
    };
    usize::from(number)
}

/// A step gives a member this score, or takes it out.
pub fn change(held: &mut Held, number: usize, score: Option<i64>, step: usize) {
    held[number % MEMBERS] = Known { score, step };
}

/// One side takes what another has: of each member what was changed last.
pub fn join(held: &mut Held, other: &Held) {
    for number in 0..MEMBERS {
        if other[number].step > held[number].step {
            held[number] = other[number];
        }
    }
}

/// The score of a member.
pub fn score_of(held: &Held, number: usize) -> Option<i64> {
    held[number % MEMBERS].score
}

/// The next member from this one on that stands, or that does not, and this one where none is so.
pub fn next_from(held: &Held, number: usize, stands: bool) -> usize {
    for offset in 0..MEMBERS {
        let other = number.saturating_add(offset) % MEMBERS;
        if score_of(held, other).is_some() == stands {
            return other;
        }
    }
    number
}

/// Whether this is the score of a member.
pub fn has_score(held: &Held, number: usize, score: Option<i128>) -> bool {
    match (score_of(held, number), score) {
        (Some(expected), Some(score)) => score == i128::from(expected),
        (None, None) => true,
        _ => false,
    }
}

/// How many members stand.
pub fn count(held: &Held) -> usize {
    let mut count: usize = 0;
    for known in held {
        if known.score.is_some() {
            count = count.saturating_add(1);
        }
    }
    count
}

/// How many members go before this score with these bytes.
pub fn count_before(held: &Held, score: i128, member: &[u8]) -> usize {
    let mut count: usize = 0;
    for number in 0..MEMBERS {
        if let Some(its) = held[number].score
            && (i128::from(its), name_of(number)) < (score, member)
        {
            count = count.saturating_add(1);
        }
    }
    count
}

/// The place of a member, where it stands.
pub fn rank(held: &Held, number: usize) -> Option<usize> {
    let score = score_of(held, number)?;
    Some(count_before(held, i128::from(score), name_of(number)))
}

/// Whether the pair at a place is this one.
pub fn is_at(held: &Held, place: usize, score: i128, member: &[u8]) -> bool {
    let Some(letter) = member.first() else {
        return false;
    };
    let number = number_of(*letter);
    member == name_of(number)
        && has_score(held, number, Some(score))
        && count_before(held, score, member) == place
}

/// What is listed of a key.
pub type Listed<'a> = Result<Vec<(i128, &'a [u8])>, AllocError>;

/// Whether what stands from one place up to another is listed.
pub fn lists(held: &Held, from: usize, to: usize, listed: Listed<'_>) -> bool {
    match listed {
        Ok(pairs) => {
            are_from(held, from, &pairs) && pairs.len() == to.min(count(held)).saturating_sub(from)
        }
        Err(AllocError) => false,
    }
}

/// Whether the pairs stand from this place on.
fn are_from(held: &Held, from: usize, pairs: &[(i128, &[u8])]) -> bool {
    for (nth, pair) in pairs.iter().enumerate() {
        if !is_at(held, from.saturating_add(nth), pair.0, pair.1) {
            return false;
        }
    }
    true
}

/// The same of places that are counted from the other end.
pub fn lists_turned(held: &Held, from: usize, to: usize, listed: Listed<'_>) -> bool {
    match listed {
        Ok(pairs) => {
            are_back_from(held, count(held).saturating_sub(from), &pairs)
                && pairs.len() == to.min(count(held)).saturating_sub(from)
        }
        Err(AllocError) => false,
    }
}

/// Whether the pairs stand before this place, the last one first.
fn are_back_from(held: &Held, from: usize, pairs: &[(i128, &[u8])]) -> bool {
    for (nth, pair) in pairs.iter().enumerate() {
        if !is_at(
            held,
            from.saturating_sub(nth.saturating_add(1)),
            pair.0,
            pair.1,
        ) {
            return false;
        }
    }
    true
}

/// Whether this is the first pair.
pub fn is_top(held: &Held, top: Option<(i128, &[u8])>) -> bool {
    match top {
        Some((score, member)) => is_at(held, 0, score, member),
        None => count(held) == 0,
    }
}
