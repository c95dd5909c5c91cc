//! What a site is asked: each command, of a key q with few members and few scores.

use rand_core::Rng;
use rand_pcg::Pcg64;
use std::alloc::Global;
use std::test::Fail;

/// The members are the first so many letters.
pub const LETTERS: u8 = 12;

/// A command, with scores, places and counts, and with members by their letters.
#[derive(Clone, Copy)]
pub enum Asked {
    Ping,
    Put(i64, u8),
    PutTwo(i64, u8, i64, u8),
    Raise(i64, u8),
    Bump(i64, u8),
    Drop(u8, u8),
    Pop(i64),
    PopNear,
    Clear,
    Score(u8),
    Size,
    Rank(u8),
    TurnedRank(u8),
    /// The scores above the first one, up to the second one.
    Within(i64, i64),
    Places(i64, i64, bool),
    /// The scores from one to another; so many are left out, and so many given.
    Scores(i64, i64, bool, i64, i64),
}

/// A number from -3 to 6.
fn number(draws: &mut Pcg64) -> i64 {
    (draws.next_u64() % 10) as i64 - 3
}

fn letter(draws: &mut Pcg64) -> u8 {
    b'a' + (draws.next_u64() % u64::from(LETTERS)) as u8
}

fn is_turned(draws: &mut Pcg64) -> bool {
    draws.next_u64() % 2 == 0
}

/// Draws a command. Rare ones are those that take all or nothing.
pub fn drawn(draws: &mut Pcg64) -> Asked {
    match draws.next_u64() % 40 {
        0 => Asked::Ping,
        1 => Asked::Clear,
        2..=9 => Asked::Put(number(draws), letter(draws)),
        10..=12 => Asked::PutTwo(number(draws), letter(draws), number(draws), letter(draws)),
        13..=14 => Asked::Raise(number(draws), letter(draws)),
        15..=17 => Asked::Bump(number(draws), letter(draws)),
        18..=19 => Asked::Drop(letter(draws), letter(draws)),
        20 => Asked::Pop(number(draws).max(0)),
        21 => Asked::PopNear,
        22 => Asked::Score(letter(draws)),
        23 => Asked::Size,
        24..=26 => Asked::Rank(letter(draws)),
        27..=29 => Asked::TurnedRank(letter(draws)),
        30..=32 => Asked::Within(number(draws), number(draws)),
        33..=35 => Asked::Places(number(draws), number(draws), is_turned(draws)),
        _ => Asked::Scores(
            number(draws),
            number(draws),
            is_turned(draws),
            number(draws).max(0),
            number(draws),
        ),
    }
}

/// A letter as a text.
fn text(letter: u8) -> char {
    char::from(letter)
}

/// The command's words.
pub fn line_of(alloc: Global, asked: Asked) -> Result<String, Fail> {
    let line = match asked {
        Asked::Ping => format!(in alloc; "PING"),
        Asked::Put(score, member) => format!(in alloc; "ZADD q {score} {}", text(member)),
        Asked::PutTwo(score, member, second, other) => {
            format!(in alloc; "ZADD q {score} {} {second} {}", text(member), text(other))
        }
        Asked::Raise(score, member) => format!(in alloc; "ZADD q GT CH {score} {}", text(member)),
        Asked::Bump(by, member) => format!(in alloc; "ZINCRBY q {by} {}", text(member)),
        Asked::Drop(member, other) => format!(in alloc; "ZREM q {} {}", text(member), text(other)),
        Asked::Pop(count) => format!(in alloc; "ZPOPMIN q {count}"),
        Asked::PopNear => format!(in alloc; "ZPOPNEAR q"),
        Asked::Clear => format!(in alloc; "DEL q"),
        Asked::Score(member) => format!(in alloc; "ZSCORE q {}", text(member)),
        Asked::Size => format!(in alloc; "ZCARD q"),
        Asked::Rank(member) => format!(in alloc; "ZRANK q {}", text(member)),
        Asked::TurnedRank(member) => format!(in alloc; "ZREVRANK q {}", text(member)),
        Asked::Within(min, max) => format!(in alloc; "ZCOUNT q ({min} {max}"),
        Asked::Places(start, stop, false) => {
            format!(in alloc; "ZRANGE q {start} {stop} WITHSCORES")
        }
        Asked::Places(start, stop, true) => {
            format!(in alloc; "ZRANGE q {start} {stop} REV WITHSCORES")
        }
        Asked::Scores(min, max, false, offset, count) => {
            format!(in alloc; "ZRANGE q {min} {max} BYSCORE LIMIT {offset} {count} WITHSCORES")
        }
        Asked::Scores(min, max, true, offset, count) => {
            format!(in alloc; "ZRANGE q {max} {min} BYSCORE REV LIMIT {offset} {count} WITHSCORES")
        }
    };
    Ok(line?)
}
