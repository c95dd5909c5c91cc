//! Worked rows. With key q and 2 heaps the members a, c, m and y lie in heap 0 and b, d and x in
//! heap 1; with 4 heaps a lies in heap 0, b in 1, c in 2 and d in 3.

use super::Step::{Ask, Draw, Hand, Merge, Read};
use super::{Step, follow};
use std::test::Fail;
use zq_dots::Rule;
use zq_shard::Taken::{Early, Known, New};

/// Increments made apart are all added, once.
const SUMS: [Step; 11] = [
    Ask(7, "ZADD q 10 x", ":1\r\n"),
    Hand(63, 0, New),
    Ask(7, "ZINCRBY q 5 x", "$2\r\n15\r\n"),
    Ask(63, "ZINCRBY q 7 x", "$2\r\n17\r\n"),
    Hand(63, 1, New),
    Hand(7, 2, New),
    Hand(63, 1, Known),
    Hand(7, 2, Known),
    Merge(63, 7, 1, 6),
    Read(7, "ZSCORE q x", "$2\r\n22\r\n"),
    Read(63, "ZSCORE q x", "$2\r\n22\r\n"),
];

/// The same where one comes inside a state.
const SUMS_IN_A_STATE: [Step; 8] = [
    Ask(0, "ZADD q 10 x", ":1\r\n"),
    Hand(1, 0, New),
    Ask(0, "ZINCRBY q 5 x", "$2\r\n15\r\n"),
    Ask(1, "ZINCRBY q 7 x", "$2\r\n17\r\n"),
    Merge(1, 0, 1, 3),
    Hand(0, 2, New),
    Read(0, "ZSCORE q x", "$2\r\n22\r\n"),
    Read(1, "ZSCORE q x", "$2\r\n22\r\n"),
];

/// What was added apart stays where the member is removed.
const ADDED_APART: [Step; 8] = [
    Ask(0, "ZADD q 3 x", ":1\r\n"),
    Hand(1, 0, New),
    Ask(0, "ZREM q x", ":1\r\n"),
    Ask(1, "ZADD q 4 x", ":0\r\n"),
    Hand(1, 1, New),
    Hand(0, 2, New),
    Read(0, "ZSCORE q x", "$1\r\n4\r\n"),
    Read(1, "ZSCORE q x", "$1\r\n4\r\n"),
];

/// An increment made apart goes with what it raised.
const RAISED_APART: [Step; 8] = [
    Ask(0, "ZADD q 3 x", ":1\r\n"),
    Hand(1, 0, New),
    Ask(0, "ZREM q x", ":1\r\n"),
    Ask(1, "ZINCRBY q 7 x", "$2\r\n10\r\n"),
    Merge(1, 0, 1, 3),
    Merge(0, 1, 1, 4),
    Read(0, "ZSCORE q x", "$-1\r\n"),
    Read(1, "ZSCORE q x", "$-1\r\n"),
];

/// The greatest value of those put apart.
const GREATEST: [Step; 8] = [
    Ask(0, "ZADD q 5 x", ":1\r\n"),
    Ask(1, "ZADD q 9 x", ":1\r\n"),
    Hand(1, 0, New),
    Hand(0, 1, New),
    Ask(0, "ZINCRBY q -6 x", "$1\r\n3\r\n"),
    Hand(1, 2, New),
    Read(0, "ZSCORE q x", "$1\r\n3\r\n"),
    Read(1, "ZSCORE q x", "$1\r\n3\r\n"),
];

/// The least.
const LEAST: [Step; 9] = [
    Ask(0, "ZADD q 5 x", ":1\r\n"),
    Ask(1, "ZADD q 9 x", ":1\r\n"),
    Hand(1, 0, New),
    Hand(0, 1, New),
    Ask(1, "ZSCORE q x", "$1\r\n5\r\n"),
    Ask(0, "ZINCRBY q -6 x", "$2\r\n-1\r\n"),
    Hand(1, 2, New),
    Read(0, "ZSCORE q x", "$2\r\n-1\r\n"),
    Read(1, "ZSCORE q x", "$2\r\n-1\r\n"),
];

/// An operation comes early, and again when what it has seen is there.
const EARLY: [Step; 7] = [
    Ask(0, "ZADD q 1 a", ":1\r\n"),
    Ask(0, "ZADD q 2 y", ":1\r\n"),
    Hand(2, 1, Early),
    Ask(2, "ZCARD q", ":0\r\n"),
    Hand(2, 0, New),
    Hand(2, 1, New),
    Read(2, "ZCARD q", ":2\r\n"),
];

/// Where it was merged before, it is known.
const MERGED: [Step; 6] = [
    Ask(0, "ZADD q 1 a", ":1\r\n"),
    Ask(0, "ZADD q 2 y", ":1\r\n"),
    Merge(2, 0, 0, 2),
    Hand(2, 1, Known),
    Hand(2, 0, Known),
    Read(2, "ZCARD q", ":2\r\n"),
];

/// A merge of an older image brings what that had.
const OLDER: [Step; 5] = [
    Ask(0, "ZADD q 1 a", ":1\r\n"),
    Ask(0, "ZADD q 2 y", ":1\r\n"),
    Merge(2, 0, 0, 1),
    Read(2, "ZRANGE q 0 -1", "*1\r\n$1\r\na\r\n"),
    Read(0, "ZCARD q", ":2\r\n"),
];

/// Sums that pass the range are kept, and no command makes one.
const WIDE: [Step; 9] = [
    Ask(0, "ZADD q 0 x", ":1\r\n"),
    Hand(1, 0, New),
    Ask(
        0,
        "ZINCRBY q 9007199254740992 x",
        "$16\r\n9007199254740992\r\n",
    ),
    Ask(
        1,
        "ZINCRBY q 9007199254740992 x",
        "$16\r\n9007199254740992\r\n",
    ),
    Hand(1, 1, New),
    Hand(0, 2, New),
    Ask(1, "ZSCORE q x", "$17\r\n18014398509481984\r\n"),
    Ask(0, "ZINCRBY q 1 x", "-ERR result out of range\r\n"),
    Ask(
        0,
        "ZINCRBY q -9007199254740992 x",
        "$16\r\n9007199254740992\r\n",
    ),
];

/// A member may be popped at two sites.
const POPPED: [Step; 8] = [
    Ask(0, "ZADD q 1 x", ":1\r\n"),
    Hand(1, 0, New),
    Ask(0, "ZPOPMIN q", "*2\r\n$1\r\nx\r\n$1\r\n1\r\n"),
    Ask(1, "ZPOPMIN q", "*2\r\n$1\r\nx\r\n$1\r\n1\r\n"),
    Hand(1, 1, New),
    Hand(0, 2, New),
    Read(0, "ZCARD q", ":0\r\n"),
    Read(1, "ZCARD q", ":0\r\n"),
];

/// Operations are made in the order of the moves, and not by heap; what needs a site's first
/// operation comes after it.
const MOVES: [Step; 8] = [
    Ask(0, "ZADD q 1 x 2 a 3 d 4 y", ":4\r\n"),
    Hand(1, 2, Early),
    Hand(1, 0, New),
    Hand(1, 3, Early),
    Hand(1, 1, New),
    Hand(1, 3, New),
    Read(
        1,
        "ZRANGE q 0 -1",
        "*3\r\n$1\r\nx\r\n$1\r\na\r\n$1\r\ny\r\n",
    ),
    Read(1, "ZRANK q d", "$-1\r\n"),
];

/// ZPOPNEAR pops of the two heaps that are drawn, and of all where these are empty.
const NEAR: [Step; 4] = [
    Ask(0, "ZADD q 7 a 5 b 1 c", ":3\r\n"),
    Draw(0, "ZPOPNEAR q", 0, 0, "*2\r\n$1\r\nb\r\n$1\r\n5\r\n"),
    Draw(0, "ZPOPNEAR q", 3, 1, "*2\r\n$1\r\nc\r\n$1\r\n1\r\n"),
    Draw(0, "ZPOPNEAR none", 3, 1, "*0\r\n"),
];

/// Requests that are refused, and PING.
const PLAIN: [Step; 4] = [
    Ask(0, "PING", "+PONG\r\n"),
    Ask(
        0,
        "ZADD q x x",
        "-ERR score is not a whole number in range\r\n",
    ),
    Ask(0, "ZPOPMAX q", "-ERR unknown command\r\n"),
    Read(0, "ZRANGE q 0", "-ERR wrong number of arguments\r\n"),
];

const HIGH: [&[Step]; 11] = [
    &SUMS,
    &SUMS_IN_A_STATE,
    &ADDED_APART,
    &RAISED_APART,
    &GREATEST,
    &EARLY,
    &MERGED,
    &OLDER,
    &WIDE,
    &POPPED,
    &PLAIN,
];

#[test]
fn of_two_heaps(rt: HostRuntime) -> Result<(), Fail> {
    for steps in HIGH {
        follow(&rt, rt.alloc(), 2, Rule::High, steps)?;
    }
    follow(&rt, rt.alloc(), 2, Rule::High, &MOVES)
}

#[test]
fn of_four_heaps(rt: HostRuntime) -> Result<(), Fail> {
    follow(&rt, rt.alloc(), 4, Rule::High, &NEAR)
}

#[test]
fn of_the_least_value(rt: HostRuntime) -> Result<(), Fail> {
    follow(&rt, rt.alloc(), 2, Rule::Low, &LEAST)?;
    follow(&rt, rt.alloc(), 2, Rule::Low, &SUMS)
}
