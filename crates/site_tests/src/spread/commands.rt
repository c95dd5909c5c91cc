//! Commands of a site over several heaps. Expected bytes are those of Redis. With key q and 4 heaps
//! the member a lies in heap 0, b in 1, c in 2 and d in 3; with 2 heaps a and c lie in heap 0, b
//! and d in 1.

use super::asking::{Line, follow, try_follow};
use super::opened;
use std::alloc::Global;
use std::process::Abort;
use std::sync::Wait;
use std::test::Fail;

const OF_FOUR: [Line; 24] = [
    ("PING", (0, 0), "+PONG\r\n"),
    ("ZADD q 7 a 5 b 1 c 8 d", (0, 0), ":4\r\n"),
    ("ZCARD q", (0, 0), ":4\r\n"),
    (
        "ZRANGE q 0 -1 WITHSCORES",
        (0, 0),
        "*8\r\n$1\r\nc\r\n$1\r\n1\r\n$1\r\nb\r\n$1\r\n5\r\n$1\r\na\r\n$1\r\n7\r\n$1\r\nd\r\n$1\r\n8\r\n",
    ),
    ("ZRANGE q 0 1 REV", (0, 0), "*2\r\n$1\r\nd\r\n$1\r\na\r\n"),
    ("ZCOUNT q (1 7", (0, 0), ":2\r\n"),
    ("ZRANK q a", (0, 0), ":2\r\n"),
    ("ZREVRANK q a", (0, 0), ":1\r\n"),
    ("ZINCRBY q 2 d", (0, 0), "$2\r\n10\r\n"),
    ("ZSCORE q d", (0, 0), "$2\r\n10\r\n"),
    ("ZADD q GT CH 9 d 8 a", (0, 0), ":1\r\n"),
    ("ZADD q 7 a", (0, 0), ":0\r\n"),
    ("ZREM q d none d", (0, 0), ":1\r\n"),
    // The words draw heaps 0 and 1, of which b is the least member, though c is less.
    ("ZPOPNEAR q", (0, 0), "*2\r\n$1\r\nb\r\n$1\r\n5\r\n"),
    // They draw heaps 3 and 1, which are both empty.
    ("ZPOPNEAR q", (3, 1), "*2\r\n$1\r\nc\r\n$1\r\n1\r\n"),
    ("ZPOPNEAR none", (3, 1), "*0\r\n"),
    ("ZADD q 2 b 3 c 9 d", (0, 0), ":3\r\n"),
    (
        "ZPOPMIN q 2",
        (0, 0),
        "*4\r\n$1\r\nb\r\n$1\r\n2\r\n$1\r\nc\r\n$1\r\n3\r\n",
    ),
    ("ZPOPMIN none", (0, 0), "*0\r\n"),
    ("ZCARD q", (0, 0), ":2\r\n"),
    ("DEL q none", (0, 0), ":1\r\n"),
    ("ZCARD q", (0, 0), ":0\r\n"),
    ("ZSCORE q a", (0, 0), "$-1\r\n"),
    ("DEL q", (0, 0), ":0\r\n"),
];

/// Of two heaps both are drawn, so that the least member is popped.
const OF_TWO: [Line; 3] = [
    ("ZADD q 7 a 5 b 1 c", (0, 0), ":3\r\n"),
    ("ZPOPNEAR q", (0, 0), "*2\r\n$1\r\nc\r\n$1\r\n1\r\n"),
    ("ZPOPNEAR q", (1, 9), "*2\r\n$1\r\nb\r\n$1\r\n5\r\n"),
];

/// Asks a new site of so many heaps by calls, and another one by calls that do not wait.
fn follow_new<R: Wait + Abort>(rt: &R, alloc: Global, heaps: u8, lines: &[Line]) -> Option<()> {
    let (site, mut pass, _) = opened(alloc, 0, heaps)?;
    follow(rt, alloc, &site, &mut pass, lines);
    let (site, mut pass, _) = opened(alloc, 0, heaps)?;
    try_follow(rt, alloc, &site, &mut pass, lines);
    Some(())
}

#[test]
fn over_several_heaps(rt: HostRuntime) -> Result<(), Fail> {
    follow_new(&rt, rt.alloc(), 4, &OF_FOUR).ok_or("memory")?;
    follow_new(&rt, rt.alloc(), 2, &OF_TWO).ok_or("memory")?;
    Ok(())
}
