//! Each command, with each flag and option.

use super::request;
use std::alloc::Global;
use std::process::Abort;
use std::test::Fail;
use zq_words::{Command, Heaps};

/// Lines, and how the command is written by `Debug`: q is 113, a is 97, b is 98.
const COMMANDS: [(&str, &str); 30] = [
    ("PING", "Ping(None)"),
    ("ping a", "Ping(Some([97]))"),
    (
        "ZINCRBY q -2 a",
        "Zincrby { key: [113], pair: Pair { score: -2, member: [97] } }",
    ),
    ("ZREM q a", "Zrem { key: [113], members: [[97]] }"),
    ("ZREM q a b", "Zrem { key: [113], members: [[97], [98]] }"),
    ("ZSCORE q a", "Zscore { key: [113], member: [97] }"),
    ("ZCARD q", "Zcard { key: [113] }"),
    (
        "ZCOUNT q (1 +inf",
        "Zcount { key: [113], min: Bound { is_out: true, limit: At(1) }, max: Bound { is_out: false, limit: Highest } }",
    ),
    ("ZRANK q a", "Zrank { key: [113], member: [97] }"),
    ("ZREVRANK q a", "Zrevrank { key: [113], member: [97] }"),
    (
        "ZRANGE q 0 -1",
        "Zrange { key: [113], range: ByPlace { start: 0, stop: -1 }, is_turned: false, with_scores: false }",
    ),
    (
        "ZRANGE q 0 -1 REV",
        "Zrange { key: [113], range: ByPlace { start: 0, stop: -1 }, is_turned: true, with_scores: false }",
    ),
    (
        "ZRANGE q 0 -1 withscores",
        "Zrange { key: [113], range: ByPlace { start: 0, stop: -1 }, is_turned: false, with_scores: true }",
    ),
    (
        "ZRANGE q -inf 5 BYSCORE",
        "Zrange { key: [113], range: ByScore { min: Bound { is_out: false, limit: Lowest }, max: Bound { is_out: false, limit: At(5) }, window: None }, is_turned: false, with_scores: false }",
    ),
    (
        "ZRANGE q (5 1 WITHSCORES ByScore REV",
        "Zrange { key: [113], range: ByScore { min: Bound { is_out: false, limit: At(1) }, max: Bound { is_out: true, limit: At(5) }, window: None }, is_turned: true, with_scores: true }",
    ),
    (
        "ZRANGE q 1 5 LIMIT 3 -1 BYSCORE",
        "Zrange { key: [113], range: ByScore { min: Bound { is_out: false, limit: At(1) }, max: Bound { is_out: false, limit: At(5) }, window: Some(Window { offset: 3, count: -1 }) }, is_turned: false, with_scores: false }",
    ),
    (
        "ZRANGE q 1 5 BYSCORE LIMIT 3 4 limit -1 2",
        "Zrange { key: [113], range: ByScore { min: Bound { is_out: false, limit: At(1) }, max: Bound { is_out: false, limit: At(5) }, window: Some(Window { offset: -1, count: 2 }) }, is_turned: false, with_scores: false }",
    ),
    ("ZPOPMIN q", "Zpopmin { key: [113], count: 1 }"),
    ("ZPOPMIN q 0", "Zpopmin { key: [113], count: 0 }"),
    ("ZPOPMIN q +7", "Zpopmin { key: [113], count: 7 }"),
    ("ZPOPNEAR q", "Zpopnear { key: [113] }"),
    ("DEL q", "Del { keys: [[113]] }"),
    ("DEL q a q", "Del { keys: [[113], [97], [113]] }"),
    // An empty key.
    ("ZCARD ", "Zcard { key: [] }"),
    // The words of a pair may be those of flags.
    (
        "ZADD q 1 NX",
        "Zadd { key: [113], pairs: One(Pair { score: 1, member: [78, 88] }), flags: Flags { nx: false, xx: false, gt: false, lt: false, ch: false } }",
    ),
    (
        "ZADD q 1 a -2.0 b",
        "Zadd { key: [113], pairs: Many([Pair { score: 1, member: [97] }, Pair { score: -2, member: [98] }]), flags: Flags { nx: false, xx: false, gt: false, lt: false, ch: false } }",
    ),
    (
        "ZADD q NX CH 1 a 2 a 3 a",
        "Zadd { key: [113], pairs: Many([Pair { score: 1, member: [97] }, Pair { score: 2, member: [97] }, Pair { score: 3, member: [97] }]), flags: Flags { nx: true, xx: false, gt: false, lt: false, ch: true } }",
    ),
    (
        "ZADD q incr 1 a",
        "ZaddIncr { key: [113], pair: Pair { score: 1, member: [97] }, flags: Flags { nx: false, xx: false, gt: false, lt: false, ch: false } }",
    ),
    (
        "ZADD q XX GT INCR CH 1 a",
        "ZaddIncr { key: [113], pair: Pair { score: 1, member: [97] }, flags: Flags { nx: false, xx: true, gt: true, lt: false, ch: true } }",
    ),
    (
        "ZADD q LT XX LT 1 a",
        "Zadd { key: [113], pairs: One(Pair { score: 1, member: [97] }), flags: Flags { nx: false, xx: true, gt: false, lt: true, ch: false } }",
    ),
];

fn written(alloc: Global, line: &str) -> Result<String, Fail> {
    let request = request(alloc, line)?;
    let Ok(command) = Command::read(alloc, &request) else {
        return Err("refused".into());
    };
    Ok(format!(in alloc; "{:?}", command.kind())?)
}

fn each_is_read(rt: &impl Abort, alloc: Global, rows: &[(&str, &str)]) -> Result<(), Fail> {
    for (line, text) in rows {
        assert_eq!(rt; written(alloc, line)?.as_str(), *text, "at {line}");
    }
    Ok(())
}

#[test]
fn commands_are_read(rt: HostRuntime) -> Result<(), Fail> {
    each_is_read(&rt, rt.alloc(), &COMMANDS)
}

/// Lines, and their heaps where there are four.
const HEAPS: [(&str, Heaps); 16] = [
    ("PING", Heaps::NoHeap),
    ("ZADD q 1 c", Heaps::One(2)),
    ("ZADD q 1 a 2 b", Heaps::All),
    ("ZADD q INCR 1 d", Heaps::One(3)),
    ("ZINCRBY q 1 b", Heaps::One(1)),
    ("ZREM q a", Heaps::One(0)),
    ("ZREM q a b", Heaps::All),
    ("ZSCORE q c", Heaps::One(2)),
    ("ZCARD q", Heaps::All),
    ("ZCOUNT q 0 1", Heaps::All),
    ("ZRANK q a", Heaps::All),
    ("ZREVRANK q a", Heaps::All),
    ("ZRANGE q 0 1", Heaps::All),
    ("ZPOPMIN q", Heaps::All),
    ("ZPOPNEAR q", Heaps::Near),
    ("DEL q", Heaps::All),
];

fn heaps_of_four(alloc: Global, line: &str) -> Result<Heaps, Fail> {
    let request = request(alloc, line)?;
    let Ok(command) = Command::read(alloc, &request) else {
        return Err("refused".into());
    };
    Ok(command.heaps(4))
}

fn each_has_its_heaps(rt: &impl Abort, alloc: Global, rows: &[(&str, Heaps)]) -> Result<(), Fail> {
    for (line, heaps) in rows {
        assert_eq!(rt; heaps_of_four(alloc, line)?, *heaps, "at {line}");
    }
    Ok(())
}

#[test]
fn commands_have_their_heaps(rt: HostRuntime) -> Result<(), Fail> {
    each_has_its_heaps(&rt, rt.alloc(), &HEAPS)
}
