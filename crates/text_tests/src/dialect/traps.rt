//! What stays as it is, and what memory is asked for.

use super::request;
use std::alloc::Global;
use std::process::Abort;
use std::test::Fail;
use zq_dialect::{read_call, rewritten};
use zq_resp::Request;

const KEPT: [&str; 21] = [
    "PING",
    "SAVE",
    "ZADD n:q 5 a",
    "ZADD n:q 1700000000.0 a -3 b",
    "ZADD n:q NX 99999999999999999999 a",
    "ZADD n:q 1.5 a",
    "ZADD n:q 1e00001 b 1e-401 c",
    "ZINCRBY n:q 5.00 a",
    "ZRANGE u:q 1e0 2e0",
    "ZRANGE u:q (1 inf BYSCORE LIMIT 1e0 2e0",
    "ZCOUNT u:q -INF (1795750971.0",
    "ZPOPMIN q 1e0",
    "DEL 1e0",
    "ZRANK q 1e0",
    "ZMSCORE q 1e0",
    "EXISTS 1e0",
    "TYPE 1e0",
    "ZPOPMAX q 1e0",
    "ZREMRANGEBYRANK q 1e0 2e0",
    "ZREMRANGEBYSCORE q 1e0",
    "ZREMRANGEBYSCORE q (1 -inf",
];

const CHANGED: [(&str, &str); 15] = [
    ("zrevrange", "ZRANGE"),
    ("ZRANGEBYSCORE q 1e0", "ZRANGE q 1e0"),
    ("ZRevRange q 1e0 2", "ZRANGE q 1e0 2 REV"),
    ("ZRANGEBYSCORE q (1.5 2e0", "ZRANGE q 2 2 BYSCORE"),
    (
        "ZREVRANGEBYSCORE q 1795750971.41 (-.5 LIMIT BYSCORE REV",
        "ZRANGE q 1795750971 0 BYSCORE REV LIMIT BYSCORE REV",
    ),
    ("ZCOUNT q -1.5 (-1.5", "ZCOUNT q -1 -2"),
    ("ZCOUNT q (1e1 -0.5", "ZCOUNT q (10 -1"),
    ("ZCOUNT q -0.5 0.5", "ZCOUNT q 0 0"),
    (
        "ZRANGE q 1.5 0.5 WITHSCORES rev ByScore",
        "ZRANGE q 1 1 WITHSCORES rev ByScore",
    ),
    ("ZADD q ch 1 1e0 1e1 1e0", "ZADD q ch 1 1e0 10 1e0"),
    ("ZADD q 1e0 a 1", "ZADD q 1 a 1"),
    ("ZINCRBY q 0.00001e5 a", "ZINCRBY q 1 a"),
    ("UnLink 1e0", "DEL 1e0"),
    (
        "zremrangebyscore q 1.5 (2e0 1e0",
        "zremrangebyscore q 2 (2 1e0",
    ),
    ("ZREMRANGEBYSCORE q (-.5 -.5", "ZREMRANGEBYSCORE q 0 -1"),
];

fn is_same(a: &Request, b: &Request) -> bool {
    a.words() == b.words()
}

fn each_is_kept(rt: &impl Abort, alloc: Global, lines: &[&str]) -> Result<(), Fail> {
    for line in lines {
        let request = request(alloc, line)?;
        assert!(rt; matches!(rewritten(alloc, &request), Ok(None)), "at {line}");
    }
    Ok(())
}

fn each_is_changed(rt: &impl Abort, alloc: Global, rows: &[(&str, &str)]) -> Result<(), Fail> {
    for (line, expected) in rows {
        let old = request(alloc, line)?;
        let new = request(alloc, expected)?;
        let is_changed = match rewritten(alloc, &old) {
            Ok(Some(made)) => is_same(&made, &new),
            _ => false,
        };
        assert!(rt; is_changed, "at {line}");
    }
    Ok(())
}

#[test]
fn what_is_read_stays(rt: HostRuntime) -> Result<(), Fail> {
    each_is_kept(&rt, rt.alloc(), &KEPT)
}

#[test]
fn words_are_written_in_place_of_others(rt: HostRuntime) -> Result<(), Fail> {
    each_is_changed(&rt, rt.alloc(), &CHANGED)
}

/// Names of commands, and others that name no further request.
const NOT_FURTHER: [&str; 6] = [
    "PING",
    "ZPOPMIN q",
    "DEL",
    "SAVE",
    "BZPOPMIN q 0",
    "ZMSCORES q a",
];

#[test]
fn other_names_ask_nothing(rt: HostRuntime) -> Result<(), Fail> {
    let alloc = rt.alloc();
    for line in NOT_FURTHER {
        let request = request(alloc, line)?;
        assert!(rt; matches!(read_call(&request), Ok(None)), "at {line}");
    }
    Ok(())
}
