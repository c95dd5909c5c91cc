//! A server of a site that takes further requests, by the bytes that it answers. Expected bytes are
//! those of Redis, but for the texts of errors. A bound that is no whole number is rewritten before
//! it comes here.

use super::asking::{answered, push_request};
use super::passing::opened;
use std::alloc::Global;
use std::process::Abort;
use std::sync::Wait;
use std::test::Fail;
use zq_session::{Calling, SitePass};
use zq_spread::Draws;

/// A line, and the bytes of its reply.
type Row = (&'static str, &'static str);

const ROWS: [Row; 72] = [
    // Scores of several members.
    ("ZADD w:q 1 a 9007199254740992 b -3 ", ":3\r\n"),
    ("ZMSCORE w:q a", "*1\r\n$1\r\n1\r\n"),
    (
        "ZMSCORE w:q a x b  a",
        "*5\r\n$1\r\n1\r\n$-1\r\n$16\r\n9007199254740992\r\n$2\r\n-3\r\n$1\r\n1\r\n",
    ),
    ("ZMSCORE w:none a b", "*2\r\n$-1\r\n$-1\r\n"),
    ("ZMSCORE w:q", "-ERR wrong number of arguments\r\n"),
    ("ZMSCORE", "-ERR wrong number of arguments\r\n"),
    // Keys that have members.
    ("ZADD x:q 1 a", ":1\r\n"),
    ("ZADD x:p 1 a 2 b", ":2\r\n"),
    ("EXISTS x:q", ":1\r\n"),
    ("EXISTS x:none", ":0\r\n"),
    ("EXISTS x:q x:q x:none x:p", ":3\r\n"),
    ("TYPE x:q", "+zset\r\n"),
    ("TYPE x:none", "+none\r\n"),
    ("ZREM x:q a", ":1\r\n"),
    ("EXISTS x:q", ":0\r\n"),
    ("TYPE x:q", "+none\r\n"),
    ("EXISTS", "-ERR wrong number of arguments\r\n"),
    ("TYPE", "-ERR wrong number of arguments\r\n"),
    ("TYPE x:q x:p", "-ERR wrong number of arguments\r\n"),
    // Pops from the end.
    ("ZADD y:q 1 a 2 b 2 bb 3 c -4 z", ":5\r\n"),
    ("ZPOPMAX y:q", "*2\r\n$1\r\nc\r\n$1\r\n3\r\n"),
    (
        "ZPOPMAX y:q 2",
        "*4\r\n$2\r\nbb\r\n$1\r\n2\r\n$1\r\nb\r\n$1\r\n2\r\n",
    ),
    ("ZPOPMAX y:q 0", "*0\r\n"),
    (
        "zpopmax y:q 100",
        "*4\r\n$1\r\na\r\n$1\r\n1\r\n$1\r\nz\r\n$2\r\n-4\r\n",
    ),
    ("ZPOPMAX y:q", "*0\r\n"),
    ("ZCARD y:q", ":0\r\n"),
    ("ZPOPMAX y:none 3", "*0\r\n"),
    ("ZPOPMAX y:none -1", "-ERR count is negative\r\n"),
    ("ZADD y:q 5 e", ":1\r\n"),
    ("ZPOPMAX y:q -1", "-ERR count is negative\r\n"),
    ("ZPOPMAX y:q x", "-ERR value is not an integer\r\n"),
    ("ZPOPMAX y:q 1.0", "-ERR value is not an integer\r\n"),
    (
        "ZPOPMAX y:q 9223372036854775808",
        "-ERR value is not an integer\r\n",
    ),
    ("ZPOPMAX y:q 1 2", "-ERR wrong number of arguments\r\n"),
    ("ZPOPMAX", "-ERR wrong number of arguments\r\n"),
    (
        "ZPOPMAX y:q 9223372036854775807",
        "*2\r\n$1\r\ne\r\n$1\r\n5\r\n",
    ),
    ("ZPOPMIN y:q", "*0\r\n"),
    // Removals by score.
    ("ZADD z:q 1 a 2 b 2 bb 3 c -4 z 10 d", ":6\r\n"),
    ("ZREMRANGEBYSCORE z:q (2 3", ":1\r\n"),
    ("ZREMRANGEBYSCORE z:q 5 4", ":0\r\n"),
    ("ZREMRANGEBYSCORE z:q 0 1", ":1\r\n"),
    (
        "ZRANGE z:q 0 -1 WITHSCORES",
        "*8\r\n$1\r\nz\r\n$2\r\n-4\r\n$1\r\nb\r\n$1\r\n2\r\n$2\r\nbb\r\n$1\r\n2\r\n$1\r\nd\r\n$2\r\n10\r\n",
    ),
    ("ZREMRANGEBYSCORE z:q -inf (2", ":1\r\n"),
    ("ZREMRANGEBYSCORE z:none 0 1", ":0\r\n"),
    ("ZREMRANGEBYSCORE z:q 2 2", ":2\r\n"),
    (
        "ZREMRANGEBYSCORE z:q x 2",
        "-ERR min or max is not a bound\r\n",
    ),
    (
        "ZREMRANGEBYSCORE z:q 2 x",
        "-ERR min or max is not a bound\r\n",
    ),
    (
        "ZREMRANGEBYSCORE z:q 2",
        "-ERR wrong number of arguments\r\n",
    ),
    (
        "ZREMRANGEBYSCORE z:q 1 2 WITHSCORES",
        "-ERR wrong number of arguments\r\n",
    ),
    (
        "ZREMRANGEBYSCORE z:q 1 2 LIMIT 0 1",
        "-ERR wrong number of arguments\r\n",
    ),
    ("ZREMRANGEBYSCORE z:q -inf +inf", ":1\r\n"),
    ("EXISTS z:q", ":0\r\n"),
    // Removals by place.
    ("ZADD zr:q 1 a 2 b 2 bb 3 c -4 z 10 d", ":6\r\n"),
    ("ZREMRANGEBYRANK zr:q 0 0", ":1\r\n"),
    ("ZREMRANGEBYRANK zr:q -1 -1", ":1\r\n"),
    ("ZREMRANGEBYRANK zr:q 2 1", ":0\r\n"),
    ("ZREMRANGEBYRANK zr:q 10 20", ":0\r\n"),
    ("ZREMRANGEBYRANK zr:q 1 100", ":3\r\n"),
    ("ZRANGE zr:q 0 -1", "*1\r\n$1\r\na\r\n"),
    ("ZREMRANGEBYRANK zr:none 0 -1", ":0\r\n"),
    (
        "ZREMRANGEBYRANK zr:q x 1",
        "-ERR value is not an integer\r\n",
    ),
    (
        "ZREMRANGEBYRANK zr:q 0 x",
        "-ERR value is not an integer\r\n",
    ),
    (
        "ZREMRANGEBYRANK zr:q 0",
        "-ERR wrong number of arguments\r\n",
    ),
    (
        "ZREMRANGEBYRANK zr:q 0 1 2",
        "-ERR wrong number of arguments\r\n",
    ),
    ("ZREMRANGEBYRANK zr:q -100 100", ":1\r\n"),
    // All but the newest are removed.
    ("ZADD k:q 1 a 2 b 3 c 4 d", ":4\r\n"),
    ("ZREMRANGEBYRANK k:q 0 -3", ":2\r\n"),
    ("ZRANGE k:q 0 -1", "*2\r\n$1\r\nc\r\n$1\r\nd\r\n"),
    // Others are refused as commands are.
    ("ZPOPMAX k:q 1e0", "-ERR value is not an integer\r\n"),
    ("SAVE", "-ERR unknown command\r\n"),
    ("BZPOPMIN k:q 0", "-ERR unknown command\r\n"),
    (
        "ZADD k:q 1.5 a",
        "-ERR score is not a whole number in range\r\n",
    ),
];

/// The same where no further requests are taken.
const REFUSED: [Row; 9] = [
    ("ZADD q 1 a", ":1\r\n"),
    ("ZMSCORE q a", "-ERR unknown command\r\n"),
    ("EXISTS q", "-ERR unknown command\r\n"),
    ("TYPE q", "-ERR unknown command\r\n"),
    ("ZPOPMAX q", "-ERR unknown command\r\n"),
    ("ZREMRANGEBYSCORE q 0 1", "-ERR unknown command\r\n"),
    ("ZREMRANGEBYRANK q 0 -1", "-ERR unknown command\r\n"),
    ("ZPOPMAX", "-ERR unknown command\r\n"),
    ("ZCARD q", ":1\r\n"),
];

/// Asks a new site each line in turn, by a server of its one pass.
fn follow<R: Wait + Abort>(
    rt: &R,
    alloc: Global,
    takes_further: bool,
    rows: &[Row],
) -> Result<(), Fail> {
    let (site, passes) = opened(alloc, 1)?;
    for pass in passes {
        let mut own = SitePass::new(&site, pass);
        let mut server = Calling::new(rt, &mut own, Draws::new(1), takes_further);
        for (line, expected) in rows {
            let mut bytes = Vec::new(alloc);
            push_request(alloc, &mut bytes, line, b"")?;
            let reply = answered(alloc, &mut server, &bytes)?;
            assert!(rt; reply.as_slice() == expected.as_bytes(), "at {line}");
        }
    }
    Ok(())
}

#[test]
fn further_requests_are_answered(rt: HostRuntime) -> Result<(), Fail> {
    follow(&rt, rt.alloc(), true, &ROWS)
}

#[test]
fn they_are_no_commands(rt: HostRuntime) -> Result<(), Fail> {
    follow(&rt, rt.alloc(), false, &REFUSED)
}
