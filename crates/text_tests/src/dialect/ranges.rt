//! Ranges by older names and by bounds in other spellings, with what redis-server 7.0.15 answers.
//! Where both refuse, the text is that of `zq_words`. Redis has no bound here that `zq_words`
//! refuses but 1e300 and 9007199254740993, which are out of the range of scores, and texts with
//! letters or without digits.

use super::{BOUND, SYNTAX, WHOLE, WORDS, each_is_answered};
use std::test::Fail;

const BY_PLACE: [(&str, &str); 25] = [
    ("ZREVRANGE r:q 0 -1", "c bb b a z"),
    ("ZREVRANGE r:q 0 -1 WITHSCORES", "c 3 bb 2 b 2 a 1 z -4"),
    ("zrevrange r:q 1 2 withscores", "bb 2 b 2"),
    ("ZREVRANGE r:q -2 -1", "a z"),
    ("ZREVRANGE r:q -100 1", "c bb"),
    ("ZREVRANGE r:q 3 100", "a z"),
    ("ZREVRANGE r:q 5 6", ""),
    ("ZREVRANGE r:q 2 1", ""),
    ("ZREVRANGE r:none 0 -1", ""),
    (
        "ZREVRANGE r:q 0 -1 WITHSCORES WITHSCORES",
        "c 3 bb 2 b 2 a 1 z -4",
    ),
    ("ZREVRANGE r:q 0 9223372036854775807", "c bb b a z"),
    ("ZREVRANGE r:q -9223372036854775808 0", "c"),
    ("ZREVRANGE r:q 0 9223372036854775808", WHOLE),
    ("ZREVRANGE r:q x 1", WHOLE),
    ("ZREVRANGE r:q 0 1.0", WHOLE),
    ("ZREVRANGE r:q 0 ", WHOLE),
    ("ZREVRANGE r:q +0 01", "c bb"),
    ("ZREVRANGE r:q 0 1 REV", SYNTAX),
    ("ZREVRANGE r:q 0 1 BYSCORE", SYNTAX),
    ("ZREVRANGE r:q 0 1 FOO", SYNTAX),
    ("ZREVRANGE r:q 0 1 LIMIT 0 1", SYNTAX),
    ("ZREVRANGE r:q 0 1 LIMIT 0 -1", SYNTAX),
    ("ZREVRANGE r:q 0", WORDS),
    ("ZREVRANGE", WORDS),
    ("ZREVRANGE r:none x 1", WHOLE),
];

const BY_SCORE: [(&str, &str); 54] = [
    ("ZRANGEBYSCORE s:q -inf +inf", "low z a b bb c top"),
    (
        "ZRANGEBYSCORE s:q -INF inf WITHSCORES",
        "low -9007199254740992 z -4 a 1 b 2 bb 2 c 3 top 9007199254740992",
    ),
    ("ZRANGEBYSCORE s:q 1 2", "a b bb"),
    ("ZRANGEBYSCORE s:q (1 2", "b bb"),
    ("ZRANGEBYSCORE s:q 1 (2", "a"),
    ("ZRANGEBYSCORE s:q (1 (2", ""),
    ("ZRANGEBYSCORE s:q 2 1", ""),
    ("ZRANGEBYSCORE s:q 2 2 WITHSCORES", "b 2 bb 2"),
    ("ZRANGEBYSCORE s:q -4 -4", "z"),
    ("ZRANGEBYSCORE s:q (-4 (1", ""),
    ("ZRANGEBYSCORE s:q 9007199254740992 +inf", "top"),
    ("ZRANGEBYSCORE s:q -inf (-9007199254740992", ""),
    ("ZRANGEBYSCORE s:q +inf -inf", ""),
    ("ZRANGEBYSCORE s:q 0 +inf LIMIT 0 2", "a b"),
    ("ZRANGEBYSCORE s:q 0 +inf LIMIT 1 2 WITHSCORES", "b 2 bb 2"),
    ("ZRANGEBYSCORE s:q 0 +inf WITHSCORES LIMIT 1 2", "b 2 bb 2"),
    ("ZRANGEBYSCORE s:q 0 +inf limit 3 -1", "c top"),
    ("ZRANGEBYSCORE s:q 0 +inf LIMIT 0 0", ""),
    ("ZRANGEBYSCORE s:q 0 +inf LIMIT 100 1", ""),
    ("ZRANGEBYSCORE s:q 0 +inf LIMIT -1 2", ""),
    ("ZRANGEBYSCORE s:q 0 +inf LIMIT 0 1 LIMIT 1 1", "b"),
    ("ZRANGEBYSCORE s:none 0 1", ""),
    ("ZRANGEBYSCORE s:q 1.5 2.5", "b bb"),
    ("ZRANGEBYSCORE s:q (1.5 (2.5", "b bb"),
    ("ZRANGEBYSCORE s:q 0.1 0.9", ""),
    ("ZRANGEBYSCORE s:q -4.5 -3.5", "z"),
    ("ZRANGEBYSCORE s:q -3.9 .5", ""),
    ("ZRANGEBYSCORE s:q 1e0 2.0E+0", "a b bb"),
    ("ZRANGEBYSCORE s:q 1 1e1", "a b bb c"),
    ("ZRANGEBYSCORE s:q (1e0 (30e-1", "b bb"),
    (
        "ZRANGEBYSCORE s:q 1795750971.4091134 1795750971.4091134",
        "",
    ),
    ("ZRANGEBYSCORE s:q 0 1e300", BOUND),
    ("ZRANGEBYSCORE s:q 0 9007199254740993", BOUND),
    ("ZRANGEBYSCORE s:q x 1", BOUND),
    ("ZRANGEBYSCORE s:q 1 x", BOUND),
    ("ZRANGEBYSCORE s:q ((1 2", BOUND),
    ("ZRANGEBYSCORE s:q ( 2", BOUND),
    ("ZRANGEBYSCORE s:q  2", BOUND),
    ("ZRANGEBYSCORE s:q 1 nan", BOUND),
    ("ZRANGEBYSCORE s:q [1 2", BOUND),
    ("ZRANGEBYSCORE s:q - +", BOUND),
    ("ZRANGEBYSCORE s:q 0x1 0x2", BOUND),
    ("ZRANGEBYSCORE s:q 1 2 REV", SYNTAX),
    ("ZRANGEBYSCORE s:q 1 2 BYSCORE", SYNTAX),
    ("ZRANGEBYSCORE s:q 1 2 FOO", SYNTAX),
    ("ZRANGEBYSCORE s:q 1 2 LIMIT", SYNTAX),
    ("ZRANGEBYSCORE s:q 1 2 LIMIT 1", SYNTAX),
    ("ZRANGEBYSCORE s:q 1 2 LIMIT a 1", WHOLE),
    ("ZRANGEBYSCORE s:q 1 2 LIMIT 1 a", WHOLE),
    ("ZRANGEBYSCORE s:q 1 2 LIMIT REV 1", WHOLE),
    ("ZRANGEBYSCORE s:q 1 2 LIMIT 0 1 REV", SYNTAX),
    ("ZRANGEBYSCORE s:q x 2 REV", SYNTAX),
    ("ZRANGEBYSCORE s:q 1", WORDS),
    ("ZRANGEBYSCORE s:none x 1", BOUND),
];

const TURNED: [(&str, &str); 16] = [
    ("ZREVRANGEBYSCORE t:q +inf -inf", "c bb b a z"),
    (
        "ZREVRANGEBYSCORE t:q inf -inf WITHSCORES",
        "c 3 bb 2 b 2 a 1 z -4",
    ),
    ("ZREVRANGEBYSCORE t:q 2 1", "bb b a"),
    ("ZREVRANGEBYSCORE t:q (2 1", "a"),
    ("ZREVRANGEBYSCORE t:q 2 (1", "bb b"),
    ("ZREVRANGEBYSCORE t:q 1 2", ""),
    ("ZREVRANGEBYSCORE t:q 3 0 LIMIT 1 2", "bb b"),
    ("ZREVRANGEBYSCORE t:q 3 0 WITHSCORES LIMIT 0 1", "c 3"),
    ("ZREVRANGEBYSCORE t:q 3 0 LIMIT 2 -1", "b a"),
    ("ZREVRANGEBYSCORE t:q 2.5 1.5", "bb b"),
    ("ZREVRANGEBYSCORE t:q (2.5 (.5 WITHSCORES", "bb 2 b 2 a 1"),
    ("ZREVRANGEBYSCORE t:q 1 x", BOUND),
    ("ZREVRANGEBYSCORE t:q x 1", BOUND),
    ("ZREVRANGEBYSCORE t:q 3 0 REV", SYNTAX),
    ("ZREVRANGEBYSCORE t:q 3 0 LIMIT 1", SYNTAX),
    ("ZREVRANGEBYSCORE t:q 3", WORDS),
];

const OF_TODAY: [(&str, &str); 8] = [
    ("ZCOUNT u:q 1.5 2.5", ":1"),
    ("ZCOUNT u:q (1e0 3", ":2"),
    ("ZCOUNT u:q -inf 1795750971.4091134", ":3"),
    ("ZCOUNT u:q 1.5 x", BOUND),
    ("ZRANGE u:q 1.5 3 BYSCORE", "b c"),
    ("ZRANGE u:q 2.5 .5 BYSCORE REV", "b a"),
    ("ZRANGE u:q 2.5 .5 REV BYSCORE WITHSCORES", "b 2 a 1"),
    ("ZRANGE u:q 1.0 2", WHOLE),
];

#[test]
fn older_name_of_places(rt: HostRuntime) -> Result<(), Fail> {
    each_is_answered(&rt, rt.alloc(), &BY_PLACE)
}

#[test]
fn older_name_of_scores(rt: HostRuntime) -> Result<(), Fail> {
    each_is_answered(&rt, rt.alloc(), &BY_SCORE)
}

#[test]
fn older_name_of_turned_scores(rt: HostRuntime) -> Result<(), Fail> {
    each_is_answered(&rt, rt.alloc(), &TURNED)
}

#[test]
fn bounds_of_names_of_today(rt: HostRuntime) -> Result<(), Fail> {
    each_is_answered(&rt, rt.alloc(), &OF_TODAY)
}
