//! Further requests on keys, with what redis-server 7.0.15 finds or removes. Where both refuse, the
//! text is that of a command.

use super::{BOUND, NEGATIVE, WHOLE, WORDS, each_is_answered};
use std::test::Fail;

const READING: [(&str, &str); 14] = [
    ("ZMSCORE w:q a", "w:q a"),
    ("zmscore w:q a x b  a", "w:q a x b  a"),
    ("ZMSCORE w:q", WORDS),
    ("ZMSCORE", WORDS),
    ("EXISTS x:q", "x:q"),
    ("Exists x:q x:q x:none x:p", "x:q x:q x:none x:p"),
    ("EXISTS", WORDS),
    ("TYPE x:q", "x:q"),
    ("type x:none", "x:none"),
    ("TYPE", WORDS),
    ("TYPE x:q x:p", WORDS),
    ("UNLINK x:q", "x:q"),
    ("EXISTS x:q 1e0", "x:q 1e0"),
    ("ZMSCORE w:q 1e0", "w:q 1e0"),
];

const POPS: [(&str, &str); 14] = [
    ("ZPOPMAX y:q", "y:q 1"),
    ("ZPOPMAX y:q 2", "y:q 2"),
    ("ZPOPMAX y:q 0", "y:q 0"),
    ("zpopmax y:q 100", "y:q 100"),
    ("ZPOPMAX y:none +03", "y:none 3"),
    ("ZPOPMAX y:q 9223372036854775807", "y:q 9223372036854775807"),
    ("ZPOPMAX y:none -1", NEGATIVE),
    ("ZPOPMAX y:q -9223372036854775808", NEGATIVE),
    ("ZPOPMAX y:q x", WHOLE),
    ("ZPOPMAX y:q 1.0", WHOLE),
    ("ZPOPMAX y:q 1e0", WHOLE),
    ("ZPOPMAX y:q 9223372036854775808", WHOLE),
    ("ZPOPMAX y:q 1 2", WORDS),
    ("ZPOPMAX", WORDS),
];

const BY_SCORE: [(&str, &str); 24] = [
    ("ZREMRANGEBYSCORE t:q (2 3", "c"),
    ("ZREMRANGEBYSCORE t:q 5 4", ""),
    ("ZREMRANGEBYSCORE t:q 0 1.5", "a"),
    ("ZREMRANGEBYSCORE t:q -inf (2", "z a"),
    ("zremrangebyscore t:none 0 1", ""),
    ("ZREMRANGEBYSCORE t:q 2 2", "b bb"),
    ("ZREMRANGEBYSCORE t:q -INF +Inf", "z a b bb c"),
    ("ZREMRANGEBYSCORE t:q inf -inf", ""),
    ("ZREMRANGEBYSCORE t:q (1e0 (30e-1", "b bb"),
    ("ZREMRANGEBYSCORE t:q -4.5 -3.5", "z"),
    ("ZREMRANGEBYSCORE t:q (1.5 inf", "b bb c"),
    ("ZREMRANGEBYSCORE t:q 1.00 +2", "a b bb"),
    ("ZREMRANGEBYSCORE t:q -inf 1795750971.4091134", "z a b bb c"),
    ("ZREMRANGEBYSCORE t:q x 2", BOUND),
    ("ZREMRANGEBYSCORE t:q 2 x", BOUND),
    ("ZREMRANGEBYSCORE t:q ((1 2", BOUND),
    ("ZREMRANGEBYSCORE t:q 1 nan", BOUND),
    ("ZREMRANGEBYSCORE t:q  2", BOUND),
    ("ZREMRANGEBYSCORE t:q 0 9007199254740993", BOUND),
    ("ZREMRANGEBYSCORE t:q 1. 2", "a b bb"),
    ("ZREMRANGEBYSCORE t:q 2", WORDS),
    ("ZREMRANGEBYSCORE t:q 1 2 WITHSCORES", WORDS),
    ("ZREMRANGEBYSCORE t:q 1 2 LIMIT 0 1", WORDS),
    ("ZREMRANGEBYSCORE", WORDS),
];

const BY_PLACE: [(&str, &str); 16] = [
    ("ZREMRANGEBYRANK t:q 0 0", "z"),
    ("ZREMRANGEBYRANK t:q -1 -1", "c"),
    ("ZREMRANGEBYRANK t:q 2 1", ""),
    ("ZREMRANGEBYRANK t:q 10 20", ""),
    ("zremrangebyrank t:q 1 100", "a b bb c"),
    ("ZREMRANGEBYRANK t:none 0 -1", ""),
    ("ZREMRANGEBYRANK t:q -100 100", "z a b bb c"),
    ("ZREMRANGEBYRANK t:q 0 -3", "z a b"),
    (
        "ZREMRANGEBYRANK t:q -9223372036854775808 9223372036854775807",
        "z a b bb c",
    ),
    ("ZREMRANGEBYRANK t:q x 1", WHOLE),
    ("ZREMRANGEBYRANK t:q 0 x", WHOLE),
    ("ZREMRANGEBYRANK t:q 0 1.0", WHOLE),
    ("ZREMRANGEBYRANK t:q 0 9223372036854775808", WHOLE),
    ("ZREMRANGEBYRANK t:q 0", WORDS),
    ("ZREMRANGEBYRANK t:q 0 1 2", WORDS),
    ("ZREMRANGEBYRANK", WORDS),
];

#[test]
fn what_only_reads(rt: HostRuntime) -> Result<(), Fail> {
    each_is_answered(&rt, rt.alloc(), &READING)
}

#[test]
fn pops_from_the_end(rt: HostRuntime) -> Result<(), Fail> {
    each_is_answered(&rt, rt.alloc(), &POPS)
}

#[test]
fn scores_that_are_removed(rt: HostRuntime) -> Result<(), Fail> {
    each_is_answered(&rt, rt.alloc(), &BY_SCORE)
}

#[test]
fn places_that_are_removed(rt: HostRuntime) -> Result<(), Fail> {
    each_is_answered(&rt, rt.alloc(), &BY_PLACE)
}
