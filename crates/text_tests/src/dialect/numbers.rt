//! Scores and increments in other spellings, with the scores that redis-server 7.0.15 makes of
//! them. It takes fractions, infinities, `0x10` and amounts above 9007199254740992 too.

use super::{SCORE, WORDS, each_is_answered};
use std::test::Fail;

const SCORES: [(&str, &str); 32] = [
    ("ZADD n:q 1e3 a", "a 1000"),
    (
        "ZADD n:q 1.7e+12 b 1.0E7 c 1e+08 d",
        "b 1700000000000 c 10000000 d 100000000",
    ),
    ("ZADD n:q 150e-1 e", "e 15"),
    ("ZADD n:q .5e1 f 5. g +5 h 05 i", "f 5 g 5 h 5 i 5"),
    ("ZINCRBY n:q 1e1 f", "f 10"),
    ("ZINCRBY n:q -1.5e1 f", "f -15"),
    ("ZINCRBY n:q 5.0 f", "f 5"),
    ("ZADD n:q INCR 2e0 f", "f 2"),
    ("zadd n:q XX CH 1e0 f", "f 1"),
    ("ZADD n:q 2 x 1.5 y", SCORE),
    ("ZADD n:q 15e-1 y", SCORE),
    ("ZADD n:q 1 nx 2e0 ny", "nx 1 ny 2"),
    ("ZSCORE n:q 1e3", "1e3"),
    ("ZADD n:q 9.007199254740992e15 top", "top 9007199254740992"),
    ("ZADD n:q 1e16 over", SCORE),
    ("ZADD n:q inf y", SCORE),
    ("ZADD n:q 1e400 y", SCORE),
    ("ZADD n:q nan y", SCORE),
    ("ZADD n:q 1e y", SCORE),
    ("ZADD n:q e1 y", SCORE),
    ("ZADD n:q . y", SCORE),
    ("ZADD n:q 1e1e1 y", SCORE),
    ("ZADD n:q  y", SCORE),
    ("ZADD n:q 0x10 y", SCORE),
    ("ZADD n:q \t1 y", SCORE),
    ("ZADD n:q 1\t y", SCORE),
    ("ZADD n:q -0 minus", "minus 0"),
    ("ZADD n:q -0.0e0 minus", "minus 0"),
    ("UNLINK v:q v:none v:p v:q", "v:q v:none v:p v:q"),
    ("unlink v:none", "v:none"),
    ("UNLINK", WORDS),
    ("ZINCRBY n:q 1e1", WORDS),
];

#[test]
fn numbers_become_digits(rt: HostRuntime) -> Result<(), Fail> {
    each_is_answered(&rt, rt.alloc(), &SCORES)
}
