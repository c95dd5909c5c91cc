//! Each refusal, of each command that can give it.

use super::request;
use std::alloc::Global;
use std::process::Abort;
use std::test::Fail;
use zq_resp::write_reply;
use zq_words::{Command, Refused};

const REFUSALS: [(&str, Refused); 61] = [
    ("SAVE", Refused::Unknown),
    ("ZMPOP 1 q MIN", Refused::Unknown),
    ("PING a b", Refused::Words),
    ("ZADD q 1", Refused::Words),
    ("ZADD q NX", Refused::Words),
    ("ZINCRBY q 1", Refused::Words),
    ("ZINCRBY q 1 a b", Refused::Words),
    ("ZREM q", Refused::Words),
    ("ZSCORE q", Refused::Words),
    ("ZSCORE q a b", Refused::Words),
    ("ZCARD", Refused::Words),
    ("ZCARD q a", Refused::Words),
    ("ZCOUNT q 1", Refused::Words),
    ("ZCOUNT q 1 2 3", Refused::Words),
    ("ZRANK q", Refused::Words),
    ("ZRANK q a b", Refused::Words),
    ("ZREVRANK q", Refused::Words),
    ("ZREVRANK q a b", Refused::Words),
    ("ZRANGE q 0", Refused::Words),
    ("ZPOPMIN", Refused::Words),
    ("ZPOPMIN q 1 2", Refused::Words),
    ("ZPOPNEAR", Refused::Words),
    ("ZPOPNEAR q 1", Refused::Words),
    ("DEL", Refused::Words),
    ("ZADD q NX CH", Refused::Syntax),
    ("ZADD q CH 1", Refused::Syntax),
    ("ZADD q 1 a 2", Refused::Syntax),
    ("ZADD q 1 a NX", Refused::Syntax),
    ("ZRANGE q 0 1 BYLEX", Refused::Syntax),
    ("ZRANGE q 0 1 BYSCORE LIMIT 0", Refused::Syntax),
    ("ZRANGE q 0 1 BYSCORE LIMIT", Refused::Syntax),
    ("ZRANGE q 0 1 LIMIT 0 1", Refused::Syntax),
    ("ZRANGE q 0 1 LIMIT 0 -1 REV", Refused::Syntax),
    ("ZADD q NX XX 1 a", Refused::Flags),
    ("ZADD q NX GT 1 a", Refused::Flags),
    ("ZADD q lt nx 1 a", Refused::Flags),
    ("ZADD q GT LT 1 a", Refused::Flags),
    ("ZADD q INCR 1 a 2 b", Refused::OnePair),
    ("ZADD q x a", Refused::Score),
    ("ZADD q 1 a 1.5 b", Refused::Score),
    ("ZADD q INCR x a", Refused::Score),
    ("ZADD q 9007199254740993 a", Refused::Score),
    ("ZINCRBY q inf a", Refused::Score),
    ("ZRANGE q x 1", Refused::Whole),
    ("ZRANGE q 0 1.0", Refused::Whole),
    ("ZRANGE q 0 1 BYSCORE LIMIT x 1", Refused::Whole),
    ("ZRANGE q 0 1 BYSCORE LIMIT 0 REV", Refused::Whole),
    ("ZRANGE q 0 1 BYSCORE LIMIT x 1 LIMIT 0 1", Refused::Whole),
    ("ZPOPMIN q x", Refused::Whole),
    ("ZPOPMIN q -1", Refused::Negative),
    ("ZCOUNT q x 1", Refused::Bound),
    ("ZCOUNT q 0 (", Refused::Bound),
    ("ZRANGE q x 1 BYSCORE", Refused::Bound),
    ("ZRANGE q 0 x BYSCORE", Refused::Bound),
    // Where more than one fits, the first in the order of refusals.
    ("ZADD q NX XX 1", Refused::Syntax),
    ("ZADD q NX XX INCR 1 a 2 b", Refused::Flags),
    ("ZADD q NX XX x a", Refused::Flags),
    ("ZADD q INCR x a 2 b", Refused::OnePair),
    ("ZRANGE q x 1 BYSCORE LIMIT y", Refused::Syntax),
    ("ZRANGE q x 1 LIMIT y 0", Refused::Syntax),
    ("ZRANGE q 0 x BYSCORE LIMIT y 0", Refused::Bound),
];

fn refusal(alloc: Global, line: &str) -> Result<Option<Refused>, Fail> {
    let request = request(alloc, line)?;
    Ok(Command::read(alloc, &request).err())
}

fn each_is_refused(rt: &impl Abort, alloc: Global, rows: &[(&str, Refused)]) -> Result<(), Fail> {
    for (line, refused) in rows {
        assert_eq!(rt; refusal(alloc, line)?, Some(*refused), "at {line}");
    }
    Ok(())
}

#[test]
fn the_first_refusal_is_answered(rt: HostRuntime) -> Result<(), Fail> {
    each_is_refused(&rt, rt.alloc(), &REFUSALS)
}

const TEXTS: [(Refused, &[u8]); 10] = [
    (Refused::Unknown, b"-ERR unknown command\r\n"),
    (Refused::Words, b"-ERR wrong number of arguments\r\n"),
    (Refused::Syntax, b"-ERR syntax error\r\n"),
    (Refused::Flags, b"-ERR flags exclude each other\r\n"),
    (Refused::OnePair, b"-ERR INCR takes one pair\r\n"),
    (
        Refused::Score,
        b"-ERR score is not a whole number in range\r\n",
    ),
    (Refused::Whole, b"-ERR value is not an integer\r\n"),
    (Refused::Negative, b"-ERR count is negative\r\n"),
    (Refused::Bound, b"-ERR min or max is not a bound\r\n"),
    (Refused::NoMemory, b"-OOM after 0\r\n"),
];

fn each_is_written(rt: &impl Abort, alloc: Global, rows: &[(Refused, &[u8])]) -> Result<(), Fail> {
    for (refused, text) in rows {
        let mut written = Vec::new(alloc);
        write_reply(&mut written, &refused.reply())?;
        assert_eq!(rt; written.as_slice(), *text);
    }
    Ok(())
}

#[test]
fn refusals_have_their_texts(rt: HostRuntime) -> Result<(), Fail> {
    each_is_written(&rt, rt.alloc(), &TEXTS)
}
