//! A server of a site that one session alone uses, by the bytes that it answers. Expected bytes are
//! those of Redis's reference and of the commands' document.

ghost use Rattle.std.specs.Prelude.{◌≤◌};
ghost use Rattle.zq_model.specs.Sets.{IsHeaps};

use super::asking::{answered, push_request};
use std::alloc::Global;
use std::process::Abort;
use std::test::Fail;
use zq_commands::SiteBooks;
use zq_dots::Rule;
use zq_posheap::Seeded;
use zq_session::Plain;

/// What is done.
#[derive(Clone, Copy)]
enum Step {
    /// The server has no keys again.
    Clear,
    /// A request of the line's words is answered so.
    Ask(&'static str, &'static str),
    /// These bytes are answered so.
    Send(&'static [u8], &'static [u8]),
}

use Step::{Ask, Clear, Send};

const STEPS: [Step; 83] = [
    Ask("PING", "+PONG\r\n"),
    Ask("ping hello", "$5\r\nhello\r\n"),
    // Scores as texts.
    Ask("ZADD q 3.0 b", ":1\r\n"),
    Ask("ZSCORE q b", "$1\r\n3\r\n"),
    Ask(
        "ZADD q 1.5 c",
        "-ERR score is not a whole number in range\r\n",
    ),
    Ask("ZSCORE q c", "$-1\r\n"),
    Ask("ZADD q -03.00 d", ":1\r\n"),
    Ask("ZSCORE q d", "$2\r\n-3\r\n"),
    // The ends of the range.
    Clear,
    Ask("ZADD q 9007199254740992 m", ":1\r\n"),
    Ask(
        "ZADD q 9007199254740993 m",
        "-ERR score is not a whole number in range\r\n",
    ),
    Ask("ZINCRBY q 1 m", "-ERR result out of range\r\n"),
    Ask("ZSCORE q m", "$16\r\n9007199254740992\r\n"),
    // A member named twice.
    Clear,
    Ask("ZADD q 1 x 2 x 0 y", ":2\r\n"),
    Ask(
        "ZRANGE q 0 -1 WITHSCORES",
        "*4\r\n$1\r\ny\r\n$1\r\n0\r\n$1\r\nx\r\n$1\r\n2\r\n",
    ),
    // Flags.
    Clear,
    Ask("ZADD q 5 x", ":1\r\n"),
    Ask("ZADD q GT CH 5 x", ":0\r\n"),
    Ask("ZADD q GT CH 6 x", ":1\r\n"),
    Ask("ZADD q NX 9 x", ":0\r\n"),
    Ask("ZADD q XX LT INCR 1 x", "$-1\r\n"),
    Ask("ZADD q NX GT 9 x", "-ERR flags exclude each other\r\n"),
    Ask("ZADD q CH 1 z 2 z", ":2\r\n"),
    Ask("ZSCORE q x", "$1\r\n6\r\n"),
    // Equal scores go by bytes, up to the byte 255.
    Clear,
    Ask("ZADD q 0 b 0 a 0 ab", ":3\r\n"),
    Send(
        b"*4\r\n$4\r\nZADD\r\n$1\r\nq\r\n$1\r\n0\r\n$1\r\n\xff\r\n",
        b":1\r\n",
    ),
    Send(
        b"*4\r\n$6\r\nZRANGE\r\n$1\r\nq\r\n$1\r\n0\r\n$2\r\n-1\r\n",
        b"*4\r\n$1\r\na\r\n$2\r\nab\r\n$1\r\nb\r\n$1\r\n\xff\r\n",
    ),
    // Ranges, counts and ranks.
    Clear,
    Ask("ZADD q 1 a 2 b 3 c 4 d", ":4\r\n"),
    Ask("ZRANGE q -2 -1", "*2\r\n$1\r\nc\r\n$1\r\nd\r\n"),
    Ask("ZRANGE q 5 9", "*0\r\n"),
    Ask(
        "ZRANGE q 0 99",
        "*4\r\n$1\r\na\r\n$1\r\nb\r\n$1\r\nc\r\n$1\r\nd\r\n",
    ),
    Ask("ZRANGE q 0 0 REV", "*1\r\n$1\r\nd\r\n"),
    Ask(
        "ZRANGE q (1 +inf BYSCORE LIMIT 1 -1",
        "*2\r\n$1\r\nc\r\n$1\r\nd\r\n",
    ),
    Ask("ZRANGE q 3 (1 BYSCORE REV", "*2\r\n$1\r\nc\r\n$1\r\nb\r\n"),
    Ask("ZCOUNT q (1 3", ":2\r\n"),
    Ask("ZRANK q c", ":2\r\n"),
    Ask("ZREVRANK q c", ":1\r\n"),
    Ask("ZRANK q none", "$-1\r\n"),
    Ask("ZREM q d none d", ":1\r\n"),
    Ask("ZCARD q", ":3\r\n"),
    Ask("DEL q q none", ":1\r\n"),
    Ask("ZCARD q", ":0\r\n"),
    // Equal scores, by score and from the greatest.
    Clear,
    Ask("ZADD q 1 a 2 b 2 c", ":3\r\n"),
    Ask("ZRANGE q 2 2 BYSCORE REV", "*2\r\n$1\r\nc\r\n$1\r\nb\r\n"),
    Ask(
        "ZRANGE q +inf (1 BYSCORE REV LIMIT 1 1 WITHSCORES",
        "*2\r\n$1\r\nb\r\n$1\r\n2\r\n",
    ),
    Ask("ZRANGE q 0 -1 LIMIT 0 1", "-ERR syntax error\r\n"),
    Ask("ZRANGE q -inf inf BYSCORE LIMIT -1 2", "*0\r\n"),
    Ask("ZCOUNT q ((1 2", "-ERR min or max is not a bound\r\n"),
    Ask("ZPOPMIN q x", "-ERR value is not an integer\r\n"),
    // Pops.
    Clear,
    Ask("ZPOPMIN none", "*0\r\n"),
    Ask("ZADD q 1 a 2 b", ":2\r\n"),
    Ask("ZPOPMIN q 0", "*0\r\n"),
    Ask("ZPOPMIN q -1", "-ERR count is negative\r\n"),
    Ask(
        "ZPOPMIN q 5",
        "*4\r\n$1\r\na\r\n$1\r\n1\r\n$1\r\nb\r\n$1\r\n2\r\n",
    ),
    Ask("ZCARD q", ":0\r\n"),
    Ask("ZADD q 7 a 5 b 1 c", ":3\r\n"),
    Ask("ZPOPNEAR q", "*2\r\n$1\r\nc\r\n$1\r\n1\r\n"),
    Ask("ZPOPMIN q", "*2\r\n$1\r\nb\r\n$1\r\n5\r\n"),
    // Increments.
    Clear,
    Ask("ZINCRBY q 5 x", "$1\r\n5\r\n"),
    Ask("ZINCRBY q -6 x", "$2\r\n-1\r\n"),
    Ask("ZADD q INCR 3 x", "$1\r\n2\r\n"),
    Ask("ZADD q NX INCR 3 x", "$-1\r\n"),
    // What is no command changes nothing.
    Clear,
    Ask("ZADD q 1 a", ":1\r\n"),
    Ask("ZADD q 1", "-ERR wrong number of arguments\r\n"),
    Ask("ZREM q", "-ERR wrong number of arguments\r\n"),
    Ask("SAVE q", "-ERR unknown command\r\n"),
    Ask("ZADD q NX 1 b 2", "-ERR syntax error\r\n"),
    Ask("ZADD q INCR 1 a 2 b", "-ERR INCR takes one pair\r\n"),
    Ask(
        "ZADD q 2 a 1e3 b",
        "-ERR score is not a whole number in range\r\n",
    ),
    Ask(
        "ZRANGE q -1 +inf WITHSCORES",
        "-ERR value is not an integer\r\n",
    ),
    Ask("ZPOPMIN q 1 1", "-ERR wrong number of arguments\r\n"),
    Ask("ZRANGE q 0 -1 WITHSCORES", "*2\r\n$1\r\na\r\n$1\r\n1\r\n"),
    Ask("DEL q", ":1\r\n"),
    // Requests of one piece are answered in order.
    Clear,
    Send(
        b"*4\r\n$4\r\nZADD\r\n$1\r\nq\r\n$1\r\n1\r\n$0\r\n\r\n*2\r\n$5\r\nZCARD\r\n$1\r\nq\r\n",
        b":1\r\n:1\r\n",
    ),
    Send(b"*0\r\n*1\r\n$4\r\nPING\r\n", b"+PONG\r\n"),
];

/// What the server answers to the line's words.
fn ask(alloc: Global, server: &mut Plain, line: &str) -> Result<Vec<u8>, Fail> {
    let mut bytes = Vec::new(alloc);
    push_request(alloc, &mut bytes, line, b"")?;
    answered(alloc, server, bytes.as_slice())
}

/// Does a step of a server of so many heaps.
fn take_step(
    rt: &impl Abort,
    alloc: Global,
    heaps: u8,
    server: &mut Plain,
    step: Step,
) -> Result<(), Fail>
    requires { IsHeaps heaps }
{
    match step {
        Clear => *server = Plain::new(alloc, heaps)?,
        Ask(line, says) => {
            let bytes = ask(alloc, server, line)?;
            assert!(rt; bytes.as_slice() == says.as_bytes(), "{line}");
        }
        Send(sent, says) => {
            let bytes = answered(alloc, server, sent)?;
            assert!(rt; bytes.as_slice() == says);
        }
    }
    Ok(())
}

/// Does these steps, the first of them at a server of so many heaps without a key.
fn take_steps(rt: &impl Abort, alloc: Global, heaps: u8, steps: &[Step]) -> Result<Plain, Fail>
    requires { IsHeaps heaps }
{
    let mut server = Plain::new(alloc, heaps)?;
    for step in steps.iter() {
        take_step(rt, alloc, heaps, &mut server, *step)?;
    }
    Ok(server)
}

#[test]
fn commands_are_answered(rt: HostRuntime) -> Result<(), Fail> {
    take_steps(&rt, rt.alloc(), 1, &STEPS)?;
    Ok(())
}

#[test]
fn commands_over_two_heaps_are_answered_alike(rt: HostRuntime) -> Result<(), Fail> {
    take_steps(&rt, rt.alloc(), 2, &STEPS)?;
    Ok(())
}

// Member a of key q lies in heap 0, and member b in heap 1.
const TWO_STEPS: [Step; 12] = [
    Ask("ZADD q 3 a 1 b", ":2\r\n"),
    Ask(
        "ZRANGE q 0 -1 WITHSCORES",
        "*4\r\n$1\r\nb\r\n$1\r\n1\r\n$1\r\na\r\n$1\r\n3\r\n",
    ),
    Ask("ZRANK q a", ":1\r\n"),
    Ask("ZCARD q", ":2\r\n"),
    Ask(
        "ZPOPMIN q 2",
        "*4\r\n$1\r\nb\r\n$1\r\n1\r\n$1\r\na\r\n$1\r\n3\r\n",
    ),
    Ask("ZCARD q", ":0\r\n"),
    Ask("ZADD q 5 b 4 a", ":2\r\n"),
    Ask("ZPOPNEAR q", "*2\r\n$1\r\na\r\n$1\r\n4\r\n"),
    Ask("ZCARD q", ":1\r\n"),
    Ask("ZPOPNEAR q", "*2\r\n$1\r\nb\r\n$1\r\n5\r\n"),
    Ask("ZPOPNEAR q", "*0\r\n"),
    Ask("ZCARD q", ":0\r\n"),
];

#[test]
fn pops_and_readings_are_of_both_heaps(rt: HostRuntime) -> Result<(), Fail> {
    let server = take_steps(&rt, rt.alloc(), 2, &TWO_STEPS)?;
    // Each book has two additions and two removals of its member.
    for book in server.books().iter() {
        assert_eq!(rt; book.tail_len(), 4);
    }
    Ok(())
}

/// How many records the one book has.
fn tail_len(server: &Plain) -> usize {
    match server.books() {
        [book] => book.tail_len(),
        _ => 0,
    }
}

/// The requests that put a member so many times, at rising scores from 1.
fn puts(alloc: Global, count: usize) -> Result<Vec<u8>, Fail> {
    let mut bytes = Vec::new(alloc);
    for score in 1..=count {
        let line = format!(in alloc; "ZADD q {score} a")?;
        push_request(alloc, &mut bytes, line.as_str(), b"")?;
    }
    Ok(bytes)
}

#[test]
fn a_long_tail_is_cut(rt: HostRuntime) -> Result<(), Fail> {
    let mut server = Plain::new(rt.alloc(), 1)?;
    let bytes = puts(rt.alloc(), 4096)?;
    answered(rt.alloc(), &mut server, bytes.as_slice())?;
    assert_eq!(rt; tail_len(&server), 4096);
    ask(rt.alloc(), &mut server, "ZADD q 4097 a")?;
    assert_eq!(rt; tail_len(&server), 2049);
    let score = ask(rt.alloc(), &mut server, "ZSCORE q a")?;
    assert_eq!(rt; score.as_slice(), b"$4\r\n4097\r\n".as_slice());
    Ok(())
}

const LAST_STAMP: u64 = 4_611_686_018_427_387_904;

/// A server with no keys whose book has this stamp.
fn stamped(alloc: Global, stamp: u64) -> Result<Plain, Fail>
    requires { stamp ≤ 4611686018427387904 }
{
    let mut books = SiteBooks::new(alloc, 1, Rule::High, Seeded::new(0))?;
    books.begin(stamp);
    Ok(Plain::of_books(books))
}

const WORN: &str = "-ERR worn after 0\r\n";

// What a server of which the book's stamp is the one before the last answers.
const LAST_STEPS: [Step; 18] = [
    Ask("ZADD q 1 a", ":1\r\n"),
    Ask("ZADD q 1 b", WORN),
    Ask("ZADD q INCR 1 b", WORN),
    Ask("ZINCRBY q 1 a", WORN),
    Ask("ZREM q a", WORN),
    Ask("ZSCORE q a", WORN),
    Ask("ZCARD q", WORN),
    Ask("ZCOUNT q -inf +inf", WORN),
    Ask("ZRANK q a", WORN),
    Ask("ZREVRANK q a", WORN),
    Ask("ZRANGE q 0 -1", WORN),
    Ask("ZPOPMIN q", WORN),
    Ask("ZPOPNEAR q", WORN),
    Ask("DEL q", WORN),
    Ask("PING", "+PONG\r\n"),
    Ask("PING a", "$1\r\na\r\n"),
    Ask("SAVE", "-ERR unknown command\r\n"),
    Ask(
        "ZADD q x a",
        "-ERR score is not a whole number in range\r\n",
    ),
];

#[test]
fn a_worn_stamp_leaves_ping_alone(rt: HostRuntime) -> Result<(), Fail> {
    let mut server = stamped(rt.alloc(), LAST_STAMP - 1)?;
    for step in LAST_STEPS.iter() {
        take_step(&rt, rt.alloc(), 1, &mut server, *step)?;
    }
    assert_eq!(rt; tail_len(&server), 1);
    Ok(())
}
