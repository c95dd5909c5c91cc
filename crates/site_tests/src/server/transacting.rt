//! Requests that a server of a site answers as one, by the bytes that it answers. Expected bytes are
//! those of Redis, but that a ZADD of the score that is there counts as a change, and for the texts
//! of errors.
ghost use Rattle.std.specs.Prelude.{IsTrue};
ghost use Rattle.zq_resp.specs.Reply.{is_writable};
ghost use Rattle.zq_session.specs.Writable.{AreAllWritable};

use super::asking::{answered, push_request};
use super::passing::opened;
use std::alloc::Global;
use std::process::Abort;
use std::sync::Wait;
use std::test::Fail;
use zq_resp::{Reader, Reply, Request, write_reply};
use zq_session::{Calling, Queued, SitePass, Transacted, Transacts};
use zq_spread::{Draws, Watched};

/// What is done, and the bytes that come of it.
enum Step<'a> {
    /// A line is asked alone.
    Ask(&'a str, &'a str),
    /// A line is queued.
    Queue(&'a str),
    /// A line is refused as it is queued.
    Refuse(&'a str, &'a str),
    /// The keys of a line are watched.
    Watch(&'a str),
    /// What is queued is run, and nothing is watched any more.
    Exec(&'a str),
}

const STEPS: [Step<'static>; 40] = [
    Step::Queue("ZADD m:q 2 a 1 b"),
    Step::Queue("ZRANGE m:q 0 -1 REV WITHSCORES"),
    Step::Queue("ZPOPMIN m:q"),
    Step::Queue("ZCARD m:q"),
    Step::Exec(
        "*4\r\n:2\r\n*4\r\n$1\r\na\r\n$1\r\n2\r\n$1\r\nb\r\n$1\r\n1\r\n*2\r\n$1\r\nb\r\n$1\r\n1\r\n:1\r\n",
    ),
    Step::Exec("*0\r\n"),
    Step::Queue("PING"),
    Step::Queue("ZMSCORE m:q a x"),
    Step::Queue("EXISTS m:q m:p"),
    Step::Queue("TYPE m:q"),
    Step::Queue("ZPOPMAX m:q 5"),
    Step::Queue("ZREMRANGEBYSCORE m:q -inf +inf"),
    Step::Queue("DEL m:q"),
    Step::Exec(
        "*7\r\n+PONG\r\n*2\r\n$1\r\n2\r\n$-1\r\n:1\r\n+zset\r\n*2\r\n$1\r\na\r\n$1\r\n2\r\n:0\r\n:0\r\n",
    ),
    // What is refused has its place, or is refused at once.
    Step::Queue("ZADD me:q 1 a"),
    Step::Queue("ZADD me:q x b"),
    Step::Queue("ZRANGE me:q 0 x"),
    Step::Refuse("NOSUCH x", "-ERR unknown command\r\n"),
    Step::Refuse("ZADD me:q", "-ERR wrong number of arguments\r\n"),
    Step::Refuse("TYPE", "-ERR wrong number of arguments\r\n"),
    Step::Queue("ZCARD me:q"),
    Step::Exec(
        "*4\r\n:1\r\n-ERR score is not a whole number in range\r\n-ERR value is not an integer\r\n:1\r\n",
    ),
    // What is watched.
    Step::Watch("me:q"),
    Step::Ask("ZADD me:p 1 x", ":1\r\n"),
    Step::Ask("ZADD me:q XX 3 nobody", ":0\r\n"),
    Step::Ask("ZREM me:q nobody", ":0\r\n"),
    Step::Queue("ZCARD me:q"),
    Step::Exec("*1\r\n:1\r\n"),
    Step::Watch("me:q me:p"),
    Step::Ask("ZADD me:p 2 x", ":0\r\n"),
    Step::Queue("ZREM me:q a"),
    Step::Exec("*-1\r\n"),
    Step::Ask("ZCARD me:q", ":1\r\n"),
    Step::Watch("me:q"),
    Step::Ask("ZADD me:q 1 a", ":0\r\n"),
    Step::Exec("*-1\r\n"),
    Step::Watch("me:q"),
    Step::Ask("ZPOPMIN me:q", "*2\r\n$1\r\na\r\n$1\r\n1\r\n"),
    Step::Ask("ZADD me:q 1 a", ":1\r\n"),
    Step::Exec("*-1\r\n"),
];

/// The request of a line's words.
fn request(alloc: Global, line: &str) -> Result<Request, Fail> {
    let mut bytes = Vec::new(alloc);
    push_request(alloc, &mut bytes, line, b"")?;
    let mut requests = match Reader::new().feed(alloc, &bytes) {
        Ok(requests) => requests,
        Err(_) => return Err("no request".into()),
    };
    match requests.pop() {
        Some(request) => Ok(request),
        None => Err("no request".into()),
    }
}

/// The keys of a line.
fn keys(alloc: Global, line: &str) -> Result<Vec<Vec<u8>>, Fail> {
    let mut keys = Vec::new(alloc);
    for word in line.split(' ') {
        keys.push(Vec::from_slice(alloc, word.as_bytes())?)?;
    }
    Ok(keys)
}

/// The bytes of a reply.
fn bytes_of(alloc: Global, reply: &Reply) -> Result<Vec<u8>, Fail>
    requires { IsTrue (is_writable reply.now) }
{
    let mut bytes = Vec::new(alloc);
    write_reply(&mut bytes, reply)?;
    Ok(bytes)
}

/// What a server has queued and watches.
#[derive(Drop)]
struct Talk {
    queue: Vec<Queued>,
    watched: Option<Watched>,
}

/// The bytes that are to come of a step.
fn expected_of<'a>(step: &Step<'a>) -> &'a str {
    match *step {
        Step::Ask(_, expected) | Step::Refuse(_, expected) | Step::Exec(expected) => expected,
        Step::Queue(_) | Step::Watch(_) => "",
    }
}

/// The bytes that come of a step.
fn done<A: Transacts + zq_session::Answers>(
    alloc: Global,
    server: &mut A,
    talk: &mut Talk,
    step: &Step<'_>,
) -> Result<Vec<u8>, Fail> {
    match *step {
        Step::Ask(line, _) => {
            let mut bytes = Vec::new(alloc);
            push_request(alloc, &mut bytes, line, b"")?;
            answered(alloc, server, &bytes)
        }
        Step::Queue(line) => match server.prepare(alloc, &request(alloc, line)?) {
            Ok(queued) => {
                talk.queue.push(queued)?;
                Ok(Vec::new(alloc))
            }
            Err(reply) => bytes_of(alloc, &reply),
        },
        Step::Refuse(line, _) => match server.prepare(alloc, &request(alloc, line)?) {
            Ok(_) => Ok(Vec::new(alloc)),
            Err(reply) => bytes_of(alloc, &reply),
        },
        Step::Watch(line) => match server.watch(alloc, keys(alloc, line)?) {
            Ok(watched) => {
                talk.watched = Some(watched);
                Ok(Vec::new(alloc))
            }
            Err(reply) => bytes_of(alloc, &reply),
        },
        Step::Exec(_) => {
            let watched = talk.watched.take();
            let ended = server.transact(alloc, &talk.queue, watched.as_ref());
            talk.queue.clear();
            bytes_of(alloc, &reply_of(ended))
        }
    }
}

/// The reply to EXEC.
fn reply_of(ended: Transacted) -> Reply
    requires { AreAllWritable ended }
    ensures { IsTrue (is_writable result) }
{
    match ended {
        Transacted::Ran(replies) => Reply::Array(replies),
        Transacted::Touched => Reply::NullArray,
        Transacted::TurnedAway(reply) => reply,
    }
}

fn follow<R: Wait + Abort>(rt: &R, alloc: Global, steps: &[Step<'_>]) -> Result<(), Fail> {
    let (site, passes) = opened(alloc, 1)?;
    for pass in passes {
        let mut own = SitePass::new(&site, pass);
        let mut server = Calling::new(rt, &mut own, Draws::new(1), true);
        let mut talk = Talk {
            queue: Vec::new(alloc),
            watched: None,
        };
        for (place, it) in steps.iter().enumerate() {
            let bytes = done(alloc, &mut server, &mut talk, it)?;
            assert!(rt;
                bytes.as_slice() == expected_of(it).as_bytes(),
                "step {place}"
            );
        }
    }
    Ok(())
}

#[test]
fn several_requests_are_answered_as_one(rt: HostRuntime) -> Result<(), Fail> {
    follow(&rt, rt.alloc(), &STEPS)
}
