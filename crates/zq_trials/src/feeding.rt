//! Requests that are read, and sessions, of which a growth is refused.

use crate::ended::{Ended, Tried, judge};
use crate::streams::{MOST_TAKEN, Pieces, Taken};
use std::alloc::Global;
use zq_resp::{FeedFault, Reader, Reply, Request};
use zq_session::{Answers, End, SessionFault, session};

/// Three requests, of which the second has words past those that take no memory of their own.
const STREAM: &[u8] =
    b"*2\r\n$4\r\nPING\r\n$5\r\nhello\r\n*4\r\n$4\r\nZADD\r\n$1\r\nq\r\n$1\r\n3\r\n$1\r\na\r\n*1\r\n$4\r\nPING\r\n";

/// Where the stream is cut: inside its second request.
const CUT: usize = 40;

/// The words of the three requests, each with a space behind it.
const WORDS: [&str; 3] = ["PING hello ", "ZADD q 3 a ", "PING "];

/// What is left of a text behind a word and a space, `None` where it does not begin with these.
fn behind<'a>(text: &'a [u8], word: &[u8]) -> Option<&'a [u8]> {
    text.strip_prefix(word)?.strip_prefix(b" ")
}

/// Whether the request has these words, each with a space behind it.
fn has_words(request: &Request, words: &str) -> bool {
    let mut rest = words.as_bytes();
    for word in request.words() {
        match behind(rest, word.as_slice()) {
            Some(left) => rest = left,
            None => return false,
        }
    }
    rest.is_empty()
}

/// How many requests there are, if they are the first of the stream's.
fn front(requests: &[Request]) -> Option<usize> {
    for (at, request) in requests.iter().enumerate() {
        let words = WORDS.get(at)?;
        if !has_words(request, words) {
            return None;
        }
    }
    Some(requests.len())
}

/// What a reader said to a piece: the fault, and how many requests it hands out, `None` where these
/// are not the first of the stream's.
#[derive(Clone, Copy)]
struct Said {
    fault: Option<FeedFault>,
    count: Option<usize>,
}

/// Feeds a reader this piece.
fn fed(alloc: Global, reader: &mut Reader, piece: &[u8]) -> Said {
    match reader.feed(alloc, piece) {
        Ok(requests) => Said {
            fault: None,
            count: front(&requests),
        },
        Err(error) => Said {
            fault: Some(error.fault),
            count: front(&error.before),
        },
    }
}

/// Whether a reader that was refused memory is over, and another one reads all.
fn goes_on(alloc: Global, refused: &mut Reader) -> bool {
    let over = fed(alloc, refused, STREAM);
    let again = fed(alloc, &mut Reader::new(), STREAM);
    let is_over = matches!(
        over,
        Said {
            fault: Some(FeedFault::Over),
            count: Some(0)
        }
    );
    let is_whole = matches!(
        again,
        Said {
            fault: None,
            count: Some(3)
        }
    );
    is_over && is_whole
}

/// A reader is fed the stream. After want of memory it is over, and another reader reads all.
pub fn feed(alloc: Global) -> Ended {
    let mut reader = Reader::new();
    let Said { fault, count } = fed(alloc, &mut reader, STREAM);
    match (fault, count) {
        (None, Some(3)) => Ended::Owed(1),
        (Some(FeedFault::NoMemory), Some(done)) if goes_on(alloc, &mut reader) => {
            Ended::Refused(done)
        }
        _ => Ended::Wrong,
    }
}

/// A count and a length are declared, and a byte comes: no memory is taken for what has not come.
pub fn declared(alloc: Global) -> Ended {
    let Said { fault, count } = fed(alloc, &mut Reader::new(), b"*65536\r\n$1048576\r\n");
    match (fault, count) {
        (None, Some(0)) => Ended::Owed(1),
        _ => Ended::Wrong,
    }
}

/// Answers each request by its number, from 1.
#[derive(Drop)]
struct Counter {
    asked: u8,
}

impl Answers for Counter {
    ghost answers = { λ _ _ reply _. Unit {0} };

    fn answer(&mut self, _alloc: Global, _request: &Request) -> Reply {
        self.asked = self.asked.saturating_add(1);
        Reply::Integer(i64::from(self.asked))
    }
}

/// What the three requests are answered.
const OWED: &[u8] = b":1\r\n:2\r\n:3\r\n";

/// Each of these replies has so many bytes.
const REPLY: usize = 4;

/// How a session over the stream, in two pieces, ends, which writes to these bytes.
fn held(alloc: Global, bytes: &mut Vec<u8>) -> Result<End, SessionFault> {
    let mut reader = Pieces::whole(&STREAM[..CUT], &STREAM[CUT..]);
    let mut writer = Taken {
        bytes,
        most: usize::MAX,
        fails: usize::MAX,
        writes: 0,
    };
    session(alloc, &mut Counter { asked: 0 }, &mut reader, &mut writer)
}

/// Whether a session writes all that is owed, `None` where its memory before was refused.
fn writes_all(alloc: Global) -> Option<bool> {
    let mut bytes = Vec::with_capacity(alloc, MOST_TAKEN).ok()?;
    let end = held(alloc, &mut bytes);
    Some(end == Ok(End::Clean) && bytes.as_slice() == OWED)
}

/// How it ends where a session had no memory that has written this: the first of what is owed, in
/// whole replies.
fn cut_short(alloc: Global, written: &[u8]) -> Option<Ended> {
    let kept = OWED.starts_with(written) && written.len() % REPLY == 0;
    Some(if writes_all(alloc)? && kept {
        Ended::Refused(written.len() / REPLY)
    } else {
        Ended::Wrong
    })
}

/// A session over the stream. After want of memory the first of what is owed is written, in whole
/// replies, and another session writes all.
pub fn hold(alloc: Global) -> Option<Ended> {
    let mut bytes = Vec::with_capacity(alloc, MOST_TAKEN).ok()?;
    match held(alloc, &mut bytes) {
        Ok(End::Clean) => Some(judge(Tried::Done, true, bytes.as_slice() == OWED)),
        Err(SessionFault::NoMemory) => cut_short(alloc, &bytes),
        _ => Some(Ended::Wrong),
    }
}
