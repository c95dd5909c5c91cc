//! Connections that are served in turn, by the bytes that they are owed.

use super::asking::letters;
use super::passing::opened;
use std::alloc::{AllocError, Global};
use std::sync::Wait;
use std::test::Fail;
use zq_resp::{Reply, Request, Text};
use zq_session::{Answers, Connection, Passing, SitePass};
use zq_spread::Draws;

// Answers PONG to every request.
#[derive(Drop)]
struct Pong;

impl Answers for Pong {
    ghost answers = { λ _ _ _ _. Unit {0} };

    fn answer(&mut self, _alloc: Global, _request: &Request) -> Reply {
        Reply::Simple("PONG")
    }
}

/// Answers every request with this text.
#[derive(Drop)]
struct Says<'a>(&'a [u8]);

impl Answers for Says<'_> {
    ghost answers = { λ _ _ _ _. Unit {0} };

    fn answer(&mut self, alloc: Global, _request: &Request) -> Reply {
        match Text::from_slice(alloc, self.0) {
            Ok(text) => Reply::Bulk(text),
            Err(AllocError) => Reply::NullBulk,
        }
    }
}

/// Hears a piece, if the connection wants to read.
fn hear<A: Answers>(
    alloc: Global,
    connection: &mut Connection,
    answerer: &mut A,
    piece: &[u8],
) -> Result<(), Fail> {
    if piece.len() > 65_536 || !connection.wants_to_read() {
        return Err("no reading".into());
    }
    connection.hear(alloc, answerer, piece)?;
    Ok(())
}

/// Takes at most so many of the bytes that the connection is owed.
fn take(
    alloc: Global,
    connection: &mut Connection,
    most: usize,
    written: &mut Vec<u8>,
) -> Result<(), Fail> {
    let count = connection.owed().len().min(most);
    written.extend_from_slice(&connection.owed()[..count])?;
    connection.wrote(alloc, count);
    Ok(())
}

// A connection: what it brings, how many bytes it takes at once, and what it is written by then.
#[derive(Clone, Copy)]
struct Row<'a> {
    what: &'a str,
    pieces: &'a [&'a [u8]],
    takes: usize,
    written: &'a [u8],
    is_closed: bool,
}

const PING: &[u8] = b"*1\r\n$4\r\nPING\r\n";

const ROWS: [Row<'static>; 6] = [
    Row {
        what: "a request may come byte by byte",
        pieces: &[
            b"*", b"1", b"\r", b"\n", b"$", b"4", b"\r", b"\n", b"P", b"I", b"N", b"G", b"\r",
            b"\n",
        ],
        takes: 100,
        written: b"+PONG\r\n",
        is_closed: false,
    },
    Row {
        what: "what is owed is written once, however little is taken at a time",
        pieces: &[
            b"*1\r\n$4\r\nPING\r\n*1\r\n$4\r\nPING\r\n",
            PING,
            b"",
            b"",
            b"",
            b"",
        ],
        takes: 4,
        written: b"+PONG\r\n+PONG\r\n+PONG\r\n",
        is_closed: false,
    },
    Row {
        what: "a short write leaves the rest",
        pieces: &[b"*1\r\n$4\r\nPING\r\n*1\r\n$4\r\nPING\r\n", PING],
        takes: 4,
        written: b"+PONG\r\n+",
        is_closed: false,
    },
    Row {
        what: "a fault of the protocol is answered after the requests before it",
        pieces: &[
            b"*1\r\n$4\r\nPI",
            b"NG\r\n*1\r\n$4\r\nPING\r\n*01\r\n*1\r\n$4\r\nPING\r\n",
        ],
        takes: 100,
        written: b"+PONG\r\n+PONG\r\n-ERR Protocol error\r\n",
        is_closed: true,
    },
    Row {
        what: "a request past the limits is answered as one",
        pieces: &[b"*65537"],
        takes: 100,
        written: b"-ERR Protocol error\r\n",
        is_closed: true,
    },
    Row {
        what: "half a request is owed nothing",
        pieces: &[b"*0\r\n*1\r\n$4\r\nPI"],
        takes: 100,
        written: b"",
        is_closed: false,
    },
];

/// What a connection is written that brings these pieces, and takes so many bytes after each.
fn written(alloc: Global, row: Row) -> Result<(Vec<u8>, bool), Fail> {
    let mut connection = Connection::new(alloc);
    let mut written = Vec::new(alloc);
    for piece in row.pieces {
        hear(alloc, &mut connection, &mut Pong, piece)?;
        take(alloc, &mut connection, row.takes, &mut written)?;
    }
    Ok((written, connection.is_closed()))
}

#[test]
fn connections_are_owed_what_they_ask_for(rt: HostRuntime) -> Result<(), Fail> {
    for row in ROWS {
        let (written, is_closed) = written(rt.alloc(), row)?;
        assert_eq!(rt; written.as_slice(), row.written, "{}", row.what);
        assert!(rt; is_closed == row.is_closed, "{}", row.what);
    }
    Ok(())
}

/// What a connection that is closed is written after that, where it had brought these bytes.
fn written_when_closed(alloc: Global, bytes: &[u8]) -> Result<(Vec<u8>, bool), Fail> {
    let mut connection = Connection::new(alloc);
    let mut written = Vec::new(alloc);
    hear(alloc, &mut connection, &mut Pong, bytes)?;
    connection.close();
    if connection.is_over() || connection.wants_to_read() || connection.can_go_on() {
        return Err("something is owed".into());
    }
    take(alloc, &mut connection, 100, &mut written)?;
    Ok((written, connection.is_over()))
}

#[test]
fn what_is_owed_at_a_close_is_written(rt: HostRuntime) -> Result<(), Fail> {
    let (written, is_over) = written_when_closed(rt.alloc(), PING)?;
    assert_eq!(rt; written.as_slice(), b"+PONG\r\n".as_slice());
    assert!(rt; is_over);
    Ok(())
}

/// How many bytes are owed after each step of a connection that brings these bytes at once, and
/// takes all that it is owed before the next step.
fn lengths_owed(alloc: Global, bytes: &[u8], text: &[u8]) -> Result<Vec<usize>, Fail> {
    let mut connection = Connection::new(alloc);
    let mut lengths = Vec::new(alloc);
    hear(alloc, &mut connection, &mut Says(text), bytes)?;
    lengths.push(connection.owed().len())?;
    for _ in 0..10 {
        let count = connection.owed().len();
        connection.wrote(alloc, count);
        if !connection.can_go_on() {
            break;
        }
        connection.go_on(alloc, &mut Says(text))?;
        lengths.push(connection.owed().len())?;
    }
    Ok(lengths)
}

#[test]
fn no_request_is_answered_while_65536_bytes_are_owed(rt: HostRuntime) -> Result<(), Fail> {
    let alloc = rt.alloc();
    let asked = b"*1\r\n$1\r\na\r\n*1\r\n$1\r\nb\r\n*1\r\n$1\r\nc\r\n";
    // A reply is the text with its length, the `$` and two line ends.
    let rows: [(usize, &[usize]); 4] = [
        (4, &[30]),
        (32_757, &[65_534 + 32_767]),
        (32_758, &[65_536, 32_768]),
        (70_000, &[70_010, 70_010, 70_010]),
    ];
    for (length, owed) in rows {
        let lengths = lengths_owed(alloc, asked, &letters(alloc, length)?)?;
        assert_eq!(rt; lengths.as_slice(), owed, "texts of {length} bytes");
    }
    Ok(())
}

/// A connection, and what it was written.
#[derive(Drop)]
struct Client {
    connection: Connection,
    written: Vec<u8>,
}

impl Client {
    fn new(alloc: Global) -> Client {
        Client {
            connection: Connection::new(alloc),
            written: Vec::new(alloc),
        }
    }

    /// Brings a piece, and takes what is owed for it.
    fn bring<A: Answers>(
        &mut self,
        alloc: Global,
        answerer: &mut A,
        piece: &[u8],
    ) -> Result<(), Fail> {
        hear(alloc, &mut self.connection, answerer, piece)?;
        take(alloc, &mut self.connection, 100, &mut self.written)
    }
}

// Whether the second of two connections brings something, or the first, and what it brings.
const TURNS: [(bool, &'static [u8]); 5] = [
    (false, b"*4\r\n$4\r\nZADD\r\n$1\r\nq\r\n$1"),
    (
        true,
        b"*3\r\n$6\r\nZSCORE\r\n$1\r\nq\r\n$1\r\na\r\n*3\r\n$6\r\nZSC",
    ),
    (false, b"\r\n3\r\n$1\r\na\r\n"),
    (true, b"ORE\r\n$1\r\nq\r\n$1\r\na\r\n"),
    (false, b"*2\r\n$5\r\nZCARD\r\n$1\r\nq\r\n"),
];

/// What two connections are written, whose requests one answerer answers in turn.
fn written_in_turn<A: Answers>(
    alloc: Global,
    answerer: &mut A,
) -> Result<(Vec<u8>, Vec<u8>), Fail> {
    let mut one = Client::new(alloc);
    let mut other = Client::new(alloc);
    for (is_other, piece) in TURNS {
        if is_other {
            other.bring(alloc, answerer, piece)?;
        } else {
            one.bring(alloc, answerer, piece)?;
        }
    }
    Ok((one.written, other.written))
}

/// What they are written by one pass of a site.
fn written_by_a_pass<R: Wait>(rt: &R, alloc: Global) -> Result<(Vec<u8>, Vec<u8>), Fail> {
    let (site, passes) = opened(alloc, 1)?;
    let mut written = (Vec::new(alloc), Vec::new(alloc));
    for pass in passes {
        let mut own = SitePass::new(&site, pass);
        let mut server = Passing::new(rt, &mut own, Draws::new(1));
        written = written_in_turn(alloc, &mut server)?;
    }
    Ok(written)
}

#[test]
fn two_connections_are_served_by_one_pass(rt: HostRuntime) -> Result<(), Fail> {
    let (one, other) = written_by_a_pass(&rt, rt.alloc())?;
    assert_eq!(rt; one.as_slice(), b":1\r\n:1\r\n".as_slice());
    assert_eq!(rt; other.as_slice(), b"$-1\r\n$1\r\n3\r\n".as_slice());
    Ok(())
}
