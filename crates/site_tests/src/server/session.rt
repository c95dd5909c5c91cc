//! Sessions over readers and writers that fail.

ghost use Rattle.std.specs.Prelude.{◌≡◌, IfOk};

use std::alloc::Global;
use std::io;
use std::io::{ErrorKind, Read, Write};
use zq_resp::{Reply, Request};
use zq_session::{Answers, End, Ends, SessionFault, session, session_over, status};

// Answers PONG to every request.
#[derive(Drop)]
struct Pong;

impl Answers for Pong {
    ghost answers = { λ _ _ reply _. Unit {0} };

    fn answer(&mut self, _alloc: Global, _request: &Request) -> Reply {
        Reply::Simple("PONG")
    }
}

// Gives its pieces, one a read, and then fails or ends. It counts how often it was asked.
#[derive(Drop)]
struct Pieces<'a> {
    pieces: &'a [&'a [u8]],
    asked: usize,
    fails: bool,
}

impl Read for Pieces<'_> {
    fn read(&mut self, buffer: &mut [u8]) -> io::Result<usize> {
        let at = self.asked;
        self.asked = at.saturating_add(1);
        if at >= self.pieces.len() {
            return self.end();
        }
        let piece = self.pieces[at];
        let count = piece.len().min(buffer.len());
        buffer[..count].copy_from_slice(&piece[..count]);
        Ok(count)
    }
}

impl Pieces<'_> {
    fn end(&self) -> io::Result<usize>
        ensures { IfOk result (λ count. count ≡ 0) }
    {
        if self.fails {
            Err(ErrorKind::Other.into())
        } else {
            Ok(0)
        }
    }
}

// Takes a byte at a time, and fails once it has taken so many.
#[derive(Drop)]
struct Narrow {
    taken: Vec<u8>,
    room: usize,
}

impl Write for Narrow {
    fn write(&mut self, bytes: &[u8]) -> io::Result<usize> {
        if self.taken.len() >= self.room || bytes.is_empty() {
            return Err(ErrorKind::Other.into());
        }
        if self.taken.push(bytes[0]).is_err() {
            return Err(ErrorKind::OutOfMemory.into());
        }
        Ok(1)
    }

    fn flush(&mut self) -> io::Result<()> {
        Ok(())
    }
}

// Takes nothing.
#[derive(Drop)]
struct Full;

impl Write for Full {
    fn write(&mut self, _bytes: &[u8]) -> io::Result<usize> {
        Ok(0)
    }

    fn flush(&mut self) -> io::Result<()> {
        Ok(())
    }
}

const PING: &[u8] = b"*1\r\n$4\r\nPING\r\n";

// A session: what its devices do, and what comes of it.
#[derive(Clone, Copy)]
struct Row<'a> {
    what: &'a str,
    pieces: &'a [&'a [u8]],
    reader_fails: bool,
    writer_takes: usize,
    end: Result<End, SessionFault>,
    status: u8,
    written: &'a [u8],
    asked: usize,
}

#[test]
fn sessions_end_as_their_devices_let_them(rt: HostRuntime) {
    let rows = [
        Row {
            what: "a fault of the protocol is answered once",
            pieces: &[b"*0\r\n*1\r\n$4\r\nPING\r\n*01\r\n", PING],
            reader_fails: false,
            writer_takes: 100,
            end: Ok(End::Protocol),
            status: 2,
            written: b"+PONG\r\n-ERR Protocol error\r\n",
            asked: 1,
        },
        Row {
            what: "a request past the limits is answered as one",
            pieces: &[b"*1\r\n$4\r\nPING\r\n*65537"],
            reader_fails: false,
            writer_takes: 100,
            end: Ok(End::Protocol),
            status: 2,
            written: b"+PONG\r\n-ERR Protocol error\r\n",
            asked: 1,
        },
        Row {
            what: "input may end inside a request",
            pieces: &[b"*1\r\n$4\r\nPI"],
            reader_fails: false,
            writer_takes: 100,
            end: Ok(End::Inside),
            status: 2,
            written: b"",
            asked: 2,
        },
        Row {
            what: "a request may come in two pieces",
            pieces: &[b"*1\r\n$4\r\nPI", b"NG\r\n"],
            reader_fails: false,
            writer_takes: 100,
            end: Ok(End::Clean),
            status: 0,
            written: b"+PONG\r\n",
            asked: 3,
        },
        Row {
            what: "a reader that fails leaves the replies before",
            pieces: &[PING, PING],
            reader_fails: true,
            writer_takes: 100,
            end: Err(SessionFault::Read),
            status: 4,
            written: b"+PONG\r\n+PONG\r\n",
            asked: 3,
        },
        Row {
            what: "a writer that fails has the front of the replies",
            pieces: &[PING, PING],
            reader_fails: false,
            writer_takes: 10,
            end: Err(SessionFault::Write),
            status: 4,
            written: b"+PONG\r\n+PO",
            asked: 2,
        },
        Row {
            what: "the replies to a piece are written before the next is read",
            pieces: &[PING, PING],
            reader_fails: false,
            writer_takes: 3,
            end: Err(SessionFault::Write),
            status: 4,
            written: b"+PO",
            asked: 1,
        },
    ];
    for row in rows {
        let mut reader = Pieces {
            pieces: row.pieces,
            asked: 0,
            fails: row.reader_fails,
        };
        let mut writer = Narrow {
            taken: Vec::new(rt.alloc()),
            room: row.writer_takes,
        };
        let end = session(rt.alloc(), &mut Pong, &mut reader, &mut writer);
        assert_eq!(rt; end, row.end, "{}", row.what);
        assert_eq!(rt; status(&end), row.status, "{}", row.what);
        assert_eq!(rt; writer.taken.as_slice(), row.written, "{}", row.what);
        assert_eq!(rt; reader.asked, row.asked, "{}", row.what);
    }
}

#[test]
fn a_writer_that_takes_nothing_has_failed(rt: HostRuntime) {
    let mut reader = PING;
    let end = session(rt.alloc(), &mut Pong, &mut reader, &mut Full);
    assert_eq!(rt; end, Err(SessionFault::Write));
}

/// tools/refused-memory runs this too with the fifth allocation refused, which is for the second
/// request's list of words, since it has more words than the first one: the first request is
/// answered all the same.
#[test]
fn requests_before_want_of_memory_are_answered(rt: HostRuntime) {
    let mut reader = b"*1\r\n$4\r\nPING\r\n*2\r\n$4\r\nPING\r\n$1\r\na\r\n".as_slice();
    let mut written = Vec::new(rt.alloc());
    match session(rt.alloc(), &mut Pong, &mut reader, &mut written) {
        Ok(end) => {
            assert_eq!(rt; end, End::Clean);
            assert_eq!(rt; written.as_slice(), b"+PONG\r\n+PONG\r\n".as_slice());
        }
        Err(fault) => {
            assert_eq!(rt; fault, SessionFault::NoMemory);
            assert_eq!(rt; written.as_slice(), b"+PONG\r\n".as_slice());
        }
    }
}

// What is to be read, a piece a read.
#[derive(Drop)]
struct Script<'a> {
    pieces: &'a [&'a [u8]],
    asked: usize,
}

// Notes in one list what is done, in order: a `?` for each read, and the bytes that are written.
struct Desk;

impl<'a> Ends<Script<'a>, Vec<u8>> for Desk {
    ghost does = { λ _ _ _. Unit {0} };

    fn hear(
        &self,
        reader: &mut Script<'a>,
        writer: &mut Vec<u8>,
        buffer: &mut [u8],
    ) -> Result<usize, SessionFault> {
        let _ = writer.push(b'?');
        let Some(piece) = reader.pieces.get(reader.asked) else {
            return Ok(0);
        };
        reader.asked = reader.asked.saturating_add(1);
        let count = piece.len().min(buffer.len());
        buffer[..count].copy_from_slice(&piece[..count]);
        Ok(count)
    }

    fn say(
        &self,
        _reader: &mut Script<'a>,
        writer: &mut Vec<u8>,
        bytes: &[u8],
    ) -> Result<(), SessionFault> {
        let _ = writer.extend_from_slice(bytes);
        Ok(())
    }
}

#[test]
fn replies_are_written_before_the_next_read(rt: HostRuntime) {
    let mut script = Script {
        pieces: &[
            b"*1\r\n$4\r\nPING\r\n*1\r\n$4\r\nPI",
            b"NG\r\n",
            b"*1\r\n$4\r\nPING\r\n",
        ],
        asked: 0,
    };
    let mut note = Vec::new(rt.alloc());
    let end = session_over(rt.alloc(), &mut Pong, &Desk, &mut script, &mut note);
    assert_eq!(rt; end, Ok(End::Clean));
    assert_eq!(rt;
        note.as_slice(),
        b"?+PONG\r\n?+PONG\r\n?+PONG\r\n?".as_slice()
    );
}
