//! How many writes the replies to one read take.

use super::asking::{letters, push_bulk};
use std::alloc::{AllocError, Global};
use std::io;
use std::io::{ErrorKind, Write};
use std::test::Fail;
use zq_resp::{Reply, Request, Text};
use zq_session::{Answers, End, session};

/// Answers every request with this text.
#[derive(Drop)]
struct Says<'a>(&'a [u8]);

impl Answers for Says<'_> {
    ghost answers = { λ _ _ _ _. Unit {0} };

    fn answer(&mut self, alloc: Global, _request: &Request) -> Reply {
        match Text::from_slice(alloc, self.0) {
            Ok(text) => Reply::Bulk(text),
            Err(AllocError) => Reply::NullBulk,
        }
    }
}

/// Takes all that it is given, and notes how long each write was.
#[derive(Drop)]
struct Noting {
    taken: Vec<u8>,
    lengths: Vec<usize>,
}

impl Write for Noting {
    fn write(&mut self, bytes: &[u8]) -> io::Result<usize> {
        if self.lengths.push(bytes.len()).is_err() || self.taken.extend_from_slice(bytes).is_err() {
            return Err(ErrorKind::OutOfMemory.into());
        }
        Ok(bytes.len())
    }

    fn flush(&mut self) -> io::Result<()> {
        Ok(())
    }
}

/// How many requests one read gives, how many bytes the text of each reply has, and how long each
/// write is.
type Row = (usize, usize, &'static [usize]);

// A reply is the text with its length, the `$` and two line ends.
const ROWS: [Row; 8] = [
    (0, 4, &[]),
    (1, 4, &[10]),
    (2, 4, &[20]),
    (100, 4, &[1000]),
    // At 65,536 bytes and more they are written, and the rest at the end of what was read.
    (655, 93, &[65_500]),
    (700, 93, &[65_600, 4_400]),
    (2, 32_758, &[65_536]),
    (3, 70_000, &[70_010, 70_010, 70_010]),
];

/// So many PINGs.
fn pings(alloc: Global, count: usize) -> Result<Vec<u8>, Fail> {
    let mut bytes = Vec::new(alloc);
    for _ in 0..count {
        bytes.extend_from_slice(b"*1\r\n$4\r\nPING\r\n")?;
    }
    Ok(bytes)
}

/// So many bulk strings of a text.
fn bulks(alloc: Global, count: usize, text: &[u8]) -> Result<Vec<u8>, Fail> {
    let mut bytes = Vec::new(alloc);
    for _ in 0..count {
        push_bulk(alloc, &mut bytes, text)?;
    }
    Ok(bytes)
}

/// What a session over these bytes writes, which all come with one read. It answers each request
/// with the text.
fn written(alloc: Global, bytes: &[u8], text: &[u8]) -> Result<Noting, Fail> {
    let mut reader = bytes;
    let mut writer = Noting {
        taken: Vec::new(alloc),
        lengths: Vec::new(alloc),
    };
    match session(alloc, &mut Says(text), &mut reader, &mut writer) {
        Ok(End::Clean) => Ok(writer),
        _ => Err("not a clean end".into()),
    }
}

#[test]
fn replies_to_one_read_are_gathered(rt: HostRuntime) -> Result<(), Fail> {
    let alloc = rt.alloc();
    for (requests, length, lengths) in ROWS {
        let text = letters(alloc, length)?;
        let asked = pings(alloc, requests)?;
        let says = bulks(alloc, requests, &text)?;
        let noted = written(alloc, &asked, &text)?;
        assert_eq!(rt; noted.lengths.as_slice(), lengths, "{requests} requests");
        assert!(rt;
            noted.taken.as_slice() == says.as_slice(),
            "{requests} replies"
        );
    }
    Ok(())
}
