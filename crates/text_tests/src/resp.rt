//! Pieces, faults at their bytes, and what is done with memory.

mod reply;

use std::alloc::Global;
use std::test::Fail;
use zq_resp::{FeedFault, Reader, Request};

fn is_words(request: &Request, words: &[&[u8]]) -> bool {
    let own = request.words();
    own.len() == words.len() && own.iter().zip(words).all(|(a, b)| a.as_slice() == *b)
}

/// What a piece is answered: the fault, and how many requests came.
fn answer(reader: &mut Reader, alloc: Global, piece: &[u8]) -> (Option<FeedFault>, usize) {
    match reader.feed(alloc, piece) {
        Ok(requests) => (None, requests.len()),
        Err(error) => (Some(error.fault), error.before.len()),
    }
}

#[test]
fn requests_end_before_a_fault(rt: HostRuntime) -> Result<(), Fail> {
    let mut reader = Reader::new();
    match reader.feed(rt.alloc(), b"*0\r\n*1\r\n$4\r\nPING\r\n*01\r\n") {
        Ok(_) => assert!(rt; false, "a count is read with a leading zero"),
        Err(error) => {
            assert_eq!(rt; error.fault, FeedFault::Protocol);
            assert_eq!(rt; error.before.len(), 1);
            assert!(rt; is_words(&error.before[0], &[b"PING"]));
        }
    }
    match reader.feed(rt.alloc(), b"*1\r\n$4\r\nPING\r\n") {
        Ok(_) => assert!(rt; false, "a reader goes on after a fault"),
        Err(error) => {
            assert_eq!(rt; error.fault, FeedFault::Over);
            assert_eq!(rt; error.before.len(), 0);
        }
    }
    Ok(())
}

#[test]
fn faults_come_at_their_byte(rt: HostRuntime) {
    let cases: [(&[u8], Option<FeedFault>); 11] = [
        (b"*6553", None),
        (b"*65536", None),
        (b"*65537", Some(FeedFault::TooLong)),
        (b"*1\r\n$1048576\r\n", None),
        (b"*1\r\n$1048577", Some(FeedFault::TooLong)),
        (b"*-1\r\n*-1\r", None),
        (b"*-2", Some(FeedFault::Protocol)),
        (b"PING\r\n", Some(FeedFault::Protocol)),
        (b"*1\r\n$4\r\nPING\n", Some(FeedFault::Protocol)),
        (b"*1\r\n$-1\r\n", Some(FeedFault::Protocol)),
        (b"*1\r\n$00\r\n", Some(FeedFault::Protocol)),
    ];
    for (bytes, fault) in cases {
        let mut reader = Reader::new();
        assert_eq!(rt;
            answer(&mut reader, rt.alloc(), bytes),
            (fault, 0),
            "{bytes:?}"
        );
    }
}

// One request twice, of 35 bytes each.
const TWICE: &[u8] =
    b"*4\r\n$4\r\nZADD\r\n$1\r\nq\r\n$1\r\n3\r\n$1\r\na\r\n*4\r\n$4\r\nZADD\r\n$1\r\nq\r\n$1\r\n3\r\n$1\r\na\r\n";

const WORDS: [&[u8]; 4] = [b"ZADD", b"q", b"3", b"a"];

#[test]
fn one_piece_gives_both_requests(rt: HostRuntime) -> Result<(), Fail> {
    let mut reader = Reader::new();
    let requests = reader.feed(rt.alloc(), TWICE).map_err(|e| e.fault)?;
    assert_eq!(rt; requests.len(), 2);
    assert!(rt; requests.iter().all(|request| is_words(request, &WORDS)));
    assert!(rt; !reader.inside());
    Ok(())
}

#[test]
fn bytes_one_by_one_give_the_same_requests(rt: HostRuntime) -> Result<(), Fail> {
    let mut reader = Reader::new();
    for (at, byte) in TWICE.iter().enumerate() {
        let requests = reader.feed(rt.alloc(), &[*byte]).map_err(|e| e.fault)?;
        let ends = at == 34 || at == 69;
        assert_eq!(rt; requests.len(), usize::from(ends));
        assert!(rt; requests.iter().all(|request| is_words(request, &WORDS)));
        assert_eq!(rt; reader.inside(), !ends);
    }
    Ok(())
}

#[test]
fn a_request_is_its_words(rt: HostRuntime) -> Result<(), Fail> {
    let mut words = Vec::new(rt.alloc());
    words.push(Vec::from_slice(rt.alloc(), b"PING")?)?;
    let request = Request::new(words);
    assert!(rt; is_words(&request, &[b"PING"]));
    assert_eq!(rt; request.into_words().len(), 1);
    Ok(())
}

/// Sixteen words of 1,048,576 bytes are within the limits of a word, and too much for one request:
/// 5 bytes of count and 15 times 1,048,588 bytes leave 1,048,391 for the last word.
#[test]
fn byte_16777217_of_a_request_is_too_long(rt: HostRuntime) -> Result<(), Fail> {
    let mut word = Vec::from_slice(rt.alloc(), b"$1048576\r\n")?;
    word.resize(1_048_586, b'x')?;
    word.extend_from_slice(b"\r\n")?;
    let within = word.get(..1_048_391).ok_or("a short word")?;
    let past = word.get(1_048_391..).ok_or("a short word")?;
    let mut reader = Reader::new();
    assert_eq!(rt; answer(&mut reader, rt.alloc(), b"*16\r\n"), (None, 0));
    for _ in 0..15 {
        assert_eq!(rt; answer(&mut reader, rt.alloc(), &word), (None, 0));
    }
    assert_eq!(rt; answer(&mut reader, rt.alloc(), within), (None, 0));
    assert_eq!(rt;
        answer(&mut reader, rt.alloc(), past),
        (Some(FeedFault::TooLong), 0)
    );
    Ok(())
}

/// tools/refused-memory runs the next three too, with one allocation refused. This one with the
/// first of all: it must pass, since a count and a length take no memory.
#[test]
fn a_declared_count_takes_no_memory(rt: HostRuntime) -> Result<(), Fail> {
    let mut reader = Reader::new();
    assert!(rt; !reader.inside());
    let requests = reader
        .feed(rt.alloc(), b"*65536\r\n$1048576\r\n")
        .map_err(|e| e.fault)?;
    assert_eq!(rt; requests.len(), 0);
    assert!(rt; reader.inside());
    Ok(())
}

/// This one with the fourth: it must fail, since a word takes memory again and again as its bytes
/// come. It would pass if the whole length were reserved at the first byte.
#[test]
fn a_declared_length_takes_memory_as_bytes_come(rt: HostRuntime) {
    let mut reader = Reader::new();
    let first = answer(&mut reader, rt.alloc(), b"*1\r\n$1048576\r\nx");
    assert_eq!(rt; first, (None, 0));
    for _ in 0..8 {
        let more = answer(&mut reader, rt.alloc(), &[b'x'; 4096]);
        assert_eq!(rt; more, (None, 0));
    }
}

/// This one with the fourth, which is for the second request's word: the first request is handed
/// out all the same.
#[test]
fn requests_before_want_of_memory_are_handed_out(rt: HostRuntime) {
    let mut reader = Reader::new();
    match reader.feed(rt.alloc(), b"*1\r\n$4\r\nPING\r\n*1\r\n$4\r\nQUIT\r\n") {
        Ok(requests) => assert_eq!(rt; requests.len(), 2),
        Err(error) => {
            assert_eq!(rt; error.fault, FeedFault::NoMemory);
            assert_eq!(rt; error.before.len(), 1);
            assert!(rt; is_words(&error.before[0], &[b"PING"]));
        }
    }
}

/// A step of a stream: a piece, and the words of the requests that end in it, request by request.
struct Round {
    piece: &'static [u8],
    requests: &'static [&'static [&'static [u8]]],
}

/// Each request is given back before the next one is read: its memory is used again, and its bytes
/// are not.
const ROUNDS: [Round; 5] = [
    Round {
        piece: b"*4\r\n$4\r\nZADD\r\n$5\r\nboard\r\n$3\r\n100\r\n$12\r\nabcdefghijkl\r\n*1\r\n$4\r\nPING\r\n",
        requests: &[&[b"ZADD", b"board", b"100", b"abcdefghijkl"], &[b"PING"]],
    },
    Round {
        piece: b"*2\r\n$5\r\nZCARD\r\n$1\r\nq\r\n*3\r\n$6\r\nZSCORE\r\n$0\r\n\r\n$1\r\na\r\n*0\r\n*1\r\n$1\r\nx\r\n",
        requests: &[&[b"ZCARD", b"q"], &[b"ZSCORE", b"", b"a"], &[b"x"]],
    },
    Round {
        piece: b"*4\r\n$4\r\nZADD\r\n$10\r\nbbbbbbbbbb\r\n$1\r\n7\r\n$2\r\n\r\n\r\n*2\r\n$5\r\nZCARD\r\n$2\r\nq",
        requests: &[&[b"ZADD", b"bbbbbbbbbb", b"7", b"\r\n"]],
    },
    Round {
        piece: b"r\r\n*1\r\n$4\r\nPING\r\n",
        requests: &[&[b"ZCARD", b"qr"], &[b"PING"]],
    },
    Round {
        piece: b"*1\r\n$2\r\nab\r\n*3\r\n$1\r\nc\r\n$1\r\nd\r\n$1\r\ne\r\n",
        requests: &[&[b"ab"], &[b"c", b"d", b"e"]],
    },
];

/// Whether the round's piece brings its requests, in their order, and no others.
fn brings(alloc: Global, reader: &mut Reader, round: &Round) -> Result<bool, Fail> {
    let mut rest = round.piece;
    let mut wanted = round.requests.iter();
    for _turn in 0..round.piece.len() {
        if rest.is_empty() {
            break;
        }
        let (found, taken) = reader.next_request(alloc, rest)?;
        rest = &rest[taken..];
        if let Some(request) = found {
            let is_wanted = match wanted.next() {
                Some(words) => is_words(&request, words),
                None => false,
            };
            reader.give_back(request);
            if !is_wanted {
                return Ok(false);
            }
        }
    }
    Ok(rest.is_empty() && wanted.next().is_none())
}

#[test]
fn requests_in_spent_memory_are_as_they_were_sent(rt: HostRuntime) -> Result<(), Fail> {
    let mut reader = Reader::new();
    for round in &ROUNDS {
        assert!(rt; brings(rt.alloc(), &mut reader, round)?);
    }
    assert!(rt; !reader.inside());
    Ok(())
}

#[test]
fn a_request_takes_the_bytes_up_to_its_end(rt: HostRuntime) -> Result<(), Fail> {
    let cases: [(&[u8], Option<&[&[u8]]>, usize); 6] = [
        (
            b"*1\r\n$4\r\nPING\r\n*1\r\n$4\r\nQUIT\r\n",
            Some(&[b"PING"]),
            14,
        ),
        (b"*0\r\n*1\r\n$4\r\nPING\r\n", None, 4),
        (b"*-1\r\n", None, 5),
        (b"", None, 0),
        (b"*2\r\n$5\r\nZCA", None, 11),
        (b"RD\r\n$1\r\nq\r\n*1", Some(&[b"ZCARD", b"q"]), 11),
    ];
    let mut reader = Reader::new();
    for (piece, words, bytes) in cases {
        let (found, taken) = reader.next_request(rt.alloc(), piece)?;
        assert_eq!(rt; taken, bytes);
        match (&found, words) {
            (Some(request), Some(words)) => assert!(rt; is_words(request, words)),
            (None, None) => {}
            _ => assert!(rt; false, "a request is there, or is not"),
        }
    }
    Ok(())
}

#[test]
fn no_request_follows_a_fault(rt: HostRuntime) {
    let mut reader = Reader::new();
    for fault in [FeedFault::Protocol, FeedFault::Over, FeedFault::Over] {
        match reader.next_request(rt.alloc(), b"*1\n") {
            Ok(_) => assert!(rt; false, "a line ends without CR"),
            Err(why) => assert_eq!(rt; why, fault),
        }
    }
}
