//! Sessions with a site over readers and writers that cut a stream anywhere, and fail anywhere.
ghost use Rattle.zq_spread.specs.Passes.{IsPassOf};

use crate::ended::Ended;
use crate::sites::{last_pass, opened_with};
use crate::streams::{MOST_TAKEN, Pieces, Taken};
use std::alloc::Global;
use std::sync::Wait;
use zq_dots::SiteNo;
use zq_session::{End, Passing, SessionFault, SitePass, session};
use zq_spread::{Draws, Pass, Site};

/// So many bytes of a stream are answered by so many bytes in all.
#[derive(Clone, Copy)]
struct Mark {
    read: usize,
    written: usize,
}

/// A stream, what a site that has done nothing writes for it, and how its session ends. `breaks` is
/// after how many bytes it breaks the protocol.
struct Stream {
    bytes: &'static [u8],
    owed: &'static [u8],
    marks: &'static [Mark],
    end: End,
    breaks: usize,
}

const STREAMS: [Stream; 3] = [
    Stream {
        bytes: b"*4\r\n$4\r\nZADD\r\n$1\r\nq\r\n$1\r\n3\r\n$1\r\na\r\n*4\r\n$4\r\nZADD\r\n$1\r\nq\r\n$1\r\n3\r\n$1\r\na\r\n",
        owed: b":1\r\n:0\r\n",
        marks: &[
            Mark {
                read: 35,
                written: 4,
            },
            Mark {
                read: 70,
                written: 8,
            },
        ],
        end: End::Clean,
        breaks: usize::MAX,
    },
    Stream {
        bytes: b"*0\r\n*1\r\n$4\r\nPING\r\n*01\r\n",
        owed: b"+PONG\r\n-ERR Protocol error\r\n",
        marks: &[
            Mark {
                read: 18,
                written: 7,
            },
            Mark {
                read: 21,
                written: 28,
            },
        ],
        end: End::Protocol,
        breaks: 21,
    },
    Stream {
        bytes: b"*1\r\n$4\r\nPI",
        owed: b"",
        marks: &[],
        end: End::Inside,
        breaks: usize::MAX,
    },
];

impl Stream {
    /// What is owed for so many bytes of it.
    fn owed_for(&self, read: usize) -> &'static [u8] {
        let mut written = 0;
        for mark in self.marks {
            if mark.read <= read {
                written = mark.written;
            }
        }
        &self.owed[..written.min(self.owed.len())]
    }
}

/// What is tried.
#[derive(Clone, Copy)]
pub enum Trial {
    /// The stream comes in two pieces, cut at each byte in turn.
    Cuts,
    /// The stream comes byte by byte, and each read in turn fails.
    Reads,
    /// What is written is taken byte by byte, and each write in turn fails.
    Writes,
}

/// A session that is tried: its reader, what its writer takes and where that fails, how it has to
/// end, and what it has to write.
struct Attempt<'a> {
    reader: Pieces<'a>,
    most: usize,
    fails: usize,
    end: Result<End, SessionFault>,
    owed: &'a [u8],
}

/// A session over the stream, cut at this byte.
fn cut_at(stream: &Stream, at: usize) -> Attempt<'_> {
    let at = at.min(stream.bytes.len());
    Attempt {
        reader: Pieces::whole(&stream.bytes[..at], &stream.bytes[at..]),
        most: usize::MAX,
        fails: usize::MAX,
        end: Ok(stream.end),
        owed: stream.owed,
    }
}

/// A session of which this read, of a byte each, fails.
fn read_fails(stream: &Stream, fails: usize) -> Attempt<'_> {
    let end = if stream.breaks <= fails {
        Ok(End::Protocol)
    } else {
        Err(SessionFault::Read)
    };
    Attempt {
        reader: Pieces {
            first: stream.bytes,
            second: b"",
            most: 1,
            fails,
            reads: 0,
        },
        most: usize::MAX,
        fails: usize::MAX,
        end,
        owed: stream.owed_for(fails),
    }
}

/// A session of which this write, of a byte each, fails.
fn write_fails(stream: &Stream, fails: usize) -> Attempt<'_> {
    let end = if fails < stream.owed.len() {
        Err(SessionFault::Write)
    } else {
        Ok(stream.end)
    };
    Attempt {
        reader: Pieces::whole(stream.bytes, b""),
        most: 1,
        fails,
        end,
        owed: &stream.owed[..fails.min(stream.owed.len())],
    }
}

impl Trial {
    /// How often it is tried over a stream.
    fn most(self, stream: &Stream) -> usize {
        match self {
            Trial::Cuts => stream.bytes.len(),
            Trial::Reads => stream.bytes.len().saturating_add(1),
            Trial::Writes => stream.owed.len().saturating_add(1),
        }
    }

    /// The session that is tried at this place.
    fn attempt(self, stream: &Stream, at: usize) -> Attempt<'_> {
        match self {
            Trial::Cuts => cut_at(stream, at),
            Trial::Reads => read_fails(stream, at),
            Trial::Writes => write_fails(stream, at),
        }
    }
}

/// How a session with the site ends.
fn held_at<R: Wait>(
    rt: &R,
    alloc: Global,
    site: &Site,
    pass: Pass,
    reader: &mut Pieces,
    writer: &mut Taken,
) -> Result<End, SessionFault>
    requires { IsPassOf site.now pass }
{
    let mut own = SitePass::new(site, pass);
    let mut server = Passing::new(rt, &mut own, Draws::new(1));
    session(alloc, &mut server, reader, writer)
}

/// How a session with a new site ends.
fn held<R: Wait>(
    rt: &R,
    alloc: Global,
    reader: &mut Pieces,
    writer: &mut Taken,
) -> Option<Result<End, SessionFault>> {
    let (site, mut passes) = opened_with(alloc, SiteNo::new(0)?, 1)?;
    let pass = last_pass(&site, &mut passes)?;
    Some(held_at(rt, alloc, &site, pass, reader, writer))
}

/// Whether the session goes as it is owed, `None` where memory was refused.
fn is_owed<R: Wait>(rt: &R, alloc: Global, attempt: Attempt) -> Option<bool> {
    let Attempt {
        mut reader,
        most,
        fails,
        end,
        owed,
    } = attempt;
    let mut bytes = Vec::with_capacity(alloc, MOST_TAKEN).ok()?;
    let mut writer = Taken {
        bytes: &mut bytes,
        most,
        fails,
        writes: 0,
    };
    let ended = held(rt, alloc, &mut reader, &mut writer)?;
    Some(ended == end && bytes.as_slice() == owed)
}

/// How many tries of a stream go as they are owed, and whether all do: nothing more is tried after
/// one that does not. `None` where memory was refused.
fn tried<R: Wait>(rt: &R, alloc: Global, stream: &Stream, trial: Trial) -> Option<(usize, bool)> {
    let most = trial.most(stream);
    for at in 0..most {
        if !is_owed(rt, alloc, trial.attempt(stream, at))? {
            return Some((at, false));
        }
    }
    Some((most, true))
}

/// Tries each stream.
pub fn devices<R: Wait>(rt: &R, alloc: Global, trial: Trial) -> Option<Ended> {
    let mut count = 0usize;
    for stream in &STREAMS {
        let (tries, are_owed) = tried(rt, alloc, stream, trial)?;
        if !are_owed {
            return Some(Ended::Wrong);
        }
        count = count.saturating_add(tries);
    }
    Some(Ended::Owed(count))
}
