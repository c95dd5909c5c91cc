//! Requests out of a stream that comes in pieces.

ghost use Rattle.std.specs.Prelude.{◌≡◌, ◌<◌, ◌≤◌, [], IfErr, IfOk, Err, List, Ok, Some, length, take, ℕ};
ghost use Rattle.zq_resp.specs.Front.{Part};
ghost use Rattle.zq_resp.specs.Grammar.{request_at};
ghost use Rattle.zq_resp.specs.Stream.{FailsFirst, Feeds, answered, is_inside, listed};

mod line;
mod null;
mod partial;
mod progress;
mod short;
mod spent;
mod unfinished;
mod word;
mod words;

use crate::fault::{FeedError, FeedFault};
use crate::request::Request;
use progress::Progress;
use short::short_request;
use spent::Spent;
use std::alloc::Global;
use std::marker::Model;
use unfinished::{Unfinished, read_on, request_of};

/// Reads requests from a stream of bytes, in whatever pieces it comes. Between two pieces it keeps
/// the request that is not yet whole: its words that are whole, and of the word that the piece's
/// end cut the bytes so far. Beside it there is the memory of requests that were given back, and
/// nothing else.
#[derive(Drop)]
pub struct Reader {
    unfinished: Option<Unfinished>,
    spent: Spent,
}

impl Model for Reader {
    ghost use Rattle.std.specs.Prelude.{List, ℕ, Option};

    ghost Value = { Option (List ℕ) };

    ghost use Rattle.zq_resp.specs.Unfinished.{IsKept, kept};

    ghost view = { λ r. kept r.unfinished };

    ghost invariant = { λ r. IsKept r.unfinished };
}

impl Reader {
    /// A reader of a stream from its first byte on. It takes no memory.
    pub fn new() -> Self
        ensures { result ≡ Some [] }
    {
        Reader {
            unfinished: Some(Unfinished::new()),
            spent: Spent::new(),
        }
    }

    /// Whether some bytes of an unfinished request are kept.
    pub fn inside(&self) -> bool
        ensures inside { result ≡ is_inside self.now }
        ensures unfinished { (had : List ℕ) → self.now ≡ Some had → request_at had ≡ Part }
    {
        match &self.unfinished {
            Some(unfinished) => unfinished.is_begun(),
            None => false,
        }
    }

    /// Takes the next piece of the stream, and hands out the requests that end in it, in order.
    /// Requests of no words are left out.
    ///
    /// A fault comes at a byte that depends on the stream alone, and not on where the pieces are
    /// cut. The error has the requests that ended in this piece before the fault. Each later call
    /// answers `Over`.
    ///
    /// - `Protocol`: at the first byte with which the text so far begins no request.
    /// - `TooLong`: at the digit that makes a count above 65,536 or a length above 1,048,576, and
    ///   at byte 16,777,217 of a request, also where that byte would be `Protocol`.
    /// - `NoMemory`: memory was refused. The piece was read up to the request that needed it, at
    ///   least to the end of the line of its count. All requests before that one are there.
    ///
    /// Memory is taken for bytes that have come, never for a declared count or length.
    pub fn feed(&mut self, alloc: Global, piece: &[u8]) -> Result<Vec<Request>, FeedError>
        ensures { Feeds self.old piece.now (answered result) self.new }
    {
        let mut requests = Vec::new(alloc);
        let Some(unfinished) = self.unfinished.take() else {
            return Err(stopped(FeedFault::Over, requests));
        };
        match read_on(alloc, unfinished, piece, &mut self.spent, &mut requests) {
            Ok(unfinished) => {
                self.unfinished = Some(unfinished);
                Ok(requests)
            }
            Err(fault) => Err(stopped(fault, requests)),
        }
    }

    /// Takes the next piece of the stream up to the end of the first request in it, and answers
    /// that request with the number of bytes taken. `None` where they end no request, or one of no
    /// words, which is left out: then all of the piece is taken, or what follows is to be taken
    /// next.
    ///
    /// It does what [`Reader::feed`] does with the bytes taken, and at a fault, which is one of
    /// those named there, what that does with the piece. The fault is one of the first request:
    /// those before it were answered by earlier calls. Each later call answers `Over`.
    pub fn next_request(
        &mut self,
        alloc: Global,
        piece: &[u8],
    ) -> Result<(Option<Request>, usize), FeedFault>
        ensures within { IfOk result (λ found. found.1 ≤ length piece.now) }
        ensures some { IfOk result (λ found. 0 < length piece.now → 0 < found.1) }
        ensures fed { IfOk result
            (λ found. Feeds self.old (take found.1 piece.now) (Ok (listed found.0)) self.new) }
        ensures ended { IfOk result (λ found. found.1 < length piece.now → self.new ≡ Some []) }
        ensures fault { IfErr result (λ why. Feeds self.old piece.now (Err (why, [])) self.new) }
        ensures first { IfErr result (λ why. FailsFirst self.old piece.now why) }
    {
        let Some(unfinished) = &self.unfinished else {
            return Err(FeedFault::Over);
        };
        if unfinished.is_begun() {
            return self.next_by_parts(alloc, piece);
        }
        match short_request(alloc, piece, &mut self.spent) {
            Ok(Some((words, taken))) => Ok((request_of(words), taken)),
            Ok(None) => self.next_by_parts(alloc, piece),
            Err(fault) => {
                self.unfinished = None;
                Err(fault)
            }
        }
    }

    /// The same, part by part.
    fn next_by_parts(
        &mut self,
        alloc: Global,
        piece: &[u8],
    ) -> Result<(Option<Request>, usize), FeedFault>
        ensures within { IfOk result (λ found. found.1 ≤ length piece.now) }
        ensures some { IfOk result (λ found. 0 < length piece.now → 0 < found.1) }
        ensures fed { IfOk result
            (λ found. Feeds self.old (take found.1 piece.now) (Ok (listed found.0)) self.new) }
        ensures ended { IfOk result (λ found. found.1 < length piece.now → self.new ≡ Some []) }
        ensures fault { IfErr result (λ why. Feeds self.old piece.now (Err (why, [])) self.new) }
        ensures first { IfErr result (λ why. FailsFirst self.old piece.now why) }
    {
        let Some(unfinished) = self.unfinished.take() else {
            return Err(FeedFault::Over);
        };
        if piece.is_empty() {
            self.unfinished = Some(unfinished);
            return Ok((None, 0));
        }
        let (progress, taken) = unfinished.read(alloc, piece)?;
        match progress {
            Progress::More(unfinished) => {
                self.unfinished = Some(unfinished);
                Ok((None, taken))
            }
            Progress::Whole(words) => {
                self.unfinished = Some(Unfinished::new());
                Ok((request_of(words), taken))
            }
        }
    }

    /// Takes a request back of which nothing is needed any more, for its memory: a later one of as
    /// many words is put into it.
    ///
    /// One is kept for each number of words up to nine, where its list has at most 16 places and
    /// each word at most 128 bytes of memory. So a reader keeps at most 9,216 bytes of it. All else
    /// is given back.
    #[inline(always)]
    pub fn give_back(&mut self, request: Request)
        ensures { self.new ≡ self.old }
    {
        self.spent.keep(request);
    }
}

/// The fault, with the requests that ended before it: all that were found.
fn stopped(fault: FeedFault, requests: Vec<Request>) -> FeedError
    ensures fault { result.fault ≡ fault }
    ensures before { result.before.items ≡ requests.items }
{
    FeedError {
        fault,
        before: requests,
    }
}
