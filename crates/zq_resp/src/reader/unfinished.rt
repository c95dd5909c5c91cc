//! A request that is not whole yet, with its size, and the requests that a piece ends.

ghost use Rattle.std.specs.Prelude.{◌≡◌, ◌≢◌, ◌<◌, ◌++◌, ◌∷◌, [], length, Some, IfOk, OnOk, OnErr, IfErr};
ghost use Rattle.zq_resp.specs.Request.{AreWords};
ghost use Rattle.zq_resp.specs.Suspended.{IsStep, views};
ghost use Rattle.zq_resp.specs.Partial.{text_so_far};
ghost use Rattle.zq_resp.specs.Unfinished.{PieceGives, Stands, UnfinishedStep};
ghost use Rattle.zq_resp.specs.Stream.{HasCount, handed, is_inside, listed};

use crate::fault::FeedFault;
use crate::reader::partial::Partial;
use crate::reader::progress::Progress;
use crate::reader::short::short_request;
use crate::reader::spent::Spent;
use crate::request::Request;
use std::alloc::Global;

const LONGEST_REQUEST: usize = 16_777_216;

/// A request, as far as it has been read, and how many bytes that is: at most the limit of a
/// request.
#[derive(Drop)]
pub struct Unfinished {
    pub partial: Partial,
    pub size: usize,
}

impl Unfinished {
    /// Nothing.
    pub fn new() -> Self
        ensures begun { text_so_far result.partial ≡ [] }
        ensures stands { Stands result }
    {
        Unfinished {
            partial: Partial::Start,
            size: 0,
        }
    }

    /// Whether a byte of it has come.
    pub fn is_begun(&self) -> bool
        requires { Stands self.now }
        ensures { result ≡ is_inside (Some (text_so_far self.now.partial)) }
    {
        self.size > 0
    }

    /// Reads on until the request ends or the bytes do, and answers how many bytes that took. The
    /// first byte past the limit of a request is answered `TooLong`.
    pub fn read(
        self,
        alloc: Global,
        bytes: &[u8],
    ) -> Result<(Progress<Unfinished, Vec<Vec<u8>>>, usize), FeedFault>
        requires some { 0 < length bytes.now }
        requires stands { Stands self }
        ensures taken { IfOk result (IsStep bytes.now) }
        ensures step { UnfinishedStep self bytes.now result }
        ensures memory { IfErr result (λ e. e ≡ FeedFault.NoMemory →
            HasCount (text_so_far self.partial ++ bytes.now)) }
    {
        let near = bytes.len().min(LONGEST_REQUEST - self.size);
        let (progress, taken) = self.partial.read(alloc, &bytes[..near])?;
        match progress {
            Progress::Whole(words) => Ok((Progress::Whole(words), taken)),
            Progress::More(partial) => {
                if near < bytes.len() {
                    return Err(FeedFault::TooLong);
                }
                let size = self.size + near;
                Ok((Progress::More(Unfinished { partial, size }), near))
            }
        }
    }
}

/// Reads a piece. Adds the requests that end in it, and answers the one that does not end in it. A
/// short request that stands whole in the piece is read at once.
pub fn read_on(
    alloc: Global,
    unfinished: Unfinished,
    piece: &[u8],
    spent: &mut Spent,
    requests: &mut Vec<Request>,
) -> Result<Unfinished, FeedFault>
    requires { Stands unfinished }
    ensures { PieceGives result (text_so_far unfinished.partial ++ piece.now) requests.old.items
        requests.new.items }
{
    let mut unfinished = unfinished;
    let mut rest = piece;
    while !rest.is_empty() {
        if !unfinished.is_begun() {
            if let Some((short, taken)) = short_request(alloc, rest, spent)? {
                rest = &rest[taken..];
                hand_out(requests, short)?;
                continue;
            }
        }
        let (progress, taken) = unfinished.read(alloc, rest)?;
        rest = &rest[taken..];
        unfinished = match progress {
            Progress::More(more) => more,
            Progress::Whole(words) => {
                hand_out(requests, words)?;
                Unfinished::new()
            }
        };
    }
    Ok(unfinished)
}

/// Adds a request of these words, unless there are none.
fn hand_out(requests: &mut Vec<Request>, words: Vec<Vec<u8>>) -> Result<(), FeedFault>
    requires { AreWords (views words) }
    ensures ok { OnOk result
        (requests.new.items ≡ requests.old.items ++ handed (views words ∷ [])) }
    ensures err { OnErr result (requests.new.items ≡ requests.old.items) }
    ensures memory { IfErr result (λ e. (e ≡ FeedFault.NoMemory) × (views words ≢ [])) }
{
    if let Some(request) = request_of(words) {
        requests.push(request)?;
    }
    Ok(())
}

/// A request of these words, unless there are none.
#[inline(always)]
pub fn request_of(words: Vec<Vec<u8>>) -> Option<Request>
    requires { AreWords (views words) }
    ensures { listed result ≡ handed (views words ∷ []) }
{
    if words.is_empty() {
        return None;
    }
    Some(Request::new(words))
}
