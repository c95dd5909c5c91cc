//! A reader of frames.
ghost use Rattle.std.specs.Prelude.{◌≡◌, ◌≤◌, ◌++◌, [], Err, IfErr, IfOk, IfSome, OnErr, OnOk, Some, length};
ghost use Rattle.zq_wire.specs.Framed.{IsTooLong, framed};
ghost use Rattle.zq_wire.specs.Memory.{AsksMemory, ReaderAsks};
ghost use Rattle.zq_wire.specs.Stream.{Feeds, answered, frames_in, is_inside};
ghost use Rattle.zq_wire.specs.Unfinished.{PieceGives, Stands, text_so_far};

use crate::fault::{StreamError, StreamFault};
use crate::front::whole_front;
use crate::unfinished::{Progress, Unfinished};
use std::alloc::Global;
use std::marker::Model;

/// Reads frames from a stream of bytes, in whatever pieces it comes. Between two pieces it keeps
/// the bytes that have come of the frame that is not yet whole, and nothing else.
#[derive(Drop)]
pub struct Reader {
    most: u32,
    unfinished: Option<Unfinished>,
}

impl Model for Reader {
    ghost use Rattle.zq_wire.specs.Stream.{Reading};

    ghost Value = { Reading };

    ghost use Rattle.zq_wire.specs.Unfinished.{IsKept, reading_of};

    ghost view = { reading_of };

    ghost invariant = { IsKept };
}

impl Reader {
    /// A reader of a stream from its first byte on, of frames of at most this many bytes. It takes
    /// no memory.
    pub fn new(alloc: Global, most: u32) -> Reader
        ensures most { result.most ≡ most }
        ensures nothing { result.had ≡ Some [] }
    {
        Reader {
            most,
            unfinished: Some(Unfinished::new(alloc)),
        }
    }

    /// Whether some bytes of an unfinished frame are kept.
    pub fn inside(&self) -> bool
        ensures { result ≡ is_inside self.now.had }
    {
        match &self.unfinished {
            Some(unfinished) => unfinished.is_begun(),
            None => false,
        }
    }

    /// Takes the next piece of the stream, and hands out the frames that end in it, in order.
    ///
    /// The error has the frames that ended in this piece before the fault. Each later call answers
    /// `Over`.
    ///
    /// - `TooLong`: a length is above the most.
    /// - `NoMemory`: memory was refused. The piece was read up to the frame that needed it.
    ///
    /// Memory is taken for bytes that have come, never for a length: a piece of no bytes takes
    /// none, nor do bytes that begin with a length above the most where nothing of a frame is kept.
    pub fn feed(&mut self, alloc: Global, piece: &[u8]) -> Result<Vec<Vec<u8>>, StreamError>
        ensures most { self.new.most ≡ self.old.most }
        ensures feeds { Feeds self.old.most self.old.had piece.now (answered result) self.new.had }
        ensures memory { IfErr result (λ e. e.fault ≡ StreamFault.NoMemory →
            ReaderAsks self.old.most self.old.had piece.now (frames_in e.before)) }
    {
        let mut frames = Vec::new(alloc);
        let Some(unfinished) = self.unfinished.take() else {
            return Err(StreamError {
                fault: StreamFault::Over,
                before: frames,
            });
        };
        match read_on(alloc, self.most, unfinished, piece, &mut frames) {
            Ok(unfinished) => {
                self.unfinished = Some(unfinished);
                Ok(frames)
            }
            Err(fault) => Err(StreamError {
                fault,
                before: frames,
            }),
        }
    }
}

/// The frame that stands whole at the front, and the bytes after it. `None` where it is not all
/// there, or some bytes of a frame are kept before them. `TooLong` where none are, and the length
/// is above the most.
fn whole_next<'a>(
    most: u32,
    unfinished: &Unfinished,
    bytes: &'a [u8],
) -> Result<Option<(&'a [u8], &'a [u8])>, StreamFault>
    ensures none { IfOk result (λ found. IfSome found (λ _. text_so_far unfinished.now ≡ [])) }
    ensures spelled { IfOk result
        (λ found. IfSome found (λ x. bytes.now ≡ framed x.0.now ++ x.1.now)) }
    ensures small { IfOk result (λ found. IfSome found (λ x. length x.0.now ≤ most)) }
    ensures fault { IfErr result (λ e. e ≡ StreamFault.TooLong) }
    ensures long { OnErr result (text_so_far unfinished.now ≡ []) }
    ensures begins { OnErr result (IsTooLong most bytes.now) }
    ensures within { OnOk result (text_so_far unfinished.now ≡ [] → IsTooLong most bytes.now → ⊥) }
{
    if unfinished.is_begun() {
        return Ok(None);
    }
    whole_front(most, bytes)
}

/// Reads a piece. Adds the frames that end in it, and answers the one that does not end in it. A
/// frame that stands whole in the piece is copied from it at once.
fn read_on(
    alloc: Global,
    most: u32,
    unfinished: Unfinished,
    piece: &[u8],
    frames: &mut Vec<Vec<u8>>,
) -> Result<Unfinished, StreamFault>
    requires stands { Stands most unfinished }
    requires none { frames.old.items ≡ [] }
    ensures gives { PieceGives most (text_so_far unfinished ++ piece.now) result
        (frames_in frames.new) }
    ensures memory { IfErr result (λ e. e ≡ StreamFault.NoMemory →
        AsksMemory most (text_so_far unfinished) piece.now (frames_in frames.new)) }
{
    let mut unfinished = unfinished;
    let mut rest = piece;
    while !rest.is_empty() {
        if let Some((frame, after)) = whole_next(most, &unfinished, rest)? {
            frames.push(Vec::from_slice(alloc, frame)?)?;
            rest = after;
            continue;
        }
        let (progress, taken) = unfinished.read(alloc, most, rest)?;
        rest = &rest[taken..];
        unfinished = match progress {
            Progress::More(more) => more,
            Progress::Whole(frame) => {
                frames.push(frame)?;
                Unfinished::new(alloc)
            }
        };
    }
    Ok(unfinished)
}
