//! A word that is not whole yet.

ghost use Rattle.std.specs.Prelude.{◌≡◌, ◌<◌, ℕ, List, [], ◌∷◌, ◌++◌, length, IfOk, IfErr};
ghost use Rattle.zq_resp.specs.declared.reader.word.Word.TheVariants as word;
ghost use Rattle.zq_resp.specs.Suspended.{Fails, Goes, IsStep};
ghost use Rattle.zq_resp.specs.Line.{IsLine};
ghost use Rattle.zq_resp.specs.Word.{IsPart, WordStep, part_text, part_resume};

use crate::fault::FeedFault;
use crate::reader::line::Line;
use crate::reader::progress::Progress;
use crate::reader::short::short_word;
use bytes::BytesMut;
use std::alloc::{AllocError, Global};

const LONGEST_WORD: usize = 1_048_576;

/// A word, as far as it has been read: `$`, its length on a line, its bytes, CR LF.
#[derive(Drop)]
pub enum Word {
    /// Nothing.
    Start,
    /// `$`, and this much of the length's line.
    Length(Line),
    /// The length's line.
    Sized(usize),
    /// The length's line, and those of the bytes that earlier pieces had: the first of them, or
    /// all.
    Cut(Box<BytesMut>, usize),
    /// The bytes, and CR.
    Ended(Vec<u8>),
}

impl Word {
    /// Reads on, and answers how many bytes that took: one at least.
    pub fn step(
        self,
        alloc: Global,
        bytes: &[u8],
    ) -> Result<(Progress<Word, Vec<u8>>, usize), FeedFault>
        requires some { 0 < length bytes.now }
        requires is { IsPart self }
        ensures taken { IfOk result (IsStep bytes.now) }
        ensures step { WordStep self bytes.now result }
    {
        match self {
            Word::Start => start(alloc, bytes),
            Word::Length(line) => Ok((Progress::More(sized(line, bytes[0])?), 1)),
            Word::Sized(size) => body(alloc, size, bytes),
            Word::Cut(begun, size) => fill(alloc, begun, size, bytes),
            Word::Ended(word) => {
                if bytes[0] != b'\n' {
                    return Err(FeedFault::Protocol);
                }
                Ok((Progress::Whole(word), 1))
            }
        }
    }
}

/// A short word is read at once where it is all there; otherwise its first byte is read.
fn start(alloc: Global, bytes: &[u8]) -> Result<(Progress<Word, Vec<u8>>, usize), FeedFault>
    requires { 0 < length bytes.now }
    ensures taken { IfOk result (IsStep bytes.now) }
    ensures step { WordStep word.Start bytes.now result }
{
    if let Some((word, taken)) = short_word(bytes) {
        return Ok((Progress::Whole(Vec::from_slice(alloc, word)?), taken));
    }
    if bytes[0] != b'$' {
        return Err(FeedFault::Protocol);
    }
    Ok((Progress::More(Word::Length(Line::Start)), 1))
}

fn sized(line: Line, byte: u8) -> Result<Word, FeedFault>
    requires { IsLine 1048576 line }
    ensures ok { IfOk result (λ w. IsPart w
        × Goes part_text part_resume (word.Length line) w (byte ∷ [])) }
    ensures err { IfErr result (λ e. (more : List ℕ) →
        Fails e (part_resume (word.Length line) (byte ∷ more))) }
{
    match line.step(LONGEST_WORD, byte)? {
        Progress::More(line) => Ok(Word::Length(line)),
        Progress::Whole(length) => Ok(Word::Sized(length)),
    }
}

/// A word's bytes and CR. Where they are all there they are copied once, from the piece. Where the
/// piece ends before the CR, what there is of the bytes goes to a buffer. It makes room for what
/// has come, never for the declared length.
fn body(
    alloc: Global,
    size: usize,
    bytes: &[u8],
) -> Result<(Progress<Word, Vec<u8>>, usize), FeedFault>
    requires some { 0 < length bytes.now }
    requires is { IsPart (word.Sized size) }
    ensures taken { IfOk result (IsStep bytes.now) }
    ensures step { WordStep (word.Sized size) bytes.now result }
{
    if bytes.len() <= size {
        let begun = Box::new(alloc, BytesMut::copy_from_slice(alloc, bytes)?)?;
        return Ok((Progress::More(Word::Cut(begun, size)), bytes.len()));
    }
    if bytes[size] != b'\r' {
        return Err(FeedFault::Protocol);
    }
    let word = Vec::from_slice(alloc, &bytes[..size])?;
    Ok((Progress::More(Word::Ended(word)), size + 1))
}

/// The bytes that are missing behind those of the buffer, and CR.
fn fill(
    alloc: Global,
    begun: Box<BytesMut>,
    size: usize,
    bytes: &[u8],
) -> Result<(Progress<Word, Vec<u8>>, usize), FeedFault>
    requires some { 0 < length bytes.now }
    requires is { IsPart (word.Cut begun size) }
    ensures taken { IfOk result (IsStep bytes.now) }
    ensures step { WordStep (word.Cut begun size) bytes.now result }
{
    let missing = size - begun.len();
    if bytes.len() <= missing {
        let mut begun = begun;
        begun.extend_from_slice(bytes)?;
        return Ok((Progress::More(Word::Cut(begun, size)), bytes.len()));
    }
    if bytes[missing] != b'\r' {
        return Err(FeedFault::Protocol);
    }
    let word = join(alloc, begun.as_slice(), &bytes[..missing])?;
    Ok((Progress::More(Word::Ended(word)), missing + 1))
}

fn join(alloc: Global, front: &[u8], back: &[u8]) -> Result<Vec<u8>, AllocError>
    ensures { IfOk result (λ word. word.items ≡ front.now ++ back.now) }
{
    let mut word = Vec::with_capacity(alloc, front.len().saturating_add(back.len()))?;
    word.extend_from_slice(front)?;
    word.extend_from_slice(back)?;
    Ok(word)
}
