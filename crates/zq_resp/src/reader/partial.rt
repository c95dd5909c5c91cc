//! A request that is not whole yet.

ghost use Rattle.std.specs.Prelude.{◌≡◌, ◌≢◌, ◌<◌, ◌≤◌, ◌++◌, length, IfErr, IfOk};
ghost use Rattle.zq_resp.specs.declared.fault.FeedFault.TheVariants.{NoMemory};
ghost use Rattle.zq_resp.specs.declared.reader.partial.Partial.TheVariants as partial;
ghost use Rattle.zq_resp.specs.Suspended.{IsStep};
ghost use Rattle.zq_resp.specs.Line.{IsLine};
ghost use Rattle.zq_resp.specs.Partial.{ByteStep, IsPartial, IsPlain, PartialStep, ReadsAll, in_words, text_so_far};
ghost use Rattle.zq_resp.specs.Stream.{HasCount};

use crate::fault::FeedFault;
use crate::reader::line::Line;
use crate::reader::null::Null;
use crate::reader::progress::Progress;
use crate::reader::short::short_count;
use crate::reader::words::Words;
use std::alloc::Global;

const MOST_WORDS: usize = 65_536;

/// A request, as far as it has been read: `*`, the count of its words on a line, the words.
#[derive(Drop)]
pub enum Partial {
    /// Nothing.
    Start,
    /// `*`, and this much of the count's line.
    Count(Line),
    /// `*`, and this much of the line that stands for no words.
    Null(Null),
    /// The count's line, and this much of the words.
    Words(Words),
}

impl Partial {
    /// Reads on, and answers how many bytes that took: one at least.
    pub fn step(
        self,
        alloc: Global,
        bytes: &[u8],
    ) -> Result<(Progress<Partial, Vec<Vec<u8>>>, usize), FeedFault>
        requires some { 0 < length bytes.now }
        requires is { IsPartial self }
        ensures taken { IfOk result (IsStep bytes.now) }
        ensures step { PartialStep self bytes.now result }
        ensures memory { IfErr result (λ e. e ≡ NoMemory →
            HasCount (text_so_far self ++ bytes.now)) }
    {
        match self {
            Partial::Start => start(alloc, bytes),
            Partial::Count(line) => Ok((count(alloc, line, bytes[0])?, 1)),
            Partial::Null(null) => Ok((nothing(alloc, null, bytes[0])?, 1)),
            Partial::Words(words) => {
                let (progress, taken) = words.step(alloc, bytes)?;
                Ok((with_words(progress), taken))
            }
        }
    }

    /// Reads on until the request ends or the bytes do, and answers how many bytes that took.
    pub fn read(
        self,
        alloc: Global,
        bytes: &[u8],
    ) -> Result<(Progress<Partial, Vec<Vec<u8>>>, usize), FeedFault>
        requires { IsPartial self }
        ensures taken { IfOk result (λ x. x.1 ≤ length bytes.now) }
        ensures all { IfOk result (ReadsAll bytes.now) }
        ensures step { PartialStep self bytes.now result }
        ensures memory { IfErr result (λ e. e ≡ NoMemory →
            HasCount (text_so_far self ++ bytes.now)) }
    {
        let mut partial = self;
        let mut at = 0;
        while at < bytes.len() {
            let (progress, taken) = partial.step(alloc, &bytes[at..])?;
            at += taken;
            match progress {
                Progress::More(more) => partial = more,
                Progress::Whole(words) => return Ok((Progress::Whole(words), at)),
            }
        }
        Ok((Progress::More(partial), at))
    }
}

/// A count of one digit is read at once where its line is all there; otherwise the first byte is
/// read.
fn start(alloc: Global, bytes: &[u8]) -> Result<(Progress<Partial, Vec<Vec<u8>>>, usize), FeedFault>
    requires { 0 < length bytes.now }
    ensures taken { IfOk result (IsStep bytes.now) }
    ensures step { PartialStep partial.Start bytes.now result }
    ensures memory { IfErr result (λ e. e ≢ NoMemory) }
{
    if let Some(count) = short_count(bytes) {
        return Ok((with_words(Words::new(alloc, count)), 4));
    }
    if bytes[0] != b'*' {
        return Err(FeedFault::Protocol);
    }
    Ok((Progress::More(Partial::Count(Line::Start)), 1))
}

fn count(alloc: Global, line: Line, byte: u8) -> Result<Progress<Partial, Vec<Vec<u8>>>, FeedFault>
    requires { IsLine 65536 line }
    ensures { ByteStep (partial.Count line) byte result }
{
    if byte == b'-' && matches!(line, Line::Start) {
        return Ok(Progress::More(Partial::Null(Null::Minus)));
    }
    plain_count(alloc, line, byte)
}

/// The next byte of a count that does not begin with a minus.
fn plain_count(
    alloc: Global,
    line: Line,
    byte: u8,
) -> Result<Progress<Partial, Vec<Vec<u8>>>, FeedFault>
    requires within { IsLine 65536 line }
    requires plain { IsPlain line byte }
    ensures { ByteStep (partial.Count line) byte result }
{
    match line.step(MOST_WORDS, byte)? {
        Progress::More(line) => Ok(Progress::More(Partial::Count(line))),
        Progress::Whole(count) => Ok(with_words(Words::new(alloc, count))),
    }
}

fn nothing(
    alloc: Global,
    null: Null,
    byte: u8,
) -> Result<Progress<Partial, Vec<Vec<u8>>>, FeedFault>
    ensures { ByteStep (partial.Null null) byte result }
{
    Ok(match null.step(byte)? {
        Progress::More(null) => Progress::More(Partial::Null(null)),
        Progress::Whole(()) => Progress::Whole(Vec::new(alloc)),
    })
}

fn with_words(progress: Progress<Words, Vec<Vec<u8>>>) -> Progress<Partial, Vec<Vec<u8>>>
    ensures { result ≡ in_words progress }
{
    match progress {
        Progress::More(words) => Progress::More(Partial::Words(words)),
        Progress::Whole(words) => Progress::Whole(words),
    }
}
