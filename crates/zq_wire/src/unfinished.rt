//! A frame that is not all there.
ghost use Rattle.std.specs.Prelude.{◌≡◌, ℕ, ◌<◌, ◌≤◌, ◌++◌, [], length, IfOk};
ghost use Rattle.std.specs.Int.{to_be_bytes, w32};
ghost use Rattle.zq_wire.specs.Stream.{is_begun};
ghost use Rattle.zq_wire.specs.Unfinished.{Begins, FrameStep, IsStep, Stands, text_so_far};

use crate::fault::StreamFault;
use std::alloc::Global;
use zq_fields::read_u32;

/// How many bytes a length has.
const LENGTH_BYTES: usize = 4;

/// A frame, as far as it has come.
#[derive(Drop)]
pub(crate) enum Unfinished {
    /// This much of its length: fewer than four bytes.
    Length(Vec<u8>),
    /// Its length, and this much of the frame: fewer bytes than that.
    Body { size: u32, bytes: Vec<u8> },
}

/// What bytes make of an unfinished frame.
#[derive(Drop)]
pub(crate) enum Progress {
    /// Less than the whole.
    More(Unfinished),
    /// All of it.
    Whole(Vec<u8>),
}

impl Unfinished {
    /// Nothing. It takes no memory.
    pub(crate) fn new(alloc: Global) -> Unfinished
        ensures nothing { text_so_far result ≡ [] }
        ensures stands { (most : ℕ) → Stands most result }
    {
        Unfinished::Length(Vec::new(alloc))
    }

    /// Whether a byte of it has come.
    pub(crate) fn is_begun(&self) -> bool
        ensures { result ≡ is_begun (text_so_far self.now) }
    {
        match self {
            Unfinished::Length(head) => !head.is_empty(),
            Unfinished::Body { .. } => true,
        }
    }

    /// Reads on, at least a byte, and says how many.
    pub(crate) fn read(
        self,
        alloc: Global,
        most: u32,
        bytes: &[u8],
    ) -> Result<(Progress, usize), StreamFault>
        requires some { 0 < length bytes.now }
        requires stands { Stands most self }
        ensures taken { IfOk result (IsStep bytes.now) }
        ensures step { FrameStep most (text_so_far self) bytes.now result }
    {
        match self {
            Unfinished::Length(head) => read_length(alloc, most, head, bytes),
            Unfinished::Body { size, bytes: body } => read_body(most, size, body, bytes),
        }
    }
}

/// Reads on in the length.
fn read_length(
    alloc: Global,
    most: u32,
    head: Vec<u8>,
    bytes: &[u8],
) -> Result<(Progress, usize), StreamFault>
    requires some { 0 < length bytes.now }
    requires short { length head.items < 4 }
    ensures taken { IfOk result (IsStep bytes.now) }
    ensures step { FrameStep most head.items bytes.now result }
{
    let mut head = head;
    let taken = bytes.len().min(LENGTH_BYTES - head.len());
    head.extend_from_slice(&bytes[..taken])?;
    match read_u32(&head) {
        None => Ok((Progress::More(Unfinished::Length(head)), taken)),
        Some((size, _)) => Ok((begin(alloc, most, size)?, taken)),
    }
}

/// What there is of a frame of which the length has come.
fn begin(alloc: Global, most: u32, size: u32) -> Result<Progress, StreamFault>
    ensures { Begins most size result }
{
    if size > most {
        return Err(StreamFault::TooLong);
    }
    if size == 0 {
        return Ok(Progress::Whole(Vec::new(alloc)));
    }
    Ok(Progress::More(Unfinished::Body {
        size,
        bytes: Vec::new(alloc),
    }))
}

/// Reads on in the frame.
fn read_body(
    most: u32,
    size: u32,
    body: Vec<u8>,
    bytes: &[u8],
) -> Result<(Progress, usize), StreamFault>
    requires some { 0 < length bytes.now }
    requires small { size ≤ most }
    requires short { length body.items < size }
    ensures taken { IfOk result (IsStep bytes.now) }
    ensures step { FrameStep most (to_be_bytes w32 size ++ body.items) bytes.now result }
{
    let mut body = body;
    let whole = size as usize;
    let taken = bytes.len().min(whole - body.len());
    body.extend_from_slice(&bytes[..taken])?;
    if body.len() < whole {
        return Ok((
            Progress::More(Unfinished::Body { size, bytes: body }),
            taken,
        ));
    }
    Ok((Progress::Whole(body), taken))
}
