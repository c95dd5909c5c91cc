//! Texts, one after the other in one run of bytes.
ghost use Rattle.std.specs.Prelude.{◌≡◌, ◌<◌, ◌≤◌, ◌^◌, ◌++◌, ◌∷◌, [], IfOk, OnErr, OnOk, length, slice_index_or, sum_by};
ghost use Rattle.zq_backlog.specs.Run as run;
ghost use Rattle.zq_backlog.specs.Written.{spelling};

use std::alloc::{AllocError, Global};
use std::marker::Model;
use zq_delta::append_op;
use zq_dots::Op;

/// Texts, the oldest first. Their bytes lie in one run, in memory of their own.
#[derive(Drop)]
pub(crate) struct Run {
    bytes: Vec<u8>,
    /// Where each text ends.
    ends: Vec<usize>,
}

impl Model for Run {
    ghost use Rattle.std.specs.Prelude.{List, ℕ};

    ghost Value = { List (List ℕ) };

    ghost use Rattle.zq_backlog.specs.RunView.{IsRun, texts_of};

    ghost view = { texts_of };

    ghost invariant = { IsRun };
}

impl Run {
    /// No text. It takes no memory.
    pub(crate) fn new(alloc: Global) -> Run
        ensures { result ≡ [] }
    {
        Run {
            bytes: Vec::new(alloc),
            ends: Vec::new(alloc),
        }
    }

    /// No text, with room for so many bytes of texts.
    pub(crate) fn with_room(alloc: Global, room: usize) -> Result<Run, AllocError>
        ensures { IfOk result (λ texts. texts ≡ []) }
    {
        Ok(Run {
            bytes: Vec::with_capacity(alloc, room)?,
            ends: Vec::new(alloc),
        })
    }

    /// Whether so many bytes more fit into the memory that it has.
    pub(crate) fn has_room(&self, room: usize) -> bool {
        room <= self.bytes.capacity() - self.bytes.len()
    }

    /// Gives memory back that holds no text.
    pub(crate) fn shrink(&mut self)
        ensures { self.new ≡ self.old }
    {
        self.bytes.shrink_to_fit();
        self.ends.shrink_to_fit();
    }

    /// How many bytes they have together.
    pub(crate) fn bytes(&self) -> usize
        ensures sum { result ≡ sum_by length self.now }
        ensures most { result < 2 ^ 63 }
    {
        self.bytes.len()
    }

    /// How many there are.
    pub(crate) fn len(&self) -> usize
        ensures len { result ≡ length self.now }
        ensures most { result < 2 ^ 63 }
    {
        self.ends.len()
    }

    /// The text of this number.
    pub(crate) fn text(&self, number: usize) -> &[u8]
        requires { number < length self.now }
        ensures { result.now ≡ slice_index_or self.now number [] }
    {
        let start = start_at(&self.ends, number);
        &self.bytes[start..self.ends[number]]
    }

    /// Writes an operation behind the others, unless it has more bytes than the most. Where it has,
    /// or memory is refused, nothing has changed.
    pub(crate) fn push(&mut self, op: &Op, most: usize) -> Result<(), AllocError>
        ensures pushed { OnOk result (self.new ≡ self.old ++ spelling op.now ∷ []) }
        ensures bounded { OnOk result (length (spelling op.now) ≤ most) }
        ensures refused { OnErr result (self.new ≡ self.old) }
    {
        self.ends.reserve(1)?;
        let start = self.bytes.len();
        append_op(&mut self.bytes, op)?;
        let end = self.bytes.len();
        if end - start > most {
            self.bytes.truncate(start);
            return Err(AllocError);
        }
        self.ends.push_reserved(end);
        Ok(())
    }
}

/// Where the text of this number begins.
fn start_at(ends: &[usize], number: usize) -> usize
    requires { number ≤ length ends.now }
    ensures { result ≡ run.start_at 0 ends.now number }
{
    if number == 0 { 0 } else { ends[number - 1] }
}
