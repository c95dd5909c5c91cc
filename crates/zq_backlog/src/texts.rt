//! Texts, one after the other in chunks of bytes.
ghost use Rattle.std.specs.Prelude.{◌≡◌, ◌+◌, ◌-◌, ◌<◌, ◌≤◌, ◌^◌, ◌++◌, ◌∷◌, [], OnErr, OnOk, drop, length, slice_index_or, sum_by};
ghost use Rattle.zq_backlog.specs.Chunks.{AreJoined, first_of, texts_in};
ghost use Rattle.zq_backlog.specs.Written.{spelling};

use crate::chunk::Chunk;
use crate::run::Run;
use std::alloc::{AllocError, Global};
use std::collections::VecDeque;
use std::marker::Model;
use std::mem::replace;
use zq_dots::Op;
use zq_fields::write_bytes;

/// The bytes that a chunk has room for. One that is begun for a longer text has room for that.
const CHUNK: usize = 65_536;

/// No fewer bytes than an operation is written in beside its key and its member.
const HEAD: usize = 600;

/// The most bytes of all texts, and the most texts that ever come. No machine has so many.
const MOST: usize = isize::MAX as usize;

/// Texts, the oldest first. They lie in chunks of bytes, none in two of them, so that a text is
/// written and read as one run of bytes, costs eight bytes beside its own, and one that goes moves
/// none that stay.
///
/// A text goes into the newest chunk where it surely fits there; else a chunk is begun for it. A
/// chunk gives back what it has too much once another one is begun, and goes with the last of its
/// texts. So these take memory beside the bytes of the texts that stand: the texts of the oldest
/// chunk that went, and what the newest chunk has not filled yet. Each is less than a chunk.
#[derive(Drop)]
pub(crate) struct Texts {
    alloc: Global,
    /// The chunks before the newest one, the oldest first.
    older: VecDeque<Chunk>,
    newest: Chunk,
    /// The number of the oldest text that stands, among all that ever came.
    first: u64,
    /// The bytes of the texts that stand.
    bytes: usize,
}

impl Model for Texts {
    ghost use Rattle.std.specs.Prelude.{List, ℕ};

    ghost Value = { List (List ℕ) };

    ghost use Rattle.zq_backlog.specs.TextsView.{AreChunked, texts_of};

    ghost view = { texts_of };

    ghost invariant = { AreChunked };
}

impl Texts {
    /// None. It takes no memory.
    pub(crate) fn new(alloc: Global) -> Texts
        ensures { result ≡ [] }
    {
        Texts {
            alloc,
            older: VecDeque::new(alloc),
            newest: Chunk {
                first: 0,
                texts: Run::new(alloc),
            },
            first: 0,
            bytes: 0,
        }
    }

    /// How many bytes they have together.
    pub(crate) fn bytes(&self) -> usize
        ensures sum { result ≡ sum_by length self.now }
        ensures most { result < 2 ^ 63 }
    {
        self.bytes
    }

    /// How many there are.
    pub(crate) fn len(&self) -> usize
        ensures len { result ≡ length self.now }
        ensures most { result < 2 ^ 63 }
    {
        (self.newest.end() - self.first) as usize
    }

    /// How many bytes the text of this number has.
    pub(crate) fn len_of(&self, number: usize) -> usize
        requires { number < length self.now }
        ensures exact { result ≡ length (slice_index_or self.now number []) }
        ensures most { result < 2 ^ 63 }
    {
        self.text(number).len()
    }

    /// Appends the text of this number to `out`.
    pub(crate) fn copy_to(&self, number: usize, out: &mut Vec<u8>) -> Result<(), AllocError>
        requires { number < length self.now }
        ensures { OnOk result (out.new.items ≡ out.old.items ++ slice_index_or self.now number []) }
    {
        write_bytes(out, self.text(number))
    }

    /// Writes an operation behind the others. Where memory is refused nothing has changed.
    pub(crate) fn push(&mut self, op: &Op) -> Result<(), AllocError>
        ensures pushed { OnOk result (self.new ≡ self.old ++ spelling op.now ∷ []) }
        ensures refused { OnErr result (self.new ≡ self.old) }
    {
        let room = room_of(op);
        if !self.newest.texts.has_room(room) {
            self.begin_chunk(room)?;
        }
        self.write(op)
    }

    /// The oldest goes, if there is one.
    pub(crate) fn drop_oldest(&mut self)
        ensures { self.new ≡ drop 1 self.old }
    {
        if self.first < self.newest.end() {
            self.bytes -= self.text(0).len();
            self.first += 1;
            self.drop_chunk();
        }
    }

    /// The text of this number.
    fn text(&self, number: usize) -> &[u8]
        requires { number < length self.now }
        ensures { result.now ≡ slice_index_or self.now number [] }
    {
        let number = self.first + number as u64;
        let chunk = chunk_of(&self.older, &self.newest, number);
        chunk.texts.text((number - chunk.first) as usize)
    }

    /// Begins a chunk that has room for so many bytes. Where memory is refused there is none.
    fn begin_chunk(&mut self, room: usize) -> Result<(), AllocError>
        ensures { self.new ≡ self.old }
    {
        self.older.reserve(1)?;
        let next = Chunk {
            first: self.newest.end(),
            texts: Run::with_room(self.alloc, room.max(CHUNK))?,
        };
        let mut last = replace(&mut self.newest, next);
        if self.first < last.end() {
            last.texts.shrink();
            self.older.push_back_reserved(last);
        } else {
            self.older.clear();
        }
        Ok(())
    }

    /// Writes an operation into the newest chunk.
    fn write(&mut self, op: &Op) -> Result<(), AllocError>
        ensures pushed { OnOk result (self.new ≡ self.old ++ spelling op.now ∷ []) }
        ensures refused { OnErr result (self.new ≡ self.old) }
    {
        if self.newest.end() >= MOST as u64 {
            return Err(AllocError);
        }
        let had = self.newest.texts.bytes();
        self.newest.texts.push(op, MOST - self.bytes)?;
        self.bytes += self.newest.texts.bytes() - had;
        Ok(())
    }

    /// The oldest chunk goes, where all its texts went.
    fn drop_chunk(&mut self)
        ensures { self.new ≡ self.old }
    {
        if let Some(oldest) = self.older.front()
            && oldest.end() <= self.first
        {
            let _ = self.older.pop_front();
        }
    }
}

/// The chunk in which the text of this number lies, among all that ever came.
fn chunk_of<'a>(older: &'a VecDeque<Chunk>, newest: &'a Chunk, number: u64) -> &'a Chunk
    requires joined { AreJoined older.now.items newest.now.first }
    requires from { first_of older.now.items newest.now.first ≤ number }
    requires to { number < newest.now.first + length newest.now.texts }
    ensures begins { result.now.first ≤ number }
    ensures ends { number < result.now.first + length result.now.texts }
    ensures text { slice_index_or result.now.texts (number - result.now.first) []
        ≡ slice_index_or (texts_in older.now.items ++ newest.now.texts)
        (number - first_of older.now.items newest.now.first) [] }
{
    if number >= newest.first {
        return newest;
    }
    let behind = older.partition_point(|chunk| chunk.first <= number);
    &older[behind - 1]
}

/// No fewer bytes than the operation is written in.
fn room_of(op: &Op) -> usize {
    HEAD + op.key().len() + op.member().len()
}
