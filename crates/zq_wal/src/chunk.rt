//! The bytes of a file between two end marks.
ghost use Rattle.std.specs.Prelude.{◌≡◌, ◌++◌, ◌∷◌, [], List, ℕ, None, Some, IfNone, IfSome, OnOk};
ghost use Rattle.zq_wal.specs.Format.{checked_bytes, decoded, meant};
ghost use Rattle.zq_wal.specs.Chunk.{IsChunk};

use crate::record::{EIGHT, END, ESCAPE};
use std::alloc::{AllocError, Global};
use zq_dots::fnv1a64;

/// A chunk as far as it has come. One that cannot be a record any more takes no memory.
#[derive(Drop)]
pub(crate) struct Chunk {
    /// What its bytes stand for: a checksum and a payload, of a record.
    pub(crate) bytes: Vec<u8>,
    /// The last byte was an escape.
    pub(crate) escaped: bool,
    /// It cannot be a record.
    pub(crate) spoilt: bool,
    /// Some byte is 0.
    pub(crate) has_zero: bool,
}

impl Chunk {
    /// No byte has come.
    pub(crate) fn new(alloc: Global) -> Chunk
        ensures { IsChunk [] result }
    {
        Chunk {
            bytes: Vec::new(alloc),
            escaped: false,
            spoilt: false,
            has_zero: false,
        }
    }

    /// The chunk behind it begins.
    pub(crate) fn clear(&mut self)
        ensures { IsChunk [] self.new }
    {
        self.bytes.clear();
        self.escaped = false;
        self.spoilt = false;
        self.has_zero = false;
    }

    /// One byte more.
    pub(crate) fn take(&mut self, byte: u8) -> Result<(), AllocError>
        ensures { OnOk result ((bytes : List ℕ) →
            IsChunk bytes self.old → IsChunk (bytes ++ byte ∷ []) self.new) }
    {
        self.has_zero = self.has_zero || byte == 0;
        if self.spoilt {
            return Ok(());
        }
        if !self.escaped && byte == ESCAPE {
            self.escaped = true;
            return Ok(());
        }
        let Some(meant) = meant(self.escaped, byte) else {
            self.spoilt = true;
            self.bytes.clear();
            return Ok(());
        };
        self.bytes.push(meant)?;
        self.escaped = false;
        Ok(())
    }

    /// The payload, where the chunk is a whole record.
    pub(crate) fn payload(&self) -> Option<&[u8]>
        ensures some { IfSome result (λ p. (bytes : List ℕ) →
            IsChunk bytes self.now → decoded bytes ≡ Some p.now) }
        ensures none { IfNone result ((bytes : List ℕ) →
            IsChunk bytes self.now → decoded bytes ≡ None) }
    {
        if self.spoilt || self.escaped {
            return None;
        }
        payload_behind_sum(&self.bytes)
    }
}

/// The bytes behind their checksum; `None` where that is another.
fn payload_behind_sum(bytes: &[u8]) -> Option<&[u8]>
    ensures some { IfSome result (λ p. checked_bytes bytes.now ≡ Some p.now) }
    ensures none { IfNone result (checked_bytes bytes.now ≡ None) }
{
    if bytes.len() < EIGHT {
        return None;
    }
    let (sum, payload) = bytes.split_at(EIGHT);
    let wanted = fnv1a64(payload).to_be_bytes();
    if sum != wanted.as_slice() {
        return None;
    }
    Some(payload)
}

/// The byte that this one stands for, behind an escape or not.
fn meant(escaped: bool, byte: u8) -> Option<u8>
    ensures { result ≡ meant escaped byte }
{
    match (escaped, byte) {
        (true, 1) => Some(0),
        (true, 2) => Some(ESCAPE),
        (true, 3) => Some(END),
        (true, _) => None,
        (false, 0 | END) => None,
        (false, byte) => Some(byte),
    }
}
