//! Readers and writers that do as they are told.

ghost use Rattle.std.specs.Prelude.{IfOk, ◌≤◌, length};

use std::io;
use std::io::{ErrorKind, Read, Write};

/// A reader that gives two pieces one after the other, each in reads of at most so many bytes, and
/// then the end. Its read of the number `fails`, counted from 0, fails.
#[derive(Drop)]
pub struct Pieces<'a> {
    pub first: &'a [u8],
    pub second: &'a [u8],
    pub most: usize,
    pub fails: usize,
    pub reads: usize,
}

impl<'a> Pieces<'a> {
    /// A reader that gives each piece whole, and does not fail.
    pub fn whole(first: &'a [u8], second: &'a [u8]) -> Pieces<'a> {
        Pieces {
            first,
            second,
            most: usize::MAX,
            fails: usize::MAX,
            reads: 0,
        }
    }
}

impl Read for Pieces<'_> {
    fn read(&mut self, buffer: &mut [u8]) -> io::Result<usize> {
        let at = self.reads;
        self.reads = at.saturating_add(1);
        if at == self.fails {
            return Err(ErrorKind::Other.into());
        }
        if self.first.is_empty() {
            self.first = self.second;
            self.second = b"";
        }
        let count = self.first.len().min(self.most).min(buffer.len());
        buffer[..count].copy_from_slice(&self.first[..count]);
        self.first = &self.first[count..];
        Ok(count)
    }
}

/// A writer of these cases takes at most so many bytes, and has memory for them before.
pub const MOST_TAKEN: usize = 256;

/// A writer that takes at most so many bytes a write. Its write of the number `fails`, counted from
/// 0, fails.
#[derive(Drop)]
pub struct Taken<'a> {
    pub bytes: &'a mut Vec<u8>,
    pub most: usize,
    pub fails: usize,
    pub writes: usize,
}

impl Write for Taken<'_> {
    fn write(&mut self, bytes: &[u8]) -> io::Result<usize> {
        let at = self.writes;
        self.writes = at.saturating_add(1);
        let count = bytes.len().min(self.most);
        if at == self.fails {
            return Err(ErrorKind::Other.into());
        }
        match self.bytes.extend_from_slice(&bytes[..count]) {
            Ok(()) => Ok(count),
            Err(_) => Err(ErrorKind::OutOfMemory.into()),
        }
    }

    fn flush(&mut self) -> io::Result<()> {
        Ok(())
    }
}
