//! The bytes of a log in memory, for tests.
ghost use Rattle.std.specs.Prelude.{◌≡◌, ◌<◌, ◌≤◌, [], drop, length, take, ◌+◌};
ghost use Rattle.zq_wal.specs.Disk.{Only};
ghost use Rattle.zq_wal.specs.Image.{LeftNow, bytes_of, given_of};

use crate::memory_disk::spend;
use crate::{MemoryDisk, Source, WalError};
use std::alloc::Global;

/// The bytes of a log in memory, which are read in pieces of at most so many.
#[derive(Drop)]
pub struct MemorySource {
    pub bytes: Vec<u8>,
    /// How many were read.
    pub at: usize,
    /// How many are read at once at most, but one.
    pub most: usize,
    /// How many calls it still answers, before each one fails.
    pub calls: u64,
    /// How often it has failed.
    pub faults: u64,
}

impl MemorySource {
    /// None of these bytes was read.
    pub fn new(bytes: Vec<u8>, most: usize, calls: u64) -> MemorySource
        ensures { given_of result ≡ [] }
    {
        MemorySource {
            bytes,
            at: 0,
            most,
            calls,
            faults: 0,
        }
    }

    /// The disk whose log has these bytes, all of which were read, and which does so many calls.
    pub fn into_disk(self, alloc: Global, calls: u64) -> MemoryDisk
        requires { length self.bytes.items ≤ self.at }
        ensures log { bytes_of result.log ≡ given_of self }
        ensures durable { Only (bytes_of result.log) (LeftNow result.log result.elders.items) }
    {
        MemoryDisk::new(alloc, self.bytes, calls)
    }
}

/// Copies the bytes from a place on into the front, and answers how many: at most so many, but one.
fn copy_from(bytes: &[u8], at: usize, most: usize, piece: &mut [u8]) -> usize
    requires { at < length bytes.now }
    ensures within { (result ≤ length piece.new) × (at + result ≤ length bytes.now) }
    ensures copied { take result piece.new ≡ take result (drop at bytes.now) }
    ensures long { length piece.new ≡ length piece.old }
    ensures some { 0 < length piece.new → 0 < result }
{
    let many = piece.len().min(most.max(1)).min(bytes.len() - at);
    for i in 0..many {
        piece[i] = bytes[at + i];
    }
    many
}

impl Source for MemorySource {
    ghost given = { given_of };

    ghost at_end = { λ s. length s.bytes.items ≤ s.at };

    ghost failures = { λ s. s.faults };

    fn read(&mut self, piece: &mut [u8]) -> Result<usize, WalError> {
        spend(&mut self.calls, &mut self.faults)?;
        if self.at >= self.bytes.len() {
            return Ok(0);
        }
        let many = copy_from(&self.bytes, self.at, self.most, piece);
        self.at += many;
        Ok(many)
    }
}
