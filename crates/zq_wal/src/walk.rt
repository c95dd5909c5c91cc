//! A walk over the bytes of a file, from the first to the last.
ghost use Rattle.std.specs.Prelude.{◌≡◌, ◌≤◌, ◌<◌, ◌^◌, ◌+◌, ◌++◌, ◌∷◌, ◌==◌, ◌||◌, [], List, ℕ, None, Some, length, nat_lt, true, IfOk, IsErr, IsErrOf, OnOk};
ghost use Rattle.std.specs.List.{list_any};
ghost use Rattle.zq_wal.specs.Chunk.{IsChunk};
ghost use Rattle.zq_wal.specs.Format.{decoded, is_corrupt, recovered};
ghost use Rattle.zq_wal.specs.Replay.{Replayed};
ghost use Rattle.zq_wal.specs.Found.{IsFound};
ghost use Rattle.zq_wal.specs.Walk.{IsKnown, IsWalk, tail_of};

use crate::chunk::Chunk;
use crate::record::{END, floor};
use crate::{Found, Replay, WalError};
use std::alloc::Global;

/// A walk over a file, of which so many bytes have been walked.
#[derive(Drop)]
pub(crate) struct Walk {
    pub(crate) walked: usize,
    /// What stands behind the last end mark.
    pub(crate) chunk: Chunk,
    pub(crate) known: Known,
}

/// What is known of the chunks that have ended.
#[derive(Drop)]
pub(crate) struct Known {
    /// How many records there are before a chunk that is not whole, and how many bytes they have.
    pub(crate) count: usize,
    pub(crate) end: usize,
    /// Some chunk was not whole.
    pub(crate) torn: bool,
    /// Some chunk has damage that no crash leaves.
    pub(crate) damaged: bool,
    /// The highest floor of any record.
    pub(crate) highest: u64,
}

/// The higher number of two.
fn higher(a: u64, b: u64) -> u64
    ensures { (n : ℕ) → nat_lt n result ≡ (nat_lt n a || nat_lt n b) }
{
    if a < b { b } else { a }
}

impl Known {
    /// No chunk has ended.
    pub(crate) fn new() -> Known
        ensures known { IsKnown [] result }
        ensures count { result.count ≡ 0 }
    {
        Known {
            count: 0,
            end: 0,
            torn: false,
            damaged: false,
            highest: 0,
        }
    }

    /// A record has ended, and the file is so long until there. It is taken again where all chunks
    /// before it are whole.
    fn take_record<R: Replay>(
        &mut self,
        end: usize,
        payload: &[u8],
        replay: &mut R,
    ) -> Result<(), WalError>
        requires { self.old.count < 2 ^ 60 }
        ensures known { OnOk result ((bytes : List ℕ) → end ≡ length bytes + 1 →
            decoded (tail_of [] bytes) ≡ Some payload.now →
            IsKnown bytes self.old → IsKnown (bytes ++ 255 ∷ []) self.new) }
        ensures replayed { OnOk result ((bytes : List ℕ) (first : R) →
            decoded (tail_of [] bytes) ≡ Some payload.now → IsKnown bytes self.old →
            Replayed R.replays first (recovered bytes) replay.old →
            Replayed R.replays first (recovered (bytes ++ 255 ∷ [])) replay.new) }
        ensures count { OnOk result (self.new.count ≤ self.old.count + 1) }
        ensures stopped { IsErrOf result WalError.Stopped → R.has_stopped replay.new }
        ensures sound { (IsErrOf result WalError.Corrupt → ⊥)
            × (IsErrOf result WalError.Failed → ⊥) × (IsErrOf result WalError.Full → ⊥) }
    {
        self.highest = higher(self.highest, floor(payload));
        if self.torn {
            return Ok(());
        }
        replay.replay(payload)?;
        self.count += 1;
        self.end = end;
        Ok(())
    }

    /// A chunk has ended that is no whole record.
    fn take_torn(&mut self, has_zero: bool)
        ensures known { (bytes : List ℕ) → decoded (tail_of [] bytes) ≡ None →
            has_zero ≡ list_any (λ b. b == 0) (tail_of [] bytes) →
            IsKnown bytes self.old → IsKnown (bytes ++ 255 ∷ []) self.new }
        ensures count { self.new.count ≡ self.old.count }
    {
        self.damaged = self.damaged || !has_zero;
        self.torn = true;
    }

    /// A chunk has ended, and the file is so long until there.
    fn take_chunk<R: Replay>(
        &mut self,
        end: usize,
        chunk: &Chunk,
        replay: &mut R,
    ) -> Result<(), WalError>
        requires { self.old.count < 2 ^ 60 }
        ensures known { OnOk result ((bytes : List ℕ) → end ≡ length bytes + 1 →
            IsChunk (tail_of [] bytes) chunk.now →
            IsKnown bytes self.old → IsKnown (bytes ++ 255 ∷ []) self.new) }
        ensures replayed { OnOk result ((bytes : List ℕ) (first : R) →
            IsChunk (tail_of [] bytes) chunk.now → IsKnown bytes self.old →
            Replayed R.replays first (recovered bytes) replay.old →
            Replayed R.replays first (recovered (bytes ++ 255 ∷ [])) replay.new) }
        ensures count { OnOk result (self.new.count ≤ self.old.count + 1) }
        ensures stopped { IsErrOf result WalError.Stopped → R.has_stopped replay.new }
        ensures sound { (IsErrOf result WalError.Corrupt → ⊥)
            × (IsErrOf result WalError.Failed → ⊥) × (IsErrOf result WalError.Full → ⊥) }
    {
        let Some(payload) = chunk.payload() else {
            self.take_torn(chunk.has_zero);
            return Ok(());
        };
        self.take_record(end, payload, replay)
    }

    /// What was found, where all bytes of the file have been walked. It is `Corrupt` where the file
    /// has damage that no crash leaves.
    pub(crate) fn found(&self) -> Result<Found, WalError>
        ensures found { IfOk result (λ found. (file : List ℕ) →
            IsKnown file self.now → IsFound file found) }
        ensures corrupt { IsErrOf result WalError.Corrupt → (file : List ℕ) →
            IsKnown file self.now → is_corrupt file ≡ true }
        ensures only { IsErr result → IsErrOf result WalError.Corrupt }
    {
        if self.damaged || self.highest > self.count as u64 {
            return Err(WalError::Corrupt);
        }
        Ok(Found {
            count: self.count,
            end: self.end,
        })
    }
}

impl Walk {
    /// No byte has been walked.
    pub(crate) fn new(alloc: Global) -> Walk
        ensures walk { IsWalk [] result }
        ensures begun { (result.walked ≡ 0) × (result.known.count ≡ 0) }
    {
        Walk {
            walked: 0,
            chunk: Chunk::new(alloc),
            known: Known::new(),
        }
    }

    /// Walks over these bytes. The records before a chunk that is not whole are taken again.
    pub(crate) fn take_all<R: Replay>(
        &mut self,
        piece: &[u8],
        replay: &mut R,
    ) -> Result<(), WalError>
        requires count { self.old.known.count ≤ self.old.walked }
        requires room { self.old.walked + length piece.now ≤ 2 ^ 60 }
        ensures walk { OnOk result ((bytes : List ℕ) →
            IsWalk bytes self.old → IsWalk (bytes ++ piece.now) self.new) }
        ensures replayed { OnOk result ((bytes : List ℕ) (first : R) → IsWalk bytes self.old →
            Replayed R.replays first (recovered bytes) replay.old →
            Replayed R.replays first (recovered (bytes ++ piece.now)) replay.new) }
        ensures count { OnOk result (self.new.known.count ≤ self.new.walked) }
        ensures walked { OnOk result (self.new.walked ≡ self.old.walked + length piece.now) }
        ensures stopped { IsErrOf result WalError.Stopped → R.has_stopped replay.new }
        ensures sound { (IsErrOf result WalError.Corrupt → ⊥)
            × (IsErrOf result WalError.Failed → ⊥) × (IsErrOf result WalError.Full → ⊥) }
    {
        for byte in piece {
            self.take(*byte, replay)?;
        }
        Ok(())
    }

    /// Walks over a byte.
    fn take<R: Replay>(&mut self, byte: u8, replay: &mut R) -> Result<(), WalError>
        requires count { self.old.known.count ≤ self.old.walked }
        requires room { self.old.walked < 2 ^ 60 }
        ensures walk { OnOk result ((bytes : List ℕ) →
            IsWalk bytes self.old → IsWalk (bytes ++ byte ∷ []) self.new) }
        ensures replayed { OnOk result ((bytes : List ℕ) (first : R) → IsWalk bytes self.old →
            Replayed R.replays first (recovered bytes) replay.old →
            Replayed R.replays first (recovered (bytes ++ byte ∷ [])) replay.new) }
        ensures count { OnOk result (self.new.known.count ≤ self.new.walked) }
        ensures walked { OnOk result (self.new.walked ≡ self.old.walked + 1) }
        ensures stopped { IsErrOf result WalError.Stopped → R.has_stopped replay.new }
        ensures sound { (IsErrOf result WalError.Corrupt → ⊥)
            × (IsErrOf result WalError.Failed → ⊥) × (IsErrOf result WalError.Full → ⊥) }
    {
        self.walked += 1;
        if byte != END {
            self.chunk.take(byte)?;
            return Ok(());
        }
        self.known.take_chunk(self.walked, &self.chunk, replay)?;
        self.chunk.clear();
        Ok(())
    }
}
