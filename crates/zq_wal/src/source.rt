//! Reading the bytes of a log.
ghost use Rattle.std.specs.Prelude.{◌≡◌, ◌<◌, ◌≤◌, ◌++◌, List, ℕ, length, take, IfOk};
ghost use Rattle.zq_wal.specs.Disk.{HasCause};

use crate::WalError;

/// The bytes of a log as it is found at a start, from the first on.
pub trait Source {
    /// The bytes that were read so far.
    ghost given: { Self → List ℕ };

    /// Whether all of the log's bytes were read.
    ghost at_end: { Self → Type 0 };

    /// How often reading has failed.
    ghost failures: { Self → ℕ };

    /// Reads the next bytes into the front of `piece`, and answers how many. Where `piece` has room
    /// it answers 0 at the end of the log alone.
    fn read(&mut self, piece: &mut [u8]) -> Result<usize, WalError>
        ensures within { IfOk result (λ n. n ≤ length piece.new) }
        ensures read { IfOk result (λ n. given self.new ≡ given self.old ++ take n piece.new) }
        ensures end { IfOk result (λ n. n ≡ 0 → 0 < length piece.new → at_end self.new) }
        ensures cause { HasCause (failures self.old) (failures self.new) result };
}
