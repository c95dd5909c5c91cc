//! Taking the records of a log again.
ghost use Rattle.std.specs.Prelude.{List, ℕ, OnOk, OnErr};

use crate::Stopped;

/// Who takes the records of a log again, each once, the oldest first.
pub trait Replay {
    /// What taking this payload makes of it.
    ghost replays: { Self → List ℕ → Self → Type 0 };

    /// Whether it has stopped.
    ghost has_stopped: { Self → Type 0 };

    /// Takes the payload of the next record. After `Stopped` it is given no more.
    fn replay(&mut self, payload: &[u8]) -> Result<(), Stopped>
        ensures replayed { OnOk result (replays self.old payload.now self.new) }
        ensures stopped { OnErr result (has_stopped self.new) };
}
