//! How the records of a log are taken.

ghost use Rattle.std.specs.Prelude.{IsSome, OnOk, ◌≡◌};
ghost use Rattle.zq_recovery.specs.Replayed.{Replays};

use crate::recovery::Recovery;
use crate::refusal::Refusal;
use zq_entries::read_entry;
use zq_wal::{Replay, Stopped, body};

impl Recovery {
    /// Takes the entry of a record's payload.
    fn take_payload(&mut self, payload: &[u8]) -> Result<(), Refusal>
        ensures taken { OnOk result (Replays self.old payload.now self.new) }
        ensures refusal { self.new.refusal ≡ self.old.refusal }
    {
        match read_entry(self.alloc, body(payload), self.hasher) {
            Ok(entry) => self.take(entry),
            Err(fault) => Err(Refusal::Entry(fault)),
        }
    }
}

impl Replay for Recovery {
    ghost replays = { Replays };

    ghost has_stopped = { λ r. IsSome r.refusal };

    fn replay(&mut self, payload: &[u8]) -> Result<(), Stopped> {
        match self.take_payload(payload) {
            Ok(()) => Ok(()),
            Err(refusal) => {
                self.refusal = Some(refusal);
                Err(Stopped)
            }
        }
    }
}
