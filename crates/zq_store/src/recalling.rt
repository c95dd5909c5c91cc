//! Reading the log of a site again, with the operations for its peers.

ghost use Rattle.std.specs.Prelude.{IsSome, OnOk, ◌≡◌};
ghost use Rattle.zq_keeper.specs.Read.{Reads};

use crate::read_so_far::ReadSoFar;
use std::sync::Wait;
use zq_entries::{Entry, read_entry};
use zq_keeper::Reader;
use zq_recovery::Refusal;
use zq_replica::Logs;
use zq_wal::{Replay, Stopped, body};

/// Reading the records of a site's log again: besides, the operations of its rounds go into the
/// logs for peers, as far as these take them. So a peer that lacks the last ones is sent these
/// alone.
#[derive(Drop)]
pub(crate) struct Recalling<'a, L: Wait> {
    pub(crate) rt: &'a L,
    pub(crate) logs: &'a Logs,
    pub(crate) so_far: &'a ReadSoFar,
    pub(crate) reader: Reader,
}

impl<L: Wait> Recalling<'_, L> {
    /// Takes the entry of a record's payload.
    fn take(&mut self, payload: &[u8]) -> Result<(), Refusal>
        ensures taken { OnOk result (Reads self.old.reader payload.now self.new.reader) }
        ensures refusal { self.new.reader.recovery.refusal ≡ self.old.reader.recovery.refusal }
    {
        let (alloc, hasher) = (self.reader.recovery.alloc, self.reader.recovery.hasher);
        match read_entry(alloc, body(payload), hasher) {
            Ok(entry) => {
                recall(self.rt, self.logs, &entry);
                self.reader.recovery.take(entry)
            }
            Err(fault) => Err(Refusal::Entry(fault)),
        }
    }
}

/// The operations of a round go into the logs.
fn recall<L: Wait>(rt: &L, logs: &Logs, entry: &Entry) {
    if let Entry::Round(batches) = entry {
        for batch in batches {
            logs.recall(rt, batch.ops());
        }
    }
}

impl<L: Wait> Replay for Recalling<'_, L> {
    ghost replays = { λ before payload after. Reads before.reader payload after.reader };

    ghost has_stopped = { λ r. IsSome r.reader.recovery.refusal };

    fn replay(&mut self, payload: &[u8]) -> Result<(), Stopped> {
        self.so_far.add(payload.len());
        match self.take(payload) {
            Ok(()) => Ok(()),
            Err(refusal) => {
                self.reader.recovery.refusal = Some(refusal);
                Err(Stopped)
            }
        }
    }
}
