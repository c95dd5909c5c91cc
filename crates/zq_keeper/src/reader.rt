//! Reading the records of a log again.

ghost use Rattle.std.specs.Prelude.{IfOk, IsSome, OnOk, ◌≡◌};
ghost use Rattle.zq_keeper.specs.Read.{IsBlank, Reads};
ghost use Rattle.zq_model.specs.Sets.{IsHeaps};

use std::alloc::{AllocError, Global};
use zq_entries::read_entry;
use zq_posheap::Seeded;
use zq_recovery::{Identity, Recovery, Refusal};
use zq_wal::{Replay, Stopped, body};

/// A site's heaps as far as its log was read.
#[derive(Drop)]
pub struct Reader {
    pub recovery: Recovery,
}

impl Reader {
    /// Nothing was read yet.
    pub fn new(alloc: Global, identity: Identity, hasher: Seeded) -> Result<Reader, AllocError>
        requires { IsHeaps identity.heaps }
        ensures blank { IfOk result IsBlank }
        ensures identity { IfOk result (λ r. r.recovery.identity ≡ identity) }
    {
        let recovery = Recovery::new(alloc, identity, hasher)?;
        Ok(Reader { recovery })
    }

    /// Takes the entry of a record's payload.
    fn take(&mut self, payload: &[u8]) -> Result<(), Refusal>
        ensures taken { OnOk result (Reads self.old payload.now self.new) }
        ensures refusal { self.new.recovery.refusal ≡ self.old.recovery.refusal }
    {
        match read_entry(self.recovery.alloc, body(payload), self.recovery.hasher) {
            Ok(entry) => self.recovery.take(entry),
            Err(fault) => Err(Refusal::Entry(fault)),
        }
    }
}

impl Replay for Reader {
    ghost replays = { Reads };

    ghost has_stopped = { λ r. IsSome r.recovery.refusal };

    fn replay(&mut self, payload: &[u8]) -> Result<(), Stopped> {
        match self.take(payload) {
            Ok(()) => Ok(()),
            Err(refusal) => {
                self.recovery.refusal = Some(refusal);
                Err(Stopped)
            }
        }
    }
}
