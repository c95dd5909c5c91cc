//! Taking the records of a log again, of which it is not known whose it is.

ghost use Rattle.std.specs.Prelude.{IfOk, IsSome, None, OnErr, OnOk, ◌≡◌};
ghost use Rattle.zq_keeper.specs.Read.{IsBlank};

use std::alloc::Global;
use zq_dots::fnv1a64;
use zq_entries::{Entry, read_entry};
use zq_keeper::Reader;
use zq_posheap::Seeded;
use zq_recovery::{Identity, Refusal};
use zq_wal::{Replay, Stopped, body, floor};

/// The records of a log as far as they were taken again. The first one says whose log it is.
#[derive(Drop)]
pub struct Recall {
    alloc: Global,
    hasher: Seeded,
    /// The site's heaps, and `None` before the first record.
    pub reader: Option<Reader>,
    /// Why it takes no more.
    pub refusal: Option<Refusal>,
    /// How many records were taken, and how many bytes these have in the log.
    pub records: u64,
    pub bytes: u64,
    /// Where the first record begins that was written behind more records than stand before it.
    pub late: Option<u64>,
}

/// A reader of the site whose first record has this payload, before it has taken that: `NoStart`
/// where it is none of a start.
fn blank(alloc: Global, payload: &[u8], hasher: Seeded) -> Result<Reader, Refusal>
    ensures { IfOk result IsBlank }
{
    let entry = match read_entry(alloc, body(payload), hasher) {
        Ok(entry) => entry,
        Err(fault) => return Err(Refusal::Entry(fault)),
    };
    let identity = match &entry {
        Entry::Start(start) => Identity {
            site: start.site,
            heaps: start.heaps,
            rule: start.rule,
        },
        _ => return Err(Refusal::NoStart),
    };
    match Reader::new(alloc, identity, hasher) {
        Ok(reader) => Ok(reader),
        Err(_) => Err(Refusal::NoMemory),
    }
}

/// How many bytes these have once they are escaped.
fn escaped_len(bytes: &[u8]) -> u64 {
    let mut len: u64 = 0;
    for byte in bytes {
        len = len.saturating_add(if matches!(*byte, 0 | 254 | 255) { 2 } else { 1 });
    }
    len
}

/// How many bytes the record of this payload has in a log.
fn record_len(payload: &[u8]) -> u64 {
    let sum = fnv1a64(payload).to_be_bytes();
    escaped_len(&sum)
        .saturating_add(escaped_len(payload))
        .saturating_add(1)
}

impl Recall {
    ghost use Rattle.zq_inspect.specs.Recalled.{Recalls};

    /// No record was taken.
    pub(crate) fn new(alloc: Global, hasher: Seeded) -> Recall
        ensures { result.reader ≡ None }
    {
        Recall {
            alloc,
            hasher,
            reader: None,
            refusal: None,
            records: 0,
            bytes: 0,
            late: None,
        }
    }

    /// The heaps so far, or of a site of which nothing was read, where this payload is of the first
    /// record.
    fn before(&mut self, payload: &[u8]) -> Result<Reader, Refusal>
        ensures first { self.old.reader ≡ None → IfOk result IsBlank }
        ensures later { IfOk result (λ r. IsSome self.old.reader → self.old.reader ≡ Some r) }
    {
        match self.reader.take() {
            Some(reader) => Ok(reader),
            None => blank(self.alloc, payload, self.hasher),
        }
    }

    /// Takes the entry of a record's payload.
    fn take(&mut self, payload: &[u8]) -> Result<(), Stopped>
        ensures taken { OnOk result (Recalls self.old payload.now self.new) }
        ensures stopped { OnErr result (IsSome self.new.refusal) }
    {
        let mut reader = match self.before(payload) {
            Ok(reader) => reader,
            Err(refusal) => {
                self.refusal = Some(refusal);
                return Err(Stopped);
            }
        };
        let taken = reader.replay(payload);
        self.refusal = reader.recovery.refusal;
        self.reader = Some(reader);
        taken
    }

    /// A record was taken that has this payload.
    fn count(&mut self, payload: &[u8])
        ensures { self.new.reader ≡ self.old.reader }
    {
        if self.late.is_none() && self.records < floor(payload) {
            self.late = Some(self.bytes);
        }
        self.records = self.records.saturating_add(1);
        self.bytes = self.bytes.saturating_add(record_len(payload));
    }
}

impl Replay for Recall {
    ghost use Rattle.zq_inspect.specs.Recalled.{Recalls};

    ghost replays = { Recalls };

    ghost has_stopped = { λ r. IsSome r.refusal };

    fn replay(&mut self, payload: &[u8]) -> Result<(), Stopped> {
        self.take(payload)?;
        self.count(payload);
        Ok(())
    }
}
