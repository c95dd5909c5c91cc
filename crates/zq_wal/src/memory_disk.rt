//! A disk in memory, for tests. What is not synced a crash may drop.
ghost use Rattle.std.specs.Prelude.{◌≡◌, ◌⊎◌, ◌++◌, ◌∷◌, [], length, IfOk, OnErr, OnOk};
ghost use Rattle.std.proofs.Common.{inl};
ghost use Rattle.zq_wal.specs.Disk.{HasCause, Only};
ghost use Rattle.zq_wal.specs.Image.{LeftNow, LeftOf, LeftSince, bytes_of, only_left_now};

use crate::{Behind, Disk, Image, WalError};
use std::alloc::{AllocError, Global};

/// A disk in memory. It does a number of calls, and then each call fails; what such a call did is
/// not known, as of any disk.
#[derive(Drop)]
pub struct MemoryDisk {
    pub alloc: Global,
    /// The log.
    pub log: Image,
    /// What the log was before it was cut or another took its name, where that is not synced.
    pub elders: Vec<Image>,
    /// The next file.
    pub next: Image,
    /// What a crash might have left at earlier moments.
    pub past: Vec<Image>,
    /// Whether it has no room for anything more, which `room` alone looks at.
    pub is_full: bool,
    /// How many calls it still does.
    pub calls: u64,
    /// How often it has failed.
    pub faults: u64,
}

impl MemoryDisk {
    /// A log of these bytes, all of them on the disk, which does so many calls.
    pub fn new(alloc: Global, bytes: Vec<u8>, calls: u64) -> MemoryDisk
        ensures log { bytes_of result.log ≡ bytes.items }
        ensures durable { Only (bytes_of result.log) (LeftNow result.log result.elders.items) }
    {
        MemoryDisk {
            alloc,
            log: Image::of(alloc, bytes),
            elders: Vec::new(alloc),
            next: Image::of(alloc, Vec::new(alloc)),
            past: Vec::new(alloc),
            is_full: false,
            calls,
            faults: 0,
        }
    }

    /// What a crash now leaves: of the log, or of the elder of this number, counted from 0 on.
    /// `kept` is that of `Image::torn`.
    pub fn crash(&self, elder: Option<usize>, kept: &[bool]) -> Result<Vec<u8>, AllocError>
        ensures { IfOk result (λ left. LeftNow self.now.log self.now.elders.items left.items) }
    {
        match elder {
            Some(number) if number < self.elders.len() => {
                self.elders[number].torn(self.alloc, kept)
            }
            _ => self.log.torn(self.alloc, kept),
        }
    }

    /// The log as it is becomes an elder, and this is the log.
    fn replace(&mut self, log: Image) -> Result<(), AllocError>
        ensures log { OnOk result (self.new.log ≡ log) }
        ensures elders { OnOk result ((old : Image) × (old.firm.items ≡ self.old.log.firm.items)
            × (old.loose.items ≡ self.old.log.loose.items)
            × (self.new.elders.items ≡ self.old.elders.items ++ old ∷ [])) }
        ensures refused { OnErr result ((self.new.log ≡ self.old.log)
            × (self.new.elders.items ≡ self.old.elders.items)) }
        ensures same { (self.new.next ≡ self.old.next) × (self.new.past ≡ self.old.past)
            × (self.new.faults ≡ self.old.faults) }
    {
        let old = self.log.copy(self.alloc)?;
        self.elders.push(old)?;
        self.log = log;
        Ok(())
    }
}

/// Whether a disk still does a call. One that does not has failed.
pub(crate) fn spend(calls: &mut u64, faults: &mut u64) -> Result<(), WalError>
    ensures cause { HasCause faults.old faults.new result }
    ensures same { OnOk result (faults.new ≡ faults.old) }
{
    if *calls > 0 || *faults == u64::MAX {
        *calls = calls.saturating_sub(1);
        return Ok(());
    }
    *faults += 1;
    Err(WalError::Failed)
}

impl Disk for MemoryDisk {
    ghost seen = { λ m. bytes_of m.log };

    ghost may_leave = { λ m c. LeftNow m.log m.elders.items c };

    ghost staged = { λ m. bytes_of m.next };

    ghost staged_may_leave = { λ m c. LeftOf m.next c };

    ghost moment = { λ m. length m.past.items };

    ghost left_since = { λ m t c. LeftSince m.log m.elders.items m.past.items t c };

    ghost faults = { λ m. m.faults };

    ghost counts_now = { λ m t c le now. inl now };

    ghost only_now = { λ m c left. only_left_now m.log m.elders.items m.past.items c left };

    fn append(&mut self, bytes: &[u8]) -> Result<(), WalError> {
        self.log.loose.extend_from_slice(bytes)?;
        spend(&mut self.calls, &mut self.faults)
    }

    fn cut(&mut self, len: usize) -> Result<(), WalError> {
        let shorter = self.log.front(self.alloc, len)?;
        self.replace(shorter)?;
        spend(&mut self.calls, &mut self.faults)
    }

    fn sync(&mut self) -> Result<(), WalError> {
        spend(&mut self.calls, &mut self.faults)?;
        let whole = self.log.contents(self.alloc)?;
        let old = self.log.copy(self.alloc)?;
        self.past.push(old)?;
        self.past.append(&mut self.elders)?;
        self.log = Image::of(self.alloc, whole);
        Ok(())
    }

    fn begin_next(&mut self) -> Result<(), WalError> {
        self.next = Image::of(self.alloc, Vec::new(self.alloc));
        spend(&mut self.calls, &mut self.faults)
    }

    fn append_next(&mut self, bytes: &[u8]) -> Result<(), WalError> {
        self.next.loose.extend_from_slice(bytes)?;
        spend(&mut self.calls, &mut self.faults)
    }

    fn sync_next(&mut self) -> Result<(), WalError> {
        spend(&mut self.calls, &mut self.faults)?;
        let whole = self.next.contents(self.alloc)?;
        self.next = Image::of(self.alloc, whole);
        Ok(())
    }

    fn publish_next(&mut self) -> Result<(), WalError> {
        let whole = self.next.copy(self.alloc)?;
        self.replace(whole)?;
        spend(&mut self.calls, &mut self.faults)
    }

    fn room(&mut self, _behind: Behind, _bytes: u64) -> Result<bool, WalError> {
        spend(&mut self.calls, &mut self.faults)?;
        Ok(!self.is_full)
    }
}
