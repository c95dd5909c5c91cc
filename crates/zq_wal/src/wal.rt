//! A log: records that are appended, and synced many at a time.
ghost use Rattle.std.specs.Prelude.{◌≡◌, ◌≤◌, ◌<◌, ◌^◌, ◌++◌, ◌∷◌, [], List, None, Some, ℕ, length, IfOk, IfSome, IsSome, OnOk, IsErrOf, false};
ghost use Rattle.zq_wal.specs.Disk.{LeavesOnly, Only};
ghost use Rattle.zq_wal.specs.Format.{encoded, file_of, floor_of, is_corrupt, payload_over, recovered};
ghost use Rattle.zq_wal.specs.Wal.{AreFloors, IsLog, Keeps, KeepsEither};

use crate::record::encode;
use crate::{Behind, Committed, Disk, WalError};
use std::alloc::{AllocError, Global};

/// How many records a file has at most.
const MAX_RECORDS: usize = 1 << 60;

/// A log over a disk. After an error nothing more may be asked of it: recover it from the disk
/// again.
///
/// Its fields are what a caller may read; they are changed through the calls alone.
#[derive(Drop)]
pub struct Wal<D: Disk> {
    pub disk: D,
    /// How many records there are.
    pub count: usize,
    /// How many of them a crash leaves in any case.
    pub synced: usize,
    /// How many records the next file has, where one has been begun.
    pub next: Option<usize>,
}

/// These bytes behind the number of the records that were synced.
fn payload_of(alloc: Global, synced: usize, body: &[u8]) -> Result<Vec<u8>, AllocError>
    ensures { IfOk result (λ payload. payload.items ≡ payload_over synced body.now) }
{
    let mut payload = Vec::new(alloc);
    payload.extend_from_slice(&(synced as u64).to_be_bytes())?;
    payload.extend_from_slice(body)?;
    Ok(payload)
}

impl<D: Disk> Wal<D> {
    /// Adds a record of this payload. Until a sync a crash may lose it, and all behind it.
    fn append(&mut self, alloc: Global, payload: &[u8]) -> Result<(), WalError>
        requires log { IsLog D.seen D.staged D.may_leave self.old }
        requires floor { floor_of payload.now ≤ self.old.synced }

        ensures appended { OnOk result (IsLog D.seen D.staged D.may_leave self.new) }
        ensures record { OnOk result (recovered (D.seen self.new.disk)
            ≡ recovered (D.seen self.old.disk) ++ payload.now ∷ []) }
        ensures synced { self.new.synced ≡ self.old.synced }
        ensures next { (self.new.next ≡ self.old.next)
            × (D.staged self.new.disk ≡ D.staged self.old.disk) }

        // A crash at any moment of the call leaves the records up to some one, those that were
        // synced at least.
        ensures any_moment { LeavesOnly D.moment D.left_since self.old.disk self.new.disk
            (Keeps (recovered (D.seen self.old.disk) ++ payload.now ∷ []) self.old.synced) }

        ensures faults { D.faults self.old.disk ≤ D.faults self.new.disk }
        ensures failed { IsErrOf result WalError.Failed →
            D.faults self.old.disk < D.faults self.new.disk }
        ensures full { IsErrOf result WalError.Full → 2 ^ 60 ≤ self.old.count }
        ensures sound { (IsErrOf result WalError.Corrupt → ⊥)
            × (IsErrOf result WalError.Stopped → ⊥) }
    {
        if self.count >= MAX_RECORDS {
            return Err(WalError::Full);
        }
        let mut bytes = Vec::new(alloc);
        encode(&mut bytes, payload)?;
        self.disk.append(&bytes)?;
        self.count += 1;
        Ok(())
    }

    /// Adds a record of these bytes, behind the number of the records that are synced. Until a sync
    /// a crash may lose it, and all behind it. `Full`: there are 2^60 records.
    pub fn add(&mut self, alloc: Global, body: &[u8]) -> Result<(), WalError>
        requires { IsLog D.seen D.staged D.may_leave self.old }

        ensures added { OnOk result (IsLog D.seen D.staged D.may_leave self.new) }
        ensures record { OnOk result (recovered (D.seen self.new.disk)
            ≡ recovered (D.seen self.old.disk) ++ payload_over self.old.synced body.now ∷ []) }
        ensures synced { self.new.synced ≡ self.old.synced }
        ensures next { (self.new.next ≡ self.old.next)
            × (D.staged self.new.disk ≡ D.staged self.old.disk) }

        // A crash at any moment of the call leaves the records up to some one, those that were
        // synced at least.
        ensures any_moment { LeavesOnly D.moment D.left_since self.old.disk self.new.disk
            (Keeps (recovered (D.seen self.old.disk) ++ payload_over self.old.synced body.now ∷ [])
            self.old.synced) }

        ensures faults { D.faults self.old.disk ≤ D.faults self.new.disk }
        ensures failed { IsErrOf result WalError.Failed →
            D.faults self.old.disk < D.faults self.new.disk }
        ensures full { IsErrOf result WalError.Full → 2 ^ 60 ≤ self.old.count }
        ensures sound { (IsErrOf result WalError.Corrupt → ⊥)
            × (IsErrOf result WalError.Stopped → ⊥) }
    {
        let payload = payload_of(alloc, self.synced, body)?;
        self.append(alloc, &payload)
    }

    /// Adds a record of these bytes and syncs. At `Ok` it is acknowledged: from then on each crash
    /// leaves it. `Full`: there are 2^60 records.
    pub fn commit(&mut self, alloc: Global, body: &[u8]) -> Result<(), WalError>
        requires { IsLog D.seen D.staged D.may_leave self.old }

        ensures log { OnOk result (IsLog D.seen D.staged D.may_leave self.new) }
        ensures record { OnOk result (recovered (D.seen self.new.disk)
            ≡ recovered (D.seen self.old.disk) ++ payload_over self.old.synced body.now ∷ []) }
        ensures acknowledged { OnOk result
            (self.new.synced ≡ length (recovered (D.seen self.new.disk))) }
        ensures next { (self.new.next ≡ self.old.next)
            × (D.staged self.new.disk ≡ D.staged self.old.disk) }

        // A crash at any moment of the call leaves the records from before that were synced, and
        // any number of those behind them.
        ensures any_moment { LeavesOnly D.moment D.left_since self.old.disk self.new.disk
            (Keeps (recovered (D.seen self.old.disk) ++ payload_over self.old.synced body.now ∷ [])
            self.old.synced) }

        ensures failed { IsErrOf result WalError.Failed →
            D.faults self.old.disk < D.faults self.new.disk }
        ensures full { IsErrOf result WalError.Full → 2 ^ 60 ≤ self.old.count }
        ensures sound { (IsErrOf result WalError.Corrupt → ⊥)
            × (IsErrOf result WalError.Stopped → ⊥) }
    {
        self.add(alloc, body)?;
        self.sync()
    }

    /// `commit`, which gives the bytes back as ones that are committed.
    pub fn commit_bytes(&mut self, alloc: Global, body: Vec<u8>) -> Result<Committed, WalError>
        requires { IsLog D.seen D.staged D.may_leave self.old }

        ensures log { OnOk result (IsLog D.seen D.staged D.may_leave self.new) }
        ensures body { IfOk result (λ committed. committed ≡ body.items) }
        ensures record { OnOk result (recovered (D.seen self.new.disk)
            ≡ recovered (D.seen self.old.disk) ++ payload_over self.old.synced body.items ∷ []) }
        ensures acknowledged { OnOk result
            (self.new.synced ≡ length (recovered (D.seen self.new.disk))) }
        ensures next { (self.new.next ≡ self.old.next)
            × (D.staged self.new.disk ≡ D.staged self.old.disk) }

        ensures any_moment { LeavesOnly D.moment D.left_since self.old.disk self.new.disk
            (Keeps
            (recovered (D.seen self.old.disk) ++ payload_over self.old.synced body.items ∷ [])
            self.old.synced) }

        ensures failed { IsErrOf result WalError.Failed →
            D.faults self.old.disk < D.faults self.new.disk }
        ensures full { IsErrOf result WalError.Full → 2 ^ 60 ≤ self.old.count }
        ensures sound { (IsErrOf result WalError.Corrupt → ⊥)
            × (IsErrOf result WalError.Stopped → ⊥) }
    {
        self.commit(alloc, &body)?;
        Ok(Committed::of(body))
    }

    /// After it a crash leaves all the records.
    pub fn sync(&mut self) -> Result<(), WalError>
        requires { IsLog D.seen D.staged D.may_leave self.old }

        ensures log { OnOk result (IsLog D.seen D.staged D.may_leave self.new) }
        ensures synced { OnOk result (self.new.synced ≡ self.new.count) }
        ensures count { self.new.count ≡ self.old.count }
        ensures seen { D.seen self.new.disk ≡ D.seen self.old.disk }
        ensures next { (self.new.next ≡ self.old.next)
            × (D.staged self.new.disk ≡ D.staged self.old.disk) }

        ensures any_moment { LeavesOnly D.moment D.left_since self.old.disk self.new.disk
            (Keeps (recovered (D.seen self.old.disk)) self.old.synced) }

        ensures failed { IsErrOf result WalError.Failed →
            D.faults self.old.disk < D.faults self.new.disk }
        ensures sound { (IsErrOf result WalError.Corrupt → ⊥)
            × (IsErrOf result WalError.Full → ⊥) × (IsErrOf result WalError.Stopped → ⊥) }
    {
        self.disk.sync()?;
        self.synced = self.count;
        Ok(())
    }

    /// Has room on the disk for so many bytes more behind the end of the log, or of the next file,
    /// which need not be begun, and says whether it has. The log and the next file stay as they are,
    /// with an `Err` too.
    pub fn room(&mut self, behind: Behind, bytes: u64) -> Result<bool, WalError>
        requires { IsLog D.seen D.staged D.may_leave self.old }

        ensures log { IsLog D.seen D.staged D.may_leave self.new }
        ensures seen { D.seen self.new.disk ≡ D.seen self.old.disk }
        ensures staged { D.staged self.new.disk ≡ D.staged self.old.disk }
        ensures left { (c : List ℕ) →
            D.may_leave self.new.disk c → D.may_leave self.old.disk c }
        ensures left_next { (c : List ℕ) →
            D.staged_may_leave self.new.disk c → D.staged_may_leave self.old.disk c }
        ensures same { (self.new.count ≡ self.old.count) × (self.new.synced ≡ self.old.synced)
            × (self.new.next ≡ self.old.next) }

        ensures any_moment { LeavesOnly D.moment D.left_since self.old.disk self.new.disk
            (Keeps (recovered (D.seen self.old.disk)) self.old.synced) }

        ensures faults { OnOk result (D.faults self.new.disk ≡ D.faults self.old.disk) }
        ensures failed { IsErrOf result WalError.Failed →
            D.faults self.old.disk < D.faults self.new.disk }
        ensures sound { (IsErrOf result WalError.Corrupt → ⊥)
            × (IsErrOf result WalError.Full → ⊥) × (IsErrOf result WalError.Stopped → ⊥) }
    {
        self.disk.room(behind, bytes)
    }

    /// A log whose records are these many, all of them synced.
    pub(crate) fn new(disk: D, count: usize) -> Wal<D>
        requires file { D.seen disk ≡ file_of (recovered (D.seen disk)) }
        requires count { count ≡ length (recovered (D.seen disk)) }
        requires sound { is_corrupt (D.seen disk) ≡ false }
        requires durable { Only (D.seen disk) (D.may_leave disk) }
        ensures log { IsLog D.seen D.staged D.may_leave result }
        ensures disk { result.disk ≡ disk }
        ensures synced { result.synced ≡ count }
    {
        Wal {
            disk,
            count,
            synced: count,
            next: None,
        }
    }

    /// Begins the next file, empty. One that was begun before is gone. The log stays as it is.
    pub fn begin_next(&mut self) -> Result<(), WalError>
        requires { IsLog D.seen D.staged D.may_leave self.old }

        ensures log { OnOk result (IsLog D.seen D.staged D.may_leave self.new) }
        ensures begun { OnOk result ((self.new.next ≡ Some 0) × (D.staged self.new.disk ≡ [])) }
        ensures seen { D.seen self.new.disk ≡ D.seen self.old.disk }
        ensures same { (self.new.count ≡ self.old.count) × (self.new.synced ≡ self.old.synced) }

        ensures any_moment { LeavesOnly D.moment D.left_since self.old.disk self.new.disk
            (Keeps (recovered (D.seen self.old.disk)) self.old.synced) }

        ensures failed { IsErrOf result WalError.Failed →
            D.faults self.old.disk < D.faults self.new.disk }
        ensures sound { (IsErrOf result WalError.Corrupt → ⊥)
            × (IsErrOf result WalError.Full → ⊥) × (IsErrOf result WalError.Stopped → ⊥) }
    {
        self.disk.begin_next()?;
        self.next = Some(0);
        Ok(())
    }

    /// Adds a record of these bytes to the next file. The log stays as it is. `Full`: the next file
    /// has 2^60 records.
    pub fn add_next(&mut self, alloc: Global, body: &[u8]) -> Result<(), WalError>
        requires log { IsLog D.seen D.staged D.may_leave self.old }
        requires begun { IsSome self.old.next }

        ensures log { OnOk result (IsLog D.seen D.staged D.may_leave self.new) }
        ensures begun { OnOk result (IsSome self.new.next) }
        ensures record { OnOk result (recovered (D.staged self.new.disk)
            ≡ recovered (D.staged self.old.disk) ++ payload_over 0 body.now ∷ []) }
        ensures seen { D.seen self.new.disk ≡ D.seen self.old.disk }
        ensures same { (self.new.count ≡ self.old.count) × (self.new.synced ≡ self.old.synced) }

        ensures any_moment { LeavesOnly D.moment D.left_since self.old.disk self.new.disk
            (Keeps (recovered (D.seen self.old.disk)) self.old.synced) }

        ensures failed { IsErrOf result WalError.Failed →
            D.faults self.old.disk < D.faults self.new.disk }
        ensures full { IsErrOf result WalError.Full →
            IfSome self.old.next (λ count. 2 ^ 60 ≤ count) }
        ensures sound { (IsErrOf result WalError.Corrupt → ⊥)
            × (IsErrOf result WalError.Stopped → ⊥) }
    {
        let count = self.next.unwrap();
        if count >= MAX_RECORDS {
            return Err(WalError::Full);
        }
        let payload = payload_of(alloc, 0, body)?;
        let mut bytes = Vec::new(alloc);
        encode(&mut bytes, &payload)?;
        self.disk.append_next(&bytes)?;
        self.next = Some(count + 1);
        Ok(())
    }

    /// Brings what is written of the next file to the disk, so that less is left for
    /// `publish_next`. Nothing else changes, with an `Err` too.
    pub fn sync_next(&mut self) -> Result<(), WalError>
        requires { IsLog D.seen D.staged D.may_leave self.old }

        ensures log { IsLog D.seen D.staged D.may_leave self.new }
        ensures durable { OnOk result
            (Only (D.staged self.old.disk) (D.staged_may_leave self.new.disk)) }
        ensures staged { D.staged self.new.disk ≡ D.staged self.old.disk }
        ensures seen { D.seen self.new.disk ≡ D.seen self.old.disk }
        ensures same { (self.new.count ≡ self.old.count) × (self.new.synced ≡ self.old.synced)
            × (self.new.next ≡ self.old.next) }

        ensures any_moment { LeavesOnly D.moment D.left_since self.old.disk self.new.disk
            (Keeps (recovered (D.seen self.old.disk)) self.old.synced) }

        ensures failed { IsErrOf result WalError.Failed →
            D.faults self.old.disk < D.faults self.new.disk }
        ensures sound { (IsErrOf result WalError.Corrupt → ⊥)
            × (IsErrOf result WalError.Full → ⊥) × (IsErrOf result WalError.Stopped → ⊥) }
    {
        self.disk.sync_next()
    }

    /// Puts the next file in the log's place: its records are the log's from then on, all of them
    /// synced.
    pub fn publish_next(&mut self) -> Result<(), WalError>
        requires log { IsLog D.seen D.staged D.may_leave self.old }
        requires begun { IsSome self.old.next }

        ensures log { OnOk result (IsLog D.seen D.staged D.may_leave self.new) }
        ensures seen { OnOk result (D.seen self.new.disk ≡ D.staged self.old.disk) }
        ensures synced { OnOk result (self.new.synced ≡ self.new.count) }
        ensures next { OnOk result (self.new.next ≡ None) }

        // A crash at any moment leaves the records from before, or those of the next file, all of
        // them.
        ensures any_moment { LeavesOnly D.moment D.left_since self.old.disk self.new.disk
            (KeepsEither (recovered (D.seen self.old.disk)) self.old.synced
            (recovered (D.staged self.old.disk))) }

        ensures failed { IsErrOf result WalError.Failed →
            D.faults self.old.disk < D.faults self.new.disk }
        ensures sound { (IsErrOf result WalError.Corrupt → ⊥)
            × (IsErrOf result WalError.Full → ⊥) × (IsErrOf result WalError.Stopped → ⊥) }
    {
        let count = self.next.unwrap();
        self.disk.sync_next()?;
        self.disk.publish_next()?;
        self.disk.sync()?;
        self.count = count;
        self.synced = count;
        self.next = None;
        Ok(())
    }
}
