//! How entries are written. A call of the log that fails stops the keeper.

ghost use Rattle.std.specs.Prelude.{IfErr, IfOk, IsSome, None, OnErr, OnOk, Some, [], length, true, ◌++◌, ◌∷◌, ◌≡◌, ◌⊎◌};
ghost use Rattle.zq_keeper.specs.Keeper.{HasFailed, IsKeeper, IsSameSite, IsStartOf, IsStill, Leaves};
ghost use Rattle.zq_keeper.specs.Outline.{AreAllWhole, AreCounted, Cover};
ghost use Rattle.zq_keeper.specs.Read.{IsReadAs};
ghost use Rattle.zq_wal.specs.Disk.{LeavesOnly, Only};
ghost use Rattle.zq_wal.specs.Format.{payload_over, recovered};

use crate::fault::KeeperFault;
use crate::keeper::Keeper;
use crate::outline::Outline;
use crate::turn::{Share, Turn};
use std::alloc::Global;
use zq_wal::{Committed, Disk};

impl<D: Disk> Keeper<D> {
    /// Commits an entry, after which the log is read as the turn says of the site.
    pub(crate) fn keep(&mut self, alloc: Global, turn: Turn) -> Result<Committed, KeeperFault>
        requires keeper { IsKeeper D.seen D.staged D.may_leave self.old }
        requires read { let payloads = recovered (D.seen self.old.wal.disk) in
            IsReadAs self.old.identity
            (payloads ++ payload_over (length payloads) turn.entry.items ∷ []) (Some turn.start)
            turn.heaps.items }
        requires start { IsStartOf self.old.identity turn.start }
        requires whole { AreAllWhole turn.heaps.items }
        requires covers { Cover turn.heaps.items self.old.heaps.items }
        requires next { (self.old.next ≡ None) ⊎ (self.old.start ≡ Some turn.start) }

        ensures keeper { OnOk result (IsKeeper D.seen D.staged D.may_leave self.new) }
        ensures body { IfOk result (λ committed. committed ≡ turn.entry.items) }
        ensures record { OnOk result (let payloads = recovered (D.seen self.old.wal.disk) in
            recovered (D.seen self.new.wal.disk)
            ≡ payloads ++ payload_over (length payloads) turn.entry.items ∷ []) }
        ensures start { OnOk result (self.new.start ≡ Some turn.start) }
        ensures heaps { OnOk result (self.new.heaps ≡ turn.heaps) }
        ensures begun { OnOk result (self.new.begun ≡ true) }
        ensures going { OnOk result (self.new.stopped ≡ self.old.stopped) }
        ensures identity { self.new.identity ≡ self.old.identity }
        ensures next { self.new.next ≡ self.old.next }
        ensures still { OnErr result (IsStill self.old self.new) }

        // A crash at any moment leaves the records from before, or these and the entry.
        ensures any_moment { let payloads = recovered (D.seen self.old.wal.disk) in
            LeavesOnly D.moment D.left_since self.old.wal.disk self.new.wal.disk
            (Leaves self.old.identity self.old.heaps.items payloads
            (payloads ++ payload_over (length payloads) turn.entry.items ∷ [])) }
        ensures failed { IfErr result (HasFailed self.new) }
    {
        let Turn {
            entry,
            start,
            heaps,
        } = turn;
        let bytes = entry.len();
        match self.wal.commit_bytes(alloc, entry) {
            Ok(committed) => {
                self.size.add(bytes);
                self.start = Some(start);
                self.heaps = heaps;
                self.begun = true;
                Ok(committed)
            }
            Err(error) => {
                self.stopped = true;
                Err(KeeperFault::Failed(error))
            }
        }
    }

    /// Begins the next file, in which nothing is.
    pub(crate) fn open_next(&mut self) -> Result<(), KeeperFault>
        requires { IsKeeper D.seen D.staged D.may_leave self.old }
        ensures keeper { OnOk result (IsKeeper D.seen D.staged D.may_leave self.new) }
        ensures file { OnOk result (IsSome self.new.wal.next) }
        ensures staged { OnOk result (D.staged self.new.wal.disk ≡ []) }
        ensures seen { OnOk result (D.seen self.new.wal.disk ≡ D.seen self.old.wal.disk) }
        ensures going { OnOk result (self.new.stopped ≡ self.old.stopped) }
        ensures still { IsStill self.old self.new }
        ensures next { OnOk result (self.new.next ≡ None) }
        ensures any_moment { let payloads = recovered (D.seen self.old.wal.disk) in
            LeavesOnly D.moment D.left_since self.old.wal.disk self.new.wal.disk
            (Leaves self.old.identity self.old.heaps.items payloads payloads) }
        ensures failed { IfErr result (HasFailed self.new) }
    {
        match self.wal.begin_next() {
            Ok(()) => {
                self.size.begin_next();
                self.next = None;
                Ok(())
            }
            Err(error) => {
                self.stopped = true;
                Err(KeeperFault::Failed(error))
            }
        }
    }

    /// Writes an entry to the next file, which is read then as the share says of the heaps.
    pub(crate) fn keep_next(&mut self, alloc: Global, share: Share) -> Result<(), KeeperFault>
        requires keeper { IsKeeper D.seen D.staged D.may_leave self.old }
        requires file { IsSome self.old.wal.next }
        requires begun { self.old.begun ≡ true }
        requires read { IsReadAs self.old.identity
            (recovered (D.staged self.old.wal.disk) ++ payload_over 0 share.entry.items ∷ [])
            self.old.start share.next.heaps.items }
        requires counted { AreCounted share.next.heaps.items }

        ensures keeper { OnOk result (IsKeeper D.seen D.staged D.may_leave self.new) }
        ensures seen { OnOk result (D.seen self.new.wal.disk ≡ D.seen self.old.wal.disk) }
        ensures next { OnOk result (self.new.next ≡ Some share.next) }
        ensures going { OnOk result (self.new.stopped ≡ self.old.stopped) }
        ensures still { IsStill self.old self.new }
        ensures any_moment { let payloads = recovered (D.seen self.old.wal.disk) in
            LeavesOnly D.moment D.left_since self.old.wal.disk self.new.wal.disk
            (Leaves self.old.identity self.old.heaps.items payloads payloads) }
        ensures failed { IfErr result (HasFailed self.new) }
    {
        match self.wal.add_next(alloc, &share.entry) {
            Ok(()) => {
                self.size.add_next(share.entry.len());
                self.next = Some(share.next);
                Ok(())
            }
            Err(error) => {
                self.stopped = true;
                Err(KeeperFault::Failed(error))
            }
        }
    }

    /// Brings what is written of the next file to the disk.
    pub(crate) fn sync_next(&mut self) -> Result<(), KeeperFault>
        requires { IsKeeper D.seen D.staged D.may_leave self.old }
        ensures keeper { OnOk result (IsKeeper D.seen D.staged D.may_leave self.new) }
        ensures durable { OnOk result (Only (D.staged self.old.wal.disk)
            (D.staged_may_leave self.new.wal.disk)) }
        ensures seen { OnOk result (D.seen self.new.wal.disk ≡ D.seen self.old.wal.disk) }
        ensures staged { OnOk result (D.staged self.new.wal.disk ≡ D.staged self.old.wal.disk) }
        ensures next { self.new.next ≡ self.old.next }
        ensures going { OnOk result (self.new.stopped ≡ self.old.stopped) }
        ensures still { IsStill self.old self.new }
        ensures any_moment { let payloads = recovered (D.seen self.old.wal.disk) in
            LeavesOnly D.moment D.left_since self.old.wal.disk self.new.wal.disk
            (Leaves self.old.identity self.old.heaps.items payloads payloads) }
        ensures failed { IfErr result (HasFailed self.new) }
    {
        match self.wal.sync_next() {
            Ok(()) => Ok(()),
            Err(error) => {
                self.stopped = true;
                Err(KeeperFault::Failed(error))
            }
        }
    }

    /// Puts the next file in the log's place, which says of the heaps at least what the log says.
    pub(crate) fn publish_next(&mut self, heaps: Vec<Outline>) -> Result<(), KeeperFault>
        requires keeper { IsKeeper D.seen D.staged D.may_leave self.old }
        requires file { IsSome self.old.wal.next }
        requires begun { self.old.begun ≡ true }
        requires read { IsReadAs self.old.identity (recovered (D.staged self.old.wal.disk))
            self.old.start heaps.items }
        requires whole { AreAllWhole heaps.items }
        requires covers { Cover heaps.items self.old.heaps.items }

        ensures keeper { OnOk result (IsKeeper D.seen D.staged D.may_leave self.new) }
        ensures record { OnOk result (D.seen self.new.wal.disk ≡ D.staged self.old.wal.disk) }
        ensures heaps { OnOk result (self.new.heaps ≡ heaps) }
        ensures next { OnOk result (self.new.next ≡ None) }
        ensures going { OnOk result (self.new.stopped ≡ self.old.stopped) }
        ensures site { IsSameSite self.old self.new }
        ensures told { OnErr result (self.new.heaps ≡ self.old.heaps) }
        // A crash at any moment leaves the log from before, or the next file, whole.
        ensures any_moment { LeavesOnly D.moment D.left_since self.old.wal.disk self.new.wal.disk
            (Leaves self.old.identity self.old.heaps.items
            (recovered (D.seen self.old.wal.disk)) (recovered (D.staged self.old.wal.disk))) }
        ensures failed { IfErr result (HasFailed self.new) }
    {
        match self.wal.publish_next() {
            Ok(()) => {
                self.size.publish_next();
                self.heaps = heaps;
                self.next = None;
                Ok(())
            }
            Err(error) => {
                self.stopped = true;
                Err(KeeperFault::Failed(error))
            }
        }
    }
}
