//! Whether the disk has room for what is to be written.

ghost use Rattle.std.specs.Prelude.{IfErr, OnOk, false, true, ◌≡◌};
ghost use Rattle.zq_keeper.specs.Keeper.{GoesOn, HasFailed, IsKeeper, IsSameSite, IsStill, Leaves, Stays};
ghost use Rattle.zq_wal.specs.Disk.{LeavesOnly};
ghost use Rattle.zq_wal.specs.Format.{recovered};
ghost use Rattle.std.specs.Prelude.{List, ℕ};

use crate::fault::KeeperFault;
use crate::keeper::Keeper;
use zq_wal::{Behind, Disk};

impl<D: Disk> Keeper<D> {
    /// Has room on the disk for so many bytes more behind the end of the log, or of the next file,
    /// which need not be begun, and says whether it has: it has not where the disk is full. The
    /// keeper is as it was then, and goes on. What is asked for is best more than the next calls
    /// write: one that finds the disk full has failed.
    ///
    /// `Failed`, `Stopped`, and `Refused(NoStart)` before the start.
    pub fn room(&mut self, behind: Behind, bytes: u64) -> Result<bool, KeeperFault>
        requires { GoesOn D.seen D.staged D.may_leave self.old }
        ensures keeper { GoesOn D.seen D.staged D.may_leave self.new }
        ensures going { OnOk result (self.new.stopped ≡ false) }
        ensures next { self.new.next ≡ self.old.next }
        ensures heaps { self.new.heaps ≡ self.old.heaps }
        ensures size { self.new.size ≡ self.old.size }
        ensures rested { self.new.rested ≡ self.old.rested }
        ensures seen { D.seen self.new.wal.disk ≡ D.seen self.old.wal.disk }
        ensures staged { D.staged self.new.wal.disk ≡ D.staged self.old.wal.disk }
        ensures left { (c : List ℕ) →
            D.may_leave self.new.wal.disk c → D.may_leave self.old.wal.disk c }
        ensures left_next { (c : List ℕ) →
            D.staged_may_leave self.new.wal.disk c → D.staged_may_leave self.old.wal.disk c }
        ensures faults { OnOk result (D.faults self.new.wal.disk ≡ D.faults self.old.wal.disk) }
        ensures same { IsSameSite self.old self.new }
        ensures any_moment { self.old.stopped ≡ false →
            LeavesOnly D.moment D.left_since self.old.wal.disk self.new.wal.disk
            (Leaves self.old.identity self.old.heaps.items
            (recovered (D.seen self.old.wal.disk)) (recovered (D.seen self.old.wal.disk))) }
        ensures fault { IfErr result (Stays self.old self.new) }
    {
        self.stand();
        self.started()?;
        self.have_room(behind, bytes)
    }

    /// Has that room, and stops where the log fails.
    fn have_room(&mut self, behind: Behind, bytes: u64) -> Result<bool, KeeperFault>
        requires { IsKeeper D.seen D.staged D.may_leave self.old }
        ensures keeper { OnOk result (IsKeeper D.seen D.staged D.may_leave self.new) }
        ensures seen { D.seen self.new.wal.disk ≡ D.seen self.old.wal.disk }
        ensures staged { D.staged self.new.wal.disk ≡ D.staged self.old.wal.disk }
        ensures left { (c : List ℕ) →
            D.may_leave self.new.wal.disk c → D.may_leave self.old.wal.disk c }
        ensures left_next { (c : List ℕ) →
            D.staged_may_leave self.new.wal.disk c → D.staged_may_leave self.old.wal.disk c }
        ensures faults { OnOk result (D.faults self.new.wal.disk ≡ D.faults self.old.wal.disk) }
        ensures next { self.new.next ≡ self.old.next }
        ensures size { self.new.size ≡ self.old.size }
        ensures rested { self.new.rested ≡ self.old.rested }
        ensures going { OnOk result (self.new.stopped ≡ self.old.stopped) }
        ensures still { IsStill self.old self.new }
        ensures any_moment { let payloads = recovered (D.seen self.old.wal.disk) in
            LeavesOnly D.moment D.left_since self.old.wal.disk self.new.wal.disk
            (Leaves self.old.identity self.old.heaps.items payloads payloads) }
        ensures failed { IfErr result (HasFailed self.new) }
    {
        match self.wal.room(behind, bytes) {
            Ok(has_room) => Ok(has_room),
            Err(error) => {
                self.stopped = true;
                Err(KeeperFault::Failed(error))
            }
        }
    }
}
