//! What is written when nothing came for a while.

ghost use Rattle.std.specs.Prelude.{IfErr, IfOk, OnOk, Some, false, true, ◌≡◌};
ghost use Rattle.zq_entries.specs.Entry.{OfRest};
ghost use Rattle.zq_keeper.specs.Keeper.{GoesOn, IsSameSite, Leaves, Stays, has_stayed, with_entry};
ghost use Rattle.zq_keeper.specs.Turn.{IsTurn};
ghost use Rattle.zq_wal.specs.Disk.{LeavesOnly};
ghost use Rattle.zq_wal.specs.Format.{recovered};

use crate::entries::rest_entry;
use crate::fault::KeeperFault;
use crate::keeper::Keeper;
use crate::turn::Turn;
use std::alloc::Global;
use zq_wal::Disk;

impl<D: Disk> Keeper<D> {
    /// Commits a Rest, unless nothing came behind the last one, and says whether it did: damage of
    /// what stands before it is told from then on. It is called when a second has passed without a
    /// round.
    pub fn rest(&mut self, alloc: Global) -> Result<bool, KeeperFault>
        requires { GoesOn D.seen D.staged D.may_leave self.old }
        ensures keeper { GoesOn D.seen D.staged D.may_leave self.new }
        ensures going { OnOk result (self.new.stopped ≡ false) }
        ensures once { IfOk result (λ some. some ≡ true → self.old.rested ≡ false) }
        ensures rested { OnOk result (self.new.rested ≡ true) }
        ensures record { IfOk result (λ some. some ≡ true → recovered (D.seen self.new.wal.disk)
            ≡ with_entry (recovered (D.seen self.old.wal.disk)) OfRest) }
        ensures none { IfOk result (λ some. some ≡ false → self.new ≡ self.old) }
        ensures heaps { OnOk result (self.new.heaps.items ≡ self.old.heaps.items) }
        ensures same { IsSameSite self.old self.new }
        ensures any_moment { self.old.stopped ≡ false →
            LeavesOnly D.moment D.left_since self.old.wal.disk self.new.wal.disk
            (Leaves self.old.identity self.old.heaps.items
            (recovered (D.seen self.old.wal.disk))
            (with_entry (recovered (D.seen self.old.wal.disk)) OfRest)) }
        ensures fault { IfErr result (Stays self.old self.new) }
    {
        self.stand();
        if self.is_at_rest()? {
            return Ok(false);
        }
        let turn = self.judge_rest(alloc)?;
        self.keep(alloc, turn)?;
        self.rested = true;
        Ok(true)
    }

    /// Whether nothing came behind the last Rest.
    fn is_at_rest(&self) -> Result<bool, KeeperFault>
        ensures going { OnOk result (self.now.stopped ≡ false) }
        ensures rested { IfOk result (λ some. some ≡ self.now.rested) }
        ensures fault { IfErr result (λ e. has_stayed e ≡ true) }
    {
        self.started()?;
        Ok(self.rested)
    }

    /// What is to be written then.
    fn judge_rest(&self, alloc: Global) -> Result<Turn, KeeperFault>
        requires { GoesOn D.seen D.staged D.may_leave self.now }
        ensures going { OnOk result (self.now.stopped ≡ false) }
        ensures begun { OnOk result (self.now.begun ≡ true) }
        ensures start { IfOk result (λ t. self.now.start ≡ Some t.start) }
        ensures turn { IfOk result (λ t. IsTurn self.now.identity self.now.start
            self.now.heaps.items OfRest t) }
        ensures fault { IfErr result (λ e. has_stayed e ≡ true) }
    {
        let start = self.started()?;
        let entry = rest_entry(alloc)?;
        let heaps = self.heaps.to_vec(alloc)?;
        Ok(Turn {
            entry,
            start,
            heaps,
        })
    }
}
