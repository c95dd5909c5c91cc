//! How the next file becomes the log.

ghost use Rattle.std.specs.Prelude.{IfErr, IfOk, IsTrue, None, OnOk, false, true, ◌≡◌};
ghost use Rattle.zq_keeper.specs.Keeper.{GoesOn, IsSameSite, Leaves, Stays, has_stayed};
ghost use Rattle.zq_keeper.specs.Operations.{AreSealed};
ghost use Rattle.zq_keeper.specs.Outline.{AreAllWhole, Cover};
ghost use Rattle.zq_keeper.specs.Switch.{IsReady};
ghost use Rattle.zq_wal.specs.Disk.{LeavesOnly};
ghost use Rattle.zq_wal.specs.Format.{recovered};

use crate::fault::KeeperFault;
use crate::keeper::Keeper;
use crate::next::Next;
use crate::outline::{Outline, are_whole};
use std::alloc::Global;
use zq_recovery::Refusal;
use zq_wal::Disk;

/// Whether each of the heaps has all that it has in the others.
fn cover(heaps: &[Outline], others: &[Outline]) -> bool
    ensures { IsTrue result → Cover heaps.now others.now }
{
    if heaps.len() != others.len() {
        return false;
    }
    for place in 0..others.len() {
        if !heaps[place].vector.covers(&others[place].vector) {
            return false;
        }
    }
    true
}

/// Whether a next file is whole, and has all that the log has.
fn judge_next(next: &Next, heaps: &[Outline]) -> Result<(), Refusal>
    ensures sealed { OnOk result (AreSealed next.now.parts.items) }
    ensures whole { OnOk result (AreAllWhole next.now.heaps.items) }
    ensures covers { OnOk result (Cover next.now.heaps.items heaps.now) }
{
    if next.is_sealed() && are_whole(&next.heaps) && cover(&next.heaps, heaps) {
        Ok(())
    } else {
        Err(Refusal::NotWhole)
    }
}

/// What the next file says of each heap, where it may be published.
fn heaps_of(
    alloc: Global,
    next: &Option<Next>,
    heaps: &[Outline],
) -> Result<Vec<Outline>, KeeperFault>
    ensures next { IfOk result (λ v. IsReady next.now heaps.now v.items) }
    ensures fault { IfErr result (λ e. has_stayed e ≡ true) }
{
    match next {
        Some(next) => {
            judge_next(next, heaps)?;
            let heaps = next.heaps.to_vec(alloc)?;
            Ok(heaps)
        }
        None => Err(KeeperFault::NoSwitch),
    }
}

impl<D: Disk> Keeper<D> {
    /// Puts the next file in the log's place, where each heap is sealed in it: the switch is done.
    ///
    /// `Refused(NotWhole)` where some heap is not, `NoSwitch` where none is going on.
    pub fn publish(&mut self, alloc: Global) -> Result<(), KeeperFault>
        requires { GoesOn D.seen D.staged D.may_leave self.old }
        ensures keeper { GoesOn D.seen D.staged D.may_leave self.new }
        ensures going { OnOk result (self.new.stopped ≡ false) }
        ensures ready { OnOk result (IsReady self.old.next
            self.old.heaps.items self.new.heaps.items) }
        ensures record { OnOk result (D.seen self.new.wal.disk ≡ D.staged self.old.wal.disk) }
        ensures next { OnOk result (self.new.next ≡ None) }
        ensures same { IsSameSite self.old self.new }
        // A crash at any moment leaves the log from before, or the next file, whole.
        ensures any_moment { self.old.stopped ≡ false →
            LeavesOnly D.moment D.left_since self.old.wal.disk self.new.wal.disk
            (Leaves self.old.identity self.old.heaps.items
            (recovered (D.seen self.old.wal.disk)) (recovered (D.staged self.old.wal.disk))) }
        ensures fault { IfErr result (Stays self.old self.new) }
    {
        self.stand();
        let heaps = self.judge_publish(alloc)?;
        self.publish_next(heaps)?;
        self.rested = false;
        Ok(())
    }

    /// What the log is to say of each heap then.
    fn judge_publish(&self, alloc: Global) -> Result<Vec<Outline>, KeeperFault>
        ensures going { OnOk result (self.now.stopped ≡ false) }
        ensures begun { OnOk result (self.now.begun ≡ true) }
        ensures ready { IfOk result
            (λ v. IsReady self.now.next self.now.heaps.items v.items) }
        ensures fault { IfErr result (λ e. has_stayed e ≡ true) }
    {
        self.started()?;
        heaps_of(alloc, &self.next, &self.heaps)
    }
}
