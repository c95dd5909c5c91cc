//! How a site is started.

ghost use Rattle.std.specs.Prelude.{IfErr, IfOk, OnOk, false, true, ◌+◌, ◌≡◌};
ghost use Rattle.zq_entries.specs.Entry as model;
ghost use Rattle.zq_keeper.specs.Keeper as spec;
ghost use Rattle.zq_keeper.specs.Keeper.{GoesOn, Stays, has_stayed, number_behind};
ghost use Rattle.zq_keeper.specs.Turn.{IsTurn};
ghost use Rattle.zq_recovery.specs.Opening.{IsAfter, IsNextStart, IsOf};
ghost use Rattle.zq_wal.specs.Disk.{LeavesOnly};
ghost use Rattle.zq_wal.specs.Format.{recovered};

use crate::entries::start_entry;
use crate::fault::KeeperFault;
use crate::keeper::Keeper;
use crate::turn::Turn;
use std::alloc::Global;
use zq_entries::{FOLDER, Start};
use zq_recovery::{Identity, Refusal};
use zq_wal::Disk;

/// The start of the site with this number.
fn start_of(identity: &Identity, folder: [u8; FOLDER], number: u64) -> Start
    ensures of { IsOf identity.now result }
    ensures folder { result.folder ≡ folder }
    ensures number { result.number ≡ number }
{
    Start {
        site: identity.site,
        heaps: identity.heaps,
        rule: identity.rule,
        folder,
        number,
    }
}

/// The start behind this one, of its folder.
fn start_behind(identity: &Identity, before: &Start) -> Result<Start, Refusal>
    ensures of { IfOk result (λ s. IsOf identity.now s) }
    ensures after { IfOk result (λ s. IsAfter before.now s) }
    ensures number { IfOk result (λ s. s.number ≡ before.now.number + 1) }
{
    if before.number == u64::MAX {
        return Err(Refusal::OldStart);
    }
    Ok(start_of(identity, before.folder, before.number + 1))
}

/// The start behind the one before: of its folder, with the next number; or the first one, of this
/// folder. `OldStart` where there is no next number.
fn next_start(
    identity: &Identity,
    before: &Option<Start>,
    folder: [u8; FOLDER],
) -> Result<Start, Refusal>
    ensures next { IfOk result (λ s. IsNextStart identity.now before.now s) }
    ensures number { IfOk result (λ s. s.number ≡ number_behind before.now) }
{
    match before {
        None => Ok(start_of(identity, folder, 1)),
        Some(before) => start_behind(identity, before),
    }
}

impl<D: Disk> Keeper<D> {
    /// Starts the site: commits a Start with the next number, which it tells. A first one names the
    /// folder. No other call is taken before.
    ///
    /// `Refused(OldStart)` where it was started before, or there is no further number.
    pub fn begin(&mut self, alloc: Global, folder: [u8; FOLDER]) -> Result<u64, KeeperFault>
        requires { GoesOn D.seen D.staged D.may_leave self.old }
        ensures keeper { GoesOn D.seen D.staged D.may_leave self.new }
        ensures going { OnOk result (self.new.stopped ≡ false) }
        ensures number { IfOk result (λ n. n ≡ number_behind self.old.start) }
        ensures start { IfOk result (λ n. spec.IsBegun self.old.identity self.old.start n
            self.new.start) }
        ensures record { OnOk result (recovered (D.seen self.new.wal.disk)
            ≡ spec.with_start (recovered (D.seen self.old.wal.disk)) self.new.start) }
        ensures heaps { OnOk result (self.new.heaps.items ≡ self.old.heaps.items) }
        ensures identity { self.new.identity ≡ self.old.identity }
        ensures any_moment { self.old.stopped ≡ false →
            LeavesOnly D.moment D.left_since self.old.wal.disk self.new.wal.disk
            (spec.LeavesStart self.old.identity self.old.heaps.items
            (recovered (D.seen self.old.wal.disk)) self.old.start) }
        ensures fault { IfErr result (Stays self.old self.new) }
    {
        self.stand();
        let turn = self.judge_begin(alloc, folder)?;
        let number = turn.start.number;
        self.keep(alloc, turn)?;
        self.rested = false;
        Ok(number)
    }

    /// What is to be written at the start.
    fn judge_begin(&self, alloc: Global, folder: [u8; FOLDER]) -> Result<Turn, KeeperFault>
        requires { GoesOn D.seen D.staged D.may_leave self.now }
        ensures going { OnOk result (self.now.stopped ≡ false) }
        ensures fresh { OnOk result (self.now.begun ≡ false) }
        ensures turn { IfOk result (λ t. IsTurn self.now.identity self.now.start
            self.now.heaps.items (model.OfStart (model.start_of t.start)) t) }
        ensures next { IfOk result
            (λ t. IsNextStart self.now.identity self.now.start t.start) }
        ensures number { IfOk result (λ t. t.start.number ≡ number_behind self.now.start) }
        ensures fault { IfErr result (λ e. has_stayed e ≡ true) }
    {
        if self.stopped {
            return Err(KeeperFault::Stopped);
        }
        if self.begun {
            return Err(KeeperFault::Refused(Refusal::OldStart));
        }
        let start = next_start(&self.identity, &self.start, folder)?;
        let entry = start_entry(alloc, &start)?;
        let heaps = self.heaps.to_vec(alloc)?;
        Ok(Turn {
            entry,
            start,
            heaps,
        })
    }
}
