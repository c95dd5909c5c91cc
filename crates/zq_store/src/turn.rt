//! A turn of the thread that keeps a site on disk.

ghost use Rattle.std.specs.Prelude.{IfErr, false, not, true, ◌&&◌, ◌≡◌};
ghost use Rattle.zq_node.specs.Node.{IsNode, IsSameHome};
ghost use Rattle.zq_store.specs.Faults.{HasStopped};

use crate::intake::{Called, Intake};
use crate::room::AHEAD;
use crate::writer::{Writer, now_of};
use std::sync::Wait;
use std::time::{Clock, Duration};
use zq_keeper::KeeperFault;
use zq_node::Node;
use zq_serve::Commits;
use zq_wal::Disk;

/// For how many milliseconds a switch goes on at a time while who waits can go on only behind it.
const MOST_COPYING: u64 = 50;

impl<D: Disk> Writer<D> {
    /// Keeps all that there is as the site ends: as many turns as a switch takes that others wait
    /// for.
    ///
    /// `Failed`, `Stopped`: nothing more can be written. `Stopped` too where there is no room for
    /// what is left.
    pub(crate) fn finish<R: Clock + Wait, P: Called>(
        &mut self,
        rt: &R,
        intake: &Intake<'_, P>,
        commits: &Commits,
        node: &mut Node<'_>,
    ) -> Result<(), KeeperFault>
        requires { IsNode node.old }
        ensures node { IsNode node.new }
        ensures home { IsSameHome node.old node.new }
        ensures fault { IfErr result HasStopped }
    {
        let _ = self.look_for_room(rt, intake.alloc)?;
        let mut is_done = self.turn(rt, intake, commits, node)?;
        for _ in 0..u64::MAX {
            if is_done || !self.has_to_go_on() {
                break;
            }
            let _ = self.look_for_room(rt, intake.alloc)?;
            is_done = self.turn(rt, intake, commits, node)?;
        }
        if !is_done && self.lacks_room() {
            return Err(KeeperFault::Stopped);
        }
        Ok(())
    }

    /// Whether another turn has to follow as the site ends: the last one took not all that was made,
    /// or who waits can go on only behind a switch that goes on.
    fn has_to_go_on(&self) -> bool {
        self.is_short || self.is_behind && self.switch.is_some() && !self.lacks_room()
    }

    /// A turn: what was made by now goes onto the disk, who waited for that goes on, and a switch of
    /// the log goes some steps on. It says whether who waited goes on.
    ///
    /// While the disk is full those go on who wait for what the site itself made, where that is on
    /// the disk, and no switch goes on.
    ///
    /// `Failed`, `Stopped`: nothing more can be written, and nobody who waits goes on.
    pub(crate) fn turn<R: Clock + Wait, P: Called>(
        &mut self,
        rt: &R,
        intake: &Intake<'_, P>,
        commits: &Commits,
        node: &mut Node<'_>,
    ) -> Result<bool, KeeperFault>
        requires { IsNode node.old }
        ensures node { IsNode node.new }
        ensures home { IsSameHome node.old node.new }
        ensures fault { IfErr result HasStopped }
    {
        let began = now_of(rt);
        let ticket = commits.begin(rt);
        let is_whole = self.drain_and_write(rt, intake, node)?;
        self.patience = patience_after(now_of(rt).saturating_sub(began));
        self.look(rt, intake.alloc, intake.logs)?;
        if self.ends(is_whole) {
            self.crowd = self.end_round(rt, commits, is_whole, ticket);
        }
        if self.lacks_room() {
            self.end_own(rt, intake, commits, node, ticket);
            return Ok(self.ends(is_whole));
        }
        self.copy_some(rt, intake, node)?;
        let is_done = self.ends(is_whole);
        if is_done {
            let _ = self.end_round(rt, commits, is_whole, ticket);
        }
        if self.switch.is_none() {
            self.rest(rt, intake.alloc)?;
        }
        Ok(is_done)
    }

    /// Takes all that was made into the logs and onto the disk, round by round. While a round leaves
    /// too much the gate before the site's calls is shut. It says whether all was taken: what is
    /// refused memory is taken the next time, and where there was no room for what was taken before
    /// nothing more is taken until there is. As soon as the disk has not the room that is kept ahead
    /// it ends too, so that clients are told before more comes.
    fn drain_and_write<R: Clock + Wait, P: Called>(
        &mut self,
        rt: &R,
        intake: &Intake<'_, P>,
        node: &mut Node<'_>,
    ) -> Result<bool, KeeperFault>
        requires { IsNode node.old }
        ensures node { IsNode node.new }
        ensures home { IsSameHome node.old node.new }
        ensures fault { IfErr result HasStopped }
    {
        let mut is_whole = false;
        self.is_short = false;
        for _round in 0..u64::MAX {
            let Some(left) = self.take_some(rt, intake, node)? else {
                break;
            };
            if left == 0 {
                is_whole = true;
                break;
            }
        }
        intake.gate.set(rt, false);
        Ok(is_whole)
    }

    /// Takes a round, and holds calls back where it leaves much. It says how many operations are left;
    /// and nothing where nothing more is taken, also since the disk has less than the room that is
    /// kept ahead, which was not seen before.
    fn take_some<R: Clock + Wait, P: Called>(
        &mut self,
        rt: &R,
        intake: &Intake<'_, P>,
        node: &mut Node<'_>,
    ) -> Result<Option<u64>, KeeperFault>
        requires { IsNode node.old }
        ensures node { IsNode node.new }
        ensures home { IsSameHome node.old node.new }
        ensures fault { IfErr result HasStopped }
    {
        let Some(left) = self.take_round(rt, intake, node)? else {
            return Ok(None);
        };
        if left == 0 {
            return Ok(Some(left));
        }
        intake.hold_calls(rt, left);
        if self.runs_short(rt)? {
            self.is_short = true;
            return Ok(None);
        }
        Ok(Some(left))
    }

    /// Whether the disk has less than the room that is kept ahead, and that was not seen before.
    fn runs_short<R: Clock>(&mut self, rt: &R) -> Result<bool, KeeperFault>
        ensures fault { IfErr result HasStopped }
    {
        Ok(!self.is_full && !self.has_room(rt, AHEAD)?)
    }

    /// Takes a piece of what each heap has made into its log, and writes it. It says how many
    /// operations are left; and nothing where memory was refused, or there was no room: then nothing
    /// more is taken.
    fn take_round<R: Clock + Wait, P: Called>(
        &mut self,
        rt: &R,
        intake: &Intake<'_, P>,
        node: &mut Node<'_>,
    ) -> Result<Option<u64>, KeeperFault>
        requires { IsNode node.old }
        ensures node { IsNode node.new }
        ensures home { IsSameHome node.old node.new }
        ensures fault { IfErr result HasStopped }
    {
        if self.waiting.is_some() && !self.write(rt, intake.alloc, intake.logs)? {
            return Ok(None);
        }
        let Ok(left) = intake.drain_round(rt, node) else {
            return Ok(None);
        };
        if self.write(rt, intake.alloc, intake.logs)? {
            Ok(Some(left))
        } else {
            Ok(None)
        }
    }

    /// Goes on with a switch of the log, where one is going on, for a part of the time that a round
    /// takes; and while nobody goes on before it is done, for longer.
    fn copy_some<R: Clock + Wait, P: Called>(
        &mut self,
        rt: &R,
        intake: &Intake<'_, P>,
        node: &mut Node<'_>,
    ) -> Result<(), KeeperFault>
        requires { IsNode node.old }
        ensures node { IsNode node.new }
        ensures home { IsSameHome node.old node.new }
        ensures fault { IfErr result HasStopped }
    {
        let most = if self.is_behind {
            Duration::from_millis(MOST_COPYING)
        } else {
            self.patience
        };
        let began = now_of(rt);
        for _ in 0..u64::MAX {
            let goes_on = self.step(rt, intake, node)?;
            if !goes_on || now_of(rt).saturating_sub(began) >= most {
                break;
            }
        }
        Ok(())
    }

    /// Whether who waits goes on: where all was taken, and all that was taken is on the disk.
    fn ends(&self, is_whole: bool) -> bool
        ensures { result ≡ is_whole && not self.now.is_behind }
    {
        is_whole && !self.is_behind
    }

    /// Who waits for the round of this ticket goes on: all was taken, and no heap has what is not on
    /// the disk. It says how many waited.
    fn end_round<R: Wait>(&self, rt: &R, commits: &Commits, is_whole: bool, ticket: u64) -> u64
        requires whole { is_whole ≡ true }
        requires kept { self.now.is_behind ≡ false }
    {
        commits.end(rt, ticket)
    }
}

/// For how long others are waited for, who come back after a round that took so long: a quarter of
/// that, and 5 milliseconds at most. By then most of them have had their replies, and asked again.
fn patience_after(took: Duration) -> Duration {
    (took / 4).min(Duration::from_millis(5))
}
