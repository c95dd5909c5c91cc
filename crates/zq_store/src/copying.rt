//! How a site's log on disk is switched to another file, which begins with copies of the heaps.

ghost use Rattle.std.specs.Prelude.{IfErr};
ghost use Rattle.zq_node.specs.Node.{IsNode, IsSameHome};
ghost use Rattle.zq_store.specs.Faults.{HasStopped};

use crate::intake::{Called, Intake};
use crate::room::AHEAD;
use crate::switch::{Switch, Switched};
use crate::writer::{Writer, now_of};
use crate::writing::go_on_after;
use std::alloc::Global;
use std::sync::Wait;
use std::time::{Clock, Duration};
use zq_dots::Vector;
use zq_keeper::KeeperFault;
use zq_links::Piece;
use zq_node::Node;
use zq_replica::{Logs, PORTION};
use zq_stage::Portion;
use zq_wal::{Behind, Disk};

/// After how many seconds a switch begins again that was given up.
const PAUSE: u64 = 1;

/// After how many bytes of copies the next file is synced, and room ahead is asked for again: a
/// mebibyte. Each is done in a turn of its own, so that who waits for the disk waits for one of them
/// at most.
const FLUSHED: u64 = 1_048_576;

/// The same where nobody who waits goes on before the switch is done: 4 MiB.
const FLUSHED_BEHIND: u64 = 4_194_304;

/// What came of a step.
#[derive(Clone, Copy, PartialEq, Eq)]
enum Step {
    /// The switch goes on.
    GoesOn,
    /// The next file was synced: the switch goes on in the next turn.
    Rests,
    /// Its heap has jumped: the next look begins it anew.
    Vain,
    /// There was no room: the step is done again once there is.
    Waits,
    /// It is given up.
    GivenUp,
}

impl<D: Disk> Writer<D> {
    /// Begins a switch where one is wanted, and there is room: where a heap has jumped, or the log is
    /// long. Where a heap has jumped of which a copy was begun, the switch begins anew.
    pub(crate) fn look<R: Wait + Clock>(
        &mut self,
        rt: &R,
        alloc: Global,
        logs: &Logs,
    ) -> Result<(), KeeperFault>
        ensures fault { IfErr result HasStopped }
    {
        let mut is_vain = false;
        for heap in 0..logs.heaps() {
            if logs.has_jumped(rt, heap) {
                self.is_behind = true;
                is_vain |= self.has_begun(heap);
            }
        }
        let is_wanted = self.switch.is_none() && (self.is_behind || self.keeper.size().is_long());
        if !(is_vain || is_wanted) || self.lacks_room() || now_of(rt) < self.again_at {
            return Ok(());
        }
        if !self.has_spare(rt)? {
            return Ok(());
        }
        self.begin_switch(rt, alloc, logs)
    }

    /// Has zeros for the next file, a mebibyte more in each turn, and says whether there are so many
    /// that it may begin. Where nobody who waits goes on before the switch is done, or one goes on,
    /// all of them are asked for at once. No switch begins for a second where there is no room.
    fn has_spare<R: Clock>(&mut self, rt: &R) -> Result<bool, KeeperFault>
        ensures fault { IfErr result HasStopped }
    {
        let wanted = AHEAD.saturating_add(self.flushed_after());
        let asked = if self.is_behind || self.switch.is_some() {
            wanted
        } else {
            self.spare.saturating_add(FLUSHED).min(wanted)
        };
        self.spare = 0;
        if !self.has_room_behind(rt, Behind::Next, asked)? {
            self.pause(rt);
            return Ok(false);
        }
        if asked < wanted {
            self.spare = asked;
            return Ok(false);
        }
        Ok(true)
    }

    /// After how many bytes of copies the next file is synced, and room ahead is asked for again.
    fn flushed_after(&self) -> u64 {
        if self.is_behind {
            FLUSHED_BEHIND
        } else {
            FLUSHED
        }
    }

    /// Whether a copy of this heap was begun.
    fn has_begun(&self, heap: u8) -> bool {
        match &self.switch {
            Some(switch) => switch.has_begun(heap),
            None => false,
        }
    }

    /// Begins a switch, anew where one goes on.
    fn begin_switch<R: Wait + Clock>(
        &mut self,
        rt: &R,
        alloc: Global,
        logs: &Logs,
    ) -> Result<(), KeeperFault>
        ensures fault { IfErr result HasStopped }
    {
        if let Some(switch) = self.switch.take() {
            let_go(rt, logs, switch);
        }
        self.work.grow(self.keeper.size());
        match self.keeper.begin_switch(alloc) {
            Ok(()) => {
                self.work.begin_next();
                self.switch = Some(Switch::new());
            }
            Err(fault) => {
                go_on_after(fault)?;
                self.pause(rt);
            }
        }
        Ok(())
    }

    /// No switch begins for a second.
    fn pause<R: Clock>(&mut self, rt: &R) {
        self.again_at = now_of(rt).saturating_add(Duration::from_secs(PAUSE));
    }

    /// Goes a step on with a switch, where one is going on: asks for room ahead, copies the next
    /// portion of a heap, or where all are there has the next file take the log's place. It says
    /// whether another step may follow at once.
    pub(crate) fn step<R: Wait + Clock, P: Called>(
        &mut self,
        rt: &R,
        intake: &Intake<'_, P>,
        node: &mut Node<'_>,
    ) -> Result<bool, KeeperFault>
        requires { IsNode node.old }
        ensures node { IsNode node.new }
        ensures home { IsSameHome node.old node.new }
        ensures fault { IfErr result HasStopped }
    {
        if self.lacks_room() || !self.has_room(rt, AHEAD)? {
            return Ok(false);
        }
        let Some(mut switch) = self.switch.take() else {
            return Ok(false);
        };
        let is_copied = switch.heap >= intake.logs.heaps();
        let mut rests = self.widen(rt, &mut switch)?;
        if is_copied && !rests {
            rests = self.settle(rt, &mut switch)?;
        }
        if rests {
            self.switch = Some(switch);
            return Ok(self.is_behind);
        }
        if is_copied {
            self.publish(rt, intake.alloc, intake.logs, switch)?;
            return Ok(false);
        }
        let step = self.copy(rt, intake, node, &mut switch)?;
        match step {
            Step::GoesOn | Step::Rests | Step::Vain | Step::Waits => self.switch = Some(switch),
            Step::GivenUp => {
                let_go(rt, intake.logs, switch);
                self.pause(rt);
            }
        }
        Ok(step == Step::GoesOn)
    }

    /// Asks for the room that is kept ahead in the next file, and for what the copies take until it is
    /// asked for again, where they have taken that. It says whether it did.
    fn widen<R: Clock>(&mut self, rt: &R, switch: &mut Switch) -> Result<bool, KeeperFault>
        ensures fault { IfErr result HasStopped }
    {
        let (length, after) = (self.keeper.size().next, self.flushed_after());
        if length.saturating_sub(switch.widened) < after {
            return Ok(false);
        }
        let _ = self.has_room_behind(rt, Behind::Next, AHEAD.saturating_add(after))?;
        switch.widened = length;
        Ok(true)
    }

    /// Syncs the next file where that was not done since all copies are in it, so that little is left
    /// to be when it takes the log's place. It says whether it did.
    fn settle<R: Clock>(&mut self, rt: &R, switch: &mut Switch) -> Result<bool, KeeperFault>
        ensures fault { IfErr result HasStopped }
    {
        if switch.is_settled || self.is_behind {
            return Ok(false);
        }
        switch.is_settled = true;
        self.flush(rt, switch)?;
        Ok(true)
    }

    /// Has the next file take the log's place. From then on all is on disk that the heaps had.
    fn publish<R: Wait + Clock>(
        &mut self,
        rt: &R,
        alloc: Global,
        logs: &Logs,
        switch: Switch,
    ) -> Result<(), KeeperFault>
        ensures fault { IfErr result HasStopped }
    {
        let (was, began) = (self.keeper.size(), now_of(rt));
        self.work.grow(was);
        match self.keeper.publish(alloc) {
            Ok(()) => {
                self.note_sync(rt, began);
                self.is_behind = has_jumped(rt, logs);
                let size = self.keeper.size();
                self.work.switch(size);
                let (was, bytes) = (was.log, size.log);
                self.switched = Some(Switched { was, bytes });
            }
            Err(fault) => {
                go_on_after(fault)?;
                let_go(rt, logs, switch);
                self.pause(rt);
            }
        }
        Ok(())
    }

    /// Copies the next portion of the switch's heap. What the heap took before it, and the log
    /// lacks, goes into the log first.
    fn copy<R: Wait + Clock, P: Called>(
        &mut self,
        rt: &R,
        intake: &Intake<'_, P>,
        node: &mut Node<'_>,
        switch: &mut Switch,
    ) -> Result<Step, KeeperFault>
        requires { IsNode node.old }
        ensures node { IsNode node.new }
        ensures home { IsSameHome node.old node.new }
        ensures fault { IfErr result HasStopped }
    {
        let (alloc, logs, heap) = (intake.alloc, intake.logs, switch.heap);
        if !switch.is_begun {
            let had_jumped = logs.follow(rt, heap);
            switch.begin(had_jumped);
            self.is_behind |= had_jumped;
        }
        let spot = switch.sending.spot;
        let Ok(portion) = node.portion(rt, alloc, heap, spot, PORTION, self.hasher) else {
            return Ok(Step::GivenUp);
        };
        if intake.drain_all(rt, node, heap).is_err() {
            return Ok(Step::GivenUp);
        }
        let vector = *portion.part.vector();
        if switch.had_jumped(heap) && switch.sending.vector.is_none() {
            drop_within(rt, alloc, logs, heap, &vector);
        } else if !self.write_within(rt, alloc, logs, heap, &vector)? {
            return Ok(Step::Waits);
        }
        if logs.has_jumped(rt, heap) {
            return Ok(Step::Vain);
        }
        self.put(rt, alloc, switch, portion)
    }

    /// Puts the next piece of the switch's heap into the next file.
    fn put<R: Clock>(
        &mut self,
        rt: &R,
        alloc: Global,
        switch: &mut Switch,
        portion: Portion,
    ) -> Result<Step, KeeperFault>
        ensures fault { IfErr result HasStopped }
    {
        if switch.sending.vector.is_some() {
            switch.sending.note_sent(*portion.part.vector());
        }
        let Ok(piece) = switch.sending.piece(portion) else {
            return Ok(Step::GivenUp);
        };
        let is_last = is_end(&piece);
        if let Err(fault) = self.keeper.piece(alloc, piece) {
            go_on_after(fault)?;
            return Ok(Step::GivenUp);
        }
        if is_last {
            if let Err(fault) = self.keeper.seal(alloc, switch.heap) {
                go_on_after(fault)?;
                return Ok(Step::GivenUp);
            }
            switch.go_on();
        }
        self.flush_much(rt, switch)
    }

    /// Syncs the next file, where much of it is not synced yet.
    fn flush_much<R: Clock>(&mut self, rt: &R, switch: &mut Switch) -> Result<Step, KeeperFault>
        ensures fault { IfErr result HasStopped }
    {
        let length = self.keeper.size().next;
        if length.saturating_sub(switch.flushed) < self.flushed_after() {
            return Ok(Step::GoesOn);
        }
        self.flush(rt, switch)?;
        if self.is_behind {
            Ok(Step::GoesOn)
        } else {
            Ok(Step::Rests)
        }
    }

    /// Syncs the next file.
    fn flush<R: Clock>(&mut self, rt: &R, switch: &mut Switch) -> Result<(), KeeperFault>
        ensures fault { IfErr result HasStopped }
    {
        let (length, began) = (self.keeper.size().next, now_of(rt));
        match self.keeper.flush() {
            Ok(()) => self.note_sync(rt, began),
            Err(fault) => go_on_after(fault)?,
        }
        switch.flushed = length;
        Ok(())
    }
}

/// A switch is let go. The heaps that had jumped before their copies have again: the log has them
/// not as operations.
fn let_go<R: Wait>(rt: &R, logs: &Logs, switch: Switch) {
    for heap in 0..logs.heaps() {
        if switch.had_jumped(heap) {
            logs.lose(rt, heap);
        }
    }
}

/// Whether some heap has jumped.
fn has_jumped<R: Wait>(rt: &R, logs: &Logs) -> bool {
    for heap in 0..logs.heaps() {
        if logs.has_jumped(rt, heap) {
            return true;
        }
    }
    false
}

/// Whether a piece is the last one.
fn is_end(piece: &Piece) -> bool {
    piece.next.key == 0 && piece.next.member == 0
}

/// Drops the operations of a heap that were drained and that a copy of it has. Where there is no
/// memory for that the heap has jumped again.
fn drop_within<R: Wait>(rt: &R, alloc: Global, logs: &Logs, heap: u8, vector: &Vector) {
    for _ in 0..u64::MAX {
        let Ok(ops) = logs.take_unwritten(rt, alloc, heap, Some(vector)) else {
            logs.lose(rt, heap);
            break;
        };
        if ops.is_empty() {
            break;
        }
    }
}
