//! Writing what was taken out of the heaps, in rounds.

ghost use Rattle.std.specs.Prelude.{IfErr, ◌≡◌};
ghost use Rattle.zq_store.specs.Faults.{HasStopped, goes_on_after};

use crate::round::Round;
use crate::writer::{Writer, now_of};
use std::alloc::Global;
use std::slice::from_ref;
use std::sync::Wait;
use std::time::{Clock, Duration};
use zq_dots::Vector;
use zq_entries::Batch;
use zq_keeper::KeeperFault;
use zq_replica::Logs;
use zq_wal::Disk;

/// How many seconds have to pass without a round before it is noted that all is there.
const REST: u64 = 1;

impl<D: Disk> Writer<D> {
    /// Writes all operations that were drained, in rounds of a batch for each heap, and says whether
    /// there was room for all of them: a round for which there was none waits, and is the next one
    /// that is written. Where a round is refused, or memory for it, its heaps have jumped.
    ///
    /// `Failed`, `Stopped`: nothing more can be written.
    pub(crate) fn write<R: Wait + Clock>(
        &mut self,
        rt: &R,
        alloc: Global,
        logs: &Logs,
    ) -> Result<bool, KeeperFault>
        ensures fault { IfErr result HasStopped }
    {
        for _ in 0..u64::MAX {
            let round = match self.waiting.take() {
                Some(round) => round,
                None => self.next_round(rt, alloc, logs),
            };
            if round.is_empty() {
                break;
            }
            if !self.write_round(rt, alloc, logs, round)? {
                return Ok(false);
            }
        }
        Ok(true)
    }

    /// Writes a round, at once where there is room for it, and else batch by batch. It says whether
    /// there was room for all of it: what had none waits.
    fn write_round<R: Wait + Clock>(
        &mut self,
        rt: &R,
        alloc: Global,
        logs: &Logs,
        round: Round,
    ) -> Result<bool, KeeperFault>
        ensures fault { IfErr result HasStopped }
    {
        if !self.has_room(rt, round.most_bytes(alloc))? {
            return self.write_apart(rt, alloc, logs, round);
        }
        self.round(rt, alloc, logs, &round.batches)?;
        self.round_next(rt, alloc, logs, &round.ahead)?;
        self.wrote_at = now_of(rt);
        Ok(true)
    }

    /// Writes the batches of a round one by one, as long as there is room for the next one, and says
    /// whether there was for all of them: those for which there was none wait.
    fn write_apart<R: Wait + Clock>(
        &mut self,
        rt: &R,
        alloc: Global,
        logs: &Logs,
        mut round: Round,
    ) -> Result<bool, KeeperFault>
        ensures fault { IfErr result HasStopped }
    {
        for _ in 0..u64::MAX {
            let Some(bytes) = round.most_next(alloc) else {
                break;
            };
            if !self.has_room(rt, bytes)? {
                self.waiting = Some(round);
                return Ok(false);
            }
            if let Some(batch) = round.batches.pop() {
                self.round(rt, alloc, logs, from_ref(&batch))?;
            } else if let Some(batch) = round.ahead.pop() {
                self.round_next(rt, alloc, logs, from_ref(&batch))?;
            }
            self.wrote_at = now_of(rt);
        }
        Ok(true)
    }

    /// Writes the operations of a heap that were drained and that a heap of this vector has, and
    /// says whether there was room for all of them, as `write` does.
    pub(crate) fn write_within<R: Wait + Clock>(
        &mut self,
        rt: &R,
        alloc: Global,
        logs: &Logs,
        heap: u8,
        vector: &Vector,
    ) -> Result<bool, KeeperFault>
        ensures fault { IfErr result HasStopped }
    {
        for _ in 0..u64::MAX {
            let Some(batch) = next_batch(rt, alloc, logs, heap, Some(vector)) else {
                break;
            };
            let mut round = Round::new(alloc);
            if !round.push(batch, self.keeper.is_ahead(heap)) {
                logs.lose(rt, heap);
                break;
            }
            if !self.write_round(rt, alloc, logs, round)? {
                return Ok(false);
            }
        }
        Ok(true)
    }

    /// The next batch of each heap, where something was drained.
    fn next_round<R: Wait>(&self, rt: &R, alloc: Global, logs: &Logs) -> Round {
        let mut round = Round::new(alloc);
        for heap in 0..logs.heaps() {
            let Some(batch) = next_batch(rt, alloc, logs, heap, None) else {
                continue;
            };
            if !round.push(batch, self.keeper.is_ahead(heap)) {
                logs.lose(rt, heap);
            }
        }
        round
    }

    /// Writes a round to the log, where there is anything.
    fn round<R: Wait + Clock>(
        &mut self,
        rt: &R,
        alloc: Global,
        logs: &Logs,
        batches: &[Batch],
    ) -> Result<(), KeeperFault>
        ensures fault { IfErr result HasStopped }
    {
        if batches.is_empty() {
            return Ok(());
        }
        let began = now_of(rt);
        match self.keeper.round(alloc, batches) {
            Ok(()) => self.note_sync(rt, began),
            Err(fault) => {
                go_on_after(fault)?;
                lose_all(rt, logs, batches);
            }
        }
        Ok(())
    }

    /// Writes a round to the next file alone, where there is anything.
    fn round_next<R: Wait>(
        &mut self,
        rt: &R,
        alloc: Global,
        logs: &Logs,
        batches: &[Batch],
    ) -> Result<(), KeeperFault>
        ensures fault { IfErr result HasStopped }
    {
        if batches.is_empty() {
            return Ok(());
        }
        if let Err(fault) = self.keeper.round_next(alloc, batches) {
            go_on_after(fault)?;
            lose_all(rt, logs, batches);
        }
        Ok(())
    }

    /// Notes that all is there, where no round was written for a second.
    pub(crate) fn rest<R: Clock>(&mut self, rt: &R, alloc: Global) -> Result<(), KeeperFault>
        ensures fault { IfErr result HasStopped }
    {
        let now = now_of(rt);
        if now.saturating_sub(self.wrote_at) < Duration::from_secs(REST) {
            return Ok(());
        }
        match self.keeper.rest(alloc) {
            Ok(true) => self.note_sync(rt, now),
            Ok(false) => {}
            Err(fault) => go_on_after(fault)?,
        }
        Ok(())
    }
}

/// That a keeper goes on after a fault. `Failed`, `Stopped` where it does not.
pub(crate) fn go_on_after(fault: KeeperFault) -> Result<(), KeeperFault>
    ensures on { result ≡ goes_on_after fault }
    ensures fault { IfErr result HasStopped }
{
    match fault {
        KeeperFault::Failed(_) | KeeperFault::Stopped => Err(fault),
        KeeperFault::NoMemory | KeeperFault::Refused(_) | KeeperFault::NoSwitch => Ok(()),
    }
}

/// The heaps of these batches have jumped.
fn lose_all<R: Wait>(rt: &R, logs: &Logs, batches: &[Batch]) {
    for batch in batches {
        if let Some(op) = batch.ops().first() {
            logs.lose(rt, op.heap());
        }
    }
}

/// The next batch of a heap, of operations that a heap of this vector has, where one is given.
/// Where memory for it is refused the heap has jumped.
fn next_batch<R: Wait>(
    rt: &R,
    alloc: Global,
    logs: &Logs,
    heap: u8,
    within: Option<&Vector>,
) -> Option<Batch> {
    let Ok(ops) = logs.take_unwritten(rt, alloc, heap, within) else {
        logs.lose(rt, heap);
        return None;
    };
    if ops.is_empty() {
        return None;
    }
    match Batch::new(alloc, ops) {
        Ok(Some(batch)) => Some(batch),
        Ok(None) | Err(_) => {
            logs.lose(rt, heap);
            None
        }
    }
}
