//! Whether the disk has room for what is to be written.

ghost use Rattle.std.specs.Prelude.{IfErr, nat_le, slice_index, true, ◌≡◌};
ghost use Rattle.zq_node.specs.Node.{IsNode, IsSameHome};
ghost use Rattle.zq_store.specs.Faults.{HasStopped};

use crate::intake::{Called, Intake};
use crate::round::Round;
use crate::writer::{Writer, now_of};
use crate::writing::go_on_after;
use std::alloc::Global;
use std::sync::Wait;
use std::time::{Clock, Duration};
use zq_dots::{SiteNo, Vector};
use zq_keeper::KeeperFault;
use zq_node::Node;
use zq_serve::Commits;
use zq_wal::{Behind, Disk};

/// How much room is kept ahead in a file: 8 MiB. Where the disk has less clients change nothing any
/// more. That is more than a piece of a heap takes, and than what is left to be written of what they
/// had changed until then, but for long names.
pub(crate) const AHEAD: u64 = 8_388_608;

/// For how many seconds a file is not asked again for room that it was refused.
const PAUSE: u64 = 1;

/// The least room that a file was refused lately.
#[derive(Clone, Copy)]
pub(crate) struct Refused {
    bytes: u64,
    until: Duration,
}

impl Refused {
    /// Nothing was refused.
    pub(crate) fn new() -> Refused {
        Refused {
            bytes: u64::MAX,
            until: Duration::from_millis(0),
        }
    }

    /// Whether so much room is not asked for again yet.
    fn holds(&self, now: Duration, bytes: u64) -> bool {
        now < self.until && bytes >= self.bytes
    }

    /// So much was refused.
    fn note(&mut self, now: Duration, bytes: u64) {
        if now >= self.until || bytes < self.bytes {
            self.bytes = bytes;
        }
        self.until = now.saturating_add(Duration::from_secs(PAUSE));
    }
}

impl<D: Disk> Writer<D> {
    /// Looks whether the disk is full, and says whether that has changed. It is until it has room for
    /// what waits for it, and twice what is kept ahead.
    pub(crate) fn look_for_room<R: Clock>(
        &mut self,
        rt: &R,
        alloc: Global,
    ) -> Result<bool, KeeperFault>
        ensures fault { IfErr result HasStopped }
    {
        let ahead = if self.is_full { 2 * AHEAD } else { AHEAD };
        let wanted = match &self.waiting {
            Some(round) => round.most_bytes(alloc).max(ahead),
            None => ahead,
        };
        let is_full = !self.has_room(rt, wanted)?;
        let has_changed = is_full != self.is_full;
        self.is_full = is_full;
        Ok(has_changed)
    }

    /// Whether there is room for so many bytes behind the log's end; and behind the next file's,
    /// where a switch goes on, or where who waits can go on only behind one.
    pub(crate) fn has_room<R: Clock>(&mut self, rt: &R, bytes: u64) -> Result<bool, KeeperFault>
        ensures fault { IfErr result HasStopped }
    {
        if !self.has_room_behind(rt, Behind::Log, bytes)? {
            return Ok(false);
        }
        if self.switch.is_none() && !self.is_behind {
            return Ok(true);
        }
        self.has_room_behind(rt, Behind::Next, bytes)
    }

    /// Whether there is room for so many bytes behind the end of that file. What was refused is asked
    /// for again after a second.
    pub(crate) fn has_room_behind<R: Clock>(
        &mut self,
        rt: &R,
        behind: Behind,
        bytes: u64,
    ) -> Result<bool, KeeperFault>
        ensures fault { IfErr result HasStopped }
    {
        let now = now_of(rt);
        let mut refused = match behind {
            Behind::Log => self.refused,
            Behind::Next => self.refused_next,
        };
        if refused.holds(now, bytes) {
            return Ok(false);
        }
        match self.keeper.room(behind, bytes) {
            Ok(true) => Ok(true),
            Ok(false) => {
                refused.note(now, bytes);
                match behind {
                    Behind::Log => self.refused = refused,
                    Behind::Next => self.refused_next = refused,
                }
                Ok(false)
            }
            Err(fault) => {
                go_on_after(fault)?;
                Ok(false)
            }
        }
    }

    /// Whether something waits for room: then a switch goes no step on.
    pub(crate) fn lacks_room(&self) -> bool {
        self.is_full || self.waiting.is_some()
    }

    /// Lets those go on who wait for what the site itself made, where all of that is on the disk that
    /// it had made before this ticket. What peers sent since the disk is full they have.
    pub(crate) fn end_own<R: Wait, P: Called>(
        &mut self,
        rt: &R,
        intake: &Intake<'_, P>,
        commits: &Commits,
        node: &mut Node<'_>,
        ticket: u64,
    )
        requires { IsNode node.old }
        ensures node { IsNode node.new }
        ensures home { IsSameHome node.old node.new }
    {
        let mut has_all = true;
        for heap in 0..intake.logs.heaps() {
            has_all = has_all && self.has_own(rt, node, heap);
        }
        if has_all {
            self.let_own_go(rt, commits, has_all, ticket);
        }
    }

    /// Who waits for what the site itself made before this ticket goes on: all of that is on the
    /// disk.
    fn let_own_go<R: Wait>(&self, rt: &R, commits: &Commits, has_all: bool, ticket: u64)
        requires kept { has_all ≡ true }
    {
        commits.end_own(rt, ticket);
    }

    /// Whether all is on the disk that the site itself has made in a heap.
    fn has_own<R: Wait>(&self, rt: &R, node: &mut Node<'_>, heap: u8) -> bool
        requires { IsNode node.old }
        ensures node { IsNode node.new }
        ensures home { IsSameHome node.old node.new }
    {
        let Ok(vector) = node.vector(rt, heap) else {
            return false;
        };
        is_durable(&vector, self.keeper.site(), self.keeper.durable(heap))
    }
}

/// Whether all operations of a site that a heap of this vector has are on the disk, up to this
/// counter.
fn is_durable(vector: &Vector, site: SiteNo, durable: u64) -> bool
    ensures { result ≡ nat_le (slice_index vector.now site) durable }
{
    vector.get(site) <= durable
}
