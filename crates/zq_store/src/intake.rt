//! How what a site makes and hears is taken into the logs for its peers.

ghost use Rattle.std.specs.Prelude.{◌≡◌};
ghost use Rattle.zq_node.specs.Node.{IsNode, IsSameHome};
ghost use Rattle.zq_store.specs.Intake as wanted;

use std::alloc::Global;
use std::sync::Wait;
use zq_node::{Node, NodeFault};
use zq_replica::{Drained, Logs};
use zq_serve::Gate;

/// How many operations may be made that are not in the logs yet, before calls wait.
const MOST_LEFT: u64 = 65_536;

/// Who is told that there is something for the peers of a site.
pub trait Called {
    /// There is something in the logs.
    fn call<R: Wait>(&self, rt: &R);
}

/// Where what a site makes and hears is taken, and who is told of it.
#[derive(Drop)]
pub struct Intake<'a, P: Called> {
    pub alloc: Global,
    /// The logs of the site's heaps, for its peers.
    pub logs: &'a Logs,
    /// Where calls wait while the logs lack too much.
    pub gate: &'a Gate,
    pub peers: &'a P,
}

impl<P: Called> Intake<'_, P> {
    /// Takes a piece of what each heap has made into its log, and says whether more is left. While a
    /// round leaves too much the gate before the site's calls is shut. What is refused memory is
    /// taken the next time.
    pub fn drain<R: Wait>(&self, rt: &R, node: &mut Node<'_>) -> bool
        requires { IsNode node.old }
        ensures node { IsNode node.new }
        ensures home { IsSameHome node.old node.new }
    {
        let left = self.drain_round(rt, node).unwrap_or(0);
        self.hold_calls(rt, left);
        left > 0
    }

    /// Calls wait where so many operations are left.
    pub(crate) fn hold_calls<R: Wait>(&self, rt: &R, left: u64) {
        self.gate.set(rt, is_much(left));
    }

    /// Takes a piece of what each heap has made into its log, and tells who makes frames for the
    /// peers where there was something. It says how many operations are left.
    pub(crate) fn drain_round<R: Wait>(&self, rt: &R, node: &mut Node<'_>) -> Result<u64, NodeFault>
        requires { IsNode node.old }
        ensures node { IsNode node.new }
        ensures home { IsSameHome node.old node.new }
    {
        let mut left = 0u64;
        let mut some = false;
        for heap in 0..self.logs.heaps() {
            let (has_some, left_here) = self.drain_heap(rt, node, heap)?;
            some = some || has_some;
            left = left.saturating_add(left_here);
        }
        if some {
            self.peers.call(rt);
        }
        Ok(left)
    }

    /// Takes a piece of what a heap has made into its log, and lets who waits for that go on. It
    /// says whether that is all that there was, where there was something, and how many operations
    /// are left; where some may be left it is told at once.
    fn drain_heap<R: Wait>(
        &self,
        rt: &R,
        node: &mut Node<'_>,
        heap: u8,
    ) -> Result<(bool, u64), NodeFault>
        requires { IsNode node.old }
        ensures node { IsNode node.new }
        ensures home { IsSameHome node.old node.new }
    {
        let drained = self.logs.drain_piece(rt, self.alloc, node, heap)?;
        self.gate.pass(rt);
        match drained {
            Drained::Nothing => Ok((false, 0)),
            Drained::All => Ok((true, 0)),
            Drained::Piece => {
                self.peers.call(rt);
                let left = self.logs.lag(rt, node, heap)?;
                Ok((false, left))
            }
        }
    }

    /// Takes all that a heap has made into its log.
    pub(crate) fn drain_all<R: Wait>(
        &self,
        rt: &R,
        node: &mut Node<'_>,
        heap: u8,
    ) -> Result<(), NodeFault>
        requires { IsNode node.old }
        ensures node { IsNode node.new }
        ensures home { IsSameHome node.old node.new }
    {
        for _piece in 0..u64::MAX {
            if self.logs.drain_piece(rt, self.alloc, node, heap)? != Drained::Piece {
                break;
            }
        }
        Ok(())
    }
}

/// Whether calls have to wait where so many operations are not in the logs yet.
fn is_much(left: u64) -> bool
    ensures { result ≡ wanted.is_much left }
{
    left > MOST_LEFT
}
