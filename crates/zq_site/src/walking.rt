//! Walks over the keys of a site, by the thread that drains it.

ghost use Rattle.zq_node.specs.Node.{IsNode, IsSameHome};

use crate::shared::Shared;
use crate::survey::milliseconds;
use std::alloc::{AllocError, Global};
use std::sync::Wait;
use std::time::Clock;
use zq_admin::{Found, KeyCount, Largest, summed};
use zq_node::{Node, NodeFault};
use zq_posheap::Seeded;
use zq_shard::{Shard, Spot};
use zq_stage::PortionLimits;

/// How many keys a walk looks at before what was made is drained again. Each is looked at under a
/// hold of its heap of its own.
const MOST_STEPS: usize = 256;

/// For how many milliseconds a walk goes on at most.
const MOST_TIME: u64 = 10_000;

/// A hold takes one member, of which the place says how many there are before it.
const ONE: PortionLimits = PortionLimits {
    rows: 1,
    bytes: usize::MAX,
};

/// A walk over the keys of a site, heap by heap.
#[derive(Drop)]
pub struct Walk {
    heap: u8,
    spot: Spot,
    began: u64,
    parts: u64,
    here: Largest,
    all: Vec<KeyCount>,
}

impl Walk {
    /// At its begin.
    fn new(alloc: Global, now: u64) -> Walk {
        Walk {
            heap: 0,
            spot: Spot::start(),
            began: now,
            parts: 0,
            here: Largest::new(alloc),
            all: Vec::new(alloc),
        }
    }

    /// Is in the next heap, at its begin.
    fn next_heap(&mut self) -> Result<(), AllocError> {
        self.here.hand_to(&mut self.all)?;
        self.heap = self.heap.saturating_add(1);
        self.spot = Spot::start();
        Ok(())
    }

    /// Has found this.
    fn end(self, alloc: Global, now: u64, whole: bool) -> Result<Found, AllocError> {
        let Walk {
            began,
            parts,
            mut here,
            mut all,
            ..
        } = self;
        here.hand_to(&mut all)?;
        Ok(Found {
            keys: summed(alloc, all)?,
            parts,
            at: now,
            took: now.saturating_sub(began),
            whole,
        })
    }
}

/// Leads the walk on, or begins one where the keys are asked for: a few hundred keys, each under a
/// short hold of its heap. What is refused memory ends a walk without what it found.
pub fn go_on<L: Clock + Wait>(
    rt: &L,
    shared: Shared<'_>,
    node: &mut Node<'_>,
    hasher: Seeded,
    walk: &mut Option<Walk>,
)
    requires { IsNode node.old }
    ensures node { IsNode node.new }
    ensures home { IsSameHome node.old node.new }
{
    if walk.is_none() && !shared.front.survey.is_wanted() {
        return;
    }
    let now = milliseconds(rt);
    let mut under_way = match walk.take() {
        Some(under_way) => under_way,
        None => Walk::new(shared.alloc, now),
    };
    let heaps = shared.logs.heaps();
    let more = steps(rt, shared.alloc, heaps, node, hasher, &mut under_way);
    match more {
        Ok(true) if now.saturating_sub(under_way.began) < MOST_TIME => {
            *walk = Some(under_way);
            shared.mailbox.tick(rt);
        }
        Ok(more) => {
            if let Ok(found) = under_way.end(shared.alloc, milliseconds(rt), !more) {
                shared.front.survey.put(rt, found);
            }
        }
        Err(_) => {}
    }
}

/// Looks at the next keys of a site of so many heaps, and says whether some are left.
fn steps<L: Wait>(
    rt: &L,
    alloc: Global,
    heaps: u8,
    node: &mut Node<'_>,
    hasher: Seeded,
    walk: &mut Walk,
) -> Result<bool, NodeFault>
    requires { IsNode node.old }
    ensures node { IsNode node.new }
    ensures home { IsSameHome node.old node.new }
{
    for _step in 0..MOST_STEPS {
        if walk.heap >= heaps {
            return Ok(false);
        }
        step(rt, alloc, node, hasher, walk)?;
    }
    Ok(true)
}

/// Looks at the next key of a heap, or goes to the next heap where there is none.
fn step<L: Wait>(
    rt: &L,
    alloc: Global,
    node: &mut Node<'_>,
    hasher: Seeded,
    walk: &mut Walk,
) -> Result<(), NodeFault>
    requires { IsNode node.old }
    ensures node { IsNode node.new }
    ensures home { IsSameHome node.old node.new }
{
    let portion = node.portion(rt, alloc, walk.heap, walk.spot, ONE, hasher)?;
    match key_of(alloc, &portion.part)? {
        Some(key) => {
            let members = (portion.next.member as u64).saturating_add(1);
            walk.here.add(key, members)?;
            walk.parts = walk.parts.saturating_add(1);
            walk.spot = Spot {
                key: portion.next.key,
                member: 0,
            };
        }
        None => walk.next_heap()?,
    }
    Ok(())
}

/// A copy of the key of a heap's one member.
fn key_of(alloc: Global, part: &Shard) -> Result<Option<Vec<u8>>, AllocError> {
    let piece = part.walk(alloc, Spot::start(), 1)?;
    match piece.rows.first() {
        Some(row) => Ok(Some(Vec::from_slice(alloc, row.key).map_err(AllocError::from)?)),
        None => Ok(None),
    }
}
