//! Walks over all members of a site, by the thread that drains it, to find how large its heaps are.

ghost use Rattle.zq_node.specs.Node.{IsNode, IsSameHome};

use crate::heap_size::HeapSize;
use crate::shared::Shared;
use crate::sizes::{SizesFound, now_of};
use crate::times::stepping;
use std::alloc::{AllocError, Global};
use std::sync::Wait;
use std::time::{Clock, Duration};
use zq_node::{Node, NodeFault};
use zq_posheap::Seeded;
use zq_shard::Spot;
use zq_stage::{Portion, PortionLimits};

/// How many members a hold of a heap takes at most: it lasts some hundred microseconds at most.
const MOST_ROWS: usize = 64;

/// A hold takes so many members, and no more than 128 KiB of what they count for where there is more
/// than one.
const PIECE: PortionLimits = PortionLimits {
    rows: MOST_ROWS,
    bytes: 131_072,
};

/// So many times as long as a piece took nothing is looked at: a walk takes a fiftieth of a
/// processor.
const REST: u32 = 49;

/// How many pieces are taken at most before what was made is drained again.
const MOST_PIECES: usize = 8;

/// A walk over all members of a site, heap by heap.
#[derive(Drop)]
pub struct SizeWalk {
    /// The heap at which it is, and where in that.
    heap: u8,
    spot: Spot,
    /// Whether it has come to the key there, and not to all members of it.
    is_in_key: bool,
    /// What it has found in that heap.
    here: HeapSize,
    /// The heaps before.
    heaps: Vec<HeapSize>,
    began: Duration,
    /// When the next piece is taken.
    next_at: Duration,
}

impl SizeWalk {
    /// At its begin.
    fn new(alloc: Global, now: Duration) -> SizeWalk {
        SizeWalk {
            heap: 0,
            spot: Spot::start(),
            is_in_key: false,
            here: HeapSize::none(),
            heaps: Vec::new(alloc),
            began: now,
            next_at: now,
        }
    }

    /// Takes this portion of its heap.
    fn take(&mut self, alloc: Global, portion: &Portion) -> Result<(), AllocError> {
        let piece = portion.part.walk(alloc, Spot::start(), MOST_ROWS)?;
        self.here.add_piece(&piece.rows, self.is_in_key);
        self.spot = portion.next;
        self.is_in_key = portion.next.member > 0;
        if portion.next.is_end() {
            self.next_heap()?;
        }
        Ok(())
    }

    /// Is in the next heap, at its begin.
    fn next_heap(&mut self) -> Result<(), AllocError> {
        self.heaps.push(self.here)?;
        self.heap = self.heap.saturating_add(1);
        self.spot = Spot::start();
        self.is_in_key = false;
        self.here = HeapSize::none();
        Ok(())
    }

    /// A piece was taken between these times: the next one has to wait.
    fn rest(&mut self, began: Duration, ended: Duration) {
        let took = ended.saturating_sub(began);
        let due = self.next_at.max(began.saturating_sub(stepping()));
        self.next_at = due.saturating_add(took.saturating_mul(REST));
    }
}

/// Leads the walk on where it is time, or begins one where it is asked how large the heaps are: some
/// members, under a short hold of their heap. Where memory is refused the walk ends, and what was
/// found last stays.
pub fn size_heaps<L: Clock + Wait>(
    rt: &L,
    shared: Shared<'_>,
    node: &mut Node<'_>,
    hasher: Seeded,
    walk: &mut Option<SizeWalk>,
)
    requires { IsNode node.old }
    ensures node { IsNode node.new }
    ensures home { IsSameHome node.old node.new }
{
    if walk.is_none() && !shared.front.sizes.is_wanted() {
        return;
    }
    let mut under_way = match walk.take() {
        Some(under_way) => under_way,
        None => SizeWalk::new(shared.alloc, now_of(rt)),
    };
    let heaps = shared.logs.heaps();
    match pieces(rt, shared.alloc, heaps, node, hasher, &mut under_way) {
        Ok(true) => *walk = Some(under_way),
        Ok(false) => {
            let SizeWalk { heaps, began, .. } = under_way;
            let ended = now_of(rt);
            let found = SizesFound {
                heaps,
                began,
                ended,
            };
            shared.front.sizes.put(rt, found);
        }
        Err(_) => shared.front.sizes.give_up(),
    }
}

/// Takes the next pieces of a site of so many heaps, as many as it is time for, and says whether
/// something is left.
fn pieces<L: Clock + Wait>(
    rt: &L,
    alloc: Global,
    heaps: u8,
    node: &mut Node<'_>,
    hasher: Seeded,
    walk: &mut SizeWalk,
) -> Result<bool, NodeFault>
    requires { IsNode node.old }
    ensures node { IsNode node.new }
    ensures home { IsSameHome node.old node.new }
{
    for _piece in 0..MOST_PIECES {
        if walk.heap >= heaps {
            return Ok(false);
        }
        let began = now_of(rt);
        if began < walk.next_at {
            break;
        }
        piece(rt, alloc, node, hasher, walk)?;
        walk.rest(began, now_of(rt));
    }
    Ok(true)
}

/// Takes the next piece of a heap.
fn piece<L: Wait>(
    rt: &L,
    alloc: Global,
    node: &mut Node<'_>,
    hasher: Seeded,
    walk: &mut SizeWalk,
) -> Result<(), NodeFault>
    requires { IsNode node.old }
    ensures node { IsNode node.new }
    ensures home { IsSameHome node.old node.new }
{
    let portion = node.portion(rt, alloc, walk.heap, walk.spot, PIECE, hasher)?;
    walk.take(alloc, &portion)?;
    Ok(())
}
