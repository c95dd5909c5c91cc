//! The heaps of a site that makes operations, and what of them is not written yet.

ghost use Rattle.std.specs.Prelude.{IfOk, ◌≡◌};

use std::alloc::Global;
use std::test::Fail;
use zq_dots::{Act, Op, Rule, Score, SiteNo, heap_of};
use zq_entries::Batch;
use zq_links as links;
use zq_links::Piece;
use zq_posheap::Seeded;
use zq_recovery::Identity;
use zq_shard::{Shard, Spot};
use zq_stage::{Portion, PortionLimits};

/// The number of heaps of the site.
pub(crate) const HEAPS: u8 = 2;

/// One member at a time.
const LIMITS: PortionLimits = PortionLimits {
    rows: 1,
    bytes: 1 << 20,
};

/// A heap, with what was made and is not written yet, and where the walk of a switch is in it. One
/// that has jumped has what was not made here: what is made then is in no round, up to the first
/// piece of the heap.
#[derive(Drop)]
pub(crate) struct LiveHeap {
    pub(crate) shard: Shard,
    pub(crate) pending: Vec<Op>,
    pub(crate) has_jumped: bool,
    pub(crate) spot: Spot,
    pub(crate) number: u32,
}

/// The heaps of the site 0, and copies of them as they were at each round and each piece.
#[derive(Drop)]
pub(crate) struct Live {
    pub(crate) heaps: Vec<LiveHeap>,
    pub(crate) copies: Vec<Shard>,
}

/// The settings of the site 0 with two heaps and the rule High.
pub(crate) fn identity() -> Result<Identity, Fail>
    ensures { IfOk result (λ i. i.heaps ≡ 2) }
{
    let site = SiteNo::new(0).ok_or("a site")?;
    Ok(Identity {
        site,
        heaps: HEAPS,
        rule: Rule::High,
    })
}

/// A heap in which nothing was done.
fn empty_heap(alloc: Global, heap: u8) -> Result<LiveHeap, Fail> {
    if heap >= HEAPS {
        return Err("a heap".into());
    }
    Ok(LiveHeap {
        shard: Shard::new_ruled(alloc, heap, HEAPS, Rule::High, Seeded::new(1)),
        pending: Vec::new(alloc),
        has_jumped: false,
        spot: Spot::start(),
        number: 0,
    })
}

impl Live {
    /// Nothing was done.
    pub(crate) fn new(alloc: Global) -> Result<Live, Fail> {
        let mut live = Live {
            heaps: Vec::new(alloc),
            copies: Vec::new(alloc),
        };
        for heap in 0..HEAPS {
            live.heaps.push(empty_heap(alloc, heap)?)?;
        }
        live.note_copies(alloc)?;
        Ok(live)
    }

    /// Notes what each heap is now.
    fn note_copies(&mut self, alloc: Global) -> Result<(), Fail> {
        for heap in &self.heaps {
            self.copies.push(heap.shard.copy(alloc)?)?;
        }
        Ok(())
    }

    /// Puts a score at the member of this name of the key q.
    pub(crate) fn put(&mut self, alloc: Global, member: u8, score: i64) -> Result<(), Fail> {
        let site = SiteNo::new(0).ok_or("a site")?;
        let act = Act::Put(Score::new(score).ok_or("a score")?);
        let place = heap_of(b"q", &[member], HEAPS) as usize;
        let heap = self.heaps.get_mut(place).ok_or("a heap")?;
        let op = heap.shard.make(alloc, site, b"q", &[member], act)?;
        if !heap.has_jumped {
            heap.pending.push(op)?;
        }
        Ok(())
    }

    /// The member's heap comes to have an operation of another site, of which this one has no
    /// record: it jumps.
    pub(crate) fn jump(&mut self, alloc: Global, member: u8, score: i64) -> Result<(), Fail> {
        let site = SiteNo::new(1).ok_or("a site")?;
        let act = Act::Put(Score::new(score).ok_or("a score")?);
        let place = heap_of(b"q", &[member], HEAPS) as usize;
        let heap = self.heaps.get_mut(place).ok_or("a heap")?;
        heap.shard.make(alloc, site, b"q", &[member], act)?;
        heap.has_jumped = true;
        heap.pending = Vec::new(alloc);
        Ok(())
    }

    /// What was made and is not written yet, by batches, oldest first.
    pub(crate) fn take_batches(&mut self, alloc: Global) -> Result<Vec<Batch>, Fail> {
        let mut batches = Vec::new(alloc);
        for heap in &mut self.heaps {
            let ops = std::mem::replace(&mut heap.pending, Vec::new(alloc));
            if let Some(batch) = Batch::new(alloc, ops)? {
                batches.push(batch)?;
            }
        }
        self.note_copies(alloc)?;
        Ok(batches)
    }

    /// How many operations of a heap were made here.
    pub(crate) fn made(&self, heap: u8) -> Result<u64, Fail> {
        let site = SiteNo::new(0).ok_or("a site")?;
        let heap = self.heaps.get(heap as usize).ok_or("a heap")?;
        Ok(heap.shard.vector().get(site))
    }

    /// The next piece of a heap.
    pub(crate) fn next_piece(&mut self, alloc: Global, heap: u8) -> Result<Piece, Fail> {
        self.note_copies(alloc)?;
        let heap = self.heaps.get_mut(heap as usize).ok_or("a heap")?;
        heap.has_jumped &= heap.number > 0;
        let portion = Portion::of(&heap.shard, alloc, heap.spot, LIMITS, Seeded::new(2))?;
        let number = heap.number;
        heap.spot = portion.next;
        heap.number = number.saturating_add(1);
        Ok(Piece {
            life: 1,
            number,
            next: links::Spot {
                key: portion.next.key as u64,
                member: portion.next.member as u64,
            },
            part: portion.part,
        })
    }

    /// The walks begin anew.
    pub(crate) fn begin_walks(&mut self) {
        for heap in &mut self.heaps {
            heap.spot = Spot::start();
            heap.number = 0;
        }
    }

    /// Whether a heap was this at some round or piece.
    pub(crate) fn was(&self, shard: &Shard) -> bool {
        for copy in &self.copies {
            if copy.same(shard) {
                return true;
            }
        }
        false
    }
}
