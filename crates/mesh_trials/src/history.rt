//! All operations of a world.

use crate::wrong::Wrong;
use mesh_sites::HEAPS;
use std::alloc::Global;
use zq_dots::{Op, SiteNo, Vector};
use zq_shard::{Shard, TakeFault, Taken};

/// All operations of a world, in the order in which they were made: what one has seen is before it.
#[derive(Drop)]
pub struct History {
    ops: Vec<Op>,
}

impl History {
    /// Nothing was made.
    pub fn new(alloc: Global) -> History {
        History {
            ops: Vec::new(alloc),
        }
    }

    /// How many operations there are.
    pub fn len(&self) -> usize {
        self.ops.len()
    }

    /// Operations were made.
    pub fn add(&mut self, ops: Vec<Op>) -> Result<(), Wrong> {
        for op in ops {
            self.ops.reserve(1)?;
            self.ops.push_reserved(op);
        }
        Ok(())
    }

    /// How many operations a site made in a heap.
    pub fn made_by(&self, site: SiteNo, heap: u8) -> u64 {
        let mut most = 0;
        for op in self.ops.iter() {
            let dot = op.dot();
            if op.heap() == heap && dot.site == site {
                most = most.max(dot.n);
            }
        }
        most
    }

    /// The heap that those operations make which the vector knows: each is taken by itself.
    pub fn heap_of(
        &self,
        alloc: Global,
        heap: u8,
        vector: &Vector,
    ) -> Result<Option<Shard>, Wrong> {
        if heap >= HEAPS {
            return Err(Wrong::NoPlace);
        }
        let mut shard = Shard::new(alloc, heap, HEAPS);
        for op in self.ops.iter() {
            if op.heap() == heap && vector.has(op.dot()) && !is_taken(alloc, &mut shard, op)? {
                return Ok(None);
            }
        }
        Ok(Some(shard))
    }
}

/// Takes an operation, and says whether it was new.
fn is_taken(alloc: Global, shard: &mut Shard, op: &Op) -> Result<bool, Wrong> {
    match shard.take(alloc, op) {
        Ok(taken) => Ok(taken == Taken::New),
        Err(TakeFault::NoMemory) => Err(Wrong::NoMemory),
        Err(_) => Ok(false),
    }
}
