//! What a world is judged by.

use crate::world::World;
use crate::wrong::Wrong;
use mesh_sites::HEAPS;
use std::alloc::Global;
use std::sync::Wait;
use zq_dots::Vector;
use zq_shard::Shard;

impl World<'_> {
    /// Whether all sites that are left say to have the same operations.
    pub(crate) fn are_alike<R: Wait>(&mut self, rt: &R) -> Result<bool, Wrong> {
        for heap in 0..HEAPS {
            let mut first = None;
            for place in 0..self.stations.len() {
                if self.is_alive(place) {
                    let vector = self.vector(rt, place, heap)?;
                    if *first.get_or_insert(vector) != vector {
                        return Ok(false);
                    }
                }
            }
        }
        Ok(true)
    }

    /// The operations of a heap that the site at a place has.
    fn vector<R: Wait>(&mut self, rt: &R, place: usize, heap: u8) -> Result<Vector, Wrong> {
        let Some(station) = self.stations.get_mut(place) else {
            return Err(Wrong::NoPlace);
        };
        Ok(station.vector(rt, heap)?)
    }

    /// A copy of a heap of the site at a place.
    fn shard<R: Wait>(
        &mut self,
        rt: &R,
        alloc: Global,
        place: usize,
        heap: u8,
    ) -> Result<Shard, Wrong> {
        let Some(station) = self.stations.get_mut(place) else {
            return Err(Wrong::NoPlace);
        };
        Ok(station.shard(rt, alloc, heap)?)
    }

    /// Judges the world in its end: each heap of each site that is left is what its operations
    /// make, all sites have the same, and nothing is lacking that a site made which is left.
    pub(crate) fn judge<R: Wait>(&mut self, rt: &R, alloc: Global) -> Result<(), Wrong> {
        for place in 0..self.stations.len() {
            if self.is_alive(place) {
                self.judge_site(rt, alloc, place)?;
            }
        }
        for heap in 0..HEAPS {
            self.judge_heap(rt, alloc, heap)?;
        }
        Ok(())
    }

    /// Whether each heap of a site is what the operations make that it says to have.
    pub(crate) fn judge_site<R: Wait>(
        &mut self,
        rt: &R,
        alloc: Global,
        place: usize,
    ) -> Result<(), Wrong> {
        let number = self.number(place)?;
        for heap in 0..HEAPS {
            let shard = self.shard(rt, alloc, place, heap)?;
            let owed = self.history.heap_of(alloc, heap, shard.vector())?;
            let is_owed = match owed {
                Some(owed) => owed.same(&shard),
                None => false,
            };
            if !is_owed {
                return Err(Wrong::Mistaken(number.value(), heap));
            }
        }
        Ok(())
    }

    /// Whether a heap is the same at all sites that are left, and has all that they made.
    fn judge_heap<R: Wait>(&mut self, rt: &R, alloc: Global, heap: u8) -> Result<(), Wrong> {
        let first = if self.is_alive(0) { 0 } else { 1 };
        let owed = self.shard(rt, alloc, first, heap)?;
        for place in 0..self.stations.len() {
            if !self.is_alive(place) {
                continue;
            }
            let number = self.number(place)?;
            if owed.vector().get(number) != self.history.made_by(number, heap) {
                return Err(Wrong::Lacking(number.value(), heap));
            }
            if !self.shard(rt, alloc, place, heap)?.same(&owed) {
                return Err(Wrong::Apart(heap));
            }
        }
        Ok(())
    }
}
