//! How a world comes to rest.

use crate::counts::count;
use crate::world::{Next, World};
use crate::wrong::Wrong;
use std::alloc::Global;
use std::sync::Wait;

/// A world that takes more steps does not come to rest.
const MOST_ROUNDS: usize = 100_000;

/// In so many beats all peers are told twice what a site has.
const CALM_BEATS: u64 = 10;

/// After so many beats all sites have the same where no link that was up lost a frame: by then a
/// window is widened that is full of operations which wait for others.
const SOUND_BEATS: u64 = 5;

/// After so many beats all sites have the same.
const MOST_BEATS: u64 = 40;

impl World<'_> {
    /// All links come up, nothing is lost any more, and all comes to rest, with beats in between
    /// until all sites have the same.
    pub(crate) fn finish<R: Wait>(&mut self, rt: &R, alloc: Global) -> Result<(), Wrong> {
        for way in 0..self.ways.len() {
            self.raise(rt, alloc, way)?;
        }
        for _late in 0..self.late.len() {
            self.lower_late(rt, alloc)?;
        }
        self.rest(rt, alloc)?;
        self.await_alike(rt, alloc)?;
        if self.are_alike(rt)? {
            self.stay_alike(rt, alloc)?;
        }
        Ok(())
    }

    /// Seconds go by until all sites have the same.
    fn await_alike<R: Wait>(&mut self, rt: &R, alloc: Global) -> Result<(), Wrong> {
        for _beat in 0..MOST_BEATS {
            if self.are_alike(rt)? {
                break;
            }
            count(&mut self.counts.beats, 1);
            self.beat_all(rt, alloc)?;
            self.rest(rt, alloc)?;
        }
        let is_late = self.counts.beats > 0;
        self.counts.late = u64::from(is_late);
        self.counts.late_sound = u64::from(is_late && !self.plan.is_hostile);
        if self.counts.beats > SOUND_BEATS && !self.plan.is_hostile {
            return Err(Wrong::Late);
        }
        Ok(())
    }

    /// Seconds go by in which nothing is sent that all sites have. Where frames were lost a site
    /// may only find out in the first ones that its peers have all.
    fn stay_alike<R: Wait>(&mut self, rt: &R, alloc: Global) -> Result<(), Wrong> {
        if self.plan.is_hostile {
            self.pass_calms(rt, alloc)?;
        }
        let sent = self.counts.sent;
        let heaps = self.counts.heaps;
        let pieces = self.counts.pieces;
        self.pass_calms(rt, alloc)?;
        let more = self.counts.heaps != heaps || self.counts.pieces != pieces;
        if more || self.counts.sent != sent {
            return Err(Wrong::Needless);
        }
        Ok(())
    }

    /// So many seconds go by that all peers are told twice what a site has.
    fn pass_calms<R: Wait>(&mut self, rt: &R, alloc: Global) -> Result<(), Wrong> {
        for _beat in 0..CALM_BEATS {
            self.beat_all(rt, alloc)?;
            self.rest(rt, alloc)?;
        }
        Ok(())
    }

    /// A second goes by at all sites.
    fn beat_all<R: Wait>(&mut self, rt: &R, alloc: Global) -> Result<(), Wrong> {
        for place in 0..self.stations.len() {
            if self.is_alive(place) {
                self.beat(rt, alloc, place)?;
            }
        }
        Ok(())
    }

    /// All comes to rest: what was made is pushed, and what is pushed is heard.
    fn rest<R: Wait>(&mut self, rt: &R, alloc: Global) -> Result<(), Wrong> {
        for _round in 0..MOST_ROUNDS {
            let busy = self.busy();
            let number = self.draws.below(busy);
            match self.busy_way(number) {
                Some(way) => self.deliver(rt, alloc, way, Next::First)?,
                None => {
                    if !self.push_all(rt, alloc)? {
                        return Ok(());
                    }
                }
            }
        }
        Err(Wrong::Restless)
    }

    /// All sites push what they made, and whether something went.
    fn push_all<R: Wait>(&mut self, rt: &R, alloc: Global) -> Result<bool, Wrong> {
        let mut some = false;
        for place in 0..self.stations.len() {
            if self.is_alive(place) {
                self.drain(rt, alloc, place)?;
                some |= self.push(rt, alloc, place, true)?;
            }
        }
        Ok(some)
    }
}
