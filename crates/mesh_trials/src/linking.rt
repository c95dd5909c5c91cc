//! Links that come up, and are cut, and sites that die.

use crate::counts::count;
use crate::watch::Watch;
use crate::way::back_of;
use crate::world::{Next, World};
use crate::wrong::Wrong;
use std::alloc::Global;
use std::sync::Wait;
use zq_dots::SiteNo;
use zq_follow::SiteSet;

/// The end of a link that is down, at the site at a place, which was not told so.
#[derive(Clone, Copy, Debug)]
pub struct Late {
    pub place: usize,
    pub peer: SiteNo,
    pub link: u64,
}

impl World<'_> {
    /// The link of a way comes up, unless it is up, or a site at its ends has died.
    pub(crate) fn raise<R: Wait>(
        &mut self,
        rt: &R,
        alloc: Global,
        way: usize,
    ) -> Result<(), Wrong> {
        let Some(first) = self.ways.get(way) else {
            return Err(Wrong::NoPlace);
        };
        if first.is_gone || first.link.is_some() {
            return Ok(());
        }
        self.last_link = self.last_link.saturating_add(1);
        let link = self.last_link;
        self.set_up(way, link);
        self.set_up(back_of(way), link);
        self.raise_end(rt, alloc, way, link)?;
        self.raise_end(rt, alloc, back_of(way), link)
    }

    /// A way is up: nothing went over it.
    fn set_up(&mut self, way: usize, link: u64) {
        let watch = Watch::new(self.plan.is_hostile);
        if let Some(way) = self.ways.get_mut(way) {
            way.link = Some(link);
            way.watch = watch;
        }
    }

    /// The site at which a way begins is told that the link is up.
    fn raise_end<R: Wait>(
        &mut self,
        rt: &R,
        alloc: Global,
        way: usize,
        link: u64,
    ) -> Result<(), Wrong> {
        let Some(way) = self.ways.get(way) else {
            return Err(Wrong::NoPlace);
        };
        let (from, peer) = (way.from, way.peer);
        let Some(station) = self.stations.get_mut(from) else {
            return Err(Wrong::NoPlace);
        };
        let mut out = Vec::new(alloc);
        station.raise(rt, alloc, peer, link, &mut out)?;
        self.put(alloc, from, out)
    }

    /// The link of a way is cut, if it is up. Of what is under way the first frames come, as many
    /// as are drawn, and the others are lost. An end may be told of it only later.
    pub(crate) fn cut<R: Wait>(&mut self, rt: &R, alloc: Global, way: usize) -> Result<(), Wrong> {
        let Some(link) = self.link_of(way) else {
            return Ok(());
        };
        count(&mut self.counts.cuts, 1);
        self.deliver_first(rt, alloc, way)?;
        self.deliver_first(rt, alloc, back_of(way))?;
        self.set_down(way);
        self.set_down(back_of(way));
        self.lower_end(rt, alloc, way, link)?;
        self.lower_end(rt, alloc, back_of(way), link)
    }

    /// The number of the link of a way, where it is up.
    fn link_of(&self, way: usize) -> Option<u64> {
        match self.ways.get(way) {
            Some(way) => way.link,
            None => None,
        }
    }

    /// The first frames of a way come, as many as are drawn.
    fn deliver_first<R: Wait>(&mut self, rt: &R, alloc: Global, way: usize) -> Result<(), Wrong> {
        let Some(found) = self.ways.get(way) else {
            return Err(Wrong::NoPlace);
        };
        let waiting = found.frames.len();
        let count = self.draws.below(waiting.saturating_add(1));
        for _frame in 0..count {
            self.deliver(rt, alloc, way, Next::First)?;
        }
        Ok(())
    }

    /// A way is down: what is under way is lost.
    fn set_down(&mut self, way: usize) {
        if let Some(way) = self.ways.get_mut(way) {
            count(&mut self.counts.lost, way.frames.len() as u64);
            way.frames.clear();
            way.link = None;
        }
    }

    /// The site at which a way begins is told that the link is down, at once or later.
    fn lower_end<R: Wait>(
        &mut self,
        rt: &R,
        alloc: Global,
        way: usize,
        link: u64,
    ) -> Result<(), Wrong> {
        let Some(way) = self.ways.get(way) else {
            return Err(Wrong::NoPlace);
        };
        let late = Late {
            place: way.from,
            peer: way.peer,
            link,
        };
        if self.draws.hits(4) {
            self.late.reserve(1)?;
            self.late.push_reserved(late);
            return Ok(());
        }
        self.lower(rt, alloc, late)
    }

    /// The site at a place is told that a link is down.
    fn lower<R: Wait>(&mut self, rt: &R, alloc: Global, late: Late) -> Result<(), Wrong> {
        let Some(station) = self.stations.get_mut(late.place) else {
            return Err(Wrong::NoPlace);
        };
        let mut out = Vec::new(alloc);
        station.lower(rt, alloc, late.peer, late.link, &mut out)?;
        self.put(alloc, late.place, out)
    }

    /// The end of a link that was not told that it is down is told so, if there is one, and whether
    /// there was.
    pub(crate) fn lower_late<R: Wait>(&mut self, rt: &R, alloc: Global) -> Result<bool, Wrong> {
        let Some(late) = self.late.pop() else {
            return Ok(false);
        };
        if self.is_alive(late.place) {
            self.lower(rt, alloc, late)?;
        }
        Ok(true)
    }

    /// A drawn site dies where the others stay linked with each other, unless one has died: its
    /// links are cut for good.
    pub(crate) fn kill<R: Wait>(&mut self, rt: &R, alloc: Global) -> Result<(), Wrong> {
        let place = self.draws.below(self.stations.len());
        if self.dead.is_some() || self.stations.len() < 3 || !self.is_linked_without(place)? {
            return Ok(());
        }
        for way in 0..self.ways.len() {
            if self.begins_at(way, place) {
                self.cut(rt, alloc, way)?;
                self.set_gone(way);
                self.set_gone(back_of(way));
            }
        }
        self.dead = Some(place);
        count(&mut self.counts.died, 1);
        Ok(())
    }

    /// Whether a way begins at the site at a place.
    fn begins_at(&self, way: usize, place: usize) -> bool {
        match self.ways.get(way) {
            Some(way) => way.from == place,
            None => false,
        }
    }

    /// A way will not come up again.
    fn set_gone(&mut self, way: usize) {
        if let Some(way) = self.ways.get_mut(way) {
            way.is_gone = true;
        }
    }

    /// Whether all sites but that at a place are linked with each other, over links that may be up.
    fn is_linked_without(&self, place: usize) -> Result<bool, Wrong> {
        let first = self.number(if place == 0 { 1 } else { 0 })?;
        let mut reached = SiteSet::empty().with(first);
        for _round in 0..self.stations.len() {
            for way in self.ways.iter() {
                let passes = way.from != place && way.to != place && !way.is_gone;
                if passes && reached.has(self.number(way.from)?) {
                    reached = reached.with(way.peer);
                }
            }
        }
        let mut all = true;
        for (at, station) in self.stations.iter().enumerate() {
            all &= at == place || reached.has(station.number());
        }
        Ok(all)
    }
}
