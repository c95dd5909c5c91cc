//! Sites, and what is under way between them.

use crate::counts::{Counts, count};
use crate::draws::Draws;
use crate::history::History;
use crate::linking::Late;
use crate::news::News;
use crate::plan::Plan;
use crate::watch::Watch;
use crate::way::{Sent, Way, back_of};
use crate::wrong::Wrong;
use mesh_sites::{Opened, Station, seat_all};
use std::alloc::Global;
use std::collections::VecDeque;
use std::sync::Wait;
use zq_dots::SiteNo;
use zq_follow::SiteSet;
use zq_replica::Parcels;

/// Sites, and what is under way between them.
#[derive(Drop)]
pub struct World<'a> {
    pub(crate) plan: Plan,
    pub(crate) draws: Draws,
    pub(crate) stations: Vec<Station<'a>>,
    /// The links, each in both directions, one after the other.
    pub(crate) ways: Vec<Way>,
    /// The number of the link that came up last.
    pub(crate) last_link: u64,
    /// Ends of links that are down and were not told so.
    pub(crate) late: Vec<Late>,
    /// The place of the site that died.
    pub(crate) dead: Option<usize>,
    pub(crate) history: History,
    pub(crate) counts: Counts,
}

/// Which frame comes next over a way.
#[derive(Clone, Copy, Debug, PartialEq, Eq)]
pub enum Next {
    /// The first one.
    First,
    /// The first one, which comes once more later.
    Doubled,
    /// None: the first one is lost.
    Lost,
    /// The one of this number, from 0, which overtakes those before it.
    Overtakes(usize),
}

impl<'a> World<'a> {
    /// The world of a plan, in which no link is up.
    pub fn new(
        alloc: Global,
        plan: Plan,
        draws: Draws,
        opened: &'a mut [Opened],
    ) -> Result<World<'a>, Wrong> {
        let stations = seat_all(alloc, opened, &plan.sites)?;
        let ways = ways_of(alloc, &plan)?;
        Ok(World {
            plan,
            draws,
            stations,
            ways,
            last_link: 0,
            late: Vec::new(alloc),
            dead: None,
            history: History::new(alloc),
            counts: Counts::none(),
        })
    }

    /// The number of the site at a place.
    pub(crate) fn number(&self, place: usize) -> Result<SiteNo, Wrong> {
        match self.stations.get(place) {
            Some(station) => Ok(station.number()),
            None => Err(Wrong::NoPlace),
        }
    }

    /// Whether the site at a place has not died.
    pub(crate) fn is_alive(&self, place: usize) -> bool {
        self.dead != Some(place)
    }

    /// A drawn site that has not died.
    pub(crate) fn drawn_site(&mut self) -> usize {
        let place = self.draws.below(self.stations.len());
        if self.is_alive(place) {
            return place;
        }
        if place == 0 { 1 } else { place - 1 }
    }

    /// The way from the site at a place to another one, where the link is up.
    fn way_to(&self, from: usize, to: SiteNo) -> Option<usize> {
        self.ways.iter().position(|way| way.from == from && way.peer == to && way.link.is_some())
    }

    /// These frames of the site at a place are under way, where the links are up.
    pub(crate) fn put(&mut self, alloc: Global, from: usize, out: Parcels) -> Result<(), Wrong> {
        for (to, bytes) in out {
            if let Some(way) = self.way_to(from, to) {
                self.put_one(alloc, from, way, bytes)?;
            }
        }
        Ok(())
    }

    /// A frame of the site at a place is under way.
    fn put_one(
        &mut self,
        alloc: Global,
        from: usize,
        way: usize,
        bytes: Vec<u8>,
    ) -> Result<(), Wrong> {
        let Some(station) = self.stations.get(from) else {
            return Err(Wrong::NoPlace);
        };
        let news = News::of(alloc, &bytes, station.has_parked())?;
        let Some(way) = self.ways.get_mut(way) else {
            return Err(Wrong::NoPlace);
        };
        judge_form(&news, station.streams_to(way.peer))?;
        self.counts.note(&news);
        way.watch.send(&news)?;
        way.frames.reserve(1)?;
        way.frames.push_back_reserved(Sent { bytes, news });
        Ok(())
    }

    /// How many ways have frames under way.
    pub(crate) fn busy(&self) -> usize {
        self.ways
            .iter()
            .filter(|way| !way.frames.is_empty())
            .count()
    }

    /// The way of this number, from 0, among those that have frames under way.
    pub(crate) fn busy_way(&self, number: usize) -> Option<usize> {
        let mut left = number;
        for (at, way) in self.ways.iter().enumerate() {
            if !way.frames.is_empty() {
                if left == 0 {
                    return Some(at);
                }
                left -= 1;
            }
        }
        None
    }

    /// A frame of a way comes, or is lost.
    pub(crate) fn deliver<R: Wait>(
        &mut self,
        rt: &R,
        alloc: Global,
        at: usize,
        next: Next,
    ) -> Result<(), Wrong> {
        let Some(way) = self.ways.get_mut(at) else {
            return Err(Wrong::NoPlace);
        };
        let Some(sent) = taken(alloc, &mut way.frames, next)? else {
            return Ok(());
        };
        match next {
            Next::First => {}
            Next::Doubled => count(&mut self.counts.doubled, 1),
            Next::Overtakes(_) => count(&mut self.counts.overtaken, 1),
            Next::Lost => {
                count(&mut self.counts.lost, 1);
                return Ok(());
            }
        }
        self.hear(rt, alloc, at, &sent)
    }

    /// The site at the end of a way hears a frame.
    fn hear<R: Wait>(
        &mut self,
        rt: &R,
        alloc: Global,
        at: usize,
        sent: &Sent,
    ) -> Result<(), Wrong> {
        let Some(way) = self.ways.get(at) else {
            return Err(Wrong::NoPlace);
        };
        let (from, to) = (way.from, way.to);
        let Some(link) = way.link else {
            return Ok(());
        };
        if let Some(back) = self.ways.get_mut(back_of(at)) {
            back.watch.hear(&sent.news);
        }
        let sender = self.number(from)?;
        let Some(station) = self.stations.get_mut(to) else {
            return Err(Wrong::NoPlace);
        };
        let mut out = Vec::new(alloc);
        station.hear(rt, alloc, sender, link, &sent.bytes, &mut out)?;
        self.put(alloc, to, out)
    }

    /// A client of the site at a place asks a drawn line.
    pub(crate) fn ask<R: Wait>(
        &mut self,
        rt: &R,
        alloc: Global,
        place: usize,
        line: &str,
    ) -> Result<(), Wrong> {
        let Some(station) = self.stations.get_mut(place) else {
            return Err(Wrong::NoPlace);
        };
        let made = station.run(rt, alloc, line)?;
        count(&mut self.counts.operations, made.len() as u64);
        self.history.add(made)
    }

    /// What was made at a site goes into its logs.
    pub(crate) fn drain<R: Wait>(
        &mut self,
        rt: &R,
        alloc: Global,
        place: usize,
    ) -> Result<(), Wrong> {
        let Some(station) = self.stations.get_mut(place) else {
            return Err(Wrong::NoPlace);
        };
        station.drain(rt, alloc)?;
        Ok(())
    }

    /// The site at a place pushes to all peers, or to those for which nothing waits. It says
    /// whether something went, or more may follow.
    pub(crate) fn push<R: Wait>(
        &mut self,
        rt: &R,
        alloc: Global,
        place: usize,
        to_all: bool,
    ) -> Result<bool, Wrong> {
        let peers = self.peers(place, to_all);
        let Some(station) = self.stations.get_mut(place) else {
            return Err(Wrong::NoPlace);
        };
        let mut out = Vec::new(alloc);
        let more = station.push(rt, alloc, &peers, &mut out)?;
        let some = more || !out.is_empty();
        self.put(alloc, place, out)?;
        Ok(some)
    }

    /// The peers of the site at a place, or those for which nothing waits.
    fn peers(&self, place: usize, all: bool) -> SiteSet {
        let mut peers = SiteSet::empty();
        for way in self.ways.iter() {
            if way.from == place && (all || way.frames.is_empty()) {
                peers = peers.with(way.peer);
            }
        }
        peers
    }

    /// A second goes by at the site at a place.
    pub(crate) fn beat<R: Wait>(
        &mut self,
        rt: &R,
        alloc: Global,
        place: usize,
    ) -> Result<(), Wrong> {
        let Some(station) = self.stations.get_mut(place) else {
            return Err(Wrong::NoPlace);
        };
        let mut out = Vec::new(alloc);
        station.beat(rt, alloc, &mut out)?;
        self.put(alloc, place, out)
    }
}

/// Whether a heap goes in the form that both sites know: in pieces, or at once.
fn judge_form(news: &News, in_pieces: bool) -> Result<(), Wrong> {
    match news {
        News::Heap(heap) if in_pieces => Err(Wrong::Form(*heap)),
        News::Piece { heap, .. } if !in_pieces => Err(Wrong::Form(*heap)),
        _ => Ok(()),
    }
}

/// Takes the frame that comes next out of those that are under way.
fn taken(alloc: Global, frames: &mut VecDeque<Sent>, next: Next) -> Result<Option<Sent>, Wrong> {
    match next {
        Next::First | Next::Lost => Ok(frames.pop_front()),
        Next::Doubled => match frames.front() {
            Some(sent) => Ok(Some(sent.copy(alloc)?)),
            None => Ok(None),
        },
        Next::Overtakes(number) => Ok(frames.remove(number)),
    }
}

/// The ways of a plan, of which none is up.
fn ways_of(alloc: Global, plan: &Plan) -> Result<Vec<Way>, Wrong> {
    let mut ways = Vec::new(alloc);
    for (one, other) in plan.links.iter() {
        let there = way_of(alloc, plan, *one, *other)?;
        ways.reserve(1)?;
        ways.push_reserved(there);
        let back = way_of(alloc, plan, *other, *one)?;
        ways.reserve(1)?;
        ways.push_reserved(back);
    }
    Ok(ways)
}

/// The way from the site at a place to that at another.
fn way_of(alloc: Global, plan: &Plan, from: usize, to: usize) -> Result<Way, Wrong> {
    let Some(peer) = plan.sites.get(to) else {
        return Err(Wrong::NoPlace);
    };
    Ok(Way {
        from,
        to,
        peer: peer.number,
        link: None,
        is_gone: false,
        frames: VecDeque::new(alloc),
        watch: Watch::new(plan.is_hostile),
    })
}
