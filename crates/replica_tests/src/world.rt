//! Sites, and what is under way between them.

use crate::traffic::Traffic;
use mesh_sites::{HEAPS, Station};
use std::alloc::Global;
use std::collections::VecDeque;
use std::mem;
use std::process::Abort;
use std::sync::Wait;
use zq_dots::SiteNo;
use zq_follow::SiteSet;
use zq_replica::Parcels;
use zq_shard::Shard;

/// A frame that is under way.
#[derive(Drop)]
struct Sent {
    from: u8,
    to: u8,
    link: u64,
    bytes: Vec<u8>,
}

/// Sites with the numbers from 0 on, and what is under way between them.
#[derive(Drop)]
pub struct World<'a> {
    stations: Vec<Station<'a>>,
    /// How many sites there are.
    sites: u8,
    /// The links that are up, with their numbers.
    links: Vec<(u8, u8, u64)>,
    /// The number of the link that came up last.
    last: u64,
    /// What is under way, in the order in which it was sent.
    sent: VecDeque<Sent>,
    pub traffic: Traffic,
}

/// The site of this number.
pub fn number(rt: &impl Abort, site: u8) -> SiteNo {
    SiteNo::new(site).expect(rt, "a site")
}

/// All sites.
fn all(rt: &impl Abort) -> SiteSet {
    let mut all = SiteSet::empty();
    for site in 0..64 {
        all = all.with(number(rt, site));
    }
    all
}

impl<'a> World<'a> {
    /// So many sites, of which no two are linked.
    pub fn new(alloc: Global, stations: Vec<Station<'a>>, sites: u8) -> World<'a> {
        World {
            stations,
            sites,
            links: Vec::new(alloc),
            last: 0,
            sent: VecDeque::new(alloc),
            traffic: Traffic::none(alloc),
        }
    }

    /// How many sites there are.
    pub fn sites(&self) -> u8 {
        self.sites
    }

    /// The number of the link between two sites, if it is up.
    fn link_of(&self, one: u8, other: u8) -> Option<u64> {
        for (first, second, link) in self.links.iter() {
            if (*first == one && *second == other) || (*first == other && *second == one) {
                return Some(*link);
            }
        }
        None
    }

    /// These frames of a site are under way where there is a link.
    fn put(&mut self, rt: &impl Abort, from: u8, out: Parcels) {
        for (to, bytes) in out {
            let to = to.value();
            if let Some(link) = self.link_of(from, to) {
                self.traffic.note(rt, &bytes);
                let sent = Sent {
                    from,
                    to,
                    link,
                    bytes,
                };
                self.sent.push_back(sent).expect(rt, "memory");
            }
        }
    }

    /// A client of a site sends the command of a line's words.
    pub fn run<R: Wait + Abort>(&mut self, rt: &R, alloc: Global, site: u8, line: &str) {
        let station = self.stations.get_mut(usize::from(site));
        let station = station.expect(rt, "a station");
        station.ask(rt, alloc, line).expect(rt, "a command");
    }

    /// What was made at a site goes into its logs, and is pushed. It says whether something was.
    fn push_from<R: Wait + Abort>(&mut self, rt: &R, alloc: Global, from: u8) -> bool {
        let station = self.stations.get_mut(usize::from(from));
        let station = station.expect(rt, "a station");
        station.drain(rt, alloc).expect(rt, "a drain");
        let mut out = Vec::new(alloc);
        let pushed = station.push(rt, alloc, &all(rt), &mut out);
        let some = pushed.expect(rt, "a push") || !out.is_empty();
        self.put(rt, from, out);
        some
    }

    /// What was made goes into the logs, and is pushed. It says whether something was.
    pub fn push<R: Wait + Abort>(&mut self, rt: &R, alloc: Global) -> bool {
        let mut some = false;
        for site in 0..self.sites() {
            some |= self.push_from(rt, alloc, site);
        }
        some
    }

    /// The frame that was sent first is heard, if one is under way.
    pub fn hear<R: Wait + Abort>(&mut self, rt: &R, alloc: Global) -> bool {
        let Some(sent) = self.sent.pop_front() else {
            return false;
        };
        let from = number(rt, sent.from);
        let station = self.stations.get_mut(usize::from(sent.to));
        let station = station.expect(rt, "a station");
        let mut out = Vec::new(alloc);
        let heard = station.hear(rt, alloc, from, sent.link, &sent.bytes, &mut out);
        heard.expect(rt, "a frame");
        self.put(rt, sent.to, out);
        true
    }

    /// All comes to rest: what was made is pushed, and what is pushed is heard.
    pub fn settle<R: Wait + Abort>(&mut self, rt: &R, alloc: Global) {
        for _round in 0..100_000 {
            if !self.hear(rt, alloc) && !self.push(rt, alloc) {
                return;
            }
        }
        assert!(rt; false, "it does not come to rest");
    }

    /// A second goes by at all sites.
    pub fn beat<R: Wait + Abort>(&mut self, rt: &R, alloc: Global) {
        for site in 0..self.sites() {
            let station = self.stations.get_mut(usize::from(site));
            let station = station.expect(rt, "a station");
            let mut out = Vec::new(alloc);
            station.beat(rt, alloc, &mut out).expect(rt, "a beat");
            self.put(rt, site, out);
        }
    }

    /// A link is up.
    pub fn link<R: Wait + Abort>(&mut self, rt: &R, alloc: Global, one: u8, other: u8) {
        self.last = self.last.saturating_add(1);
        let link = self.last;
        self.links.push((one, other, link)).expect(rt, "memory");
        self.raise(rt, alloc, one, other, link);
        self.raise(rt, alloc, other, one, link);
    }

    /// A site is told that its link to a peer is up.
    fn raise<R: Wait + Abort>(&mut self, rt: &R, alloc: Global, site: u8, peer: u8, link: u64) {
        let peer = number(rt, peer);
        let station = self.stations.get_mut(usize::from(site));
        let station = station.expect(rt, "a station");
        let mut out = Vec::new(alloc);
        let raised = station.raise(rt, alloc, peer, link, &mut out);
        raised.expect(rt, "a link");
        self.put(rt, site, out);
    }

    /// A link is down, and what was under way is lost.
    pub fn cut<R: Wait + Abort>(&mut self, rt: &R, alloc: Global, one: u8, other: u8) {
        let link = self.link_of(one, other).expect(rt, "a link");
        self.lose(rt, alloc, one, other);
        self.lose(rt, alloc, other, one);
        self.links.retain(|entry| entry.2 != link);
        self.lower(rt, alloc, one, other, link);
        self.lower(rt, alloc, other, one, link);
    }

    /// A site is told that its link to a peer is down.
    fn lower<R: Wait + Abort>(&mut self, rt: &R, alloc: Global, site: u8, peer: u8, link: u64) {
        let peer = number(rt, peer);
        let station = self.stations.get_mut(usize::from(site));
        let station = station.expect(rt, "a station");
        let mut out = Vec::new(alloc);
        let lowered = station.lower(rt, alloc, peer, link, &mut out);
        lowered.expect(rt, "an end");
        self.put(rt, site, out);
    }

    /// What is under way from one site to another is lost.
    pub fn lose(&mut self, rt: &impl Abort, alloc: Global, from: u8, to: u8) {
        let mut left = VecDeque::new(alloc);
        let sent = mem::replace(&mut self.sent, VecDeque::new(alloc));
        for each in sent {
            if each.from != from || each.to != to {
                left.push_back(each).expect(rt, "memory");
            }
        }
        self.sent = left;
    }

    /// What a site has of a heap.
    fn shard<R: Wait + Abort>(&mut self, rt: &R, alloc: Global, site: u8, heap: u8) -> Shard {
        let station = self.stations.get_mut(usize::from(site));
        let station = station.expect(rt, "a station");
        station.shard(rt, alloc, heap).expect(rt, "a heap")
    }

    /// Whether two sites have the same.
    pub fn is_same<R: Wait + Abort>(&mut self, rt: &R, alloc: Global, one: u8, other: u8) -> bool {
        let mut same = true;
        for heap in 0..HEAPS {
            let first = self.shard(rt, alloc, one, heap);
            let second = self.shard(rt, alloc, other, heap);
            same &= first.same(&second);
        }
        same
    }

    /// How many members of queue q a site has.
    pub fn count<R: Wait + Abort>(&mut self, rt: &R, alloc: Global, site: u8) -> usize {
        let mut count: usize = 0;
        for heap in 0..HEAPS {
            let members = self.shard(rt, alloc, site, heap).count(b"q");
            count = count.saturating_add(members);
        }
        count
    }
}
