//! A site with all that it takes to push.
ghost use Rattle.std.specs.Prelude.{All, IfSome};
ghost use Rattle.mesh_sites.specs.NodeFacts.{node_fact};
ghost use Rattle.zq_node.specs.Node.{IsNode};
ghost use Rattle.zq_session.specs.PassFacts.{pass_fact};
ghost use Rattle.zq_spread.specs.Passes.{IsPassOf};

use crate::asking::request;
use crate::fault::StationFault;
use crate::opened::Opened;
use crate::plan::{HEAPS, SitePlan};
use std::alloc::Global;
use std::sync::Wait;
use zq_dots::{Op, Rule, SiteNo, Vector};
use zq_follow::SiteSet;
use zq_journal::Since;
use zq_node::Node;
use zq_posheap::Seeded;
use zq_replica::{Fenced, Logs, PORTION, Parcels, Portioning, Protocol, Replica};
use zq_shard::Shard;
use zq_spread::{Pass, Site};
use zq_stage::PortionLimits;
use zq_words::Command;

/// A site, the pass of its clients, its node, and what it knows of its peers.
#[derive(Drop)]
pub struct Station<'a> {
    site: &'a Site,
    clients: Pass,
    node: Node<'a>,
    logs: &'a Logs,
    replica: Replica<'a>,
    /// The sites that know how to give a heap in pieces.
    streaming: SiteSet,
    ghost clients_are: { IsPassOf site.now clients } by { pass_fact site.now clients },
    ghost node_is: { IsNode node } by { node_fact node },
}

/// The sites with what they take to push, each among all of them.
pub fn seat_all<'a>(
    alloc: Global,
    opened: &'a mut [Opened],
    sites: &[SitePlan],
) -> Result<Vec<Station<'a>>, StationFault> {
    let mut stations = Vec::new(alloc);
    seat_each(alloc, opened, sites, &mut stations)?;
    Ok(stations)
}

/// Appends each of the sites, with what it takes to push, among these.
fn seat_each<'a>(
    alloc: Global,
    opened: &'a mut [Opened],
    sites: &[SitePlan],
    stations: &mut Vec<Station<'a>>,
) -> Result<(), StationFault> {
    let Some((first, others)) = opened.split_first_mut() else {
        return Ok(());
    };
    let station = Station::new(alloc, first, sites)?;
    stations.reserve(1)?;
    stations.push_reserved(station);
    seat_each(alloc, others, sites, stations)
}

/// Takes the last of a site's passes out.
fn last_of(_site: &Site, passes: &mut Vec<Pass>) -> Option<Pass>
    requires { All (IsPassOf _site.now) passes.old.items }
    ensures pass { IfSome result (IsPassOf _site.now) }
    ensures rest { All (IsPassOf _site.now) passes.new.items }
{
    passes.pop()
}

impl<'a> Station<'a> {
    /// The site with what it takes to push, among these.
    fn new(
        alloc: Global,
        opened: &'a mut Opened,
        sites: &[SitePlan],
    ) -> Result<Station<'a>, StationFault> {
        let plan = opened.plan();
        let (ground, mut passes) = opened.take(alloc);
        let (site, logs) = (&ground.site, &ground.logs);
        let Some(clients) = last_of(site, &mut passes) else {
            return Err(StationFault::NoPlace);
        };
        let Some(nodes) = last_of(site, &mut passes) else {
            return Err(StationFault::NoPlace);
        };
        Ok(Station {
            site,
            clients,
            node: Node::new(alloc, site, nodes),
            logs,
            replica: replica(alloc, &plan, logs, sites)?,
            streaming: streaming(sites),
        })
    }

    /// Its number.
    pub fn number(&self) -> SiteNo {
        self.site.number()
    }

    /// Whether operations that came early are parked.
    pub fn has_parked(&self) -> bool {
        self.node.parked_len() > 0
    }

    /// A client sends the command of a line's words.
    pub fn ask<R: Wait>(&mut self, rt: &R, alloc: Global, line: &str) -> Result<(), StationFault> {
        let request = request(alloc, line).ok_or(StationFault::NoMemory)?;
        let Ok(command) = Command::read(alloc, &request) else {
            return Err(StationFault::NoCommand);
        };
        drop(self.site.call(rt, alloc, &mut self.clients, &command, 0, 0));
        Ok(())
    }

    /// A client sends the command of a line's words. The operations that it makes are answered.
    pub fn run<R: Wait>(
        &mut self,
        rt: &R,
        alloc: Global,
        line: &str,
    ) -> Result<Vec<Op>, StationFault> {
        let first = self.vector(rt, 0)?;
        let second = self.vector(rt, 1)?;
        self.ask(rt, alloc, line)?;
        let mut made = self.made_after(rt, alloc, 0, &first)?;
        for op in self.made_after(rt, alloc, 1, &second)? {
            made.reserve(1)?;
            made.push_reserved(op);
        }
        Ok(made)
    }

    /// What it has of a heap.
    pub fn vector<R: Wait>(&mut self, rt: &R, heap: u8) -> Result<Vector, StationFault> {
        if heap >= self.site.heaps() {
            return Err(StationFault::NoPlace);
        }
        Ok(self.site.vector(rt, &mut self.clients, heap)?)
    }

    /// The operations of a heap that came after this.
    fn made_after<R: Wait>(
        &mut self,
        rt: &R,
        alloc: Global,
        heap: u8,
        before: &Vector,
    ) -> Result<Vec<Op>, StationFault> {
        if heap >= self.site.heaps() {
            return Err(StationFault::NoPlace);
        }
        match self.site.since(rt, alloc, &mut self.clients, heap, before)? {
            Since::Ops(ops) => Ok(ops),
            Since::TooOld => Err(StationFault::Untold),
        }
    }

    /// A copy of a heap.
    pub fn shard<R: Wait>(
        &mut self,
        rt: &R,
        alloc: Global,
        heap: u8,
    ) -> Result<Shard, StationFault> {
        if heap >= self.site.heaps() {
            return Err(StationFault::NoPlace);
        }
        Ok(self.site.state(rt, alloc, &mut self.clients, heap)?)
    }

    /// What was made goes into the logs.
    pub fn drain<R: Wait>(&mut self, rt: &R, alloc: Global) -> Result<(), StationFault> {
        self.logs.drain(rt, alloc, &mut self.node)?;
        Ok(())
    }

    /// Pushes to these peers what they lack, and says whether more may follow.
    pub fn push<R: Wait>(
        &mut self,
        rt: &R,
        alloc: Global,
        peers: &SiteSet,
        out: &mut Parcels,
    ) -> Result<bool, StationFault> {
        let pushed = self.replica.push(rt, alloc, &mut self.node, peers, out)?;
        Ok(pushed)
    }

    /// The link of this number to a peer is up.
    pub fn raise<R: Wait>(
        &mut self,
        rt: &R,
        alloc: Global,
        peer: SiteNo,
        link: u64,
        out: &mut Parcels,
    ) -> Result<(), StationFault> {
        let protocol = self.protocol_with(peer);
        self.replica
            .raise(rt, alloc, &mut self.node, peer, link, protocol, out)?;
        Ok(())
    }

    /// What goes over a link to a peer: heaps in pieces, where both know how.
    fn protocol_with(&self, peer: SiteNo) -> Protocol {
        if self.streams_to(peer) {
            Protocol::Streaming
        } else {
            Protocol::Pushing
        }
    }

    /// Whether it gives a peer heaps in pieces: both know how.
    pub fn streams_to(&self, peer: SiteNo) -> bool {
        self.streaming.has(self.number()) && self.streaming.has(peer)
    }

    /// The link of this number to a peer is down.
    pub fn lower<R: Wait>(
        &mut self,
        rt: &R,
        alloc: Global,
        peer: SiteNo,
        link: u64,
        out: &mut Parcels,
    ) -> Result<(), StationFault> {
        self.replica
            .lower(rt, alloc, &mut self.node, peer, link, out)?;
        Ok(())
    }

    /// Hears a frame.
    pub fn hear<R: Wait>(
        &mut self,
        rt: &R,
        alloc: Global,
        from: SiteNo,
        link: u64,
        bytes: &[u8],
        out: &mut Parcels,
    ) -> Result<(), StationFault> {
        self.replica
            .hear(rt, alloc, &mut self.node, from, link, bytes, out)?;
        Ok(())
    }

    /// What proves that another run used its number, if anything does.
    pub fn fenced(&self) -> Option<Fenced> {
        self.replica.fenced()
    }

    /// A second goes by.
    pub fn beat<R: Wait>(
        &mut self,
        rt: &R,
        alloc: Global,
        out: &mut Parcels,
    ) -> Result<(), StationFault> {
        self.replica.beat(rt, alloc, &mut self.node, out)?;
        Ok(())
    }
}

/// Those of the sites that know how to give a heap in pieces.
fn streaming(sites: &[SitePlan]) -> SiteSet {
    let mut streaming = SiteSet::empty();
    for site in sites {
        if site.piece.is_some() {
            streaming = streaming.with(site.number);
        }
    }
    streaming
}

/// What a site knows of the others, to none of which a link is up.
fn replica<'l>(
    alloc: Global,
    plan: &SitePlan,
    logs: &'l Logs,
    sites: &[SitePlan],
) -> Result<Replica<'l>, StationFault> {
    let mut peers = Vec::new(alloc);
    for site in sites {
        if site.number != plan.number {
            peers.reserve(1)?;
            peers.push_reserved(site.number);
        }
    }
    let (own, hasher) = (plan.number, Seeded::new(0));
    let (window, rule) = (plan.window, Rule::High);
    let portioning = Portioning {
        life: 1,
        limits: PortionLimits {
            rows: plan.piece.unwrap_or(1),
            bytes: PORTION.bytes,
        },
    };
    let made = Replica::new(
        alloc, own, HEAPS, rule, hasher, window, logs, portioning, &peers,
    )?;
    Ok(made)
}
