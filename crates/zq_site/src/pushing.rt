//! The link thread of a site that pushes. What is made and heard goes into the logs by another
//! thread.

ghost use Rattle.zq_node.specs.Node.{IsNode, IsSameHome};

use crate::beginning::Beginning;
use crate::measuring::measure_links;
use crate::notice::{Notice, read_notice, write_notice};
use crate::outcome::{Outcome, outcome_of};
use crate::peer_link::PeerLink;
use crate::peer_links::peer_link_of;
use crate::post::{Delivery, Event};
use crate::running::MOST_PARKED;
use crate::shared::Shared;
use crate::warning::Warning;
use crate::warning_log::warn_of;
use log::Log;
use std::alloc::AllocError;
use std::collections::VecDeque;
use std::sync::Wait;
use zq_dots::SiteNo;
use zq_follow::SiteSet;
use zq_node::Node;
use zq_posheap::Seeded;
use zq_replica::{PORTION, Parcels, Portioning, Protocol, Replica, window_for};
use zq_serve::NodeWork;
use zq_wire::Run;

/// How many lives of a heap there are between those of one start and the next.
const STARTS_APART: u64 = 1 << 32;

/// Pushing to the peers of a site.
#[derive(Drop)]
pub struct Pushing<'a, L: Log + Wait> {
    pub log: &'a L,
    pub shared: Shared<'a>,
    /// By what states lie that are heard.
    pub hasher: Seeded,
}

impl<L: Log + Wait> NodeWork for Pushing<'_, L> {
    /// Where there is no memory for what is known of the peers nothing is done.
    fn run(self, node: &mut Node<'_>, others: &[SiteNo]) {
        let (shared, settings) = (self.shared, self.shared.settings);
        let heaps = settings.heaps.value() as u8;
        let window = window_of(shared, 0);
        let portioning = Portioning {
            life: life_of(&shared.run),
            limits: PORTION,
        };
        let made = Replica::new(
            shared.alloc,
            settings.site,
            heaps,
            settings.rule,
            self.hasher,
            window,
            shared.logs,
            portioning,
            others,
        );
        match made {
            Ok(mut replica) => {
                push_to_peers(self.log, shared, node, &mut replica);
                replica.close();
            }
            // Nobody hears what this site makes.
            Err(AllocError) => shared.admission.open(),
        }
    }
}

/// The first life of this run's heaps at this start of it: another run, and another start, begins
/// with another one, since the members of the heaps lie at other places.
fn life_of(run: &Run) -> u64 {
    let life = run
        .name
        .iter()
        .take(8)
        .fold(0, |life: u64, byte| life << 8 | u64::from(*byte));
    life.wrapping_add(run.start.wrapping_mul(STARTS_APART))
}

/// Hears what comes over the links, and pushes to the peers what they lack, until the site ends, or
/// it is found that another run used its number.
/// What fails is dropped as if it had been lost; frames that were not heard are warned of.
fn push_to_peers<L: Log + Wait>(
    log: &L,
    shared: Shared<'_>,
    node: &mut Node<'_>,
    replica: &mut Replica<'_>,
)
    requires { IsNode node.old }
    ensures node { IsNode node.new }
    ensures home { IsSameHome node.old node.new }
{
    let mut beginning = Beginning::new(shared.settings);
    let mut more = false;
    for _ in log.forever() {
        let Some(delivery) = shared.post.take(log, more) else {
            break;
        };
        more = serve(log, shared, node, replica, &mut beginning, delivery);
    }
}

/// Does what was left at the post, pushes what can be pushed, and says whether more can be.
fn serve<L: Log + Wait>(
    log: &L,
    shared: Shared<'_>,
    node: &mut Node<'_>,
    replica: &mut Replica<'_>,
    beginning: &mut Beginning,
    delivery: Delivery,
) -> bool
    requires { IsNode node.old }
    ensures node { IsNode node.new }
    ensures home { IsSameHome node.old node.new }
{
    let Delivery {
        events,
        calls,
        pushes: _,
        beats,
    } = delivery;
    let heard = !events.is_empty();
    let mut out = Vec::new(shared.alloc);
    hear_all(log, shared, node, replica, events, &mut out);
    if shared.admission.is_fenced() {
        return false;
    }
    let peers = without_those_of(with_room(log, shared.peer_links), &out);
    if heard || beats {
        beginning.go_on(log, shared, node, replica, beats);
    }
    if heard || beats {
        shared.mailbox.tick(log);
    }
    beat(log, shared, node, replica, beats, &mut out);
    tell(log, shared, node, replica, calls, &mut out);
    let more = replica.push(log, shared.alloc, node, &peers, &mut out);
    post_all(log, shared, replica, out);
    if shared.front.leaves() {
        tell_passed_on(log, shared, node, replica);
    }
    more.unwrap_or(false)
}

/// Tells the site, which serves no client any more, where its peers have what it made.
fn tell_passed_on<L: Log + Wait>(
    log: &L,
    shared: Shared<'_>,
    node: &mut Node<'_>,
    replica: &mut Replica<'_>,
)
    requires { IsNode node.old }
    ensures node { IsNode node.new }
    ensures home { IsSameHome node.old node.new }
{
    if !replica.is_ahead(log, node).unwrap_or(true) {
        shared.front.pass_on(log);
    }
}

/// Does what a second asks for, where one has gone by.
fn beat<L: Log + Wait>(
    log: &L,
    shared: Shared<'_>,
    node: &mut Node<'_>,
    replica: &mut Replica<'_>,
    beats: bool,
    out: &mut Parcels,
)
    requires { IsNode node.old }
    ensures node { IsNode node.new }
    ensures home { IsSameHome node.old node.new }
{
    if !beats {
        return;
    }
    let _ = replica.beat(log, shared.alloc, node, out);
    measure_links(log, shared, node, replica);
}

/// Tells the peers that ask what this site has, where calls were made.
fn tell<L: Log + Wait>(
    log: &L,
    shared: Shared<'_>,
    node: &mut Node<'_>,
    replica: &mut Replica<'_>,
    calls: bool,
    out: &mut Parcels,
)
    requires { IsNode node.old }
    ensures node { IsNode node.new }
    ensures home { IsSameHome node.old node.new }
{
    if !calls {
        return;
    }
    let _ = replica.tell_haves(log, shared.alloc, node, out);
}

/// Does what these events ask for, in their order, and appends what is to be sent then, until it is
/// found that another run used the site's number. Then no link is up any more, so that what waits
/// for a peer is not sent.
fn hear_all<L: Log + Wait>(
    log: &L,
    shared: Shared<'_>,
    node: &mut Node<'_>,
    replica: &mut Replica<'_>,
    events: VecDeque<Event>,
    out: &mut Parcels,
)
    requires { IsNode node.old }
    ensures node { IsNode node.new }
    ensures home { IsSameHome node.old node.new }
{
    for event in events {
        let mut made = Vec::new(shared.alloc);
        hear(log, shared, node, replica, event, &mut made);
        if let Some(fenced) = replica.fenced() {
            fence(log, shared, Warning::Fenced(fenced));
        }
        if shared.admission.is_fenced() {
            break;
        }
        append(made, out);
    }
}

/// Appends frames. What there is no memory for is lost.
fn append(made: Parcels, out: &mut Parcels) {
    for parcel in made {
        let _ = out.push(parcel);
    }
}

/// These peers, but for those to which a frame goes.
fn without_those_of(peers: SiteSet, out: &Parcels) -> SiteSet {
    let mut left = peers;
    for parcel in out {
        left = left.without(parcel.0);
    }
    left
}

/// Another run used the site's number: no command is answered any more, all links are taken down,
/// the link thread ends, and that is warned of.
fn fence<L: Log + Wait>(log: &L, shared: Shared<'_>, why: Warning) {
    shared.admission.fence();
    shared.ending.fence(log);
    shared.halt_all(log);
    shared.post.stop(log);
    warn_of(log, shared.settings.site, why);
}

/// Does what an event asks for.
fn hear<L: Log + Wait>(
    log: &L,
    shared: Shared<'_>,
    node: &mut Node<'_>,
    replica: &mut Replica<'_>,
    event: Event,
    out: &mut Parcels,
)
    requires { IsNode node.old }
    ensures node { IsNode node.new }
    ensures home { IsSameHome node.old node.new }
{
    let alloc = shared.alloc;
    match event {
        Event::Up {
            peer,
            link,
            protocol,
        } => raise(log, shared, node, replica, peer, link, protocol, out),
        Event::Down { peer, link } => {
            let _ = replica.lower(log, alloc, node, peer, link, out);
            replica.set_window(window_of(shared, replica.links()));
        }
        Event::Frame { peer, link, bytes } => {
            hear_bytes(log, shared, node, replica, peer, link, &bytes, out);
            if let Some(peer_link) = peer_link_of(shared.peer_links, peer) {
                peer_link.quota.leave(log, bytes.len() as u64);
            }
        }
    }
}

/// The link of this number to a peer is up, unless the peer's number was used by another run: then
/// it is told so.
fn raise<L: Log + Wait>(
    log: &L,
    shared: Shared<'_>,
    node: &mut Node<'_>,
    replica: &mut Replica<'_>,
    peer: SiteNo,
    link: u64,
    protocol: Protocol,
    out: &mut Parcels,
)
    requires { IsNode node.old }
    ensures node { IsNode node.new }
    ensures home { IsSameHome node.old node.new }
{
    let alloc = shared.alloc;
    let is_reused = is_reused(log, shared, node, replica, peer);
    let _ = replica.raise(log, alloc, node, peer, link, protocol, out);
    if is_reused {
        out.clear();
        let _ = replica.lower(log, alloc, node, peer, link, out);
        refuse_run(log, shared, peer, link);
    }
    replica.set_window(window_of(shared, replica.links()));
}

/// Hears a notice or a frame that came over the link of this number to a peer.
fn hear_bytes<L: Log + Wait>(
    log: &L,
    shared: Shared<'_>,
    node: &mut Node<'_>,
    replica: &mut Replica<'_>,
    peer: SiteNo,
    link: u64,
    bytes: &[u8],
    out: &mut Parcels,
)
    requires { IsNode node.old }
    ensures node { IsNode node.new }
    ensures home { IsSameHome node.old node.new }
{
    match read_notice(bytes) {
        Some(notice) => hear_notice(log, shared, peer, notice),
        None => hear_frame(log, shared, node, replica, peer, link, bytes, out),
    }
}

/// Whether the run of a peer's link uses a number that another run used: it is another run than the
/// one of the links before, and began with fewer operations than this site has of the number.
fn is_reused<L: Log + Wait>(
    log: &L,
    shared: Shared<'_>,
    node: &mut Node<'_>,
    replica: &mut Replica<'_>,
    peer: SiteNo,
) -> bool
    requires { IsNode node.old }
    ensures node { IsNode node.new }
    ensures home { IsSameHome node.old node.new }
{
    let Some(peer_link) = peer_link_of(shared.peer_links, peer) else {
        return false;
    };
    let Some(run) = peer_link.newcomer(log) else {
        return false;
    };
    let is_reused = replica
        .knows_more(log, node, peer, run.counters.as_slice())
        .unwrap_or(true);
    if !is_reused {
        peer_link.know(log);
    }
    is_reused
}

/// Tells a peer over the link of this number that another run used the peer's number. What it says is
/// not heard.
fn refuse_run<L: Log + Wait>(log: &L, shared: Shared<'_>, peer: SiteNo, link: u64) {
    warn_of(log, shared.settings.site, Warning::Reused(peer));
    if let Ok(frame) = write_notice(shared.alloc, Notice::Refused)
        && let Some(peer_link) = peer_link_of(shared.peer_links, peer)
    {
        peer_link.send_over(log, link, frame);
    }
}

/// Hears a frame of a peer. Where it is not heard that is warned of.
fn hear_frame<L: Log + Wait>(
    log: &L,
    shared: Shared<'_>,
    node: &mut Node<'_>,
    replica: &mut Replica<'_>,
    peer: SiteNo,
    link: u64,
    bytes: &[u8],
    out: &mut Parcels,
)
    requires { IsNode node.old }
    ensures node { IsNode node.new }
    ensures home { IsSameHome node.old node.new }
{
    let heard = replica.hear(log, shared.alloc, node, peer, link, bytes, out);
    if let Err(why) = heard {
        shared.meters.dropped.add(1);
        warn_of(log, shared.settings.site, Warning::Drops(peer, why));
    }
}

/// Hears what a peer says of another run of the site's number.
fn hear_notice<L: Log + Wait>(log: &L, shared: Shared<'_>, peer: SiteNo, notice: Notice) {
    match outcome_of(peer, notice) {
        Outcome::Ends(why) => fence(log, shared, why),
        Outcome::Warns(why) => warn_of(log, shared.settings.site, why),
        Outcome::Nothing => {}
    }
}

/// How many operations of a heap each peer may have under way to the site, where it has so many
/// links: by as many peers as are linked, or listed where those are more.
fn window_of(shared: Shared<'_>, links: usize) -> u64 {
    let listed = shared.settings.peers.as_slice().len();
    let heaps = shared.settings.heaps.value() as u8;
    window_for(MOST_PARKED, links.max(listed), heaps)
}

/// Has each frame wait for its peer, once all that it may tell of is on the disk, where the site
/// keeps a log. What was made for a link that was replaced meanwhile is dropped. Who writes a link is
/// woken once, when all its frames wait.
fn post_all<L: Wait>(rt: &L, shared: Shared<'_>, replica: &Replica<'_>, out: Parcels) {
    if out.is_empty() || !is_kept(rt, shared) {
        return;
    }
    let mut told = SiteSet::empty();
    for (to, frame) in out {
        if let Some(peer_link) = peer_link_of(shared.peer_links, to)
            && let Some(number) = peer_link.number(rt)
            && replica.is_up(to, number)
        {
            peer_link.leave_over(rt, number, frame);
            told = told.with(to);
        }
    }
    wake_each(shared.peer_links, &told);
}

/// Wakes who writes the links to these peers.
fn wake_each(peer_links: &[PeerLink], peers: &SiteSet) {
    for peer_link in peer_links {
        if peers.has(peer_link.site) {
            peer_link.wake();
        }
    }
}

/// Waits until all that was made by now is on the disk, and says whether it is; where the site
/// keeps no log there is nothing to wait for.
fn is_kept<L: Wait>(rt: &L, shared: Shared<'_>) -> bool {
    match shared.durable() {
        Some(durable) => durable.confirm(rt),
        None => true,
    }
}

/// The peers of these links for which nothing waits.
fn with_room<L: Wait>(rt: &L, peer_links: &[PeerLink]) -> SiteSet {
    let mut peers = SiteSet::empty();
    for peer_link in peer_links {
        if peer_link.has_room(rt) {
            peers = peers.with(peer_link.site);
        }
    }
    peers
}
