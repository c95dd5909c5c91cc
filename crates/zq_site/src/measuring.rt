//! What is measured of a site each second.

ghost use Rattle.zq_node.specs.Node.{IsNode, IsSameHome};

use crate::peer_link::PeerLink;
use crate::shared::Shared;
use std::sync::Wait;
use std::time::{Clock, Duration};
use zq_dots::{SITES, SiteNo, Vector};
use zq_loop::Port;
use zq_node::{Node, NodeFault};
use zq_replica::Replica;
use zq_serve::Memory;

/// Notes what the link thread knows: how many operations there are of each heap, how many wait, and
/// how far each peer is behind. What is refused memory, or a heap that is worn out, leaves what was
/// noted last.
pub fn measure_links<R: Wait>(
    rt: &R,
    shared: Shared<'_>,
    node: &mut Node<'_>,
    replica: &Replica<'_>,
)
    requires { IsNode node.old }
    ensures node { IsNode node.new }
    ensures home { IsSameHome node.old node.new }
{
    shared.meters.parked.set(node.parked_len() as u64);
    let mut vectors = Vec::new(shared.alloc);
    if read_vectors(rt, shared, node, &mut vectors).is_ok() {
        note_vectors(shared, replica, &vectors);
    }
}

/// Appends the version vectors of the heaps.
fn read_vectors<R: Wait>(
    rt: &R,
    shared: Shared<'_>,
    node: &mut Node<'_>,
    vectors: &mut Vec<Vector>,
) -> Result<(), NodeFault>
    requires { IsNode node.old }
    ensures node { IsNode node.new }
    ensures home { IsSameHome node.old node.new }
{
    for heap in 0..shared.logs.heaps() {
        read_vector(rt, node, heap, vectors)?;
    }
    Ok(())
}

/// Appends the version vector of a heap.
fn read_vector<R: Wait>(
    rt: &R,
    node: &mut Node<'_>,
    heap: u8,
    vectors: &mut Vec<Vector>,
) -> Result<(), NodeFault>
    requires { IsNode node.old }
    ensures node { IsNode node.new }
    ensures home { IsSameHome node.old node.new }
{
    let vector = node.vector(rt, heap)?;
    match vectors.push(vector) {
        Ok(()) => Ok(()),
        Err(_) => Err(NodeFault::NoMemory),
    }
}

/// Notes what these version vectors of the heaps say.
fn note_vectors(shared: Shared<'_>, replica: &Replica<'_>, vectors: &[Vector]) {
    for (heap, vector) in vectors.iter().enumerate() {
        let made = vector.get(shared.settings.site);
        shared.meters.note_heap(heap, made, sum_of(vector));
    }
    for peer_link in shared.peer_links {
        let lag = lag_of(replica, peer_link.site, vectors);
        peer_link.traffic.lag.set(lag);
    }
}

/// How many operations there are by this vector.
fn sum_of(vector: &Vector) -> u64 {
    let mut sum = 0u64;
    for number in 0..SITES as u8 {
        if let Some(site) = SiteNo::new(number) {
            sum = sum.saturating_add(vector.get(site));
        }
    }
    sum
}

/// How many operations of all heaps a peer has not said that it has.
fn lag_of(replica: &Replica<'_>, peer: SiteNo, vectors: &[Vector]) -> u64 {
    let mut lag = 0u64;
    let mut heap = 0u8;
    for vector in vectors {
        lag = lag.saturating_add(replica.lag_of(peer, heap, vector));
        heap = heap.saturating_add(1);
    }
    lag
}

/// Notes what the process has, how long the site has run, and how many connections its clients
/// have.
pub fn measure_process<R: Clock, M: Memory>(
    rt: &R,
    memory: &M,
    shared: Shared<'_>,
    port: Option<&Port>,
    began: Duration,
) {
    shared.meters.memory.set(memory.resident().unwrap_or(0));
    if let Ok(now) = rt.monotonic() {
        shared
            .meters
            .uptime
            .set(now.saturating_sub(began).as_secs());
    }
    if let Some(port) = port {
        shared.meters.note_port(port.figures());
    }
}

/// A second went by at each of these links.
pub fn tick_links(peer_links: &[PeerLink]) {
    for peer_link in peer_links {
        peer_link.traffic.tick();
    }
}
