//! Links that come up, and go down.

ghost use Rattle.zq_node.specs.Node.{IsNode};
ghost use Rattle.zq_replica.specs.Nodes.{Shows};

use crate::parcels::Parcels;
use crate::protocol::Protocol;
use crate::replica::Replica;
use std::alloc::Global;
use std::sync::Wait;
use zq_dots::SiteNo;
use zq_node::{Node, NodeFault};

impl Replica<'_> {
    /// The link of this number to this peer is up, with this protocol, in the place of an older
    /// one: all that was known of the peer is forgotten, and it is told what this site has of each
    /// heap. A site that is no peer is passed over.
    pub fn raise<R: Wait>(
        &mut self,
        rt: &R,
        alloc: Global,
        node: &mut Node<'_>,
        peer: SiteNo,
        link: u64,
        protocol: Protocol,
        out: &mut Parcels,
    ) -> Result<(), NodeFault>
        requires node { IsNode node.old }
        ensures node { IsNode node.new }
        ensures shows { Shows node.old node.new }
    {
        self.forget(peer, link, Some(protocol));
        if self.is_fetched_from(peer) {
            self.end_catching(rt, alloc, node, out)?;
        }
        self.reroute(rt, alloc, node, out)?;
        let Some(place) = self.place_of(peer, link) else {
            return Ok(());
        };
        match protocol {
            Protocol::Pushing | Protocol::Streaming => self.tell_each(
                rt, alloc, node, place, false, out,
            ),
            Protocol::Asking => self.tell_haves(rt, alloc, node, out),
        }
    }

    /// The link of this number to this peer is down: all that was known of the peer is forgotten.
    /// What was being fetched from it is fetched no more; what came of it in pieces is kept for a
    /// minute, so that the rest can be asked of the same peer. An older link's end is passed over.
    pub fn lower<R: Wait>(
        &mut self,
        rt: &R,
        alloc: Global,
        node: &mut Node<'_>,
        peer: SiteNo,
        link: u64,
        out: &mut Parcels,
    ) -> Result<(), NodeFault>
        requires node { IsNode node.old }
        ensures node { IsNode node.new }
        ensures shows { Shows node.old node.new }
    {
        if self.place_of(peer, link).is_none() {
            return Ok(());
        }
        self.forget(peer, link, None);
        if self.is_fetched_from(peer) {
            self.end_catching(rt, alloc, node, out)?;
        }
        self.reroute(rt, alloc, node, out)
    }

    /// Forgets all that is known of a peer, whose link is up with this protocol or down.
    fn forget(&mut self, peer: SiteNo, link: u64, protocol: Option<Protocol>) {
        for end in self.ends.iter_mut() {
            if end.peer == peer {
                end.begin(link, protocol);
            }
        }
    }
}
