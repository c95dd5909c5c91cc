//! What a link thread does with what comes.
ghost use Rattle.std.specs.Prelude.{◌≡◌, All, Bool, List, map, ℕ};
ghost use Rattle.zq_links.specs.Frame.{IsWritable, frame_of};
ghost use Rattle.zq_node.specs.Hearing.{sent_of, sent_to};
ghost use Rattle.zq_node.specs.Node.{IsNode, IsSameHome};
ghost use Rattle.zq_peers.specs.Carried.{AreCarried};
ghost use Rattle.zq_peers.specs.Moves.{Hears, Tells};

use crate::carry::both;
use crate::sending::Sends;
use crate::unheard::Unheard;
use std::alloc::Global;
use std::sync::Wait;
use zq_dots::SiteNo;
use zq_links::{Frame, read_frame};
use zq_node::{Node, NodeFault};
use zq_posheap::Seeded;

/// Sends each of the frames to a site, in this order, and says whether there was memory for all.
fn send_all<S: Sends>(alloc: Global, sender: &mut S, to: SiteNo, frames: &[Frame]) -> bool
    requires { All IsWritable frames.now }
    ensures { AreCarried S.sends sender.old sender.new
        (sent_to to (map frame_of frames.now)) result }
{
    let mut whole = true;
    for frame in frames {
        let sent = sender.send(alloc, to, frame);
        whole = both(whole, sent);
    }
    whole
}

/// Sends each of the frames to its site, in this order, and says whether there was memory for all.
fn send_each<S: Sends>(alloc: Global, sender: &mut S, parcels: &[(SiteNo, Frame)]) -> bool
    requires { All (λ s. IsWritable s.1) parcels.now }
    ensures { AreCarried S.sends sender.old sender.new (sent_of parcels.now) result }
{
    let mut whole = true;
    for (to, frame) in parcels {
        let sent = sender.send(alloc, *to, frame);
        whole = both(whole, sent);
    }
    whole
}

/// Sends a Have of each heap, in rising order, to each of these sites in turn, and says whether
/// there was memory for all: a frame for which there was none is lost.
///
/// `Worn` and `NoMemory` as [`Node::haves`] says. Then nothing is sent.
pub(crate) fn tell<R: Wait, S: Sends>(
    rt: &R,
    alloc: Global,
    others: &[SiteNo],
    node: &mut Node<'_>,
    sender: &mut S,
) -> Result<bool, NodeFault>
    requires node { IsNode node.old }
    ensures node { IsNode node.new }
    ensures home { IsSameHome node.old node.new }
    ensures told { Tells S.sends others.now node.old node.new sender.old sender.new result }
{
    let frames = node.haves(rt, alloc)?;
    let mut whole = true;
    for to in others {
        let sent = send_all(alloc, sender, *to, &frames);
        whole = both(whole, sent);
    }
    Ok(whole)
}

/// Has the node hear the frame that the bytes are, and sends what comes of it, to the sites that
/// the node names. It says whether there was memory for all of that: a frame for which there was
/// none is lost. A state that is heard uses this hasher.
///
/// `Unread` where the bytes are no frame, or there was no memory to read them, as [`read_frame`]
/// says: then nothing happens. `Refused` where the node refuses the frame, as [`Node::hear`] says:
/// then nothing is sent.
pub(crate) fn hear<R: Wait, S: Sends>(
    rt: &R,
    alloc: Global,
    hasher: Seeded,
    node: &mut Node<'_>,
    sender: &mut S,
    bytes: &[u8],
) -> Result<bool, Unheard>
    requires node { IsNode node.old }
    ensures node { IsNode node.new }
    ensures home { IsSameHome node.old node.new }
    ensures heard { Hears S.sends bytes.now node.old node.new sender.old sender.new result }
{
    let frame = match read_frame(alloc, bytes, hasher) {
        Ok(frame) => frame,
        Err(fault) => return Err(Unheard::Unread(fault)),
    };
    match node.hear(rt, alloc, &frame) {
        Ok(sent) => Ok(send_each(alloc, sender, &sent)),
        Err(fault) => Err(Unheard::Refused(fault)),
    }
}
