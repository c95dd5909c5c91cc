//! How one node catches up with another one.
ghost use Rattle.std.specs.Prelude.{All, IfSome};
ghost use Rattle.zq_links.specs.Frame.{IsWritable};
ghost use Rattle.zq_node.specs.Node.{IsNode, IsSameHome};

use crate::node::traffic::Traffic;
use std::alloc::Global;
use std::sync::Wait;
use zq_dots::{SiteNo, Vector};
use zq_links::Frame;
use zq_node::Node;

/// How often a node asks, where it does not catch up.
const MOST_ASKED: u32 = 100;

/// A node hears a frame, and answers what is sent then.
fn hear<R: Wait>(
    rt: &R,
    alloc: Global,
    node: &mut Node,
    frame: &Frame,
    traffic: &mut Traffic,
) -> Option<Vec<(SiteNo, Frame)>>
    requires node { IsNode node.old }
    requires writable { IsWritable frame.now }
    ensures node { IsNode node.new }
    ensures home { IsSameHome node.old node.new }
    ensures writable { IfSome result (λ sent. All (λ s. IsWritable s.1) sent.items) }
{
    let frame = traffic.carry(alloc, frame)?;
    node.hear(rt, alloc, &frame).ok()
}

/// A node hears these frames in turn.
fn hear_all<R: Wait>(
    rt: &R,
    alloc: Global,
    node: &mut Node,
    frames: &[(SiteNo, Frame)],
    traffic: &mut Traffic,
) -> Option<()>
    requires node { IsNode node.old }
    requires writable { All (λ s. IsWritable s.1) frames.now }
    ensures node { IsNode node.new }
    ensures home { IsSameHome node.old node.new }
{
    for told in frames {
        hear(rt, alloc, node, &told.1, traffic)?;
    }
    Some(())
}

/// One node says what it has, frame by frame, and hears what the other one sends. Answers whether
/// anything was sent.
fn ask_once<R: Wait>(
    rt: &R,
    alloc: Global,
    asker: &mut Node,
    asked: &mut Node,
    traffic: &mut Traffic,
) -> Option<bool>
    requires asker { IsNode asker.old }
    requires asked { IsNode asked.old }
    ensures asker { IsNode asker.new }
    ensures asked { IsNode asked.new }
{
    let haves = asker.haves(rt, alloc).ok()?;
    let mut is_told = false;
    for have in &haves {
        let sent = hear(rt, alloc, asked, have, traffic)?;
        is_told = is_told || !sent.is_empty();
        hear_all(rt, alloc, asker, &sent, traffic)?;
    }
    Some(is_told)
}

/// One node asks the other one until nothing is sent, so that it has all that the other one has.
pub fn catch_up<R: Wait>(
    rt: &R,
    alloc: Global,
    asker: &mut Node,
    asked: &mut Node,
    traffic: &mut Traffic,
) -> Option<()>
    requires asker { IsNode asker.old }
    requires asked { IsNode asked.old }
    ensures asker { IsNode asker.new }
    ensures asked { IsNode asked.new }
{
    for _turn in 0..MOST_ASKED {
        if !ask_once(rt, alloc, asker, asked, traffic)? {
            return Some(());
        }
    }
    None
}

/// The vectors of a node's heaps.
fn vectors_of<R: Wait>(rt: &R, alloc: Global, node: &mut Node) -> Option<Vec<Vector>>
    requires { IsNode node.old }
    ensures { IsNode node.new }
{
    let haves = node.haves(rt, alloc).ok()?;
    let mut vectors = Vec::new(alloc);
    for frame in &haves {
        if let Frame::Have(have) = frame {
            vectors.push(have.vector).ok()?;
        }
    }
    Some(vectors)
}

/// Whether two nodes have the same vectors.
pub fn have_equal_vectors<R: Wait>(
    rt: &R,
    alloc: Global,
    one: &mut Node,
    other: &mut Node,
) -> Option<bool>
    requires one { IsNode one.old }
    requires other { IsNode other.old }
    ensures one { IsNode one.new }
    ensures other { IsNode other.new }
{
    let first = vectors_of(rt, alloc, one)?;
    let second = vectors_of(rt, alloc, other)?;
    Some(first.as_slice() == second.as_slice())
}
