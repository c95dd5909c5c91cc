//! A node that hears operations, of which a growth is refused.
ghost use Rattle.std.specs.Prelude.{◌≡◌};
ghost use Rattle.zq_node.specs.Node.{IsNode};
ghost use Rattle.zq_spread.specs.Calls.{heaps_of};
ghost use Rattle.zq_spread.specs.Passes.{IsPassOf};

use std::alloc::Global;
use std::sync::Wait;
use zq_dots::{Op, SiteNo};
use zq_links::Frame;
use zq_node::{Node, NodeFault};
use zq_shard::Shard;
use zq_spread::{Pass, Site};
use zq_trials::{Ended, THEIRS, Tried, is_written, operations, taken, written};

/// A frame of the three operations of site 1, in the order in which they were made, or with the
/// first two exchanged.
fn frame(alloc: Global, is_turned: bool) -> Option<Frame> {
    let mut ops = operations(alloc, 1, &THEIRS)?;
    if is_turned && ops.len() > 1 {
        ops.swap(0, 1);
    }
    Some(Frame::Ops(ops))
}

/// Whether a heap is that of one that has taken these operations.
fn has_taken(alloc: Global, shard: &Shard, ops: &[Op]) -> Option<bool> {
    let owed = taken(alloc, ops)?;
    let bytes = written(alloc, &owed)?;
    is_written(alloc, shard, &bytes)
}

/// How many of the three operations a heap has taken: the first of them, and no others. `None`
/// where memory was refused, and four where it has something else.
fn taken_in(alloc: Global, shard: &Shard) -> Option<usize> {
    let count = shard.vector().get(SiteNo::new(1)?) as usize;
    let ops = operations(alloc, 1, &THEIRS)?;
    match ops.get(..count) {
        Some(first) if has_taken(alloc, shard, first)? => Some(count),
        _ => Some(4),
    }
}

/// The same of heap 0 of a site.
fn taken_at<R: Wait>(rt: &R, alloc: Global, site: &Site, looks: &mut Pass) -> Option<usize>
    requires pass { IsPassOf site.now looks.old }
    requires heaps { heaps_of site.now ≡ 2 }
    ensures { IsPassOf site.now looks.new }
{
    let shard = site.state(rt, alloc, looks, 0).ok()?;
    taken_in(alloc, &shard)
}

/// What a node says that hears a frame which it has nothing to send for.
pub fn heard<R: Wait>(rt: &R, alloc: Global, node: &mut Node, frame: &Frame) -> Tried
    requires { IsNode node.old }
    ensures { IsNode node.new }
{
    match node.hear(rt, alloc, frame) {
        Ok(sent) if sent.is_empty() => Tried::Done,
        Err(NodeFault::NoMemory) => Tried::Refused,
        _ => Tried::Other,
    }
}

/// What a node says that hears the frame, and how many of the three operations its site has then.
fn told<R: Wait>(
    rt: &R,
    alloc: Global,
    site: &Site,
    node: &mut Node,
    looks: &mut Pass,
    frame: &Frame,
) -> Option<(Tried, usize)>
    requires node { IsNode node.old }
    requires pass { IsPassOf site.now looks.old }
    requires heaps { heaps_of site.now ≡ 2 }
    ensures node { IsNode node.new }
    ensures pass { IsPassOf site.now looks.new }
{
    let tried = heard(rt, alloc, node, frame);
    let done = taken_at(rt, alloc, site, looks)?;
    Some((tried, done))
}

/// Whether the node has heard the frame, its site has all three operations, and none is parked.
fn is_whole(node: &Node, told: (Tried, usize)) -> bool {
    told.0 == Tried::Done && told.1 == 3 && node.parked_len() == 0
}

/// How it ends where a node of site 0 hears the three operations, and hears them again where it had
/// no memory.
pub fn hears<R: Wait>(
    rt: &R,
    alloc: Global,
    site: &Site,
    node: &mut Node,
    looks: &mut Pass,
    is_turned: bool,
) -> Option<Ended>
    requires node { IsNode node.old }
    requires pass { IsPassOf site.now looks.old }
    requires heaps { heaps_of site.now ≡ 2 }
{
    let frame = frame(alloc, is_turned)?;
    let first = told(rt, alloc, site, node, looks, &frame)?;
    match first {
        _ if is_whole(node, first) => Some(Ended::Owed(1)),
        (Tried::Refused, done) if done < 4 => {
            let again = told(rt, alloc, site, node, looks, &frame)?;
            Some(if is_whole(node, again) {
                Ended::Refused(done)
            } else {
                Ended::Wrong
            })
        }
        _ => Some(Ended::Wrong),
    }
}
