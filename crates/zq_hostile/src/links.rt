//! A hundred frames over a link that loses each or doubles each, and a node that hears what the
//! link passes on.
ghost use Rattle.std.specs.Prelude.{IfSome, ◌≡◌, length};
ghost use Rattle.zq_node.specs.Node.{IsNode};
ghost use Rattle.zq_spread.specs.Calls.{heaps_of};
ghost use Rattle.zq_spread.specs.Passes.{IsPassOf};

use crate::hearing::heard;
use std::alloc::Global;
use std::sync::Wait;
use zq_dots::Op;
use zq_links::{Faulty, Frame, read_frame, write_frame};
use zq_node::Node;
use zq_posheap::Seeded;
use zq_spread::{Pass, Site};
use zq_trials::{Ended, Tried, is_at_site, operations, taken, written};

/// How many frames there are.
const FRAMES: usize = 100;

/// By which word frames go over a link, and how often it passes each on.
#[derive(Clone, Copy)]
pub struct Fault {
    pub word: u32,
    pub copies: usize,
}

/// A link that loses each frame passes on none.
pub const LOSES: Fault = Fault { word: 0, copies: 0 };

/// A link that doubles each frame passes on each twice, and who hears them has what one has that
/// hears each once.
pub const DOUBLES: Fault = Fault { word: 1, copies: 2 };

/// The operations of the frames: each gives a member of heap 0 another score.
fn hundred(alloc: Global) -> Option<Vec<Op>> {
    let mut members = Vec::new(alloc);
    for score in 0..FRAMES as i64 {
        members.push((b'a', score)).ok()?;
    }
    operations(alloc, 1, &members)
}

/// A list of one operation.
fn one(alloc: Global, op: &Op) -> Option<Vec<Op>>
    ensures { IfSome result (λ ops. length ops.items ≡ 1) }
{
    let copy = op.copy(alloc).ok()?;
    let mut ops = Vec::new(alloc);
    ops.push(copy).ok()?;
    Some(ops)
}

/// The bytes of the frame that tells an operation.
fn framed(alloc: Global, op: &Op) -> Option<Vec<u8>> {
    let frame = Frame::Ops(one(alloc, op)?);
    write_frame(alloc, &frame).ok()
}

/// Whether a node hears a frame of these bytes, and has nothing to send for it.
fn hear_one<R: Wait>(rt: &R, alloc: Global, node: &mut Node, bytes: &[u8]) -> Option<bool>
    requires { IsNode node.old }
    ensures { IsNode node.new }
{
    let frame = read_frame(alloc, bytes, Seeded::new(0)).ok()?;
    Some(heard(rt, alloc, node, &frame) == Tried::Done)
}

/// Whether a node hears frames, and has nothing to send for any of them.
fn hear_each<R: Wait>(rt: &R, alloc: Global, node: &mut Node, frames: &[Vec<u8>]) -> Option<bool>
    requires { IsNode node.old }
    ensures { IsNode node.new }
{
    for bytes in frames {
        if !hear_one(rt, alloc, node, bytes)? {
            return Some(false);
        }
    }
    Some(true)
}

/// What the link passes on of a frame of the operation.
fn passed_on(alloc: Global, link: &mut Faulty, op: &Op, fault: Fault) -> Option<Vec<Vec<u8>>> {
    let frame = framed(alloc, op)?;
    link.pass(alloc, fault.word, frame).ok()
}

/// Whether a link passes on each frame so often, and a node hears all of that.
fn carry<R: Wait>(rt: &R, alloc: Global, node: &mut Node, ops: &[Op], fault: Fault) -> Option<bool>
    requires { IsNode node.old }
{
    let mut link = Faulty::new();
    for op in ops {
        let passed = passed_on(alloc, &mut link, op, fault)?;
        if passed.len() != fault.copies || !hear_each(rt, alloc, node, &passed)? {
            return Some(false);
        }
    }
    Some(true)
}

/// The bytes of the heap of one that has taken these operations.
fn bytes_of(alloc: Global, ops: &[Op]) -> Option<Vec<u8>> {
    let owed = taken(alloc, ops)?;
    written(alloc, &owed)
}

/// How it ends where a link passes on each frame so often. The site's heap is then that of one that
/// took each operation that was passed on once.
pub fn linked<R: Wait>(
    rt: &R,
    alloc: Global,
    site: &Site,
    node: &mut Node,
    looks: &mut Pass,
    fault: Fault,
) -> Option<Ended>
    requires node { IsNode node.old }
    requires pass { IsPassOf site.now looks.old }
    requires heaps { heaps_of site.now ≡ 2 }
{
    let ops = hundred(alloc)?;
    let carried = carry(rt, alloc, node, &ops, fault)?;
    let owed = if fault.copies == 0 {
        &ops[..0]
    } else {
        ops.as_slice()
    };
    let bytes = bytes_of(alloc, owed)?;
    Some(if is_at_site(rt, alloc, site, looks, &bytes)? && carried {
        Ended::Owed(ops.len())
    } else {
        Ended::Wrong
    })
}
