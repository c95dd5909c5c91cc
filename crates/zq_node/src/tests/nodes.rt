//! Nodes that tests begin with, what they do, and what they have.
ghost use Rattle.std.specs.Prelude.{◌≡◌};
ghost use Rattle.zq_dots.specs.declared.rule.Rule.{Rule as Rules};
ghost use Rattle.zq_model.specs.Sets.{IsHeaps};
ghost use Rattle.zq_node.specs.Node.{IsNode, IsSameHome};
ghost use Rattle.zq_spread.specs.Calls.{heaps_of};
ghost use Rattle.zq_spread.specs.Passes.{IsPassOf};

use super::making::{MAKER, site_of};
use crate::Node;
use std::alloc::Global;
use std::process::Abort;
use std::sync::Wait;
use zq_dots::SiteNo;
use zq_links::Frame;
use zq_resp::{Reader, Request};
use zq_shard::Shard;
use zq_spread::{Pass, Site};
use zq_words::Command;

/// The site of this number, of so many heaps, which has done nothing, and its pass.
pub fn opened(rt: &impl Abort, alloc: Global, number: SiteNo, heaps: u8) -> (Site, Pass)
    ensures number { result.0.number ≡ number }
    ensures heaps { heaps_of result.0 ≡ heaps }
    ensures bounds { IsHeaps heaps }
    ensures rule { result.0.rule ≡ Rules.High }
    ensures pass { IsPassOf result.0 result.1 }
{
    let (site, mut passes) = Site::new(alloc, number, heaps, 1).expect(rt, "a site");
    let pass = passes.pop().expect(rt, "a pass");
    (site, pass)
}

/// The request of a line's words.
fn request(rt: &impl Abort, alloc: Global, line: &str) -> Request {
    let count = line.split(' ').count();
    let mut bytes = format!(in alloc; "*{count}\r\n").expect(rt, "memory");
    for word in line.split(' ') {
        let length = word.len();
        let part = format!(in alloc; "${length}\r\n{word}\r\n").expect(rt, "memory");
        bytes.push_str(&part).expect(rt, "memory");
    }
    let mut requests = Reader::new()
        .feed(alloc, bytes.as_bytes())
        .expect(rt, "requests");
    requests.pop().expect(rt, "a request")
}

/// Runs the command of a line's words at the node's site, by its pass.
pub fn run_line<R: Wait + Abort>(rt: &R, alloc: Global, node: &mut Node, line: &str)
    requires node { IsNode node.old }
    ensures node { IsNode node.new }
    ensures home { IsSameHome node.old node.new }
{
    let request = request(rt, alloc, line);
    let command = Command::read(alloc, &request).expect(rt, "a command");
    let site = node.home.site;
    drop(site.call(rt, alloc, &mut node.pass, &command, 0, 0));
}

/// What the node's site has of a heap.
pub fn shard_at<R: Wait + Abort>(rt: &R, alloc: Global, node: &mut Node, heap: u8) -> Shard
    requires node { IsNode node.old }
    ensures node { IsNode node.new }
    ensures home { IsSameHome node.old node.new }
{
    assert!(rt; heap < node.home.heaps);
    let site = node.home.site;
    site.state(rt, alloc, &mut node.pass, heap)
        .expect(rt, "a heap")
}

/// What the node says of a heap, where it says something of each.
pub fn have_at<R: Wait + Abort>(rt: &R, alloc: Global, node: &mut Node, heap: u8) -> Frame
    requires node { IsNode node.old }
    ensures node { IsNode node.new }
    ensures home { IsSameHome node.old node.new }
{
    let mut frames = node.haves(rt, alloc).expect(rt, "frames");
    assert!(rt; frames.len() == usize::from(node.home.heaps) && heap < node.home.heaps);
    frames.swap_remove(usize::from(heap))
}

/// What is sent when the node hears a frame.
pub fn hear<R: Wait + Abort>(
    rt: &R,
    alloc: Global,
    node: &mut Node,
    frame: &Frame,
) -> Vec<(SiteNo, Frame)>
    requires node { IsNode node.old }
    ensures node { IsNode node.new }
    ensures home { IsSameHome node.old node.new }
{
    node.hear(rt, alloc, frame).expect(rt, "heard")
}

/// What is sent when the node hears these frames in turn.
pub fn hear_all<R: Wait + Abort>(
    rt: &R,
    alloc: Global,
    node: &mut Node,
    frames: &[(SiteNo, Frame)],
) -> Vec<(SiteNo, Frame)>
    requires node { IsNode node.old }
    ensures node { IsNode node.new }
    ensures home { IsSameHome node.old node.new }
{
    let mut sent = Vec::new(alloc);
    for told in frames {
        let mut more = hear(rt, alloc, node, &told.1);
        sent.append(&mut more).expect(rt, "memory");
    }
    sent
}

/// What a node has: so many operations are parked, queue q has so many members in heap 0, and so
/// many of the maker's operations are known there.
#[derive(Clone, Copy, PartialEq, Eq)]
pub struct Has(pub usize, pub usize, pub u64);

/// What the node has.
pub fn look_at<R: Wait + Abort>(rt: &R, alloc: Global, node: &mut Node) -> Has
    requires node { IsNode node.old }
    ensures node { IsNode node.new }
    ensures home { IsSameHome node.old node.new }
{
    let heap = shard_at(rt, alloc, node, 0);
    let known = heap.vector().get(site_of(rt, MAKER));
    Has(node.parked_len(), heap.count(b"q"), known)
}
