//! Steps of two nodes, and what comes of them.
ghost use Rattle.std.specs.Prelude.{◌<◌};
ghost use Rattle.zq_node.specs.Node.{IsNode};

use super::making::{Heard, frame_of, site_of};
use super::nodes::{Has, have_at, hear, hear_all, look_at, opened, run_line, shard_at};
use crate::{Node, NodeFault};
use std::alloc::Global;
use std::process::Abort;
use std::sync::Wait;
use zq_dots::{Rule, SiteNo};
use zq_links::Frame;

/// The node of site 0, or that of site 1.
#[derive(Clone, Copy)]
pub enum Side {
    Zero,
    One,
}

/// What a frame tells.
#[derive(Clone, Copy, PartialEq, Eq)]
pub enum Told {
    Have,
    /// So many operations.
    Ops(usize),
    State,
}

/// What is done at one node.
#[derive(Clone, Copy)]
pub enum Deed {
    /// A command at its site.
    Run(&'static str),
    /// Member a of queue q is put at its site in turn with the scores from 1 up to this one.
    Put(u32),
    /// A frame is heard, after which nothing is sent, and it has this.
    Hear(Heard, Has),
    /// The operations of a frame are heard as a list, and it has this.
    Take(Heard, Has),
    /// So many operations of the maker are heard in turn, each in a frame of its own, and each so
    /// often.
    Each(u32, u32),
    /// It has this.
    Look(Has),
    /// A frame is refused with this, as is the list of its operations where it has some, and changes
    /// nothing.
    Refuse(Heard, NodeFault),
    /// This is sent to site 9, which says that it has so many operations of the maker in heap 0.
    Tell(u32, &'static [Told]),
}

/// What is done in a play.
#[derive(Clone, Copy)]
pub enum Step {
    At(Side, Deed),
    /// What a site has of each heap from this one up to before that one is heard by the other one,
    /// which then sends this; that is heard, and then this is sent back, which is heard. Nothing is
    /// sent after that.
    Ask(Side, u8, u8, &'static [Told], &'static [Told]),
    /// What site 0 tells a new site, and then what it tells one that has so many of its operations,
    /// after one more; site 1 hears the latter first, and the former then.
    Late(u32, Has, Has),
    /// Both have the same in each heap from this one up to before that one, and so many members of
    /// queue q there.
    Same(u8, u8, usize),
}

fn told_of(frame: &Frame) -> Told {
    match frame {
        Frame::Have(_) => Told::Have,
        Frame::Ops(ops) => Told::Ops(ops.len()),
        Frame::State(_) => Told::State,
    }
}

/// Whether these frames are sent, all to this site.
fn are_sent(sent: &[(SiteNo, Frame)], to: u8, wanted: &[Told]) -> bool {
    let mut are = sent.len() == wanted.len();
    for ((site, frame), told) in sent.iter().zip(wanted) {
        are &= site.value() == to && told_of(frame) == *told;
    }
    are
}

/// Puts member a of queue q in turn, with the scores from 1 on.
fn put_all<R: Wait + Abort>(rt: &R, alloc: Global, node: &mut Node, count: u32)
    requires node { IsNode node.old }
    ensures node { IsNode node.new }
{
    for score in 1..=count {
        let line = format!(in alloc; "ZADD q {score} a").expect(rt, "memory");
        run_line(rt, alloc, node, &line);
    }
}

/// Whether a frame is heard after which nothing is sent.
fn hears<R: Wait + Abort>(rt: &R, alloc: Global, node: &mut Node, heard: Heard) -> bool
    requires node { IsNode node.old }
    ensures node { IsNode node.new }
{
    let frame = frame_of(rt, alloc, heard);
    hear(rt, alloc, node, &frame).is_empty()
}

/// Whether the operations of a frame are heard as a list.
fn takes<R: Wait + Abort>(rt: &R, alloc: Global, node: &mut Node, heard: Heard) -> bool
    requires node { IsNode node.old }
    ensures node { IsNode node.new }
{
    let mut frame = frame_of(rt, alloc, heard);
    let Frame::Ops(ops) = &mut frame else {
        return false;
    };
    node.hear_ops(rt, alloc, ops).is_ok()
}

/// Whether this is so each of so many times.
fn hears_often<R: Wait + Abort>(
    rt: &R,
    alloc: Global,
    node: &mut Node,
    heard: Heard,
    times: u32,
) -> bool
    requires node { IsNode node.old }
    ensures node { IsNode node.new }
{
    let mut each = true;
    for _time in 0..times {
        each &= hears(rt, alloc, node, heard);
    }
    each
}

/// Whether this is so of each operation, heard so often in a frame of its own.
fn hears_each<R: Wait + Abort>(
    rt: &R,
    alloc: Global,
    node: &mut Node,
    count: u32,
    times: u32,
) -> bool
    requires node { IsNode node.old }
    ensures node { IsNode node.new }
{
    let mut each = true;
    for n in 0..count.min(1000) {
        each &= hears_often(rt, alloc, node, Heard::Ops(n, n + 1, 1), times);
    }
    each
}

/// Why a frame is refused, where the list of its operations is refused for the same.
fn fault_of<R: Wait + Abort>(
    rt: &R,
    alloc: Global,
    node: &mut Node,
    heard: Heard,
) -> Option<NodeFault>
    requires node { IsNode node.old }
    ensures node { IsNode node.new }
{
    let mut frame = frame_of(rt, alloc, heard);
    let fault = node.hear(rt, alloc, &frame).err();
    let Frame::Ops(ops) = &mut frame else {
        return fault;
    };
    if node.hear_ops(rt, alloc, ops).err() == fault {
        fault
    } else {
        None
    }
}

/// Whether a frame is refused with this fault, after which what the site has and what is parked are
/// as before.
fn refuses<R: Wait + Abort>(
    rt: &R,
    alloc: Global,
    node: &mut Node,
    wrong: Heard,
    fault: NodeFault,
) -> bool
    requires node { IsNode node.old }
    ensures node { IsNode node.new }
{
    let before = shard_at(rt, alloc, node, 0);
    let parked = node.parked_len();
    let found = fault_of(rt, alloc, node, wrong);
    let after = shard_at(rt, alloc, node, 0);
    found == Some(fault) && before.same(&after) && node.parked_len() == parked
}

/// What is sent to site 9, which has so many of the maker's operations in heap 0.
fn told_to<R: Wait + Abort>(
    rt: &R,
    alloc: Global,
    node: &mut Node,
    count: u32,
) -> Vec<(SiteNo, Frame)>
    requires node { IsNode node.old }
    ensures node { IsNode node.new }
{
    let have = frame_of(rt, alloc, Heard::Have(0, 2, Rule::High, count));
    hear(rt, alloc, node, &have)
}

/// Does what is done at one node, and answers whether it comes to what is said of it.
fn does<R: Wait + Abort>(rt: &R, alloc: Global, node: &mut Node, deed: Deed) -> bool
    requires node { IsNode node.old }
    ensures node { IsNode node.new }
{
    match deed {
        Deed::Run(line) => {
            run_line(rt, alloc, node, line);
            true
        }
        Deed::Put(count) => {
            put_all(rt, alloc, node, count);
            true
        }
        Deed::Hear(heard, has) => {
            hears(rt, alloc, node, heard) && look_at(rt, alloc, node) == has
        }
        Deed::Take(heard, has) => {
            takes(rt, alloc, node, heard) && look_at(rt, alloc, node) == has
        }
        Deed::Each(count, times) => hears_each(rt, alloc, node, count, times),
        Deed::Look(has) => look_at(rt, alloc, node) == has,
        Deed::Refuse(wrong, fault) => refuses(rt, alloc, node, wrong, fault),
        Deed::Tell(count, told) => are_sent(&told_to(rt, alloc, node, count), 9, told),
    }
}

/// One node says what it has of a heap to the other one. Whether this is sent then, and this sent
/// back, and nothing more.
fn asks<R: Wait + Abort>(
    rt: &R,
    alloc: Global,
    asker: &mut Node,
    asked: &mut Node,
    heap: u8,
    told: &[Told],
    back: &[Told],
) -> bool
    requires asker { IsNode asker.old }
    requires asked { IsNode asked.old }
    ensures asker { IsNode asker.new }
    ensures asked { IsNode asked.new }
{
    let have = have_at(rt, alloc, asker, heap);
    let sent = hear(rt, alloc, asked, &have);
    let answer = hear_all(rt, alloc, asker, &sent);
    let rest = hear_all(rt, alloc, asked, &answer);
    are_sent(&sent, asker.home.number.value(), told)
        && are_sent(&answer, asked.home.number.value(), back)
        && rest.is_empty()
}

/// Whether this is so of each heap from this one up to before that one.
fn asks_each<R: Wait + Abort>(
    rt: &R,
    alloc: Global,
    asker: &mut Node,
    asked: &mut Node,
    heaps: (u8, u8),
    told: &[Told],
    back: &[Told],
) -> bool
    requires asker { IsNode asker.old }
    requires asked { IsNode asked.old }
    ensures asker { IsNode asker.new }
    ensures asked { IsNode asked.new }
{
    let mut each = true;
    for heap in heaps.0..heaps.1 {
        each &= asks(rt, alloc, asker, asked, heap, told, back);
    }
    each
}

/// A heap as it was is heard after an operation that follows it. Whether the one that hears them
/// has this then.
fn hears_late<R: Wait + Abort>(
    rt: &R,
    alloc: Global,
    zero: &mut Node,
    one: &mut Node,
    count: u32,
    has: (Has, Has),
) -> bool
    requires zero { IsNode zero.old }
    requires one { IsNode one.old }
    ensures zero { IsNode zero.new }
    ensures one { IsNode one.new }
{
    let heap = told_to(rt, alloc, zero, 0);
    run_line(rt, alloc, zero, "ZADD q 9 a");
    let next = told_to(rt, alloc, zero, count);
    drop(hear_all(rt, alloc, one, &next));
    let first = look_at(rt, alloc, one);
    drop(hear_all(rt, alloc, one, &heap));
    first == has.0 && look_at(rt, alloc, one) == has.1
}

/// Whether both have the same in these heaps, and so many members of queue q.
fn are_same<R: Wait + Abort>(
    rt: &R,
    alloc: Global,
    zero: &mut Node,
    one: &mut Node,
    heaps: (u8, u8),
    members: usize,
) -> bool
    requires zero { IsNode zero.old }
    requires one { IsNode one.old }
    ensures zero { IsNode zero.new }
    ensures one { IsNode one.new }
{
    let mut are = true;
    for heap in heaps.0..heaps.1 {
        let first = shard_at(rt, alloc, zero, heap);
        let second = shard_at(rt, alloc, one, heap);
        are &= first.same(&second) && first.count(b"q") == members;
    }
    are
}

/// Does a step, and answers whether it comes to what is said of it.
fn plays<R: Wait + Abort>(
    rt: &R,
    alloc: Global,
    zero: &mut Node,
    one: &mut Node,
    step: Step,
) -> bool
    requires zero { IsNode zero.old }
    requires one { IsNode one.old }
    ensures zero { IsNode zero.new }
    ensures one { IsNode one.new }
{
    match step {
        Step::At(Side::Zero, deed) => does(rt, alloc, zero, deed),
        Step::At(Side::One, deed) => does(rt, alloc, one, deed),
        Step::Ask(Side::Zero, from, to, told, back) => {
            asks_each(rt, alloc, zero, one, (from, to), told, back)
        }
        Step::Ask(Side::One, from, to, told, back) => {
            asks_each(rt, alloc, one, zero, (from, to), told, back)
        }
        Step::Late(count, first, then) => hears_late(rt, alloc, zero, one, count, (first, then)),
        Step::Same(from, to, members) => are_same(rt, alloc, zero, one, (from, to), members),
    }
}

/// Does the steps in turn.
fn play_each<R: Wait + Abort>(
    rt: &R,
    alloc: Global,
    zero: &mut Node,
    one: &mut Node,
    steps: &[Step],
)
    requires zero { IsNode zero.old }
    requires one { IsNode one.old }
{
    for (at, step) in steps.iter().enumerate() {
        assert!(rt; plays(rt, alloc, zero, one, *step), "step {at}, from 0 on");
    }
}

/// Plays the steps at the nodes of sites 0 and 1, of so many heaps, which have done nothing.
pub fn play<R: Wait + Abort>(rt: &R, alloc: Global, heaps: u8, steps: &[Step]) {
    let numbers = (site_of(rt, 0), site_of(rt, 1));
    let (first, pass) = opened(rt, alloc, numbers.0, heaps);
    let mut zero = Node::new(alloc, &first, pass);
    let (second, pass) = opened(rt, alloc, numbers.1, heaps);
    let mut one = Node::new(alloc, &second, pass);
    play_each(rt, alloc, &mut zero, &mut one, steps);
}
