//! The logs of a site's heaps.

ghost use Rattle.std.specs.Prelude.{replicate, true, ◌≡◌};
ghost use Rattle.zq_node.specs.Node.{IsNode};
ghost use Rattle.zq_replica.specs.Nodes.{Shows};

use crate::unwritten::Unwritten;
use std::alloc::{AllocError, Global};
use std::sync::{Mutex, Wait};
use zq_backlog::Backlog;
use zq_dots::{Op, SITES, Vector};
use zq_follow::{SiteSet, count_beyond};
use zq_journal::Since;
use zq_node::{Node, NodeFault};

/// How many operations are taken out of a heap at once, since other calls wait meanwhile.
const MOST_DRAINED: usize = 4_096;

/// What was taken out of heaps.
#[derive(Clone, Copy, Debug, PartialEq, Eq)]
pub enum Drained {
    /// There was nothing.
    Nothing,
    /// All that there was.
    All,
    /// As much of a heap as is taken at once, so that there may be more.
    Piece,
}

impl Drained {
    /// So many operations of a heap.
    fn of(ops: usize) -> Drained {
        match ops {
            0 => Drained::Nothing,
            MOST_DRAINED.. => Drained::Piece,
            _ => Drained::All,
        }
    }

    /// What was taken out of several heaps.
    fn and(self, other: Drained) -> Drained {
        match (self, other) {
            (Drained::Piece, _) | (_, Drained::Piece) => Drained::Piece,
            (Drained::All, _) | (_, Drained::All) => Drained::All,
            (Drained::Nothing, Drained::Nothing) => Drained::Nothing,
        }
    }
}

/// How much a log has.
#[derive(Clone, Copy, Debug, PartialEq, Eq)]
pub struct LogSize {
    /// How many operations.
    pub operations: u64,
    /// How many bytes, as its bound counts them.
    pub bytes: u64,
}

impl LogSize {
    /// That of a log.
    fn of(log: &Backlog) -> LogSize {
        LogSize {
            operations: log.len() as u64,
            bytes: log.bytes(),
        }
    }
}

/// A log of written operations for each heap of a site. Threads share them: one takes what the heaps
/// make into them, another one cuts batches for the peers out of them. Where the site keeps a log on
/// disk, what was drained is kept until it is taken for that.
#[derive(Drop)]
pub struct Logs {
    heaps: u8,
    logs: Vec<Mutex<Backlog>>,
    /// What is not on disk yet of each heap, where the site keeps a log there. Who locks a log and
    /// this locks the log first.
    unwritten: Vec<Mutex<Unwritten>>,
}

impl Logs {
    /// The logs of so many heaps, in which nothing is. Each has at most so many bytes.
    pub fn new(alloc: Global, heaps: u8, most: u64) -> Result<Logs, AllocError> {
        let mut logs = Vec::new(alloc);
        for _heap in 0..heaps {
            let log = Mutex::new(Backlog::new(alloc, Vector::new(), most));
            logs.push(log)?;
        }
        Ok(Logs {
            heaps,
            logs,
            unwritten: Vec::new(alloc),
        })
    }

    /// The same of a site that keeps a log on disk.
    pub fn kept(alloc: Global, heaps: u8, most: u64) -> Result<Logs, AllocError> {
        let mut logs = Logs::new(alloc, heaps, most)?;
        for _heap in 0..heaps {
            logs.unwritten.push(Mutex::new(Unwritten::new(alloc)))?;
        }
        Ok(logs)
    }

    /// The log of a heap goes on behind what the heap has: what is not in the log by now came
    /// otherwise.
    pub fn begin_behind<R: Wait>(&self, rt: &R, heap: u8, vector: &Vector) {
        if let Some(log) = self.at(heap) {
            log.lock(rt).skip(vector);
        }
    }

    /// Operations of one heap that were read from the disk again, in their order, come into its
    /// log. It takes what it knows not yet. Where memory is refused the rest is passed over, and
    /// counts as what came otherwise once the log begins behind what the heap has, or a later one
    /// comes.
    pub fn recall<R: Wait>(&self, rt: &R, ops: &[Op]) {
        let Some(op) = ops.first() else {
            return;
        };
        if let Some(log) = self.at(op.heap()) {
            let _ = log.lock(rt).add_all(ops);
        }
    }

    /// What is not on disk yet of a heap.
    fn unwritten_at(&self, heap: u8) -> Option<&Mutex<Unwritten>> {
        self.unwritten.get(usize::from(heap))
    }

    /// Takes the oldest operations of a heap that were drained and not taken yet, in their order,
    /// and leaves the others. It stops behind 4,096 of them, behind a mebibyte of names, and before
    /// the first that a heap of this vector lacks, where one is given. Where memory is refused
    /// nothing is taken.
    pub fn take_unwritten<R: Wait>(
        &self,
        rt: &R,
        alloc: Global,
        heap: u8,
        within: Option<&Vector>,
    ) -> Result<Vec<Op>, AllocError> {
        match self.unwritten_at(heap) {
            Some(unwritten) => unwritten.lock(rt).take(alloc, within),
            None => Ok(Vec::new(alloc)),
        }
    }

    /// Whether a heap has what cannot be taken as operations, as after a merge. Nothing of it is
    /// kept then until it is followed again.
    pub fn has_jumped<R: Wait>(&self, rt: &R, heap: u8) -> bool {
        match self.unwritten_at(heap) {
            Some(unwritten) => unwritten.lock(rt).has_jumped(),
            None => false,
        }
    }

    /// What was taken of a heap is lost: it has what cannot be taken as operations.
    pub fn lose<R: Wait>(&self, rt: &R, heap: u8) {
        note_jump(rt, self.unwritten_at(heap));
    }

    /// A heap is followed again, from a copy of it on that is made after this call: what is drained
    /// from now on is kept. It says whether the heap had jumped until then.
    pub fn follow<R: Wait>(&self, rt: &R, heap: u8) -> bool {
        match self.unwritten_at(heap) {
            Some(unwritten) => unwritten.lock(rt).follow(),
            None => false,
        }
    }

    /// How many heaps there are.
    pub fn heaps(&self) -> u8 {
        self.heaps
    }

    /// The log of a heap.
    pub(crate) fn at(&self, heap: u8) -> Option<&Mutex<Backlog>> {
        self.logs.get(usize::from(heap))
    }

    /// How much a heap's log has.
    pub fn size<R: Wait>(&self, rt: &R, heap: u8) -> LogSize {
        match self.at(heap) {
            Some(log) => LogSize::of(&log.lock(rt)),
            None => LogSize {
                operations: 0,
                bytes: 0,
            },
        }
    }

    /// Takes a piece of what each heap of the node's site has made into its log. What is refused
    /// memory is taken the next time.
    pub fn drain<R: Wait>(
        &self,
        rt: &R,
        alloc: Global,
        node: &mut Node<'_>,
    ) -> Result<Drained, NodeFault>
        requires node { IsNode node.old }
        ensures node { IsNode node.new }
        ensures shows { Shows node.old node.new }
    {
        let mut drained = Drained::Nothing;
        for heap in 0..self.heaps {
            drained = drained.and(self.drain_piece(rt, alloc, node, heap)?);
        }
        Ok(drained)
    }

    /// Takes all that a heap has made into its log, piece by piece.
    pub(crate) fn drain_heap<R: Wait>(
        &self,
        rt: &R,
        alloc: Global,
        node: &mut Node<'_>,
        heap: u8,
    ) -> Result<(), NodeFault>
        requires node { IsNode node.old }
        ensures node { IsNode node.new }
        ensures shows { Shows node.old node.new }
    {
        for _piece in 0..u64::MAX {
            if self.drain_piece(rt, alloc, node, heap)? != Drained::Piece {
                break;
            }
        }
        Ok(())
    }

    /// Takes a piece of what a heap has made into its log: at most 4,096 operations. What is
    /// refused memory is taken the next time.
    pub fn drain_piece<R: Wait>(
        &self,
        rt: &R,
        alloc: Global,
        node: &mut Node<'_>,
        heap: u8,
    ) -> Result<Drained, NodeFault>
        requires node { IsNode node.old }
        ensures node { IsNode node.new }
        ensures shows { Shows node.old node.new }
    {
        match self.at(heap) {
            Some(log) => {
                let unwritten = self.unwritten_at(heap);
                drain_into(rt, alloc, node, heap, &mut log.lock(rt), unwritten)
            }
            None => Ok(Drained::Nothing),
        }
    }

    /// How many operations a heap of the node's site has that its log lacks.
    pub fn lag<R: Wait>(&self, rt: &R, node: &mut Node<'_>, heap: u8) -> Result<u64, NodeFault>
        requires node { IsNode node.old }
        ensures node { IsNode node.new }
        ensures shows { Shows node.old node.new }
    {
        let has = node.vector(rt, heap)?;
        match self.at(heap) {
            Some(log) => Ok(count_beyond(&every_site(), &has, log.lock(rt).last())),
            None => Ok(0),
        }
    }
}

/// All sites.
pub(crate) fn every_site() -> SiteSet
    ensures { result ≡ replicate 64 true }
{
    SiteSet::from_array([true; SITES])
}

/// Takes the oldest operations of a heap that its log lacks into the log, in their order, and has
/// the heap's book told what the log had before. Where the heap no longer has what followed the log
/// the log begins anew behind it, and the heap has jumped.
///
/// `WrongHeap`, `Worn` and `NoMemory` as [`Node::drain`] says; of what was refused memory a part may
/// be in the log.
fn drain_into<R: Wait>(
    rt: &R,
    alloc: Global,
    node: &mut Node<'_>,
    heap: u8,
    log: &mut Backlog,
    unwritten: Option<&Mutex<Unwritten>>,
) -> Result<Drained, NodeFault>
    requires node { IsNode node.old }
    ensures node { IsNode node.new }
    ensures shows { Shows node.old node.new }
{
    let last = *log.last();
    match node.drain(rt, alloc, heap, &last, MOST_DRAINED)? {
        Since::Ops(ops) => {
            let count = ops.len();
            let added = log.add_all(&ops);
            keep_ops(rt, unwritten, ops, added.is_ok());
            added?;
            Ok(Drained::of(count))
        }
        Since::TooOld => {
            let vector = node.vector(rt, heap)?;
            log.skip(&vector);
            note_jump(rt, unwritten);
            Ok(Drained::All)
        }
    }
}

/// The heap has jumped, where there is a log.
fn note_jump<R: Wait>(rt: &R, unwritten: Option<&Mutex<Unwritten>>) {
    if let Some(unwritten) = unwritten {
        unwritten.lock(rt).jump();
    }
}

/// Keeps operations that were drained until they are on disk, where there is a log. Where a part of
/// them alone is in the heap's own log they do not come again, so that the heap has jumped.
fn keep_ops<R: Wait>(rt: &R, unwritten: Option<&Mutex<Unwritten>>, ops: Vec<Op>, are_added: bool) {
    let Some(unwritten) = unwritten else {
        return;
    };
    if ops.is_empty() {
        return;
    }
    let mut unwritten = unwritten.lock(rt);
    if are_added {
        unwritten.add(ops);
    } else {
        unwritten.jump();
    }
}
