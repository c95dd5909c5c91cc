//! The log, its type and what comes to it.
ghost use Rattle.std.specs.Prelude.{◌≡◌, ◌<◌, ◌≤◌, ◌==◌, ◌^◌, ◌++◌, ℕ, OnErr, OnOk, length, slice_index, slice_index_or, take};
ghost use Rattle.zq_backlog.specs.Log.{IsLog, added, added_all, appended, begun, end_of, skipped, skipped_base, trimmed, without};
ghost use Rattle.zq_backlog.specs.Written.{dot_of, spelling, weights};
ghost use Rattle.zq_dots.specs.Placed.{IsRanged, Placed};
ghost use Rattle.zq_model.specs.Sets as sets;
ghost use Rattle.zq_model.specs.Sets.{LAST};

use crate::texts::Texts;
use std::alloc::{AllocError, Global};
use std::collections::VecDeque;
use std::marker::Model;
use zq_dots::{Dot, Op, SITES, SiteNo, Vector};

/// The bytes that an operation takes beside its written ones: its dot, and where its text ends.
const ENTRY: u64 = 24;

/// The written operations of one heap, the oldest first.
///
/// Each has a place, which is its number among all that ever came, and keeps it: `first` is the
/// place of the oldest, `end` that of the next one. Of each site o the operations above
/// `base[o]`, up to `last[o]`, are there, in the order of their counters and none twice. What is
/// skipped lies in no log: after it operations at or below the base may be left there.
///
/// It has at most so many bytes as it was made for, or one operation. An operation takes its
/// written bytes and 24 others.
#[derive(Drop)]
pub struct Backlog {
    base: Vector,
    last: Vector,
    dots: VecDeque<Dot>,
    texts: Texts,
    pub(crate) first: u64,
    most: u64,
}

impl Model for Backlog {
    ghost use Rattle.zq_backlog.specs.Log.{Log};

    ghost Value = { Log };

    ghost use Rattle.zq_backlog.specs.BacklogView.{IsKept, log_of};

    ghost view = { log_of };

    ghost invariant = { IsKept };
}

impl Backlog {
    /// The log of a heap that has what `begin` knows: nothing is in it. It keeps at most so many
    /// bytes, and takes no memory now.
    pub fn new(alloc: Global, begin: Vector, most: u64) -> Backlog
        ensures { result ≡ begun begin most }
    {
        Backlog {
            base: begin,
            last: begin,
            dots: VecDeque::new(alloc),
            texts: Texts::new(alloc),
            first: 0,
            most,
        }
    }

    /// Of each site the operations above its counter here are in the log.
    pub fn base(&self) -> &Vector
        ensures base { result.now ≡ self.now.base }
        ensures log { IsLog self.now }
    {
        &self.base
    }

    /// Of each site the last operation that came, or was skipped.
    pub fn last(&self) -> &Vector
        ensures { result.now ≡ self.now.last }
    {
        &self.last
    }

    /// The place of the oldest operation.
    pub fn first(&self) -> u64
        ensures { result ≡ self.now.first }
    {
        self.first
    }

    /// The place of the next operation.
    pub fn end(&self) -> u64
        ensures { result ≡ end_of self.now }
    {
        self.first + self.len() as u64
    }

    /// How many operations there are.
    pub fn len(&self) -> usize
        ensures { result ≡ length self.now.ops }
    {
        self.dots.len()
    }

    /// Whether there are none.
    pub fn is_empty(&self) -> bool
        ensures { result ≡ (length self.now.ops == 0) }
    {
        self.dots.is_empty()
    }

    /// The bytes that the operations take.
    pub fn bytes(&self) -> u64
        ensures { result ≡ weights self.now.ops }
    {
        self.texts.bytes() as u64 + ENTRY * self.dots.len() as u64
    }

    /// An operation comes. Where it is the next of its site or a later one, it is written and goes
    /// to the end; where others of its site are missing before it, these are skipped. Then the
    /// oldest go while there are too many bytes, and the base rises over them; the newest stays in
    /// any case. One that is known changes nothing. Where memory is refused nothing has changed.
    #[tactic(auto, unfolding(crate::specs::Log::added))]
    pub fn add(&mut self, op: &Op) -> Result<(), AllocError>
        ensures added { OnOk result (self.new ≡ added op.now self.old) }
        ensures refused { OnErr result (self.new ≡ self.old) }
    {
        let dot = op.dot();
        if dot.n <= self.last.get(dot.site) {
            return Ok(());
        }
        self.append(op)?;
        self.trim();
        Ok(())
    }

    /// Operations come, one after the other. Where memory is refused those before are there.
    pub fn add_all(&mut self, ops: &[Op]) -> Result<(), AllocError>
        ensures added { OnOk result (self.new ≡ added_all ops.now self.old) }
        ensures refused { OnErr result
            ((k : ℕ) × (k < length ops.now) × (self.new ≡ added_all (take k ops.now) self.old)) }
    {
        for op in ops {
            self.add(op)?;
        }
        Ok(())
    }

    /// What `v` knows came otherwise than as operations, as by a merge: where it has a higher
    /// counter than the last, base and last become that counter.
    pub fn skip(&mut self, v: &Vector)
        ensures { self.new ≡ skipped v.now self.old }
    {
        skip_base(&mut self.base, &self.last, v);
        self.last.join_with(v);
    }

    /// The dot of the operation of this number, the oldest having number 0.
    pub(crate) fn dot_at(&self, number: usize) -> Dot
        requires { number < length self.now.ops }
        ensures dot { (o : Placed) → o ≡ slice_index_or self.now.ops number o →
            result ≡ dot_of o }
        ensures bounded { result.n ≤ LAST }
    {
        self.dots[number]
    }

    /// How many bytes the operation of this number is written in.
    pub(crate) fn len_at(&self, number: usize) -> usize
        requires { number < length self.now.ops }
        ensures exact { (o : Placed) → o ≡ slice_index_or self.now.ops number o →
            result ≡ length (spelling o) }
        ensures most { result < 2 ^ 63 }
    {
        self.texts.len_of(number)
    }

    /// Appends the bytes of the operation of this number to a frame.
    pub(crate) fn copy_at(&self, number: usize, frame: &mut Vec<u8>) -> Result<(), AllocError>
        requires { number < length self.now.ops }
        ensures { OnOk result ((o : Placed) → o ≡ slice_index_or self.now.ops number o →
            frame.new.items ≡ frame.old.items ++ spelling o) }
    {
        self.texts.copy_to(number, frame)
    }

    /// An operation that is not known comes last.
    fn append(&mut self, op: &Op) -> Result<(), AllocError>
        requires { slice_index self.old.last op.now.operation.site < op.now.operation.n }
        ensures appended { OnOk result (self.new ≡ appended op.now self.old) }
        ensures refused { OnErr result (self.new ≡ self.old) }
    {
        // For the proof: what is written is read again.
        ranged(op);
        self.dots.reserve(1)?;
        self.texts.push(op)?;
        let Dot { site, n } = op.dot();
        self.dots.push_back_reserved(Dot { site, n });
        if n > self.last.get(site) + 1 {
            self.base.set(site, n - 1);
        }
        self.last.set(site, n);
        Ok(())
    }

    /// The oldest go while there are too many bytes and more than one operation.
    fn trim(&mut self)
        ensures { self.new ≡ trimmed self.old }
    {
        while self.len() > 1 && self.bytes() > self.most {
            self.drop_oldest();
        }
    }

    /// The oldest goes, if there is one, and the base rises to it.
    fn drop_oldest(&mut self)
        requires { 0 < length self.old.ops }
        ensures { self.new ≡ without 1 self.old }
    {
        if let Some(dot) = self.dots.pop_front() {
            self.texts.drop_oldest();
            let known = self.base.get(dot.site);
            self.base.set(dot.site, known.max(dot.n));
            self.first += 1;
        }
    }
}

/// What the type of an operation keeps of it.
fn ranged(op: &Op)
    ensures { IsRanged op.now }
{
    // For the proof: what each of these says of its part.
    let _ = op.heap();
    let _ = op.heaps();
    let _ = op.dot().site.value();
    let _ = op.seen();
    let _ = op.key();
    let _ = op.member();
    let _ = op.act();
}

/// The site of a number that is one.
fn site_of(number: u8) -> SiteNo
    requires { number < sets.SITES }
    ensures { result ≡ number }
{
    SiteNo::new(number).unwrap()
}

/// Raises the base to what `v` knows, where that is more than the last.
#[tactic(auto, unfolding(zq_model::specs::Sets::SITES))]
fn skip_base(base: &mut Vector, last: &Vector, v: &Vector)
    requires { length base.old ≡ sets.SITES }
    ensures base { base.new ≡ skipped_base base.old last.now v.now }
    ensures bounded { (t : ℕ) → t < sets.SITES → slice_index v.now t ≤ LAST }
{
    for number in 0..SITES as u8 {
        let site = site_of(number);
        let known = v.get(site);
        if known > last.get(site) {
            base.set(site, known);
        }
    }
}
