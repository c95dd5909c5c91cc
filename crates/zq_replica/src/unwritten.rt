//! What was drained from a heap, and is not on disk yet.

ghost use Rattle.std.specs.Prelude.{IfOk, IsFalse, IsTrue, OnErr, length, option_copied, ◌++◌, ◌≡◌, ◌≤◌};
ghost use Rattle.zq_replica.specs.Unwritten as wanted;
ghost use Rattle.zq_replica.specs.Unwritten.{IsTaken, followed, grown, jumped, nothing_owed};

use std::alloc::{AllocError, Global};
use std::collections::VecDeque;
use std::marker::Model;
use zq_dots::{Op, Vector};

/// How many operations are taken at once.
const MOST_OPS: usize = 4_096;

/// After how many bytes of names no further operation is taken; the last may pass it.
const MOST_NAMES: usize = 1_048_576;

/// What was drained from a heap, and is not on disk yet: its operations in their order, for who
/// writes them. A heap that took operations otherwise, as by a merge, or of which one is missing
/// here, has jumped: then none are kept until it is followed again, from a copy of it on.
#[derive(Drop)]
pub(crate) struct Unwritten {
    ops: VecDeque<Op>,
    has_jumped: bool,
}

impl Model for Unwritten {
    ghost use Rattle.zq_replica.specs.Unwritten.{Owed};

    ghost Value = { Owed };

    ghost use Rattle.zq_replica.specs.Unwritten.{IsOwed, owed_of};

    ghost view = { owed_of };

    ghost invariant = { IsOwed };
}

impl Unwritten {
    /// Nothing.
    pub(crate) fn new(alloc: Global) -> Unwritten
        ensures { result ≡ nothing_owed }
    {
        Unwritten {
            ops: VecDeque::new(alloc),
            has_jumped: false,
        }
    }

    /// Whether the heap has jumped. Then nothing of it is kept.
    pub(crate) fn has_jumped(&self) -> bool
        ensures value { result ≡ self.now.has_jumped }
        ensures nothing { IsTrue result → self.now ≡ jumped }
    {
        self.has_jumped
    }

    /// The heap has jumped.
    pub(crate) fn jump(&mut self)
        ensures { self.new ≡ jumped }
    {
        self.ops.clear();
        self.has_jumped = true;
    }

    /// The heap is followed again, where it had jumped: what is drained from now on is kept. It says
    /// whether it had.
    pub(crate) fn follow(&mut self) -> bool
        ensures had { result ≡ self.old.has_jumped }
        ensures followed { self.new ≡ followed self.old }
    {
        let had_jumped = self.has_jumped;
        self.has_jumped = false;
        had_jumped
    }

    /// These operations were drained. Where there is no memory for them the heap has jumped.
    pub(crate) fn add(&mut self, ops: Vec<Op>)
        ensures kept { IsFalse self.new.has_jumped → self.new ≡ grown ops.items self.old }
        ensures jumped { IsTrue self.old.has_jumped → self.new ≡ jumped }
        ensures lost { IsTrue self.new.has_jumped → self.new ≡ jumped }
    {
        if self.has_jumped {
            return;
        }
        for op in ops {
            if self.ops.push_back(op).is_err() {
                self.jump();
                return;
            }
        }
    }

    /// Takes the oldest operations, in their order, and leaves the others. It stops behind 4,096 of
    /// them, behind a mebibyte of names, and before the first that a heap of this vector lacks, where
    /// one is given. Where memory is refused nothing is taken.
    pub(crate) fn take(
        &mut self,
        alloc: Global,
        within: Option<&Vector>,
    ) -> Result<Vec<Op>, AllocError>
        ensures taken { IfOk result (λ ops. self.old.ops ≡ ops.items ++ self.new.ops) }
        ensures which { IfOk result
            (λ ops. IsTaken (option_copied within.entry) self.old.ops (length ops.items)) }
        ensures jumped { self.new.has_jumped ≡ self.old.has_jumped }
        ensures refused { OnErr result (self.new ≡ self.old) }
    {
        let count = self.count_next(within);
        let mut taken = Vec::with_capacity(alloc, count)?;
        for _number in 0..count {
            let Some(op) = self.ops.pop_front() else {
                break;
            };
            taken.push_reserved(op);
        }
        Ok(taken)
    }

    /// How many operations are taken.
    fn count_next(&self, within: Option<&Vector>) -> usize
        ensures { IsTaken (option_copied within.entry) self.now.ops result }
    {
        let mut names = 0usize;
        for number in 0..self.ops.len().min(MOST_OPS) {
            let op = &self.ops[number];
            if names >= MOST_NAMES || !is_within(within, op) {
                return number;
            }
            names += names_of(op);
        }
        self.ops.len().min(MOST_OPS)
    }
}

/// Whether a heap of this vector has the operation, where one is given.
fn is_within(within: Option<&Vector>, op: &Op) -> bool
    ensures { result ≡ wanted.is_within (option_copied within.entry) op.now }
{
    match within {
        Some(vector) => vector.has(op.dot()),
        None => true,
    }
}

/// The bytes of an operation's names.
fn names_of(op: &Op) -> usize
    ensures value { result ≡ wanted.names_of op.now }
    ensures most { result ≤ 2097152 }
{
    op.key().len() + op.member().len()
}
