//! The records of a book.
ghost use Rattle.std.specs.Prelude.{◌≡◌, ◌≤◌, IfOk, List, not, ℕ};
ghost use Rattle.zq_journal.specs.Records.{IsRecordable, bytes_kept, placed_in, whole};
ghost use Rattle.zq_model.specs.Operation.{has};
ghost use Rattle.zq_model.specs.Sets.{LAST};

use crate::own::Own;
use std::alloc::{AllocError, Global};
use zq_dots::{Dot, Op, Vector};
use zq_entry::Entry;

/// What an operation was to the book that recorded it.
#[derive(Drop)]
pub(crate) enum Change {
    /// It was made here.
    Made(Own),
    /// It was made elsewhere, and new here.
    Took(Box<Op>),
}

impl Change {
    /// The operation's site and counter.
    pub(crate) fn dot(&self) -> Dot
        ensures counted { 1 ≤ result.n }
        ensures bounded { result.n ≤ LAST }
        ensures site { (h K : ℕ) (v : List ℕ) →
            result.site ≡ (placed_in (whole h K v self.now)).operation.site }
        ensures n { (h K : ℕ) (v : List ℕ) →
            result.n ≡ (placed_in (whole h K v self.now)).operation.n }
    {
        match self {
            Change::Made(own) => own.dot,
            Change::Took(op) => op.dot(),
        }
    }

    /// Its key.
    pub(crate) fn key(&self) -> &[u8]
        ensures { (h K : ℕ) (v : List ℕ) →
            result.now ≡ (placed_in (whole h K v self.now)).operation.key }
    {
        match self {
            Change::Made(own) => own.names.key(),
            Change::Took(op) => op.key(),
        }
    }

    /// Its member.
    pub(crate) fn member(&self) -> &[u8]
        ensures { (h K : ℕ) (v : List ℕ) →
            result.now ≡ (placed_in (whole h K v self.now)).operation.member }
    {
        match self {
            Change::Made(own) => own.names.member(),
            Change::Took(op) => op.member(),
        }
    }

    /// The bytes of its key and its member.
    pub(crate) fn bytes(&self) -> u64
        ensures { result ≡ bytes_kept self.now }
    {
        (self.key().len() + self.member().len()) as u64
    }

    /// Whether a peer of this vector lacks it.
    pub(crate) fn is_new_to(&self, vector: &Vector) -> bool
        ensures { (h K : ℕ) (v : List ℕ) →
            result ≡ not (has vector.now (placed_in (whole h K v self.now)).operation.site
            (placed_in (whole h K v self.now)).operation.n) }
    {
        !vector.has(self.dot())
    }

    /// The operation, in a heap of a number of heaps whose vector was `seen` before it.
    pub(crate) fn op(
        &self,
        alloc: Global,
        heap: u8,
        heaps: u8,
        seen: &Vector,
    ) -> Result<Op, AllocError>
        requires { IsRecordable heap heaps (placed_in (whole heap heaps seen.now self.now)) }
        ensures { IfOk result (λ op. op ≡ placed_in (whole heap heaps seen.now self.now)) }
    {
        match self {
            Change::Made(own) => {
                let key = Vec::from_slice(alloc, own.names.key())?;
                let member = Vec::from_slice(alloc, own.names.member())?;
                Ok(Op::new(heap, heaps, own.dot, *seen, key, member, own.act))
            }
            Change::Took(op) => op.copy(alloc),
        }
    }
}

/// An operation that was new where it came, the stamp of the call that brought it, and what its
/// member had before it.
#[derive(Drop)]
pub(crate) struct Record {
    pub(crate) stamp: u64,
    pub(crate) what: Change,
    pub(crate) before: Option<Entry>,
}

// Each call that makes something writes one: it is to fill two lines of a cache.
const _: () = prove!(size_of::<Record>() == 128);
