//! A heap that comes from a peer in pieces, as far as it came.

ghost use Rattle.std.specs.Prelude.{IfSome, OnOk, Some, [], ◌∷◌, ◌≡◌};
ghost use Rattle.zq_replica.specs.Gathered.{AreFed, is_part_of, resume_from};
ghost use Rattle.zq_stage.specs.Piece.{IsNextPiece};
ghost use Rattle.zq_transfer.specs.Transfer.{after_part, begun_by};

use std::alloc::Global;
use zq_dots::{Op, SiteNo};
use zq_links::{Piece, Resume};
use zq_stage::{PieceFault, TakeFault};
use zq_transfer::Receiving;

/// For how many beats the part of a heap is kept that came before the stream broke off.
const KEPT_BEATS: u8 = 60;

/// A heap that comes from a peer in pieces, as far as it came.
#[derive(Drop)]
pub(crate) struct Gathering {
    /// The peer.
    pub(crate) from: SiteNo,
    /// What came.
    pub(crate) receiving: Receiving,
    /// For how many beats it is kept where nothing is fetched.
    pub(crate) left: u8,
}

/// Why a stream is given up.
#[derive(Clone, Copy, Debug, PartialEq, Eq)]
pub(crate) enum Stray {
    /// What came is not what follows.
    Unfit,
    /// There was no memory for it.
    NoMemory,
}

impl Gathering {
    /// What the first piece of a stream of this peer begins, whose number is 0. `None` for another.
    pub(crate) fn new(from: SiteNo, piece: Piece) -> Option<Gathering>
        ensures from { IfSome result (λ g. g.from ≡ from) }
        ensures begun { IfSome result
            (λ g. (piece.number ≡ 0) × (g.receiving ≡ begun_by piece)) }
    {
        match Receiving::new(piece) {
            Ok(receiving) => Some(Gathering {
                from,
                receiving,
                left: KEPT_BEATS,
            }),
            Err(_) => None,
        }
    }

    /// Whether it is this heap of this peer.
    pub(crate) fn is_of(&self, peer: SiteNo, heap: u8) -> bool
        ensures { result ≡ is_part_of peer heap (Some self.now) }
    {
        let held = self.receiving.stage().held().heap();
        self.from == peer && held == heap
    }

    /// Where the stream broke off, if it is this heap of this peer.
    pub(crate) fn resume_of(&self, peer: SiteNo, heap: u8) -> Option<Resume>
        ensures { result ≡ resume_from peer heap (Some self.now) }
    {
        if self.is_of(peer, heap) {
            Some(self.receiving.resume())
        } else {
            None
        }
    }

    /// Takes the piece that it waits for. It is to be dropped after an error: `Unfit` where the piece
    /// is another one, `NoMemory` where a growth was refused.
    pub(crate) fn add(&mut self, alloc: Global, piece: &Piece) -> Result<(), Stray>
        ensures from { self.new.from ≡ self.old.from }
        ensures next { OnOk result (IsNextPiece self.old.receiving.staged piece.now.life
            piece.now.number piece.now.part) }
        ensures added { OnOk result (self.new.receiving ≡ after_part piece.now self.old.receiving) }
    {
        match self.receiving.piece(alloc, piece) {
            Ok(()) => {
                self.left = KEPT_BEATS;
                Ok(())
            }
            Err(PieceFault::NoMemory) => Err(Stray::NoMemory),
            Err(_) => Err(Stray::Unfit),
        }
    }

    /// Takes operations, one after the other. It is to be dropped after an error, which comes at the
    /// first one that it cannot take, as [`Gathering::take`] says.
    pub(crate) fn take_all(&mut self, alloc: Global, ops: &[Op]) -> Result<(), Stray>
        ensures from { self.new.from ≡ self.old.from }
        ensures fed { OnOk result (AreFed ops.now self.old.receiving self.new.receiving) }
    {
        for op in ops {
            self.take(alloc, op)?;
        }
        Ok(())
    }

    /// Takes an operation. `Unfit` where it is of another heap or has seen what did not come,
    /// `NoMemory` where a growth was refused; after each nothing has changed.
    fn take(&mut self, alloc: Global, op: &Op) -> Result<(), Stray>
        ensures from { self.new.from ≡ self.old.from }
        ensures fed { OnOk result (AreFed (op.now ∷ []) self.old.receiving self.new.receiving) }
    {
        match self.receiving.take(alloc, op) {
            Ok(_) => Ok(()),
            Err(TakeFault::NoMemory) => Err(Stray::NoMemory),
            Err(_) => Err(Stray::Unfit),
        }
    }
}
