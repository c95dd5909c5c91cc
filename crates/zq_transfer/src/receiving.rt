//! The receiver's end of a stream of pieces.

ghost use Rattle.std.specs.Prelude.{IfErr, IfOk, IfSome, IsErrOf, List, OnErr, OnOk, false, is_some, true, ◌+◌, ◌↔◌, ◌∷◌, ◌≡◌, ◌≢◌};
ghost use Rattle.zq_model.specs.Image.{image_taken};
ghost use Rattle.zq_model.specs.Sets as sets;
ghost use Rattle.zq_model.specs.Sets.{taken_of};
ghost use Rattle.zq_shard.specs.Shard.{IsOfHeap};
ghost use Rattle.zq_stage.specs.Piece.{IsNextPiece, holding};
ghost use Rattle.zq_transfer.specs.Transfer.{Received, after_part, begun_by, is_last, resume_of};

use std::alloc::Global;
use std::marker::Model;
use zq_dots::Op;
use zq_links::{Piece, Resume, Spot};
use zq_shard::{Shard, Taken};
use zq_stage::{PieceFault, Stage, TakeFault};

/// A heap that comes from another site in pieces, as far as it came.
#[derive(Drop)]
pub struct Receiving {
    stage: Stage,
    spot: Spot,
}

impl Model for Receiving {
    ghost use Rattle.zq_transfer.specs.Received.{IsReceiving, received_code, received_of};
    ghost use Rattle.zq_transfer.specs.Transfer.{Received};

    ghost Value = { Received };

    ghost coded = { received_code };

    ghost view = { received_of };

    ghost invariant = { IsReceiving };
}

impl Receiving {
    /// What the first piece of a stream begins, whose number is 0; any other is given back.
    pub fn new(piece: Piece) -> Result<Receiving, Piece>
        ensures begun { IfOk result (λ receiving. receiving ≡ begun_by piece) }
        ensures first { OnOk result (piece.number ≡ 0) }
        ensures other { IfErr result (λ back. (back ≡ piece) × (piece.number ≢ 0)) }
    {
        if piece.number != 0 {
            return Err(piece);
        }
        let last = is_end(&piece.next);
        Ok(Receiving {
            stage: Stage::new(piece.life, piece.part, last),
            spot: piece.next,
        })
    }

    /// The stage.
    pub fn stage(&self) -> &Stage
        ensures { result.now ≡ self.now.staged }
    {
        &self.stage
    }

    /// Takes an operation, as [`Stage::take`] does.
    pub fn take(&mut self, alloc: Global, op: &Op) -> Result<Taken, TakeFault>
        ensures gap { IsErrOf result TakeFault.Gap ↔ (IsOfHeap self.old.staged.held op.now
            × (taken_of self.old.staged.held.image.vector op.now.operation ≡ sets.Early)) }
        ensures wrong_heap { IsErrOf result TakeFault.WrongHeap
            ↔ (IsOfHeap self.old.staged.held op.now → ⊥) }
        ensures staged { OnOk result (self.new.staged ≡ holding
            (image_taken op.now.operation self.old.staged.held.image) self.old.staged) }
        ensures spot { self.new.spot ≡ self.old.spot }
        ensures refused { OnErr result (self.new ≡ self.old) }
    {
        self.stage.take(alloc, op)
    }

    /// Takes the next piece, as [`Stage::piece`] does.
    pub fn piece(&mut self, alloc: Global, piece: &Piece) -> Result<(), PieceFault>
        ensures next { OnOk result
            (IsNextPiece self.old.staged piece.now.life piece.now.number piece.now.part) }
        ensures taken { OnOk result (self.new ≡ after_part piece.now self.old) }
        ensures fits { IfErr result (λ fault. fault ≢ PieceFault.NoMemory →
            IsNextPiece self.old.staged piece.now.life piece.now.number piece.now.part → ⊥) }
    {
        let last = is_end(&piece.next);
        self.stage
            .piece(alloc, piece.life, piece.number, &piece.part, last)?;
        self.spot = piece.next;
        Ok(())
    }

    /// Where it stands: from there the stream can go on.
    pub fn resume(&self) -> Resume
        ensures { result ≡ resume_of self.now }
    {
        Resume {
            life: self.stage.life(),
            number: self.stage.next() - 1,
            next: self.spot,
            vector: *self.stage.vector(),
        }
    }

    /// The heap, where the last piece came.
    pub fn finish(self) -> Option<Shard>
        ensures whole { is_some result ≡ self.staged.whole }
        ensures held { IfSome result (λ shard. shard ≡ self.staged.held) }
    {
        self.stage.finish()
    }
}

/// Whether no member is left at the spot.
fn is_end(spot: &Spot) -> bool
    ensures { result ≡ is_last spot.now }
{
    spot.key == 0 && spot.member == 0
}
