//! A stage: its type, and how what comes goes into it.

ghost use Rattle.std.specs.Prelude.{IfOk, IfSome, IsErrOf, List, OnErr, OnOk, is_some, take, ℕ, ◌++◌, ◌↔◌, ◌∷◌, ◌≡◌, ◌≢◌, ◌⊎◌};
ghost use Rattle.zq_model.specs.Image.{image_taken};
ghost use Rattle.zq_model.specs.Operation.{Operation};
ghost use Rattle.zq_model.specs.Rows.{Row, rows_of};
ghost use Rattle.zq_model.specs.Sets as sets;
ghost use Rattle.zq_model.specs.Sets.{IsWorld, taken_of};
ghost use Rattle.zq_shard.specs.Shard.{HoldsImage, IsOfHeap, IsSameHeap};
ghost use Rattle.zq_shard.specs.Taken.{answer_of};
ghost use Rattle.zq_stage.specs.Piece.{IsNextPiece, MOST_PIECES, Staged, after_piece, holding};
ghost use Rattle.zq_stage.specs.Rows.{with_rows};
ghost use Rattle.zq_stage.specs.Staged.{AreAllBrought, IsPieceOf, IsStaged};

use crate::faults::{PieceFault, TakeFault};
use crate::laws::staging;
use crate::replacing::bring;
use std::alloc::Global;
use std::marker::Model;
use zq_dots::{Op, Vector};
use zq_shard::{Shard, Taken};

/// A heap that comes from a peer in pieces, as far as it came.
///
/// After a fault it is as it was, or has some rows of the piece more, and what is said of it still
/// holds: it can go on with what should have come. A caller that cannot have that gives it up, and
/// drops it.
#[derive(Drop)]
pub struct Stage {
    shard: Shard,
    life: u64,
    next: u32,
    whole: bool,
}

impl Model for Stage {
    ghost use Rattle.zq_stage.specs.Piece.{Staged, staged_code};

    ghost Value = { Staged };

    ghost coded = { staged_code };

    ghost use Rattle.zq_stage.specs.StageView.{staged_of};

    ghost view = { staged_of };
}

impl Stage {
    /// A stage that this piece begins, whose number is 0, of a heap of this life; `last` where no
    /// other follows. The piece may have no rows.
    pub fn new(life: u64, first: Shard, last: bool) -> Stage
        ensures stage { result ≡ record { held = first; life = life; next = 1; whole = last } }
        ensures staged { (T : List Operation) → IsPieceOf T first →
            IsStaged first.image.vector (rows_of first.image) T result.held }
    {
        // For the proof: a first piece begins a stage.
        staging();
        Stage {
            shard: first,
            life,
            next: 1,
            whole: last,
        }
    }

    /// What it has, which is no heap of a site until all came.
    pub fn held(&self) -> &Shard
        ensures { result.now ≡ self.now.held }
    {
        &self.shard
    }

    /// Which operations it has.
    pub fn vector(&self) -> &Vector
        ensures { result.now ≡ self.now.held.image.vector }
    {
        self.shard.vector()
    }

    /// The life of the heap that comes.
    pub fn life(&self) -> u64
        ensures { result ≡ self.now.life }
    {
        self.life
    }

    /// The number of the piece that it waits for.
    pub fn next(&self) -> u32
        ensures { result ≡ self.now.next }
    {
        self.next
    }

    /// Whether the last piece came.
    pub fn is_whole(&self) -> bool
        ensures { result ≡ self.now.whole }
    {
        self.whole
    }

    /// Takes an operation that is new to it; one that is known changes nothing.
    ///
    /// `WrongHeap` where the heap, the number of heaps or the member's hash is another, else `Gap`
    /// where the operation has seen what the stage has not, else `NoMemory` where a growth was
    /// refused; after each nothing has changed.
    pub fn take(&mut self, alloc: Global, op: &Op) -> Result<Taken, TakeFault>
        ensures judged { IfOk result
            (λ taken. answer_of taken ≡ taken_of self.old.held.image.vector op.now.operation) }
        ensures wrong_heap { IsErrOf result TakeFault.WrongHeap
            ↔ (IsOfHeap self.old.held op.now → ⊥) }
        ensures gap { IsErrOf result TakeFault.Gap ↔ (IsOfHeap self.old.held op.now
            × (taken_of self.old.held.image.vector op.now.operation ≡ sets.Early)) }
        ensures no_memory { IsErrOf result TakeFault.NoMemory →
            taken_of self.old.held.image.vector op.now.operation ≡ sets.New }
        ensures stage { OnOk result
            (self.new ≡ holding (image_taken op.now.operation self.old.held.image) self.old) }
        ensures staged { OnOk result ((v : List ℕ) (rows : List Row) (S : List Operation) →
            IsStaged v rows S self.old.held → IsWorld self.old.held.heaps (op.now.operation ∷ S) →
            IsStaged v rows (op.now.operation ∷ S) self.new.held) }
        ensures refused { OnErr result (self.new ≡ self.old) }
    {
        // For the proof: an operation leaves a stage.
        staging();
        match self.shard.judge(op) {
            Err(_) => return Err(TakeFault::WrongHeap),
            Ok(Taken::Known) => return Ok(Taken::Known),
            Ok(Taken::Early) => return Err(TakeFault::Gap),
            Ok(Taken::New) => {}
        }
        match self.shard.put_in(alloc, op) {
            Ok(before) => drop(before),
            Err(_) => return Err(TakeFault::NoMemory),
        }
        Ok(Taken::New)
    }

    /// Takes a piece, with the life and the number that it came with; `last` where no other
    /// follows. Each of its rows takes the place of what the member had.
    ///
    /// `WrongHeap` where the heap or the number of heaps is another, else `WrongRule` where the
    /// rule is, else `WrongLife` where the life is, else `WrongNumber` where it is not the next
    /// piece, or its number 4294967295, else `WrongVector` where its vector is not the stage's;
    /// after each nothing has changed. Else `NoMemory` where a growth was refused: the first so
    /// many of its rows are in, and it may come once more.
    pub fn piece(
        &mut self,
        alloc: Global,
        life: u64,
        number: u32,
        piece: &Shard,
        last: bool,
    ) -> Result<(), PieceFault>
        ensures wrong_heap { IsErrOf result PieceFault.WrongHeap →
            IsSameHeap self.old.held piece.now → ⊥ }
        ensures wrong_rule { IsErrOf result PieceFault.WrongRule →
            self.old.held.rule ≢ piece.now.rule }
        ensures wrong_life { IsErrOf result PieceFault.WrongLife → self.old.life ≢ life }
        ensures wrong_number { IsErrOf result PieceFault.WrongNumber → self.old.next ≡ number →
            number ≡ MOST_PIECES }
        ensures wrong_vector { IsErrOf result PieceFault.WrongVector →
            self.old.held.image.vector ≢ piece.now.image.vector }
        ensures no_memory { IsErrOf result PieceFault.NoMemory →
            IsNextPiece self.old life number piece.now }
        ensures next { OnOk result (IsNextPiece self.old life number piece.now) }
        ensures stage { OnOk result (self.new ≡ after_piece
            (with_rows (rows_of piece.now.image) self.old.held.image) last self.old) }
        ensures staged { OnOk result ((v : List ℕ) (rows : List Row) (S T : List Operation) →
            IsStaged v rows S self.old.held → IsPieceOf T piece.now →
            IsWorld self.old.held.heaps (S ++ T) →
            IsStaged v (rows_of piece.now.image ++ rows) S self.new.held) }
        ensures first { IsErrOf result PieceFault.NoMemory → (n : ℕ) × (self.new ≡ holding
            (with_rows (take n (rows_of piece.now.image)) self.old.held.image) self.old) }
        ensures stays { OnErr result ((v : List ℕ) (rows : List Row) (S T : List Operation) →
            IsStaged v rows S self.old.held → IsPieceOf T piece.now →
            IsWorld self.old.held.heaps (S ++ T) →
            (more : List Row) × IsStaged v (more ++ rows) S self.new.held) }
        ensures refused { OnErr result
            (IsErrOf result PieceFault.NoMemory ⊎ (self.new ≡ self.old)) }
    {
        // For the proof: rows of a piece leave a stage.
        staging();
        match self.judge(life, number, piece) {
            Ok(()) => {}
            Err(fault) => return Err(fault),
        }
        match bring(&mut self.shard, alloc, piece) {
            Ok(()) => {}
            Err(_) => return Err(PieceFault::NoMemory),
        }
        self.next = number + 1;
        self.whole = self.whole || last;
        Ok(())
    }

    /// What is wrong with a piece, in the order of [`Stage::piece`]: it asks for no memory.
    #[tactic(auto, unfolding(crate::specs::Piece::MOST_PIECES))]
    fn judge(&self, life: u64, number: u32, piece: &Shard) -> Result<(), PieceFault>
        ensures wrong_heap { IsErrOf result PieceFault.WrongHeap →
            IsSameHeap self.now.held piece.now → ⊥ }
        ensures wrong_rule { IsErrOf result PieceFault.WrongRule →
            self.now.held.rule ≢ piece.now.rule }
        ensures wrong_life { IsErrOf result PieceFault.WrongLife → self.now.life ≢ life }
        ensures wrong_number { IsErrOf result PieceFault.WrongNumber → self.now.next ≡ number →
            number ≡ MOST_PIECES }
        ensures wrong_vector { IsErrOf result PieceFault.WrongVector →
            self.now.held.image.vector ≢ piece.now.image.vector }
        ensures memory { IsErrOf result PieceFault.NoMemory → ⊥ }
        ensures next { OnOk result (IsNextPiece self.now life number piece.now) }
    {
        if self.shard.heap() != piece.heap() || self.shard.heaps() != piece.heaps() {
            return Err(PieceFault::WrongHeap);
        }
        if self.shard.rule() != piece.rule() {
            return Err(PieceFault::WrongRule);
        }
        if self.life != life {
            return Err(PieceFault::WrongLife);
        }
        if self.next != number {
            return Err(PieceFault::WrongNumber);
        }
        if number == u32::MAX {
            return Err(PieceFault::WrongNumber);
        }
        if self.shard.vector() != piece.vector() {
            return Err(PieceFault::WrongVector);
        }
        Ok(())
    }

    /// What it has, where the last piece came.
    pub fn finish(self) -> Option<Shard>
        ensures whole { is_some result ≡ self.whole }
        ensures held { IfSome result (λ shard. shard ≡ self.held) }
        ensures set { IfSome result
            (λ shard. (v : List ℕ) (rows : List Row) (S : List Operation) →
            IsStaged v rows S self.held → AreAllBrought v rows S self.held.heap →
            HoldsImage shard S) }
    {
        // For the proof: a stage to which all came is the image of its set.
        staging();
        if self.whole { Some(self.shard) } else { None }
    }
}
