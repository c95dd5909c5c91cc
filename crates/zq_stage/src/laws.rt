//! What a stage has, over the sets of operations behind it.

ghost use Rattle.std.specs.Prelude.{List, true, ℕ, ◌++◌, ◌∷◌, ◌≡◌};
ghost use Rattle.zq_model.specs.Image.{image_after};
ghost use Rattle.zq_model.specs.Operation.{Operation, has};
ghost use Rattle.zq_model.specs.Rows.{Row, rows_of};
ghost use Rattle.zq_model.specs.Sets.{IsIn, IsWorld, New, taken_of};
ghost use Rattle.zq_shard.specs.Shard.{HeapImage, HoldsImage, IsSameHeap};
ghost use Rattle.zq_shard.specs.declared.spot.Spot.{Spot};
ghost use Rattle.zq_stage.specs.Portion.{IsPortion};
ghost use Rattle.zq_stage.specs.Rows.{with_image, with_rows};
ghost use Rattle.zq_stage.specs.Staged.{AreAllBrought, IsPieceOf, IsStaged};
ghost use Rattle.zq_stage.specs.Stream.{AllFit, Heard, after_all, rows_after, set_after};
ghost use Rattle.zq_stage.specs.declared.portion.PortionLimits.{PortionLimits};

/// The first piece begins a stage. A new operation, and one that is known, leave one, and so do
/// rows of a piece whose vector is the stage's. Once each member that had an addition when the
/// stage was begun was in a row, it is the image of the set.
pub fn staging()
    ensures begins { (T : List Operation) (s : HeapImage) → IsPieceOf T s →
        IsStaged s.image.vector (rows_of s.image) T s }
    ensures takes { (v : List ℕ) (rows : List Row) (S : List Operation) (o : Operation)
        (s : HeapImage) → IsStaged v rows S s → IsWorld s.heaps (o ∷ S) → o.heap ≡ s.heap →
        taken_of s.image.vector o ≡ New →
        IsStaged v rows (o ∷ S) (with_image s (image_after o s.image)) }
    ensures knows { (v : List ℕ) (rows : List Row) (S : List Operation) (o : Operation)
        (s : HeapImage) → IsStaged v rows S s → IsWorld s.heaps (o ∷ S) → o.heap ≡ s.heap →
        has s.image.vector o.site o.n ≡ true → IsStaged v rows (o ∷ S) s }
    ensures replaces { (v : List ℕ) (rows more : List Row) (S T : List Operation)
        (s piece : HeapImage) → IsStaged v rows S s → IsPieceOf T piece → IsSameHeap s piece →
        IsWorld s.heaps (S ++ T) → s.image.vector ≡ piece.image.vector →
        ((row : Row) → IsIn row more → IsIn row (rows_of piece.image)) →
        IsStaged v (more ++ rows) S (with_image s (with_rows more s.image)) }
    ensures ends { (v : List ℕ) (rows : List Row) (S : List Operation) (s : HeapImage) →
        IsStaged v rows S s → AreAllBrought v rows S s.heap → HoldsImage s S }
{}

/// Whatever a stage hears that fits, one after the other: at each moment it has of each member what
/// it is to have.
pub fn streaming()
    ensures { (W T : List Operation) (first : HeapImage) (heard : List Heard) →
        IsWorld first.heaps W → ((o : Operation) → IsIn o T → IsIn o W) → IsPieceOf T first →
        AllFit W first heard →
        IsStaged first.image.vector (rows_after heard (rows_of first.image)) (set_after heard T)
        (after_all heard first) }
{}

/// A portion of a heap is a piece of the set of which the heap is the image.
pub fn portioning()
    ensures { (T : List Operation) (s part : HeapImage) (spot next : Spot)
        (limits : PortionLimits) → IsPortion s spot limits part next → HoldsImage s T →
        IsPieceOf T part }
{}
