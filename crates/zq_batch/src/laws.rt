//! Laws of the spelling: what is written is read again.

ghost use Rattle.std.specs.Prelude.{◌≡◌, ◌++◌, ◌∷◌, All, List, Ok, Some, None, [], ℕ, ◌+◌, IfSome};
ghost use Rattle.zq_batch.specs.Batch.{AreBatch};
ghost use Rattle.zq_batch.specs.Before.{AreNext, last_of};
ghost use Rattle.zq_batch.specs.Reading.{batch_at, ops_at};
ghost use Rattle.zq_batch.specs.Spelling.{batch_bytes};
ghost use Rattle.zq_dots.specs.Placed.{IsRanged, Placed};

/// The bytes of operations, whatever follows them, are read as these.
///
/// So operations have one spelling together, and no spelling begins another: where two spellings
/// with anything after them are the same bytes, they are of the same operations, and what follows
/// is the same.
pub fn one_spelling()
    ensures again { (heaps heap : ℕ) (ops : List Placed) → All IsRanged ops →
        AreBatch heaps heap ops → batch_at (batch_bytes heaps heap ops) ≡ Ok ops }
    ensures same { (g h g2 h2 : ℕ) (a b : List Placed) (x y : List ℕ) → All IsRanged a →
        AreBatch g h a → All IsRanged b → AreBatch g2 h2 b →
        batch_bytes g h a ++ x ≡ batch_bytes g2 h2 b ++ y → (a ≡ b) × (x ≡ y) }
{}

/// In a batch the counter of an operation is the next after that of the operation of its site
/// before it.
pub fn no_gaps()
    ensures { (before ops : List Placed) (o : Placed) → All IsRanged before → IsRanged o →
        AreNext [] (before ++ o ∷ ops) →
        IfSome (last_of o.operation.site before) (λ p. o.operation.n ≡ p.operation.n + 1) }
{}
