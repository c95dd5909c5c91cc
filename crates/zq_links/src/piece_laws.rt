//! The law of spellings of pieces.

ghost use Rattle.std.specs.Prelude.{List, Ok, ℕ, ◌++◌, ◌≡◌};
ghost use Rattle.zq_links.specs.PieceReading.{piece_at};
ghost use Rattle.zq_links.specs.Pieces.{IsPiece, piece_bytes};
ghost use Rattle.zq_links.specs.declared.piece.Piece.{Piece};

/// A spelling is read as its piece. So each piece has one spelling, and no spelling begins another:
/// where two spellings with anything after them are the same bytes, they are of the same piece, and
/// what follows is the same.
pub fn piece_has_one_spelling()
    ensures again { (p : Piece) → IsPiece p → piece_at (piece_bytes p) ≡ Ok p }
    ensures same { (p q : Piece) (x y : List ℕ) → IsPiece p → IsPiece q →
        piece_bytes p ++ x ≡ piece_bytes q ++ y → (p ≡ q) × (x ≡ y) }
{}
