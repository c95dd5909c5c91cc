//! Laws of the spelling: what is written is read again.

ghost use Rattle.std.specs.Prelude.{◌≡◌, ◌++◌, List, Ok, length, ℕ};
ghost use Rattle.zq_delta.specs.Reading.{found_at};
ghost use Rattle.zq_delta.specs.Spelling.{op_spelling};
ghost use Rattle.zq_delta.specs.Version.{HasSpelling};
ghost use Rattle.zq_delta.specs.declared.version.Version.{Version};
ghost use Rattle.zq_delta.specs.declared.version.Version.TheVariants.{Two};
ghost use Rattle.zq_dots.specs.Placed.{IsRanged, Placed};

/// A spelling, whatever follows it, is read as its operation, with its bytes and no more; version 2
/// has one of each operation.
///
/// So each operation has one spelling in a version, and no spelling begins another: where two
/// spellings with anything after them are the same bytes, they are of the same operation, and what
/// follows is the same.
pub fn one_spelling()
    ensures again { (v : Version) (o : Placed) (rest : List ℕ) → IsRanged o → HasSpelling v o →
        found_at (op_spelling v o ++ rest) ≡ Ok (o, length (op_spelling v o)) }
    ensures newest { (o : Placed) → IsRanged o → HasSpelling Two o }
    ensures same { (v w : Version) (a b : Placed) (x y : List ℕ) → IsRanged a → HasSpelling v a →
        IsRanged b → HasSpelling w b →
        op_spelling v a ++ x ≡ op_spelling w b ++ y → (v ≡ w) × ((a ≡ b) × (x ≡ y)) }
{}
