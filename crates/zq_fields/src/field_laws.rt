//! Laws of the fields: what is written is read again, whatever follows it.

ghost use Rattle.std.specs.Int.{to_be_bytes, w32, w64};
ghost use Rattle.std.specs.Prelude.{FitsSigned, List, Some, length, ℕ, ℤ, ◌++◌, ◌<◌, ◌^◌, ◌∷◌, ◌≡◌};
ghost use Rattle.zq_fields.specs.Fields.{byte_field, bytes_field, number_field, signed, signed_field};

/// A byte that was written is read again.
pub fn byte_again()
    ensures { (b : ℕ) (rest : List ℕ) → byte_field (b ∷ rest) ≡ Some (b, rest) }
{}

/// Bytes that were written are read again.
pub fn bytes_again()
    ensures { (bytes rest : List ℕ) → bytes_field (length bytes) (bytes ++ rest)
        ≡ Some (bytes, rest) }
{}

/// A number that was written is read again.
pub fn number_again()
    ensures four { (n : ℕ) (rest : List ℕ) → n < 2 ^ 32 →
        number_field w32 (to_be_bytes w32 n ++ rest) ≡ Some (n, rest) }
    ensures eight { (n : ℕ) (rest : List ℕ) → n < 2 ^ 64 →
        number_field w64 (to_be_bytes w64 n ++ rest) ≡ Some (n, rest) }
{}

/// A number in two's complement that was written is read again.
pub fn signed_again()
    ensures { (z : ℤ) (rest : List ℕ) → FitsSigned w64 z →
        signed_field w64 (signed w64 z ++ rest) ≡ Some (z, rest) }
{}
