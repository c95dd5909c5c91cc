//! The stamps of a book's tail.

ghost use Rattle.std.specs.Prelude.{Some, slice_get, ℕ, ◌≡◌, ◌≤◌};
ghost use Rattle.zq_model.specs.Books.{Book, IsBook, Record};

/// A record's stamp is no later than that of any record after it, and no later than the book's.
pub fn dating()
    ensures earlier { (b : Book) (i j : ℕ) (r s : Record) → IsBook b → i ≤ j →
        slice_get b.tail i ≡ Some r → slice_get b.tail j ≡ Some s → r.stamp ≤ s.stamp }
    ensures newest { (b : Book) (i : ℕ) (r : Record) → IsBook b → slice_get b.tail i ≡ Some r →
        r.stamp ≤ b.stamp }
{}
