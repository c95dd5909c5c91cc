//! Laws of the parts: what is written is read again, whatever follows it.

ghost use Rattle.std.specs.Int.{w64};
ghost use Rattle.std.specs.Prelude.{List, Ok, Option, length, ℕ, ℤ, ◌++◌, ◌<◌, ◌≡◌, ◌≤◌, ◌∷◌};
ghost use Rattle.zq_dots.specs.Placed.{LONGEST};
ghost use Rattle.zq_fields.specs.Fields.{signed, text};
ghost use Rattle.zq_model.specs.Operation.{IsWithin, MOST};
ghost use Rattle.zq_model.specs.Rule.{Rule};
ghost use Rattle.zq_model.specs.Sets.{IsCounters, IsHeaps};
ghost use Rattle.zq_fields.specs.Reading.{dense_at, heap_at, rule_at, score_at, sparse_at, text_at};
ghost use Rattle.zq_fields.specs.Spelling.{dense, rule_byte, sparse};
ghost use Rattle.zq_fields.specs.Vectors.{IsDense, IsWithinLimits};
ghost use Rattle.zq_fields.specs.declared.heap_no.HeapNo.{HeapNo};

/// A heap that was written is read again.
pub fn heap_again()
    ensures { (whole : ℕ) (h : HeapNo) (rest : List ℕ) → IsHeaps h.heaps → h.heap < h.heaps →
        heap_at whole (h.heaps ∷ h.heap ∷ rest) ≡ Ok (h, rest) }
{}

/// A rule that was written is read again.
pub fn rule_again()
    ensures { (whole : ℕ) (rule : Rule) (rest : List ℕ) →
        rule_at whole (rule_byte rule ∷ rest) ≡ Ok (rule, rest) }
{}

/// A score that was written is read again.
pub fn score_again()
    ensures { (z : ℤ) (rest : List ℕ) → IsWithin MOST z →
        score_at (signed w64 z ++ rest) ≡ Ok (z, rest) }
{}

/// A key or a member that was written is read again.
pub fn text_again()
    ensures { (x rest : List ℕ) → length x ≤ LONGEST → text_at (text x ++ rest) ≡ Ok (x, rest) }
{}

/// A vector that was written is read again: each one by its entries, and those that know nothing of
/// later sites by the counters of the first.
pub fn vector_again()
    ensures dense { (whole : ℕ) (own : Option ℕ) (v rest : List ℕ) → IsCounters v → IsDense v →
        IsWithinLimits own v →
        dense_at whole own (dense v ++ rest) ≡ Ok (v, rest) }
    ensures sparse { (whole : ℕ) (own : Option ℕ) (v rest : List ℕ) → IsCounters v →
        IsWithinLimits own v →
        sparse_at whole own (sparse v ++ rest) ≡ Ok (v, rest) }
{}
