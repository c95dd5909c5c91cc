//! Notes of one site, written out.

ghost use Rattle.std.specs.Prelude.{[], ◌∷◌};
ghost use Rattle.zq_model.specs.Examples.{HEAPS};
ghost use Rattle.zq_model.specs.Limits.{standard};
ghost use Rattle.zq_model.specs.Rule.{Greatest, Least};
ghost use Rattle.zq_notes.specs.Examples.{added, four, knew, merged, put, scored, showed, three, took, took_among};
ghost use Rattle.zq_notes.specs.Sites.{empty_books};
ghost use Rattle.zq_notes.specs.Thread.{IsOneThread};

use zq_model::naming;

/// A site takes an operation, shows that it has it, and knows it when it comes again. It does not
/// take it twice, and does not show it before it was taken.
pub fn a_repeat_changes_nothing()
    ensures thread { IsOneThread Greatest HEAPS 1 (empty_books standard Greatest HEAPS)
        (took 1 ∷ showed 2 ∷ knew 3 ∷ []) }
    ensures twice { IsOneThread Greatest HEAPS 1 (empty_books standard Greatest HEAPS)
        (took 1 ∷ took 2 ∷ []) → ⊥ }
    ensures early { IsOneThread Greatest HEAPS 1 (empty_books standard Greatest HEAPS)
        (showed 1 ∷ took 2 ∷ []) → ⊥ }
{}

/// A site merges a heap of its rule, and none of the other rule. It takes no operation that was
/// made among another number of heaps.
pub fn what_is_not_of_one_kind_is_refused()
    ensures merges { IsOneThread Greatest HEAPS 1 (empty_books standard Greatest HEAPS)
        (merged Greatest 1 ∷ []) }
    ensures ruled { IsOneThread Greatest HEAPS 1 (empty_books standard Greatest HEAPS)
        (merged Least 1 ∷ []) → ⊥ }
    ensures among { IsOneThread Greatest HEAPS 1 (empty_books standard Greatest HEAPS)
        (took_among 3 1 ∷ []) → ⊥ }
{}

/// A site puts a member, and reads its score. It answers no other score, and does not say that it
/// put the member where it made no step.
pub fn what_was_put_is_read()
    ensures thread { IsOneThread Greatest HEAPS 1 (empty_books standard Greatest HEAPS)
        (added 1 (put 1 ∷ []) ∷ scored 2 three ∷ []) }
    ensures other { IsOneThread Greatest HEAPS 1 (empty_books standard Greatest HEAPS)
        (added 1 (put 1 ∷ []) ∷ scored 2 four ∷ []) → ⊥ }
    ensures idle { IsOneThread Greatest HEAPS 1 (empty_books standard Greatest HEAPS)
        (added 1 [] ∷ []) → ⊥ }
{
    // A member's score over books is the one that their set means.
    naming();
}
