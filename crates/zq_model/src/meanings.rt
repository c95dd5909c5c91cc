//! What the queues over the books of a site's heaps mean.

ghost use Rattle.std.specs.Prelude.{List, Some, map, ℕ, ℤ, ◌↔◌, ◌≡◌};
ghost use Rattle.zq_model.specs.Books.{Book};
ghost use Rattle.zq_model.specs.Heaps.{heap_of};
ghost use Rattle.zq_model.specs.Meaning.{IsQueue, IsScore};
ghost use Rattle.zq_model.specs.Operation.{Operation};
ghost use Rattle.zq_model.specs.Rule.{Rule};
ghost use Rattle.zq_model.specs.Sets.{IsIn, IsWorld};
ghost use Rattle.zq_model.specs.Lent.{AreImagesOf, queues_of};
ghost use Rattle.zq_model.specs.Moves.{score_in};

/// Over books whose states are the images of one set, a key's queue is the one that the set means
/// in their heaps, and a member of one of these heaps has the score that the set means.
pub fn naming()
    ensures queue { (rule : Rule) (K : ℕ) (S : List Operation) (books : List Book) → IsWorld K S →
        AreImagesOf S books → (key : List ℕ) →
        IsQueue rule K S key (map (λ book. book.heap) books) (queues_of rule books key) }
    ensures score { (rule : Rule) (K : ℕ) (S : List Operation) (books : List Book) → IsWorld K S →
        AreImagesOf S books → (key member : List ℕ) (score : ℤ) →
        IsIn (heap_of key member K) (map (λ book. book.heap) books) →
        (score_in (queues_of rule books key) member ≡ Some score)
        ↔ IsScore rule S key member score }
{}
