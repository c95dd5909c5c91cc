//! Laws of one more operation: what it makes of the image, and what a site's vector tells of it.

ghost use Rattle.std.specs.Prelude.{List, true, ◌∷◌, ◌≡◌, ℕ};
ghost use Rattle.zq_model.specs.Image.{image_after, image_of};
ghost use Rattle.zq_model.specs.Operation.{Operation, has};
ghost use Rattle.zq_model.specs.Sets.{Early, HasAllSeen, IsClosed, IsIn, IsMade, IsNew, IsVector, IsWorld, Known, New, taken_of};

/// A new operation changes the image of its heap as `image_after` says.
pub fn stepping()
    ensures { (K : ℕ) (S : List Operation) (o : Operation) → IsWorld K (o ∷ S) → IsClosed S →
        IsNew S o →
        image_of (o ∷ S) o.heap ≡ image_after o (image_of S o.heap) }
{}

/// What a site makes is new to its set and leaves it a closed set of one world.
pub fn making()
    ensures image { (K : ℕ) (S : List Operation) (o : Operation) → IsWorld K S → IsClosed S →
        IsMade K S o →
        image_of (o ∷ S) o.heap ≡ image_after o (image_of S o.heap) }
    ensures world { (K : ℕ) (S : List Operation) (o : Operation) → IsWorld K S → IsClosed S →
        IsMade K S o → IsWorld K (o ∷ S) }
    ensures closed { (K : ℕ) (S : List Operation) (o : Operation) → IsWorld K S → IsClosed S →
        IsMade K S o → IsClosed (o ∷ S) }
{}

/// What a site takes is new or known by its vector: what is new is a step of the image, and what is
/// known changes no image.
pub fn taking()
    ensures fresh { (K : ℕ) (S : List Operation) (o : Operation) (v : List ℕ) → IsWorld K (o ∷ S) →
        IsClosed S → IsVector v S o.heap →
        taken_of v o ≡ New → image_of (o ∷ S) o.heap ≡ image_after o (image_of S o.heap) }
    ensures known { (K : ℕ) (S : List Operation) (o : Operation) (v : List ℕ) (heap : ℕ) →
        IsWorld K (o ∷ S) → IsClosed S → IsVector v S o.heap →
        has v o.site o.n ≡ true → image_of (o ∷ S) heap ≡ image_of S heap }
{}

/// What is `Known` is in the set. What is `Early` is not, and has seen what is not. What is `New`
/// is not, and has seen nothing that is not.
pub fn answering()
    ensures known { (K : ℕ) (S : List Operation) (o : Operation) (v : List ℕ) → IsWorld K (o ∷ S) →
        IsClosed S → IsVector v S o.heap →
        taken_of v o ≡ Known → IsIn o S }
    ensures early { (K : ℕ) (S : List Operation) (o : Operation) (v : List ℕ) → IsWorld K (o ∷ S) →
        IsClosed S → IsVector v S o.heap →
        taken_of v o ≡ Early → (IsIn o S → ⊥) × (HasAllSeen S o → ⊥) }
    ensures new { (K : ℕ) (S : List Operation) (o : Operation) (v : List ℕ) → IsWorld K (o ∷ S) →
        IsClosed S → IsVector v S o.heap →
        taken_of v o ≡ New → (IsIn o S → ⊥) × HasAllSeen S o }
{}
