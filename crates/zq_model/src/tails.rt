//! Laws of a tail of operations over a set: what a peer takes of it, and where that leads.

ghost use Rattle.std.specs.Prelude.{List, true, ◌++◌, ◌≡◌, ℕ};
ghost use Rattle.zq_model.specs.Image.{image_of, join};
ghost use Rattle.zq_model.specs.Operation.{Operation};
ghost use Rattle.zq_model.specs.Sets.{IsClosed, IsIn, IsWorld, covers, vector_of};
ghost use Rattle.zq_model.specs.Tail.{AreNew, IsTail, image_after_all, lacking, tail_set};

/// A closed set with a tail over it is closed, and the tail's steps from the set's image lead to
/// the image of both. Each of them is new by the image's vector where it comes, and a list of
/// operations of the heap of which this holds is a tail.
pub fn replaying()
    ensures closed { (K heap : ℕ) (S tail : List Operation) → IsWorld K (tail_set S tail) →
        IsClosed S → IsTail heap S tail → IsClosed (tail_set S tail) }
    ensures image { (K heap : ℕ) (S tail : List Operation) → IsWorld K (tail_set S tail) →
        IsClosed S → IsTail heap S tail →
        image_after_all tail (image_of S heap) ≡ image_of (tail_set S tail) heap }
    ensures new { (K heap : ℕ) (S tail : List Operation) → IsWorld K (tail_set S tail) →
        IsClosed S → IsTail heap S tail → AreNew tail (image_of S heap) }
    ensures tail { (K heap : ℕ) (S tail : List Operation) → IsWorld K (tail_set S tail) →
        IsClosed S → ((o : Operation) → IsIn o tail → o.heap ≡ heap) →
        AreNew tail (image_of S heap) → IsTail heap S tail }
{}

/// A peer whose vector covers that of the set below a tail lacks nothing but operations of the
/// tail. Those that its vector lacks, taken in the tail's order, are each new to it where they
/// come, and they leave the image of the union, which is also the join of the two images.
pub fn catching_up()
    ensures new { (K heap : ℕ) (S T tail : List Operation) → IsWorld K (tail_set S tail ++ T) →
        IsClosed S → IsClosed T → IsTail heap S tail →
        covers (vector_of T heap) (vector_of S heap) ≡ true →
        AreNew (lacking (vector_of T heap) tail) (image_of T heap) }
    ensures union { (K heap : ℕ) (S T tail : List Operation) → IsWorld K (tail_set S tail ++ T) →
        IsClosed S → IsClosed T → IsTail heap S tail →
        covers (vector_of T heap) (vector_of S heap) ≡ true →
        image_after_all (lacking (vector_of T heap) tail) (image_of T heap)
        ≡ image_of (T ++ tail_set S tail) heap }
    ensures joins { (K heap : ℕ) (S T tail : List Operation) → IsWorld K (tail_set S tail ++ T) →
        IsClosed S → IsClosed T → IsTail heap S tail →
        covers (vector_of T heap) (vector_of S heap) ≡ true →
        image_after_all (lacking (vector_of T heap) tail) (image_of T heap)
        ≡ join (image_of T heap) (image_of (tail_set S tail) heap) }
{}
