//! Laws of the join of images: it is the image of the union of the sets.

ghost use Rattle.std.specs.Prelude.{List, ◌++◌, ◌≡◌, ◌≢◌, ℕ};
ghost use Rattle.zq_model.specs.Image.{empty_image, image_of, join};
ghost use Rattle.zq_model.specs.Operation.{Operation};
ghost use Rattle.zq_model.specs.Sets.{AreSame, IsClosed, IsIn, IsWorld};

/// Merging images of closed sets of one world gives the image of their union. Hence the order of
/// merges, their grouping and their repetition say nothing. The image is of the set alone:
/// operations in another order, or some of them twice, have the same one.
///
/// The join is the least upper bound of a state-based replicated type (Shapiro, Preguiça, Baquero
/// and Zawirski 2011).
pub fn merging()
    ensures union { (K : ℕ) (S T : List Operation) (heap : ℕ) → IsWorld K (S ++ T) → IsClosed S →
        IsClosed T →
        join (image_of S heap) (image_of T heap) ≡ image_of (S ++ T) heap }
    ensures commutes { (K : ℕ) (S T : List Operation) (heap : ℕ) → IsWorld K (S ++ T) → IsClosed S →
        IsClosed T →
        join (image_of S heap) (image_of T heap) ≡ join (image_of T heap) (image_of S heap) }
    ensures once { (K : ℕ) (S : List Operation) (heap : ℕ) → IsWorld K S → IsClosed S →
        join (image_of S heap) (image_of S heap) ≡ image_of S heap }
    ensures groups { (K : ℕ) (S T U : List Operation) (heap : ℕ) → IsWorld K (S ++ (T ++ U)) →
        IsClosed S → IsClosed T → IsClosed U →
        join (join (image_of S heap) (image_of T heap)) (image_of U heap)
        ≡ join (image_of S heap) (join (image_of T heap) (image_of U heap)) }
    ensures same { (K : ℕ) (S T : List Operation) (heap : ℕ) → AreSame S T → IsWorld K S →
        image_of S heap ≡ image_of T heap }
{}

/// A set without an operation in the heap has the empty image there: no dot is in its vector, and
/// no member stands in it.
pub fn nothing()
    ensures { (S : List Operation) (heap : ℕ) → ((o : Operation) → IsIn o S → o.heap ≢ heap) →
        image_of S heap ≡ empty_image }
{}
