//! Laws of a book's records.

ghost use Rattle.std.specs.Prelude.{List, true, ℕ, ◌++◌, ◌≡◌, ◌≤◌};
ghost use Rattle.zq_model.specs.Books.{Book, Change, IsBook, advanced, is_change_over, merged, operations_of, recorded, taken_over, touched};
ghost use Rattle.zq_model.specs.Image.{Image, image_of, join};
ghost use Rattle.zq_model.specs.Operation.{Operation};
ghost use Rattle.zq_model.specs.Sets.{IsClosed, IsWorld, covers, vector_of};
ghost use Rattle.zq_model.specs.Tail.{AreNew, image_after_all, lacking, tail_set};

/// What each call of a book keeps.
pub fn keeping()
    ensures touch { (b : Book) (stamp : ℕ) → b.stamp ≤ stamp → IsBook b → IsBook (touched b stamp) }
    ensures recording { (b : Book) (stamp : ℕ) (c : Change) → b.stamp ≤ stamp →
        is_change_over b.heaps b.heap b.state.vector c ≡ true → IsBook b →
        IsBook (recorded b stamp c) }
    ensures merge { (b : Book) (stamp : ℕ) (other : Image) → IsBook (merged b stamp other) }
    ensures take_over { (b : Book) (stamp : ℕ) (other : Image) → IsBook (taken_over b stamp other) }
    ensures advance { (n : ℕ) (b : Book) → IsBook b → IsBook (advanced n b) }
{}

/// Where a book's base is the image of a closed set of a world, its state is the image of that set
/// with the operations of its tail. A peer of the same world whose vector covers the base's lacks
/// nothing but operations of the tail: those that it lacks, taken in the tail's order, are each new
/// to it where they come, and they give what merging the whole state gives.
pub fn telling()
    ensures state { (K : ℕ) (b : Book) (S : List Operation) → IsBook b →
        IsWorld K (tail_set S (operations_of b.tail)) → IsClosed S → b.base ≡ image_of S b.heap →
        b.state ≡ image_of (tail_set S (operations_of b.tail)) b.heap }
    ensures new { (K : ℕ) (b : Book) (S T : List Operation) → IsBook b →
        IsWorld K (tail_set S (operations_of b.tail) ++ T) → IsClosed S → IsClosed T →
        b.base ≡ image_of S b.heap → covers (vector_of T b.heap) b.base.vector ≡ true →
        AreNew (lacking (vector_of T b.heap) (operations_of b.tail)) (image_of T b.heap) }
    ensures merges { (K : ℕ) (b : Book) (S T : List Operation) → IsBook b →
        IsWorld K (tail_set S (operations_of b.tail) ++ T) → IsClosed S → IsClosed T →
        b.base ≡ image_of S b.heap → covers (vector_of T b.heap) b.base.vector ≡ true →
        image_after_all (lacking (vector_of T b.heap) (operations_of b.tail)) (image_of T b.heap)
        ≡ join (image_of T b.heap) b.state }
{}

/// Where the vector of another image covers that of a book's state, and both are images of closed
/// sets of one world, the other one has all that the state has: it is the image of the union, and
/// the book that takes it over is the one that would merge it.
pub fn taking_over()
    ensures union { (K : ℕ) (b : Book) (S T : List Operation) → IsWorld K (S ++ T) → IsClosed S →
        IsClosed T → b.state ≡ image_of S b.heap →
        covers (image_of T b.heap).vector b.state.vector ≡ true →
        image_of T b.heap ≡ image_of (S ++ T) b.heap }
    ensures merges { (K : ℕ) (b : Book) (stamp : ℕ) (S T : List Operation) → IsWorld K (S ++ T) →
        IsClosed S → IsClosed T → b.state ≡ image_of S b.heap →
        covers (image_of T b.heap).vector b.state.vector ≡ true →
        taken_over b stamp (image_of T b.heap) ≡ merged b stamp (image_of T b.heap) }
{}
