//! Bounds of an image.

ghost use Rattle.std.specs.Prelude.{List, ℕ, ◌≡◌};
ghost use Rattle.zq_model.specs.Bounded.{HasShortNames, IsBounded, IsBoundedRow};
ghost use Rattle.zq_model.specs.Image.{Image, empty_image, image_after, image_of, join};
ghost use Rattle.zq_model.specs.Joining.{IsSound};
ghost use Rattle.zq_model.specs.Operation.{Operation};
ghost use Rattle.zq_model.specs.Rows.{AreRows, Row, image_of_rows, rows_of};
ghost use Rattle.zq_model.specs.Sets.{IsCounters, IsIn, IsOperation, IsWorld, New, taken_of};

/// The image of nothing has the bounds, and so has the image of a set of a world whose keys and
/// members are short enough. New operations and joins keep them. An image that has them is sound.
pub fn keeping_bounds()
    ensures nothing { (K heap : ℕ) → IsBounded K heap empty_image }
    ensures of_set { (K : ℕ) (S : List Operation) (heap : ℕ) → IsWorld K S →
        ((o : Operation) → IsIn o S → HasShortNames o) → IsBounded K heap (image_of S heap) }
    ensures step { (K : ℕ) (o : Operation) (a : Image) → IsBounded K o.heap a → IsOperation K o →
        HasShortNames o → taken_of a.vector o ≡ New →
        IsBounded K o.heap (image_after o a) }
    ensures joins { (K heap : ℕ) (a b : Image) → IsBounded K heap a → IsBounded K heap b →
        IsBounded K heap (join a b) }
    ensures sound { (K heap : ℕ) (a : Image) → IsBounded K heap a → IsSound a }
{}

/// The rows of an image that has the bounds have them too, and so has the image of a vector in
/// range and such rows.
pub fn keeping_rows()
    ensures rows { (K heap : ℕ) (a : Image) (row : Row) → IsBounded K heap a →
        IsIn row (rows_of a) → IsBoundedRow K heap a.vector row }
    ensures image { (K heap : ℕ) (vector : List ℕ) (rows : List Row) → IsCounters vector →
        AreRows rows →
        ((row : Row) → IsIn row rows → IsBoundedRow K heap vector row) →
        IsBounded K heap (image_of_rows vector rows) }
{}
