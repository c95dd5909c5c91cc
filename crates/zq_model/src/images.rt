//! What the image of a set holds.

ghost use Rattle.std.specs.Prelude.{List, slice_index, ℕ, ◌*◌, ◌<◌, ◌≡◌};
ghost use Rattle.zq_model.specs.Entry.{Addition, sum_at};
ghost use Rattle.zq_model.specs.Image.{Image, image_of};
ghost use Rattle.zq_model.specs.Joining.{HasAddition, IsImageOf};
ghost use Rattle.zq_model.specs.Operation.{IsWithin, MOST, Operation};
ghost use Rattle.zq_model.specs.Sets.{IsWorld, SITES};

/// The image of a set in a heap has the set's vector there, and its live Puts with their scores
/// and, for each site, the sum of its Bumps that have seen the Put, each counted once. No other
/// image has.
pub fn imaging()
    ensures is { (K : ℕ) (S : List Operation) (heap : ℕ) → IsWorld K S →
        IsImageOf S heap (image_of S heap) }
    ensures one { (S : List Operation) (heap : ℕ) (a b : Image) → IsImageOf S heap a →
        IsImageOf S heap b → a ≡ b }
{}

/// The amount of a site's sum is at most the greatest increment times the site's counter.
pub fn bounding()
    ensures { (K : ℕ) (S : List Operation) (heap : ℕ) (k m : List ℕ) (s t : ℕ) (x : Addition) →
        IsWorld K S →
        HasAddition (image_of S heap) k m s x → t < SITES →
        IsWithin (MOST * slice_index (image_of S heap).vector t) (sum_at x t) }
{}
