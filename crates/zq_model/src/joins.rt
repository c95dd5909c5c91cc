//! What a join of two images keeps.

ghost use Rattle.std.specs.Prelude.{List, max, slice_index, ℕ, ◌<◌, ◌≡◌, ◌↔◌, ◌⊎◌};
ghost use Rattle.zq_model.specs.Entry.{Addition};
ghost use Rattle.zq_model.specs.Image.{Image, image_of, join};
ghost use Rattle.zq_model.specs.Joining.{HasAddition, IsJoinOf, IsJoined, IsKnown, IsSound, Stands};
ghost use Rattle.zq_model.specs.Operation.{Operation};
ghost use Rattle.zq_model.specs.Sets.{IsWorld, SITES};

/// What stands in the join of two sound images of one heap.
pub fn joining()
    ensures stands { (a b : Image) (k m : List ℕ) (s n : ℕ) → IsSound a → IsSound b →
        Stands (join a b) k m s n ↔ ((Stands a k m s n × Stands b k m s n)
        ⊎ ((Stands a k m s n × (IsKnown b.vector s n → ⊥))
        ⊎ (Stands b k m s n × (IsKnown a.vector s n → ⊥)))) }
    ensures both { (a b : Image) (k m : List ℕ) (s : ℕ) (x y z : Addition) → IsSound a → IsSound b →
        HasAddition a k m s x → HasAddition b k m s y → x.n ≡ y.n → HasAddition (join a b) k m s z →
        IsJoined a.vector b.vector x y z }
    ensures first { (a b : Image) (k m : List ℕ) (s : ℕ) (x : Addition) → IsSound a → IsSound b →
        HasAddition a k m s x → (IsKnown b.vector s x.n → ⊥) → HasAddition (join a b) k m s x }
    ensures second { (a b : Image) (k m : List ℕ) (s : ℕ) (y : Addition) → IsSound a → IsSound b →
        HasAddition b k m s y → (IsKnown a.vector s y.n → ⊥) → HasAddition (join a b) k m s y }
    ensures vector { (a b : Image) (t : ℕ) → t < SITES →
        slice_index (join a b).vector t ≡ max (slice_index a.vector t) (slice_index b.vector t) }
    ensures sound { (a b : Image) → IsSound a → IsSound b → IsSound (join a b) }
    ensures images { (K : ℕ) (S : List Operation) (heap : ℕ) → IsWorld K S →
        IsSound (image_of S heap) }
{}

/// The join of two sound images is the one image that keeps what a join of them has to keep.
pub fn join_is_determined()
    ensures is { (a b : Image) → IsSound a → IsSound b → IsJoinOf a b (join a b) }
    ensures one { (a b c : Image) → IsSound a → IsSound b → IsJoinOf a b c → c ≡ join a b }
{}
