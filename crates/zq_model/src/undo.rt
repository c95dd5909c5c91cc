//! Laws of undoing a tail.

ghost use Rattle.std.specs.FinMap.{get};
ghost use Rattle.std.specs.Prelude.{List, [], drop, map, take, ℕ, ◌++◌, ◌∷◌, ◌≡◌};
ghost use Rattle.zq_model.specs.Books.{replayed};
ghost use Rattle.zq_model.specs.Undoing.{AreKept, Leaf, after_leaves, operation_on, undone};
ghost use Rattle.zq_model.specs.Image.{Image, image_after, place_of, unless_bare};

/// Undoing records gives back the members before them, so one record more leaves what undoing gives
/// as it was, and the records that a cut leaves give the members after those that it drops. What a
/// tail keeps stays kept under one record more and under a cut.
pub fn undoing()
    ensures back { (leaves : List Leaf) (a : Image) → AreKept leaves a →
        undone leaves (after_leaves leaves a).members ≡ a.members }
    ensures records { (leaves : List Leaf) (leaf : Leaf) (a : Image) →
        get a.members (place_of (operation_on leaf)) ≡ unless_bare leaf.before →
        undone (leaves ++ leaf ∷ []) (image_after (operation_on leaf) a).members
        ≡ undone leaves a.members }
    ensures rest { (n : ℕ) (leaves : List Leaf) (a : Image) → AreKept leaves a →
        undone (drop n leaves) (after_leaves leaves a).members
        ≡ (after_leaves (take n leaves) a).members }
    ensures longer { (leaves : List Leaf) (leaf : Leaf) (a : Image) → AreKept leaves a →
        get (after_leaves leaves a).members (place_of (operation_on leaf))
        ≡ unless_bare leaf.before → AreKept (leaves ++ leaf ∷ []) a }
    ensures cut { (n : ℕ) (leaves : List Leaf) (a : Image) → AreKept leaves a →
        AreKept (drop n leaves) (after_leaves (take n leaves) a) }
    ensures parts { (n : ℕ) (leaves : List Leaf) (a : Image) →
        after_leaves (drop n leaves) (after_leaves (take n leaves) a) ≡ after_leaves leaves a }
    ensures more { (leaves : List Leaf) (leaf : Leaf) (a : Image) →
        after_leaves (leaves ++ leaf ∷ []) a
        ≡ image_after (operation_on leaf) (after_leaves leaves a) }
    ensures replay { (leaves : List Leaf) (a : Image) →
        after_leaves leaves a ≡ replayed (map (λ leaf. leaf.written) leaves) a }
{}
