//! Laws of the spelling: what is written is read again, and merges as itself.

ghost use Rattle.std.specs.Prelude.{◌≡◌, ◌++◌, List, Ok, ℕ};
ghost use Rattle.zq_merge.specs.State.{HasSpelling, IsState, state_at, state_spelling};
ghost use Rattle.zq_merge.specs.declared.version.Version.{Version};
ghost use Rattle.zq_merge.specs.declared.version.Version.TheVariants.{Three};
ghost use Rattle.zq_model.specs.Image.{Image, join};
ghost use Rattle.zq_shard.specs.Shard.{HeapImage};

/// A spelling is read as its state; version 3 has one of each state.
///
/// So each state has one spelling in a version, and no spelling begins another: where two spellings
/// with anything after them are the same bytes, they are of the same state, and what follows is the
/// same.
pub fn one_spelling()
    ensures again { (v : Version) (s : HeapImage) → IsState s → HasSpelling v s →
        state_at (state_spelling v s) ≡ Ok s }
    ensures newest { (s : HeapImage) → HasSpelling Three s }
    ensures same { (v w : Version) (a b : HeapImage) (x y : List ℕ) → IsState a → HasSpelling v a →
        IsState b → HasSpelling w b →
        state_spelling v a ++ x ≡ state_spelling w b ++ y → (v ≡ w) × ((a ≡ b) × (x ≡ y)) }
{}

/// A state that was written and read merges as itself.
pub fn merged_again()
    ensures { (v : Version) (s t : HeapImage) (a : Image) → IsState s → HasSpelling v s →
        state_at (state_spelling v s) ≡ Ok t →
        (join a t.image ≡ join a s.image) × (join t.image a ≡ join s.image a) }
{}
