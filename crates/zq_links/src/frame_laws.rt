//! The law of spellings.
ghost use Rattle.std.specs.Prelude.{◌≡◌, ◌++◌, List, Ok, ℕ};
ghost use Rattle.zq_links.specs.Frame as model;
ghost use Rattle.zq_links.specs.Reading.{frame_at};
ghost use Rattle.zq_links.specs.Spelling.{HasSpelling, Spelled, frame_spelling, newest, value_of};

/// A spelling is read as its frame, and each frame has one in the newest versions.
///
/// So each frame has one spelling where the versions of its parts are given, and no spelling begins
/// another: where two spellings with anything after them are the same bytes, they are of the same
/// frame in the same versions, and what follows is the same.
pub fn one_spelling()
    ensures again { (s : Spelled) → model.IsFrame (value_of s) → HasSpelling s →
        frame_at (frame_spelling s) ≡ Ok (value_of s) }
    ensures newest { (f : model.Frame) → model.IsFrame f → HasSpelling (newest f) }
    ensures value { (f : model.Frame) → value_of (newest f) ≡ f }
    ensures same { (s t : Spelled) (x y : List ℕ) → model.IsFrame (value_of s) → HasSpelling s →
        model.IsFrame (value_of t) → HasSpelling t →
        frame_spelling s ++ x ≡ frame_spelling t ++ y → (s ≡ t) × (x ≡ y) }
{}
