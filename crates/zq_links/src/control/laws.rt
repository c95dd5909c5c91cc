//! The law of spellings of control frames.

ghost use Rattle.std.specs.Prelude.{List, Ok, ℕ, ◌++◌, ◌≡◌};
ghost use Rattle.zq_links.specs.Control as model;
ghost use Rattle.zq_links.specs.ControlReading.{control_at};
ghost use Rattle.zq_links.specs.ControlSpelling.{control_spelling};

/// A spelling is read as its control frame. So each control frame has one spelling, and no spelling
/// begins another: where two spellings with anything after them are the same bytes, they are of the
/// same control frame, and what follows is the same.
pub fn control_has_one_spelling()
    ensures again { (c : model.Control) → model.IsControl c →
        control_at (control_spelling c) ≡ Ok c }
    ensures same { (c d : model.Control) (x y : List ℕ) → model.IsControl c → model.IsControl d →
        control_spelling c ++ x ≡ control_spelling d ++ y → (c ≡ d) × (x ≡ y) }
{}
