//! How a site begins again.

ghost use Rattle.std.specs.Prelude.{List, [], ℕ, ◌∷◌};
ghost use Rattle.zq_model.specs.Books.{TookOver};
ghost use Rattle.zq_model.specs.Image.{Image};
ghost use Rattle.zq_model.specs.Limits.{TailLimits};
ghost use Rattle.zq_model.specs.Operation.{Operation};
ghost use Rattle.zq_model.specs.Rule.{Rule as Rules};
ghost use Rattle.zq_notes.specs.Notes.{Books};
ghost use Rattle.zq_notes.specs.Thread.{left_in};
ghost use Rattle.zq_restarts.specs.Reached.{IsBegunWith};
ghost use Rattle.zq_restarts.specs.Regained.{IsReadOver, IsRegainedOver};
ghost use Rattle.zq_restarts.specs.Runs.{State};
ghost use Rattle.zq_restarts.specs.Standing.{IsStanding};
ghost use Rattle.zq_spread.specs.Makers.{empty_book};
ghost use Rattle.zq_stage.specs.Piece.{Staged};

/// A heap that takes the place of a new site's own, which is empty, is one to begin with.
pub fn beginning()
    ensures over { (limits : TailLimits) (rule : Rules) (K h stamp : ℕ) (a : Image) →
        IsBegunWith rule K h a
        (left_in stamp (h ∷ []) ((TookOver stamp a ∷ []) ∷ []) h (empty_book limits rule K h)) }
{}

/// A site whose log was read again, as [`zq_keeper::told_is_regained`] has it, begins with that,
/// where nothing of what it made is elsewhere that was not told as durable. It has again all that
/// was told of what it had.
pub fn regaining()
    ensures again { (rule : Rules) (K : ℕ) (now : State) (site : ℕ) (told : ℕ → List ℕ)
        (stages : ℕ → Staged) (books : Books) (elsewhere : List Operation) →
        IsStanding rule K now → IsReadOver rule K now site told stages books elsewhere →
        IsRegainedOver rule K now site told books elsewhere }
{}
