//! A site that crashes, written out.

ghost use Rattle.std.specs.Prelude.{List, [], ◌∷◌};
ghost use Rattle.zq_model.specs.Examples.{HEAPS};
ghost use Rattle.zq_model.specs.Operation.{Operation};
ghost use Rattle.zq_model.specs.Rule.{Greatest};
ghost use Rattle.zq_notes.specs.Examples.{put_x};
ghost use Rattle.zq_restarts.specs.Examples.{begun_empty, made_alone, made_and_sent};
ghost use Rattle.zq_restarts.specs.Reached.{IsRestartOver};

/// A site that made an operation may begin again without it where nobody has it. It may not where
/// the operation is on the way to another site, nor, whatever is left, where another site has it.
pub fn what_nobody_has_may_be_lost()
    ensures lost { IsRestartOver Greatest HEAPS made_alone (begun_empty []) }
    ensures sent { IsRestartOver Greatest HEAPS made_alone (begun_empty (put_x ∷ [])) → ⊥ }
    ensures taken { (left : List Operation) →
        IsRestartOver Greatest HEAPS made_and_sent (begun_empty left) → ⊥ }
{}
