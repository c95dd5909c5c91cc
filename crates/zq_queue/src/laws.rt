//! What the list of a key's queue is.

ghost use Rattle.std.specs.Prelude.{List, Some, [], ℕ, ℤ, ◌∷◌, ◌≡◌, ◌↔◌};
ghost use Rattle.std.specs.FinMap.{get};
ghost use Rattle.zq_model.specs.Image.{Members};
ghost use Rattle.zq_model.specs.Meaning.{IsRising, Scored};
ghost use Rattle.zq_model.specs.Queue.{queue_of};
ghost use Rattle.zq_model.specs.Rule.{Rule};
ghost use Rattle.zq_model.specs.Score.{score_of};
ghost use Rattle.zq_model.specs.Sets.{IsIn};
ghost use Rattle.zq_queue.specs.Entries.{Entries, entry_in};
ghost use Rattle.zq_queue.specs.Listed.{listed};

/// The list has each member that has a score, with it, in order. It is the key's queue in the
/// model, for members of which these are the entries of the key.
pub fn listing()
    ensures rising { (rule : Rule) (entries : Entries) → IsRising (listed rule entries) }
    ensures members { (rule : Rule) (entries : Entries) (x : ℤ) (member : List ℕ) →
        IsIn (x, member) (listed rule entries)
        ↔ (score_of rule (entry_in entries member) ≡ Some x) }
    ensures queue { (rule : Rule) (key : List ℕ) (members : Members) (entries : Entries) →
        ((member : List ℕ) → get members (key, member) ≡ get entries member) →
        queue_of rule key (members ∷ []) ≡ listed rule entries }
{}
