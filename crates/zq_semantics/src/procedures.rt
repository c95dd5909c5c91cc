//! What procedures come to: what they drop, and what is read off a set.

ghost use Rattle.std.specs.Prelude.{List, [], length, true, ℕ, ◌<◌, ◌↔◌, ◌∷◌, ◌≡◌, ◌⊎◌};
ghost use Rattle.zq_model.specs.Books.{Book};
ghost use Rattle.zq_model.specs.Lent.{AreLent, queues_of};
ghost use Rattle.zq_model.specs.Meaning.{IsWholeQueue};
ghost use Rattle.zq_model.specs.Moves.{Queues};
ghost use Rattle.zq_model.specs.Operation.{Operation};
ghost use Rattle.zq_model.specs.Rule.{Rule};
ghost use Rattle.zq_model.specs.Sets.{AreSame, IsWorld};
ghost use Rattle.zq_semantics.specs.Plan.{drops};
ghost use Rattle.zq_semantics.specs.Procedures.{AreReading, IsReading, Procedure, RunsAll, RunsProcedure, answered_by, answered_over, keys_there, last_pairs, pop_last, procedure_of, remove_range, scores_of, type_of};
ghost use Rattle.zq_semantics.specs.Ranges.{ranged};
ghost use Rattle.zq_semantics.specs.Reading.{is_reading};
ghost use Rattle.zq_semantics.specs.Replies.{bytes_of, count_reply};
ghost use Rattle.zq_semantics.specs.Run.{IsRun, Memory};
ghost use Rattle.zq_words.specs.Command.{Command};
ghost use Rattle.zq_words.specs.Words.{Word};
ghost use Rattle.zq_words.specs.declared.range.Range.{Range};

/// A command runs as its procedure does, and one procedure alone as a list of it.
pub fn calling()
    ensures command { (rule : Rule) (site stamp : ℕ) (command : Command) (old new : List Book)
        (reply : Word) → IsRun rule site stamp command old new reply
        ↔ RunsProcedure rule site stamp (procedure_of command) old new reply }
    ensures alone { (rule : Rule) (site stamp : ℕ) (p : Procedure) (old new : List Book)
        (reply : Word) → RunsProcedure rule site stamp p old new reply →
        RunsAll rule site stamp (p ∷ []) old new (reply ∷ []) }
{}

/// Removing a range makes one Drop for each of its pairs, in order, and counts them. A pop of the
/// last pairs makes one for each of these, the last one first.
pub fn removing()
    ensures range { (rule : Rule) (K : ℕ) (books : List Book) (key : Word) (range : Range) →
        AreLent K books → ((remove_range key range).plan (queues_of rule books)).moves
        ≡ drops key (ranged range (queues_of rule books key)) }
    ensures counted { (rule : Rule) (K : ℕ) (books : List Book) (key : Word) (range : Range) →
        AreLent K books → ((remove_range key range).plan (queues_of rule books)).reply
        ≡ count_reply (length (ranged range (queues_of rule books key))) }
    ensures last { (rule : Rule) (K : ℕ) (books : List Book) (key : Word) (n : ℕ) →
        AreLent K books → ((pop_last key n).plan (queues_of rule books)).moves
        ≡ drops key (last_pairs n (queues_of rule books key)) }
{}

/// A procedure that only reads leaves the books, and is answered what it is over their queues, or
/// that there was no memory. So do several of them, one after the other.
pub fn reading_each()
    ensures scores { (key : Word) (members : List Word) → IsReading (scores_of key members) }
    ensures keys { (keys : List Word) → IsReading (keys_there keys) }
    ensures kind { (key : Word) → IsReading (type_of key) }
    ensures command { (command : Command) → is_reading command ≡ true →
        IsReading (procedure_of command) }
    ensures answer { (rule : Rule) (site stamp : ℕ) (p : Procedure) (old new : List Book)
        (reply : Word) → IsReading p → RunsProcedure rule site stamp p old new reply →
        (new ≡ old) × ((reply ≡ answered_over (queues_of rule old) p)
        ⊎ (reply ≡ bytes_of (p.cut (queues_of rule old) 0 Memory))) }
    ensures each { (rule : Rule) (site stamp : ℕ) (ps : List Procedure) (old new : List Book)
        (replies : List Word) → AreReading ps → RunsAll rule site stamp ps old new replies →
        new ≡ old }
{}

/// Sites with equal sets answer a procedure by the same bytes, and these are read off the queues
/// that the set means.
pub fn answering_each()
    ensures same { (rule : Rule) (K : ℕ) (S T : List Operation) (p : Procedure) → IsWorld K S →
        AreSame S T → answered_by rule K S p ≡ answered_by rule K T p }
    ensures meant { (rule : Rule) (K : ℕ) (S : List Operation) (p : Procedure) (queues : Queues) →
        IsWorld K S → 0 < K → ((key : List ℕ) → IsWholeQueue rule S key (queues key)) →
        answered_by rule K S p ≡ answered_over queues p }
{}
