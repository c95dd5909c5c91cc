//! What a site's history gathers, and what its calls answer, read off that.

ghost use Rattle.std.specs.Prelude.{List, Ok, Some, [], true, ℕ, ◌++◌, ◌∷◌, ◌≡◌, ◌≤◌};
ghost use Rattle.zq_dots.specs.Rule.{rule_of};
ghost use Rattle.zq_model.specs.Limits.{TailLimits};
ghost use Rattle.zq_model.specs.Meaning.{IsQueue, IsWholeQueue};
ghost use Rattle.zq_model.specs.Operation.{Operation};
ghost use Rattle.zq_model.specs.Rule.{Rule as Rules};
ghost use Rattle.zq_model.specs.Sets.{AreSame, IsIn, IsWorld};
ghost use Rattle.zq_model.specs.Moves.{Move};
ghost use Rattle.zq_notes.specs.Calls.{AreCallsFrom, Call, notes_of};
ghost use Rattle.zq_notes.specs.Gathered.{AreImagesOf, AreOfWorld, gathered};
ghost use Rattle.zq_journal.specs.Untouched.{is_among};
ghost use Rattle.zq_notes.specs.Notes.{Books, Note, RepliedIf, ToRunWatched};
ghost use Rattle.zq_semantics.specs.Watching.{HasAllOf};
ghost use Rattle.zq_spread.specs.Watches.{Watch};
ghost use Rattle.zq_words.specs.Calls.{Call as Asking};
ghost use Rattle.zq_notes.specs.Readings.{AreAnswersOver, AreRunsOf, IsOrShort, IsReadOff, IsRunOf, is_list};
ghost use Rattle.zq_notes.specs.Sites.{empty_books};
ghost use Rattle.zq_notes.specs.Thread.{IsOneThread, left_by_all};
ghost use Rattle.zq_semantics.specs.Plan.{plan_of};
ghost use Rattle.zq_semantics.specs.Procedures.{AreReading, Procedure};
ghost use Rattle.zq_semantics.specs.Replies.{bytes_of};
ghost use Rattle.zq_semantics.specs.Reading.{answer_of, heaps_in, is_reading, queues_over};
ghost use Rattle.zq_spread.specs.Calls.{heaps_of};
ghost use Rattle.zq_spread.specs.declared.site.Site.{Site as Sites};
ghost use Rattle.zq_words.specs.Command.{Command};
ghost use Rattle.zq_words.specs.Words.{Word};

use zq_model::naming;

/// Where what the calls make, take and merge is of one world, each heap is the image of the
/// operations gathered, which are a closed set of that world. A new site's heaps are the images of
/// none, whatever its limits.
pub fn gathering_notes()
    ensures opens { (limits : TailLimits) (rule : Rules) (K : ℕ) (W : List Operation) →
        AreImagesOf rule K W [] (empty_books limits rule K) }
    ensures gathers { (rule : Rules) (K site : ℕ) (W : List Operation) → 2 ≤ K → IsWorld K W →
        (S : List Operation) (opening : Books) (notes : List Note) →
        AreImagesOf rule K W S opening → IsOneThread rule K site opening notes →
        AreOfWorld W notes → AreImagesOf rule K W (gathered W notes S)
        (left_by_all notes opening) }
{}

/// Then each call's answer and steps are read off the operations that were gathered before it: a
/// command's by the queues that they mean. A command that only reads is answered what the set
/// answers, or, where that is a list with something in it, that there is no memory; and equal sets
/// answer alike. Of several things that are asked at once the first is read off the set, and each
/// next one off the set with what those before it made; those that only read make nothing, and each
/// is answered what the queues answer, or that there is no memory. So it is for the calls of a
/// site's threads, each of which found in its heaps what those before it left there.
pub fn reading_notes()
    ensures reads { (rule : Rules) (K site : ℕ) (W : List Operation) → 2 ≤ K → IsWorld K W →
        (S : List Operation) (opening : Books) (before : List Note) (n : Note) (after : List Note) →
        AreImagesOf rule K W S opening → IsOneThread rule K site opening (before ++ n ∷ after) →
        AreOfWorld W (before ++ n ∷ after) → IsReadOff rule K site (gathered W before S) n }
    ensures serves { (site : Sites) (W : List Operation) (opening : Books) (before : List Call)
        (c : Call) (after : List Call) → IsWorld (heaps_of site) W →
        AreImagesOf (rule_of site.rule) (heaps_of site) W [] opening →
        AreCallsFrom site opening (before ++ c ∷ after) →
        AreOfWorld W (notes_of (before ++ c ∷ after)) →
        IsReadOff (rule_of site.rule) (heaps_of site) site.number
        (gathered W (notes_of before) []) c.note }
    ensures stays { (site : Sites) (W : List Operation) (opening : Books) (before : List Call)
        (c : Call) (after : List Call) → IsWorld (heaps_of site) W →
        AreImagesOf (rule_of site.rule) (heaps_of site) W [] opening →
        AreCallsFrom site opening (before ++ c ∷ after) →
        AreOfWorld W (notes_of (before ++ c ∷ after)) →
        IsWorld (heaps_of site) (gathered W (notes_of before) []) }
    ensures asks { (rule : Rules) (K : ℕ) (S : List Operation) (w1 w2 : ℕ) (command : Command)
        (moves : List Move) (reply : Word) → 2 ≤ K → IsWorld K S → is_reading command ≡ true →
        IsRunOf rule K S w1 w2 command moves reply →
        IsOrShort (is_list (queues_over rule S (heaps_in K)) (Ok command))
        (bytes_of (plan_of command (queues_over rule S (heaps_in K))).reply) reply }
    ensures asks_each { (rule : Rules) (K site : ℕ) (S : List Operation) (ps : List Procedure)
        (moves : List Move) (replies : List Word) → AreReading ps →
        AreRunsOf rule K site S ps moves replies →
        (moves ≡ []) × AreAnswersOver (queues_over rule S (heaps_in K)) ps replies }
    ensures alike { (rule : Rules) (K : ℕ) (W S T : List Operation) → IsWorld K W →
        ((o : Operation) → IsIn o S → IsIn o W) → AreSame S T →
        queues_over rule S (heaps_in K) ≡ queues_over rule T (heaps_in K) }
    ensures agree { (rule : Rules) (K : ℕ) (W S T : List Operation) → IsWorld K W →
        ((o : Operation) → IsIn o S → IsIn o W) → AreSame S T → (words : List Word) →
        answer_of rule K S words ≡ answer_of rule K T words }
    ensures queues { (rule : Rules) (K : ℕ) (S : List Operation) → 2 ≤ K → IsWorld K S →
        (key : List ℕ) → IsWholeQueue rule S key (queues_over rule S (heaps_in K) key) }
    ensures drawn { (rule : Rules) (K : ℕ) (S : List Operation) (heaps : List ℕ) → IsWorld K S →
        (key : List ℕ) → IsQueue rule K S key heaps (queues_over rule S heaps key) }
{
    // A member's score over books is the one that their set means.
    naming();
}

/// Where several things ran as one call with keys watched, the queue of each of these keys is what it
/// was at each moment since then: at each at which the site had gathered at least what the vectors
/// have that were noted as the keys began to be watched.
pub fn watching_notes()
    ensures { (rule : Rules) (K site : ℕ) (W : List Operation) → 2 ≤ K → IsWorld K W →
        (S : List Operation) (opening : Books) (first more : List Note) (n : Note)
        (after : List Note) (watch : Watch) (calls : List Asking) (replies : List Word)
        (key : List ℕ) → AreImagesOf rule K W S opening →
        IsOneThread rule K site opening (first ++ (more ++ n ∷ after)) →
        AreOfWorld W (first ++ (more ++ n ∷ after)) → n.asked ≡ ToRunWatched watch calls →
        n.answer ≡ RepliedIf (Some replies) →
        HasAllOf (gathered W first S) (heaps_in K) watch.vectors →
        is_among watch.keys key ≡ true →
        queues_over rule (gathered W more (gathered W first S)) (heaps_in K) key
        ≡ queues_over rule (gathered W first S) (heaps_in K) key }
{
    // A member's score over books is the one that their set means.
    naming();
}
