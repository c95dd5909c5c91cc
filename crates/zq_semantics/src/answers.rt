//! What the sites of a world answer.

ghost use Rattle.std.specs.Prelude.{List, Ok, false, length, true, ℕ, ◌<◌, ◌≡◌, ◌≤◌};
ghost use Rattle.zq_model.specs.Image.{image_of};
ghost use Rattle.zq_model.specs.Meaning.{IsWholeQueue, Scored};
ghost use Rattle.zq_model.specs.Operation.{Operation};
ghost use Rattle.zq_model.specs.Rule.{Rule};
ghost use Rattle.zq_model.specs.Sets.{AreSame, IsWorld};
ghost use Rattle.zq_model.specs.Moves.{Queues};
ghost use Rattle.zq_semantics.specs.Events.{Event, set_at};
ghost use Rattle.zq_semantics.specs.Doing.{done, unchanged};
ghost use Rattle.zq_semantics.specs.Reading.{answer_of, answer_over, heaps_in, is_question, is_reading, queues_over};
ghost use Rattle.zq_semantics.specs.Runs.{IsPlayable, run};
ghost use Rattle.zq_semantics.specs.State.{State, is_worn};
ghost use Rattle.zq_words.specs.Command.{Command, command_of};
ghost use Rattle.zq_words.specs.Words.{Word};

/// Whoever has the operations that a site has, in whatever order, with whatever repeats and inside
/// whatever merges, has equal images and equal queues, and answers every request that is only read
/// by the same bytes.
pub fn converging()
    ensures images { (rule : Rule) (K sites : ℕ) (events : List Event) →
        IsPlayable rule K sites events → (moment site : ℕ) (T : List Operation) →
        AreSame (set_at (run rule K events) moment site) T → (heap : ℕ) →
        image_of (set_at (run rule K events) moment site) heap ≡ image_of T heap }
    ensures queues { (rule : Rule) (K sites : ℕ) (events : List Event) →
        IsPlayable rule K sites events → (moment site : ℕ) (T : List Operation) →
        AreSame (set_at (run rule K events) moment site) T → (key : List ℕ) (q r : List Scored) →
        IsWholeQueue rule (set_at (run rule K events) moment site) key q →
        IsWholeQueue rule T key r → q ≡ r }
    ensures answers { (rule : Rule) (K sites : ℕ) (events : List Event) →
        IsPlayable rule K sites events → (moment site : ℕ) (T : List Operation) →
        AreSame (set_at (run rule K events) moment site) T → (words : List Word) →
        answer_of rule K (set_at (run rule K events) moment site) words ≡ answer_of rule K T words }
{}

/// The queues over a site's images are those that its set means, and what it answers to a request
/// that is only read is read off these.
pub fn reading()
    ensures queues { (rule : Rule) (K sites : ℕ) (events : List Event) →
        IsPlayable rule K sites events → (moment site : ℕ) (key : List ℕ) →
        IsWholeQueue rule (set_at (run rule K events) moment site) key
        (queues_over rule (set_at (run rule K events) moment site) (heaps_in K) key) }
    ensures answers { (rule : Rule) (K sites : ℕ) (events : List Event) →
        IsPlayable rule K sites events → (moment site : ℕ) (queues : Queues) →
        ((key : List ℕ) → IsWholeQueue rule (set_at (run rule K events) moment site) key
        (queues key)) → (words : List Word) →
        answer_of rule K (set_at (run rule K events) moment site) words
        ≡ answer_over queues (command_of words) }
{}

/// A key has no more members in what the operations of a world mean than heaps have dots in all, 2
/// to the 58th.
pub fn counting()
    ensures few { (rule : Rule) (K : ℕ) (S : List Operation) → 0 < K → IsWorld K S →
        (key : List ℕ) →
        length (queues_over rule S (heaps_in K) key) ≤ 288230376151711744 }
{}

/// A request that names a command which only reads is such a command, or is refused. A site that is
/// asked it changes nothing, and answers what its set answers.
pub fn asking()
    ensures reads { (words : List Word) (command : Command) → is_question words ≡ true →
        command_of words ≡ Ok command → is_reading command ≡ true }
    ensures done { (rule : Rule) (K site w1 w2 : ℕ) (st : State) (words : List Word) →
        is_question words ≡ true → is_worn K st site ≡ false →
        done rule K site w1 w2 st (command_of words)
        ≡ unchanged st (answer_of rule K (st.sets site) words) }
{}
