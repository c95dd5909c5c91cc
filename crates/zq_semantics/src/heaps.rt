//! The heaps that a command works in.

ghost use Rattle.std.specs.Prelude.{List, [], ℕ, ◌++◌, ◌∷◌, ◌≡◌};
ghost use Rattle.zq_model.specs.Books.{Book};
ghost use Rattle.zq_model.specs.Rule.{Rule};
ghost use Rattle.zq_model.specs.Sets.{IsIn};
ghost use Rattle.zq_model.specs.Lent.{AreLent, queues_of};
ghost use Rattle.zq_model.specs.Moves.{Queues};
ghost use Rattle.zq_semantics.specs.Plan.{plan_of};
ghost use Rattle.zq_semantics.specs.Run.{IsRun};
ghost use Rattle.zq_words.specs.Command.{Command};
ghost use Rattle.zq_words.specs.Heaps.{heaps_of};
ghost use Rattle.zq_words.specs.Words.{Word};
ghost use Rattle.zq_words.specs.declared.heaps.Heaps.TheVariants.{NoHeap, One};

/// A command that works in one heap plans over the book of that heap what it plans over all books,
/// and it runs over that book alone as over all. One that works in no heap plans the same over any
/// queues.
pub fn narrowing()
    ensures one { (rule : Rule) (K : ℕ) (command : Command) (books : List Book) (book : Book) →
        AreLent K books → IsIn book books →
        heaps_of command K ≡ One book.heap → plan_of command (queues_of rule (book ∷ []))
        ≡ plan_of command (queues_of rule books) }
    ensures none { (K : ℕ) (command : Command) (queues others : Queues) →
        heaps_of command K ≡ NoHeap → plan_of command queues ≡ plan_of command others }
    ensures run { (rule : Rule) (K site stamp : ℕ) (command : Command) (front back : List Book)
        (old new : Book) (reply : Word) → AreLent K (front ++ old ∷ back) →
        heaps_of command K ≡ One old.heap →
        IsRun rule site stamp command (old ∷ []) (new ∷ []) reply →
        IsRun rule site stamp command (front ++ old ∷ back) (front ++ new ∷ back) reply }
{}
